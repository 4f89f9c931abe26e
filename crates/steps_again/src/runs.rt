//! The texts of whole runs.
ghost use Rattle.std.specs.Prelude.{◌≡◌, IfOk};
ghost use Rattle.steps_again.specs.Runs.{IsOf, KnowsAll};

use crate::input::numbered;
use crate::player::{Again, Makes, Player};
use crate::seats::Seats;
use crate::text::push_book;
use book::Book;
use numbering::Numbered;
use std::alloc::{AllocError, Global};
use std::sync::Wait;

// A book before any event.
fn new_book<'a>(alloc: Global, numbered: &'a Numbered) -> Result<Book<'a>, AllocError>
    requires { KnowsAll numbered.now }
    ensures { IfOk result (IsOf numbered.now) }
{
    let (terms, base) = (numbered.base.terms(), numbered.base.dataset());
    Book::new(alloc, terms, base, numbered.block.as_slice())
}

// What has made all events, and what was told.
fn play<'a, M: Makes + Drop>(
    alloc: Global,
    numbered: &'a Numbered,
    makes: M,
    way: &'static str,
    again: &mut Again,
) -> Result<(M, String), AllocError>
    requires { IsOf numbered.now (M.run makes) }
{
    let mut player = Player {
        alloc,
        numbered,
        makes,
        worker: 0,
        place: 0,
        incarnation: 0,
        way,
        again: *again,
        text: String::new(alloc),
    };
    let went = player.play_all();
    *again = player.again;
    went?;
    Ok(player.into_parts())
}

// The text of all steps of a book over this base and block.
fn book_text(alloc: Global, numbered: &Numbered, again: &mut Again) -> Result<String, AllocError>
    requires { KnowsAll numbered.now }
{
    let book = new_book(alloc, numbered)?;
    let (book, mut text) = play(alloc, numbered, book, "step", again)?;
    push_book(alloc, &mut text, &book)?;
    Ok(text)
}

// The text of all calls of a shared book over this base and block.
fn shared_text<R: Wait>(
    rt: &R,
    alloc: Global,
    numbered: &Numbered,
    again: &mut Again,
) -> Result<String, AllocError>
    requires { KnowsAll numbered.now }
{
    let seats = Seats::new(alloc, numbered)?;
    let (seats, mut text) = play(alloc, numbered, seats, "try", again)?;
    let book = seats.close(rt, alloc)?;
    push_book(alloc, &mut text, &book)?;
    Ok(text)
}

/// The text of all steps of a book, and which was made again.
pub fn through_book(alloc: Global, again: &mut Again) -> Result<String, AllocError> {
    let numbered = numbered(alloc)?;
    let text = book_text(alloc, &numbered, again);
    drop(numbered);
    text
}

/// The text of all calls of a shared book, and which was made again.
pub fn through_shared<R: Wait>(
    rt: &R,
    alloc: Global,
    again: &mut Again,
) -> Result<String, AllocError> {
    let numbered = numbered(alloc)?;
    let text = shared_text(rt, alloc, &numbered, again);
    drop(numbered);
    text
}
