//! Lines of a journal, played into a book.
ghost use Rattle.std.specs.Prelude.{◌≡◌, ◌<◌, ◌^◌, [], length, IfOk, IfErr, OnOk};
ghost use Rattle.book.specs.Run.{HasAllTerms};
ghost use Rattle.update.specs.Asked.{AreShort};
ghost use Rattle.replay.specs.Replays.{IsReplayOf, IsFault};

use crate::following::follow_line;
use book::Book;
use datasets::Id;
use dict::Dict;
use journal::{JournalFault, Line};
use meaning::Request;
use reads::IndexedView;
use std::alloc::Global;

/// Plays lines into a book that has no history yet. An error leaves the book to be given up.
fn follow_lines(alloc: Global, book: &mut Book<'_>, lines: &[Line]) -> Result<(), JournalFault>
    requires fresh { book.old.history ≡ [] }
    requires size { length book.old.block < 2 ^ 32 }
    requires short { AreShort book.old.block }
    ensures book { OnOk result (IsReplayOf book.old.terms book.old.base book.old.block lines.now
        book.new) }
    ensures fault { IfErr result (IsFault book.old.terms book.old.base book.old.block lines.now) }
{
    for line in lines {
        let number = book.journal().len() as u64 + 1;
        if !follow_line(alloc, book, line)? {
            return Err(JournalFault::Illegal(number));
        }
    }
    Ok(())
}

/// The book whose journal has these lines, of a base and a block at a dictionary's numbers. It
/// makes the answers itself, and the runs that were published from what was noted. An error is want
/// of memory, or `Illegal` with the number, from 1, of the first line at which the book doesn't go
/// on: no entry of it is lawful there, or it tells of a publication, and a run that the notes
/// answer ends before the last of them, or asks for another read than the next one's.
pub fn replay<'a>(
    alloc: Global,
    terms: &'a Dict,
    base: &'a IndexedView,
    block: &'a [Request<Id>],
    lines: &[Line],
) -> Result<Book<'a>, JournalFault>
    requires terms { HasAllTerms terms.now base.now block.now }
    requires size { length block.now < 2 ^ 32 }
    requires short { AreShort block.now }
    ensures book { IfOk result (IsReplayOf terms.now base.now block.now lines.now) }
    ensures fault { IfErr result (IsFault terms.now base.now block.now lines.now) }
{
    let mut book = Book::new(alloc, terms, base, block)?;
    let followed = follow_lines(alloc, &mut book, lines);
    if let Err(fault) = followed {
        drop(book);
        return Err(fault);
    }
    Ok(book)
}
