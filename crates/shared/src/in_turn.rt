//! Many events of a worker in one hold of the lock. Where workers take the book from one another, a
//! hold costs more than an event.
ghost use Rattle.std.specs.Prelude.{◌≡◌, [], ◌∷◌, ◌++◌, Some};
ghost use Rattle.block_machine.specs.Scans.{questions_of};
ghost use Rattle.book.specs.Run.{IsSoundEvent};
ghost use Rattle.shared.specs.Calls.{history_of};
ghost use Rattle.shared.specs.InTurn.{questions, lets_go_on, publishing, checking, committing, reading, Went};

use crate::pass::Pass;
use block_machine::{Event, Reply};
use book::Book;
use datasets::Read;
use delta::Finished;
use dict::Id;
use reads::Scanned;
use std::alloc::{AllocError, Global};

// Whether a worker goes on in the same hold after this reply.
fn lets_go_on(reply: &Reply) -> bool
    ensures { result ≡ lets_go_on reply.now }
{
    match reply {
        Reply::Answered(_) | Reply::Published => true,
        Reply::Begun | Reply::Passed | Reply::Committed => true,
        _ => false,
    }
}

// Makes one event on a book that the pass holds, and keeps its reply, for which there is room
// before. It answers whether the worker goes on.
#[inline(always)]
fn make_next<'a>(
    alloc: Global,
    book: &mut Book<'a>,
    pass: &Pass<'a>,
    event: &Event,
    scans: &[Scanned<'_>],
    replies: &mut Vec<Reply>,
) -> Result<bool, AllocError>
    requires subject { (history_of book.old).subject ≡ pass.now.subject }
    requires sound { IsSoundEvent book.old event.now }
    requires scans { scans.now ≡ questions_of pass.now.subject.base event.now }
    ensures { Went pass.now book.old book.new (event.now ∷ []) replies.old.items replies.new.items
        result }
{
    replies.reserve(1)?;
    let reply = book.step_scanned(alloc, pass.worker(), event, scans)?;
    let _journal = book.journal();
    let goes_on = lets_go_on(&reply);
    replies.push_reserved(reply);
    Ok(goes_on)
}

// Begins a pass of checks of a run of so many notes, and checks them.
fn make_checks<'a>(
    alloc: Global,
    book: &mut Book<'a>,
    pass: &Pass<'a>,
    i: usize,
    n: u64,
    notes: usize,
    replies: &mut Vec<Reply>,
) -> Result<bool, AllocError>
    requires { (history_of book.old).subject ≡ pass.now.subject }
    ensures { Went pass.now book.old book.new (checking i n notes) replies.old.items
        replies.new.items result }
{
    if !make_next(alloc, book, pass, &Event::Begin(i, n), &[], replies)? {
        return Ok(false);
    }
    for _note in 0..notes {
        if !make_next(alloc, book, pass, &Event::Check(i, n), &[], replies)? {
            return Ok(false);
        }
    }
    Ok(true)
}

// Commits the requests from one place on and below another.
fn make_commits<'a>(
    alloc: Global,
    book: &mut Book<'a>,
    pass: &Pass<'a>,
    i: usize,
    until: usize,
    replies: &mut Vec<Reply>,
) -> Result<bool, AllocError>
    requires { (history_of book.old).subject ≡ pass.now.subject }
    ensures { Went pass.now book.old book.new (committing i until) replies.old.items
        replies.new.items result }
{
    for place in i..until {
        if !make_next(alloc, book, pass, &Event::Commit(place), &[], replies)? {
            return Ok(false);
        }
    }
    Ok(true)
}

/// On a book that the pass holds: a pass of checks of a run of so many notes, and the commits from
/// its request on and below another. It answers whether all were made and the worker goes on.
pub(crate) fn make_settling<'a>(
    alloc: Global,
    book: &mut Book<'a>,
    pass: &Pass<'a>,
    i: usize,
    n: u64,
    notes: usize,
    until: usize,
    replies: &mut Vec<Reply>,
) -> Result<bool, AllocError>
    requires { (history_of book.old).subject ≡ pass.now.subject }
    ensures { Went pass.now book.old book.new (checking i n notes ++ committing i until)
        replies.old.items replies.new.items result }
{
    if !make_checks(alloc, book, pass, i, n, notes, replies)? {
        return Ok(false);
    }
    make_commits(alloc, book, pass, i, until, replies)
}

/// On a book that the pass holds: the publication of a run, and then what settles it. It answers
/// whether all were made and the worker goes on.
pub(crate) fn make_publishing<'a>(
    alloc: Global,
    book: &mut Book<'a>,
    pass: &Pass<'a>,
    i: usize,
    n: u64,
    finished: Finished,
    notes: usize,
    until: usize,
    replies: &mut Vec<Reply>,
) -> Result<bool, AllocError>
    requires subject { (history_of book.old).subject ≡ pass.now.subject }
    requires sound { IsSoundEvent book.old (Event.Publish i n (Some finished)) }
    ensures { Went pass.now book.old book.new (publishing i n finished notes until)
        replies.old.items replies.new.items result }
{
    let event = Event::Publish(i, n, Some(finished));
    let made = make_next(alloc, book, pass, &event, &[], replies);
    drop(event);
    if !made? {
        return Ok(false);
    }
    make_settling(alloc, book, pass, i, n, notes, until, replies)
}

/// On a book that the pass holds: reads of an incarnation, each with what it says of the base. It
/// answers whether all were answered.
pub(crate) fn make_reads<'a>(
    alloc: Global,
    book: &mut Book<'a>,
    pass: &Pass<'a>,
    i: usize,
    n: u64,
    reads: &[Read<Id>],
    scans: &[Scanned<'_>],
    replies: &mut Vec<Reply>,
) -> Result<bool, AllocError>
    requires subject { (history_of book.old).subject ≡ pass.now.subject }
    requires scans { scans.now ≡ questions pass.now.subject.base reads.now }
    ensures { Went pass.now book.old book.new (reading i n reads.now) replies.old.items
        replies.new.items result }
{
    for k in 0..reads.len() {
        let event = Event::Read(i, n, reads[k]);
        if !make_next(alloc, book, pass, &event, &scans[k..k + 1], replies)? {
            return Ok(false);
        }
    }
    Ok(true)
}
