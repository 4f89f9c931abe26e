//! The lines of a book's journal.
ghost use Rattle.std.specs.Prelude.{◌≡◌, map, IfOk, OnOk};
ghost use Rattle.replay.specs.Lines.{line_event as the_event, line_reply as the_reply, line_of as the_line};
ghost use Rattle.replay.specs.Kept.{event_of_kept, reply_of_kept, line_of_kept};

use crate::naming::name_read;
use block_machine::{Event, Reply};
use book::{Book, Journal, Kept, PackedEntry, Shown, count};
use dict::Dict;
use journal::{Event as LineEvent, Line, Reply as LineReply};
use std::alloc::{AllocError, Global};

/// A reply, with the count of an answer.
pub fn line_reply(reply: &Reply) -> LineReply
    ensures { result ≡ the_reply reply.now }
{
    match reply {
        Reply::Taken(n) => LineReply::Taken(*n),
        Reply::Answered(answer) => LineReply::Answered(count(answer)),
        Reply::Blocked(j) => LineReply::Blocked(*j),
        Reply::Published => LineReply::Published,
        Reply::Begun => LineReply::Begun,
        Reply::Passed => LineReply::Passed,
        Reply::Aborted => LineReply::Aborted,
        Reply::Committed => LineReply::Committed,
        Reply::Given => LineReply::Given,
        Reply::Stale => LineReply::Stale,
        Reply::NotYours => LineReply::NotYours,
        Reply::NotYet => LineReply::NotYet,
    }
}

// An event, with terms for the numbers of its read, and without the run that it publishes.
fn line_event(alloc: Global, terms: &Dict, event: &Event) -> Result<LineEvent, AllocError>
    ensures { IfOk result (λ told. told ≡ the_event terms.now event.now) }
{
    match event {
        Event::Take(i) => Ok(LineEvent::Take(*i)),
        Event::Read(i, n, read) => Ok(LineEvent::Read(*i, *n, name_read(alloc, terms, read)?)),
        Event::Publish(i, n, _) => Ok(LineEvent::Publish(*i, *n)),
        Event::Begin(i, n) => Ok(LineEvent::Begin(*i, *n)),
        Event::Check(i, n) => Ok(LineEvent::Check(*i, *n)),
        Event::Commit(i) => Ok(LineEvent::Commit(*i)),
        Event::GiveUp(i, n) => Ok(LineEvent::GiveUp(*i, *n)),
    }
}

// The event of what a journal keeps.
fn event_of(alloc: Global, terms: &Dict, kept: &Kept) -> Result<LineEvent, AllocError>
    ensures { IfOk result (λ told. told ≡ event_of_kept terms.now kept.now) }
{
    match kept {
        Kept::Answered(i, n, read, _) => Ok(LineEvent::Read(
            *i,
            *n,
            name_read(alloc, terms, read)?,
        )),
        Kept::Published(i, n, _, _) => Ok(LineEvent::Publish(*i, *n)),
        Kept::Other(event, _) => line_event(alloc, terms, event),
    }
}

// The event of an entry.
fn event_of_entry(alloc: Global, terms: &Dict, entry: &PackedEntry) -> Result<LineEvent, AllocError>
    ensures { IfOk result (λ told. told ≡ event_of_kept terms.now entry.now.kept) }
{
    match entry.shown() {
        Shown::Answered(i, n, read, _) => {
            Ok(LineEvent::Read(i, n, name_read(alloc, terms, &read)?))
        }
        Shown::Other(event, _) => line_event(alloc, terms, &event),
        Shown::Whole(kept) => event_of(alloc, terms, kept),
    }
}

// The reply of what a journal keeps.
fn reply_of(kept: &Kept) -> LineReply
    ensures { result ≡ reply_of_kept kept.now }
{
    match kept {
        Kept::Answered(_, _, _, count) => LineReply::Answered(*count),
        Kept::Published(_, _, _, _) => LineReply::Published,
        Kept::Other(_, reply) => line_reply(reply),
    }
}

// The reply of an entry.
fn reply_of_entry(entry: &PackedEntry) -> LineReply
    ensures { result ≡ reply_of_kept entry.now.kept }
{
    match entry.shown() {
        Shown::Answered(_, _, _, count) => LineReply::Answered(count),
        Shown::Other(_, reply) => line_reply(&reply),
        Shown::Whole(kept) => reply_of(kept),
    }
}

// The line of an entry.
fn line_of(alloc: Global, terms: &Dict, entry: &PackedEntry) -> Result<Line, AllocError>
    ensures { IfOk result (λ line. line ≡ line_of_kept terms.now entry.now) }
{
    Ok(Line {
        worker: entry.worker(),
        event: event_of_entry(alloc, terms, entry)?,
        reply: reply_of_entry(entry),
    })
}

// The lines of a journal's entries, in order.
fn entry_lines(alloc: Global, terms: &Dict, journal: &Journal) -> Result<Vec<Line>, AllocError>
    ensures { IfOk result (λ lines. lines.items
        ≡ map (line_of_kept terms.now) journal.now.entries) }
{
    let mut lines = Vec::new(alloc);
    lines.reserve(journal.len())?;
    for place in 0..journal.len() {
        lines.push(line_of(alloc, terms, journal.entry(place))?)?;
    }
    Ok(lines)
}

/// The lines of a book's journal, one an entry, in order. An error comes only where memory runs
/// out.
pub fn lines_of(alloc: Global, book: &Book<'_>) -> Result<Vec<Line>, AllocError>
    ensures { IfOk result (λ lines. lines.items ≡ map (the_line book.now.terms) book.now.history) }
{
    let terms = book.terms();
    let journal = book.journal();
    entry_lines(alloc, terms, journal)
}
