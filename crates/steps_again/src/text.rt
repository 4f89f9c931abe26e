//! Events, replies, journals and datasets as lines.
use block_machine::{Event, Reply};
use book::{Book, Kept, PackedEntry, Shown, count};
use reads::CompactView;
use std::alloc::{AllocError, Global};

// The word of an event, and the place and the incarnation that it names, or 0.
fn words_of(event: &Event) -> (&'static str, usize, u64) {
    match event {
        Event::Take(i) => ("take", *i, 0),
        Event::Read(i, n, _) => ("read", *i, *n),
        Event::Publish(i, n, _) => ("publish", *i, *n),
        Event::Begin(i, n) => ("begin", *i, *n),
        Event::Check(i, n) => ("check", *i, *n),
        Event::Commit(i) => ("commit", *i, 0),
        Event::GiveUp(i, n) => ("giveup", *i, *n),
    }
}

/// The word of an event.
pub fn word_of(event: &Event) -> &'static str {
    words_of(event).0
}

// The word of a reply and its number, or 0. That of an answer says how much is in it.
fn told_by(reply: &Reply) -> (&'static str, u64) {
    match reply {
        Reply::Taken(n) => ("taken", *n),
        Reply::Answered(answer) => ("answer", count(answer)),
        Reply::Blocked(j) => ("blocked", *j as u64),
        Reply::Published => ("published", 0),
        Reply::Begun => ("begun", 0),
        Reply::Passed => ("passed", 0),
        Reply::Aborted => ("aborted", 0),
        Reply::Committed => ("committed", 0),
        Reply::Given => ("given", 0),
        Reply::Stale => ("stale", 0),
        Reply::NotYours => ("not-yours", 0),
        Reply::NotYet => ("not-yet", 0),
    }
}

// A line of an event of a worker, by its word, place and incarnation, and of its reply.
fn push(
    alloc: Global,
    text: &mut String,
    worker: u32,
    event: (&str, usize, u64),
    reply: (&str, u64),
) -> Result<(), AllocError> {
    let (word, place, incarnation) = event;
    let (told, number) = reply;
    let line = format!(in alloc; "{worker} {word} {place} {incarnation} > {told} {number}\n")?;
    text.push_str(line.as_str())
}

/// A line of an event of a worker and its reply.
pub fn push_event(
    alloc: Global,
    text: &mut String,
    worker: u32,
    event: &Event,
    reply: &Reply,
) -> Result<(), AllocError> {
    push(alloc, text, worker, words_of(event), told_by(reply))
}

// A line of what a journal keeps of an event.
fn push_kept(alloc: Global, text: &mut String, worker: u32, kept: &Kept) -> Result<(), AllocError> {
    match kept {
        Kept::Answered(i, n, _, count) => {
            push(alloc, text, worker, ("read", *i, *n), ("answer", *count))
        }
        Kept::Published(i, n, _, _) => {
            push(alloc, text, worker, ("publish", *i, *n), ("published", 0))
        }
        Kept::Other(event, reply) => push_event(alloc, text, worker, event, reply),
    }
}

// A line of an entry of a journal.
fn push_entry(alloc: Global, text: &mut String, entry: &PackedEntry) -> Result<(), AllocError> {
    let worker = entry.worker();
    match entry.shown() {
        Shown::Answered(i, n, _, count) => {
            push(alloc, text, worker, ("read", i, n), ("answer", count))
        }
        Shown::Other(event, reply) => push_event(alloc, text, worker, &event, &reply),
        Shown::Whole(kept) => push_kept(alloc, text, worker, kept),
    }
}

// The lines of a journal.
fn push_journal(alloc: Global, text: &mut String, book: &Book<'_>) -> Result<(), AllocError> {
    let journal = book.journal();
    for place in 0..journal.len() {
        push_entry(alloc, text, journal.entry(place))?;
    }
    Ok(())
}

// A line for each piece of a dataset, by the numbers of its terms.
fn push_dataset(alloc: Global, text: &mut String, dataset: &CompactView) -> Result<(), AllocError> {
    for list in dataset.quads() {
        let quads = list.quads(alloc)?;
        let line = format!(in alloc; "{quads:?}\n")?;
        text.push_str(line.as_str())?;
    }
    Ok(())
}

/// The lines of a book: its journal, and the replies and the dataset of what is committed.
pub fn push_book(alloc: Global, text: &mut String, book: &Book<'_>) -> Result<(), AllocError> {
    push_journal(alloc, text, book)?;
    let outcome = book.outcome(alloc)?;
    let replies = format!(in alloc; "{:?}\n", outcome.replies.as_slice())?;
    text.push_str(replies.as_str())?;
    push_dataset(alloc, text, &outcome.dataset)
}
