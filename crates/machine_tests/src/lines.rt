//! What workers do and are told, without terms.
use block_machine::{Entry, Event, Reply};
use book::{Kept, PackedEntry, Shown, count};
use datasets::{Id, Read};

/// What a worker does: an event at the request of a place, where it matters with its incarnation.
#[derive(Clone, Copy, PartialEq, Eq)]
pub enum Step {
    Take(usize),
    Read(usize, u64),
    /// Publish a run of the request.
    Publish(usize, u64),
    /// Publish what is not a run of the request.
    PublishNothing(usize, u64),
    Begin(usize, u64),
    Check(usize, u64),
    Commit(usize),
    GiveUp(usize, u64),
}

/// The kinds of reply.
#[derive(Clone, Copy, PartialEq, Eq)]
pub enum Told {
    Taken(u64),
    Answered,
    Blocked(usize),
    Published,
    Begun,
    Passed,
    Aborted,
    Committed,
    Given,
    Stale,
    NotYours,
    NotYet,
}

/// What a worker did, and what it was told.
#[derive(Clone, Copy, PartialEq, Eq)]
pub struct Line {
    pub step: Step,
    pub told: Told,
    /// What was asked, where it was answered, with how many quads or names, or 0 or 1 for whether
    /// a graph is there.
    pub answer: Option<(Read<Id>, u64)>,
}

/// The kind of a reply.
pub fn told_by(reply: &Reply) -> Told {
    match reply {
        Reply::Taken(n) => Told::Taken(*n),
        Reply::Answered(_) => Told::Answered,
        Reply::Blocked(j) => Told::Blocked(*j),
        Reply::Published => Told::Published,
        Reply::Begun => Told::Begun,
        Reply::Passed => Told::Passed,
        Reply::Aborted => Told::Aborted,
        Reply::Committed => Told::Committed,
        Reply::Given => Told::Given,
        Reply::Stale => Told::Stale,
        Reply::NotYours => Told::NotYours,
        Reply::NotYet => Told::NotYet,
    }
}

// How many quads or names a reply has, or 0 or 1 for whether a graph is there.
fn count_of(reply: &Reply) -> u64 {
    match reply {
        Reply::Answered(answer) => count(answer),
        _ => 0,
    }
}

/// The kind of a reply, with that number.
pub fn told_with_count(reply: &Reply) -> (Told, u64) {
    (told_by(reply), count_of(reply))
}

// What an event asked, where this reply answers it.
fn answer_of(event: &Event, reply: &Reply) -> Option<(Read<Id>, u64)> {
    match (event, reply) {
        (Event::Read(_, _, read), Reply::Answered(answer)) => Some((*read, count(answer))),
        _ => None,
    }
}

// An answered read as a line.
fn line_of_read(i: usize, n: u64, read: Read<Id>, count: u64) -> Line {
    Line {
        step: Step::Read(i, n),
        told: Told::Answered,
        answer: Some((read, count)),
    }
}

// An event and its reply as a line.
fn line_by(event: &Event, reply: &Reply) -> Line {
    let step = match event {
        Event::Take(i) => Step::Take(*i),
        Event::Read(i, n, _) => Step::Read(*i, *n),
        Event::Publish(i, n, _) => Step::Publish(*i, *n),
        Event::Begin(i, n) => Step::Begin(*i, *n),
        Event::Check(i, n) => Step::Check(*i, *n),
        Event::Commit(i) => Step::Commit(*i),
        Event::GiveUp(i, n) => Step::GiveUp(*i, *n),
    };
    Line {
        step,
        told: told_by(reply),
        answer: answer_of(event, reply),
    }
}

/// An answered event as a line.
pub fn line_of(entry: &Entry) -> Line {
    line_by(&entry.event, &entry.reply)
}

// What a journal keeps of an event and its reply, as a line.
fn line_of_whole(kept: &Kept) -> Line {
    match kept {
        Kept::Answered(i, n, read, count) => line_of_read(*i, *n, *read, *count),
        Kept::Published(i, n, _, _) => Line {
            step: Step::Publish(*i, *n),
            told: Told::Published,
            answer: None,
        },
        Kept::Other(event, reply) => line_by(event, reply),
    }
}

/// An entry of a journal as a line.
pub fn line_of_kept(entry: &PackedEntry) -> Line {
    match entry.shown() {
        Shown::Answered(i, n, read, count) => line_of_read(i, n, read, count),
        Shown::Other(event, reply) => line_by(&event, &reply),
        Shown::Whole(kept) => line_of_whole(kept),
    }
}
