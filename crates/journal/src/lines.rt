//! Lines of a journal.

use datasets::{GraphPlace, QuadPattern, Read};
use terms::Term;

/// One line of a journal: an entry with terms for the numbers of its read, and with a count for an
/// answer.
#[derive(Drop)]
pub struct Line {
    pub worker: u32,
    pub event: Event,
    pub reply: Reply,
}

/// What a worker did, as a journal prints it: the request, then its incarnation.
pub enum Event {
    Take(usize),
    Read(usize, u64, Read<Term>),
    Publish(usize, u64),
    Begin(usize, u64),
    Check(usize, u64),
    Commit(usize),
    GiveUp(usize, u64),
}

/// What it was replied.
#[derive(Clone, Copy, Debug, PartialEq, Eq)]
pub enum Reply {
    /// The incarnation that was taken.
    Taken(u64),
    /// How many quads or names an answer has, or 0 or 1 for whether a graph is there.
    Answered(u64),
    /// The lower request that a read waits for.
    Blocked(usize),
    Published,
    Begun,
    Passed,
    Aborted,
    Committed,
    Given,
    Stale,
    NotYours,
    NotYet,
}

/// Lets the terms of a scan go.
fn drop_pattern(pattern: QuadPattern<Term>) {
    let QuadPattern {
        subject: _,
        predicate: _,
        object: _,
        graph,
    } = pattern;
    match graph {
        GraphPlace::Any => {}
        GraphPlace::Only(_) => {}
    }
}

impl Drop for Event {
    fn drop(self) {
        match self {
            Event::Read(_, _, Read::Scan(pattern)) => drop_pattern(pattern),
            Event::Read(_, _, Read::GraphIs(_) | Read::Graphs) => {}
            Event::Take(_) | Event::Commit(_) => {}
            Event::Publish(_, _) | Event::Begin(_, _) | Event::Check(_, _) | Event::GiveUp(_, _) =>
                {}
        }
    }
}
