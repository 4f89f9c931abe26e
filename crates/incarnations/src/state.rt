//! What the machine keeps of each request, the events of workers, and what it replies to them.

use datasets::{Id, Read};
use delta::{Delta, Finished};
use reads::Answered;
use sets::Items;
use version_overlay::LeanNote;

/// A request's incarnation, counted from 0, and how far it has come.
#[derive(Clone, Copy)]
pub enum Status {
    Ready(u64),
    /// The incarnation, and the worker that executes it.
    Executing(u64, u32),
    Executed(u64),
    Committed(u64),
}

/// A pass of checks under way: the clock as it began, and the number of the next note.
#[derive(Clone, Copy)]
pub struct Pass {
    pub start: u64,
    pub next: usize,
}

/// A read as it was answered, with the lower requests whose deltas touched it, each by the
/// incarnation of its last publication. Those that were settled by then never change again, and are
/// left out.
#[derive(Drop)]
pub struct Noted<'a> {
    /// The read and its answer, which is kept while the request is executed, and later found again.
    pub note: LeanNote<'a>,
    /// How many of the first requests were settled when the read was answered.
    pub low: usize,
    pub touching: Items<(usize, u64)>,
}

/// One request's part of the machine.
#[derive(Drop)]
pub struct Slot<'a> {
    pub status: Status,
    /// The reads of this incarnation, in order.
    pub notes: Items<Noted<'a>>,
    /// The delta of the last publication, at first empty.
    pub delta: Delta,
    /// The incarnation of the last publication.
    pub version: u64,
    /// The reply of the last publication.
    pub reply: Option<meaning::Reply>,
    /// Whether the last publication was aborted, so that its delta is an estimate of the next one.
    pub estimate: bool,
    /// The clock when a publication last changed the delta, 0 before any did.
    pub changed: u64,
    /// The pass that stands.
    pub pass: Option<Pass>,
    /// The clock when the last finished pass began.
    pub stamp: Option<u64>,
}

/// One atomic action of a worker. The numbers are those of a request and of its incarnation.
#[derive(Drop)]
pub enum Event {
    /// Take a request to execute its next incarnation.
    Take(usize),
    /// Ask what a read says where the request runs.
    Read(usize, u64, Read<Id>),
    /// Publish a finished run. With none, the transcript is not the notes.
    Publish(usize, u64, Option<Finished>),
    /// Begin a pass of checks.
    Begin(usize, u64),
    /// Check the next note of the pass.
    Check(usize, u64),
    Commit(usize),
    /// Leave a request that the worker executes.
    GiveUp(usize, u64),
}

/// What the machine replies to an event. The reply to a request is a `meaning::Reply`.
#[derive(Drop)]
pub enum Reply {
    /// The incarnation that was taken.
    Taken(u64),
    Answered(Answered),
    /// An estimate of this lower request covers the read: the greatest such one.
    Blocked(usize),
    Published,
    Begun,
    Passed,
    Aborted,
    Committed,
    Given,
    /// The request is none of the block, or its status or incarnation is not the one that the event
    /// names.
    Stale,
    /// Another worker executes the request.
    NotYours,
    /// The transcript is not the notes, no pass stands, or the request cannot be committed yet.
    NotYet,
}

/// An event that was answered.
#[derive(Drop)]
pub struct Entry {
    pub worker: u32,
    pub event: Event,
    pub reply: Reply,
}
