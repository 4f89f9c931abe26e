//! What a journal keeps of each answered event.
ghost use Rattle.std.specs.Prelude.{◌≡◌, OnOk};
ghost use Rattle.incarnations.specs.Statuses.{IsPlain, IsTold};
ghost use Rattle.book.specs.JournalEntry.{count_of, kept_of, journal_entry_of, IsRoomFor};
ghost use Rattle.book.specs.Run.{kept};

use block_machine::{Event, Reply};
use datasets::{Id, Read};
use delta::Delta;
use reads::Answered;
use std::alloc::{AllocError, Global};

/// An answered event as a journal keeps it: with no answer and no transcript, of which the machine
/// leaves no choice. So a journal needs no more memory where answers are long.
#[derive(Drop)]
pub struct JournalEntry {
    pub worker: u32,
    pub kept: Kept,
}

/// What is kept of an event and its reply.
#[derive(Drop)]
pub enum Kept {
    /// A read that was answered: with how many quads or names, or 0 or 1 for whether a graph is
    /// there.
    Answered(usize, u64, Read<Id>, u64),
    /// A run that was published: the change that it makes, and the reply to its request.
    Published(usize, u64, Delta, meaning::Reply),
    /// Another event, as it is.
    Other(Event, Reply),
}

/// How many quads or names an answer has, or 0 or 1 for whether a graph is there.
pub fn count(answer: &Answered) -> u64
    ensures { result ≡ count_of answer.now }
{
    if let Some(quads) = answer.quads() {
        return quads.len() as u64;
    }
    if let Some(names) = answer.names() {
        return names.len() as u64;
    }
    match answer.is() {
        Some(true) => 1,
        _ => 0,
    }
}

// A reply that is no answer again. It takes no memory.
fn again(reply: &Reply) -> Reply
    requires { IsPlain reply.now }
    ensures { result ≡ reply.now }
{
    match reply {
        Reply::Taken(n) => Reply::Taken(*n),
        Reply::Answered(_) => unreachable!(),
        Reply::Blocked(j) => Reply::Blocked(*j),
        Reply::Published => Reply::Published,
        Reply::Begun => Reply::Begun,
        Reply::Passed => Reply::Passed,
        Reply::Aborted => Reply::Aborted,
        Reply::Committed => Reply::Committed,
        Reply::Given => Reply::Given,
        Reply::Stale => Reply::Stale,
        Reply::NotYours => Reply::NotYours,
        Reply::NotYet => Reply::NotYet,
    }
}

// What is kept of a read.
fn kept_read(i: usize, n: u64, read: Read<Id>, reply: &Reply) -> Kept
    ensures { result ≡ kept_of (Event.Read i n read) reply.now }
{
    match reply {
        Reply::Answered(answer) => Kept::Answered(i, n, read, count(answer)),
        other => Kept::Other(Event::Read(i, n, read), again(other)),
    }
}

impl JournalEntry {
    /// Room for an entry.
    pub(crate) fn empty() -> JournalEntry {
        JournalEntry {
            worker: 0,
            kept: Kept::Other(Event::Take(0), Reply::Stale),
        }
    }

    /// Keeps what a journal will keep of a finished run, should the event publish it. An error
    /// comes only where memory runs out.
    pub(crate) fn prepare(&mut self, alloc: Global, event: &Event) -> Result<(), AllocError>
        ensures { OnOk result (IsRoomFor event.now self.new) }
    {
        if let Event::Publish(i, n, Some(finished)) = event {
            let change = finished.delta.copied(alloc)?;
            self.kept = Kept::Published(*i, *n, change, finished.reply);
        }
        Ok(())
    }

    /// Keeps what a journal keeps of a worker's event that was answered so, for which there is
    /// room.
    pub(crate) fn fill(&mut self, worker: u32, event: &Event, reply: &Reply)
        requires told { IsTold event.now reply.now }
        requires room { IsRoomFor event.now self.old }
        ensures { self.new ≡ journal_entry_of (record
            { worker = worker; event = kept event.now reply.now; reply = reply.now }) }
    {
        self.worker = worker;
        match event {
            Event::Publish(i, n, Some(_)) => match reply {
                // it is there
                Reply::Published => (),
                other => self.kept = Kept::Other(Event::Publish(*i, *n, None), again(other)),
            },
            Event::Publish(i, n, None) => {
                self.kept = Kept::Other(Event::Publish(*i, *n, None), again(reply));
            }
            Event::Read(i, n, read) => self.kept = kept_read(*i, *n, *read, reply),
            Event::Take(i) => self.kept = Kept::Other(Event::Take(*i), again(reply)),
            Event::Begin(i, n) => self.kept = Kept::Other(Event::Begin(*i, *n), again(reply)),
            Event::Check(i, n) => self.kept = Kept::Other(Event::Check(*i, *n), again(reply)),
            Event::Commit(i) => self.kept = Kept::Other(Event::Commit(*i), again(reply)),
            Event::GiveUp(i, n) => self.kept = Kept::Other(Event::GiveUp(*i, *n), again(reply)),
        }
    }
}
