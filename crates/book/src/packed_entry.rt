//! Entries of a journal in little memory.
ghost use Rattle.std.specs.Prelude.{◌≡◌, IfSome};
ghost use Rattle.incarnations.specs.Statuses.{IsTold};
ghost use Rattle.book.specs.JournalEntry.{journal_entry_of, IsRoomFor};
ghost use Rattle.book.specs.PackedEntry.{count_if, entry_of, place_of, kept_shown};
ghost use Rattle.book.specs.Run.{kept};

use crate::journal_entry::{JournalEntry, Kept, count};
use block_machine::{Event, Reply};
use datasets::{Id, Read};
use quad_lists::KnownQuad;
use reads::presence::{quad_scanned, scan_for};
use std::alloc::{AllocError, Global};
use std::marker::Model;

/// An entry of a journal. To a contract it is that entry.
#[derive(Drop)]
pub struct PackedEntry {
    form: Form,
}

/// Most entries are the answer to a read that asks for one quad, or a step of a request that was
/// not refused. Those need little memory.
#[derive(Drop)]
pub(crate) enum Form {
    Presence {
        worker: u32,
        request: u32,
        incarnation: u32,
        quad: KnownQuad,
        there: bool,
    },
    Taken {
        worker: u32,
        request: u32,
        incarnation: u32,
    },
    Begun {
        worker: u32,
        request: u32,
        incarnation: u32,
    },
    Passed {
        worker: u32,
        request: u32,
        incarnation: u32,
    },
    Committed {
        worker: u32,
        request: u32,
    },
    Whole(Box<JournalEntry>),
}

/// What an entry keeps of its event and the reply, to be looked at.
#[derive(Drop)]
pub enum Shown<'a> {
    /// A read that was answered, with how many quads or names, or 0 or 1 for whether a graph is
    /// there.
    Answered(usize, u64, Read<Id>, u64),
    /// Another event and its reply.
    Other(Event, Reply),
    Whole(&'a Kept),
}

impl Model for PackedEntry {
    ghost use Rattle.book.specs.PackedEntry.{entry_of};
    ghost use Rattle.book.specs.declared.journal_entry.JournalEntry.{JournalEntry as Recorded};

    ghost Value = { Recorded };

    ghost view = { λ e. entry_of e.form };
}

/// Room for an entry that is not one of the many. An error comes only where memory runs out.
pub(crate) fn room(
    alloc: Global,
    spare: Option<Box<JournalEntry>>,
) -> Result<Box<JournalEntry>, AllocError> {
    match spare {
        Some(room) => Ok(room),
        None => Ok(Box::new(alloc, JournalEntry::empty())?),
    }
}

// Whether one is counted, or none.
fn is_one(count: u64) -> Option<bool>
    ensures { IfSome result (λ there. count_if there ≡ count) }
{
    match count {
        0 => Some(false),
        1 => Some(true),
        _ => None,
    }
}

// The answer to a read in little memory, if it asks for one quad.
fn packed_answer(worker: u32, i: usize, n: u64, read: &Read<Id>, count: u64) -> Option<Form>
    ensures { IfSome result (λ form. entry_of form
        ≡ record { worker = worker; kept = Kept.Answered i n read.now count }) }
{
    Some(Form::Presence {
        worker,
        request: u32::try_from(i).ok()?,
        incarnation: u32::try_from(n).ok()?,
        quad: quad_scanned(read)?,
        there: is_one(count)?,
    })
}

// An answered event in little memory: the answer to a read, or a step of a request that was not
// refused.
fn packed(worker: u32, event: &Event, reply: &Reply) -> Option<Form>
    ensures { IfSome result (λ form. entry_of form
        ≡ journal_entry_of (record { worker = worker; event = kept event.now reply.now; reply = reply.now })) }
{
    match (event, reply) {
        (Event::Read(i, n, read), Reply::Answered(answer)) => {
            packed_answer(worker, *i, *n, read, count(answer))
        }
        (Event::Take(i), Reply::Taken(n)) => Some(Form::Taken {
            worker,
            request: u32::try_from(*i).ok()?,
            incarnation: u32::try_from(*n).ok()?,
        }),
        (Event::Begin(i, n), Reply::Begun) => Some(Form::Begun {
            worker,
            request: u32::try_from(*i).ok()?,
            incarnation: u32::try_from(*n).ok()?,
        }),
        (Event::Check(i, n), Reply::Passed) => Some(Form::Passed {
            worker,
            request: u32::try_from(*i).ok()?,
            incarnation: u32::try_from(*n).ok()?,
        }),
        (Event::Commit(i), Reply::Committed) => Some(Form::Committed {
            worker,
            request: u32::try_from(*i).ok()?,
        }),
        _ => None,
    }
}

// The request that an entry in little memory is of, and its incarnation, or 0 where there is none.
fn place(form: &Form) -> (usize, u64)
    ensures { result ≡ place_of form.now }
{
    let (request, incarnation) = match form {
        Form::Presence {
            request,
            incarnation,
            ..
        }
        | Form::Taken {
            request,
            incarnation,
            ..
        }
        | Form::Begun {
            request,
            incarnation,
            ..
        }
        | Form::Passed {
            request,
            incarnation,
            ..
        } => (*request, *incarnation),
        Form::Committed { request, .. } => (*request, 0),
        Form::Whole(_) => (0, 0),
    };
    (request as usize, incarnation as u64)
}

impl PackedEntry {
    /// What a journal keeps of a worker's event under this reply, and the room that it does not
    /// need.
    #[inline(always)]
    pub(crate) fn new(
        worker: u32,
        event: &Event,
        reply: &Reply,
        room: Box<JournalEntry>,
    ) -> (PackedEntry, Option<Box<JournalEntry>>)
        requires told { IsTold event.now reply.now }
        requires room { IsRoomFor event.now room.value }
        ensures { result.0 ≡ journal_entry_of (record {
          worker = worker;
          event =
              kept event.now reply.now;
          reply = reply.now;
        }) }
    {
        match packed(worker, event, reply) {
            Some(form) => (PackedEntry { form }, Some(room)),
            None => (PackedEntry::whole(worker, event, reply, room), None),
        }
    }

    // The same, of any event, in this room.
    #[inline(never)]
    fn whole(worker: u32, event: &Event, reply: &Reply, mut room: Box<JournalEntry>) -> PackedEntry
        requires told { IsTold event.now reply.now }
        requires room { IsRoomFor event.now room.value }
        ensures { result ≡ journal_entry_of (record
            { worker = worker; event = kept event.now reply.now; reply = reply.now }) }
    {
        room.fill(worker, event, reply);
        let form = Form::Whole(room);
        PackedEntry { form }
    }

    /// The worker whose event it is.
    pub fn worker(&self) -> u32
        ensures { result ≡ self.now.worker }
    {
        match &self.form {
            Form::Presence { worker, .. } => *worker,
            Form::Taken { worker, .. } => *worker,
            Form::Begun { worker, .. } => *worker,
            Form::Passed { worker, .. } => *worker,
            Form::Committed { worker, .. } => *worker,
            Form::Whole(entry) => entry.worker,
        }
    }

    /// What it keeps of the event and the reply.
    pub fn shown(&self) -> Shown<'_>
        ensures { kept_shown result ≡ self.now.kept }
    {
        let (i, n) = place(&self.form);
        match &self.form {
            Form::Presence { quad, there, .. } => {
                Shown::Answered(i, n, scan_for(quad.to_quad()), *there as u64)
            }
            Form::Taken { .. } => Shown::Other(Event::Take(i), Reply::Taken(n)),
            Form::Begun { .. } => Shown::Other(Event::Begin(i, n), Reply::Begun),
            Form::Passed { .. } => Shown::Other(Event::Check(i, n), Reply::Passed),
            Form::Committed { .. } => Shown::Other(Event::Commit(i), Reply::Committed),
            Form::Whole(entry) => Shown::Whole(&entry.kept),
        }
    }
}
