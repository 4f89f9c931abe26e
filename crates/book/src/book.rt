//! A block's machine with its journal.
ghost use Rattle.std.specs.Prelude.{◌≡◌, ◌<◌, ◌≤◌, [], ◌∷◌, ◌++◌, map, ℕ, Some, None, true, false, nat_le, length, IfSome, IfOk, OnErr};
ghost use Rattle.incarnations.specs.Kept.{kept_note_of};
ghost use Rattle.incarnations.specs.Statuses.{is_closed};
ghost use Rattle.incarnations.specs.Slots.{transcript_of};
ghost use Rattle.validate.specs.Below.{slot_at, view_at};
ghost use Rattle.slots.specs.Slots.{status_of};
ghost use Rattle.block_machine.specs.Machine.{IsAllowed, wanted_reply, is_current};
ghost use Rattle.block_machine.specs.Scans.{HasScans};
ghost use Rattle.block_machine.specs.Serial.{IsHistory};
ghost use Rattle.block_machine.specs.Waiting.{has_work, IsLeastWork};
ghost use Rattle.book.specs.JournalEntry.{journal_entry_of};
ghost use Rattle.book.specs.Run.{state_of, setting_of, front_run, HasAllTerms, kept, IsSoundEvent};

use crate::journal::Journal;
use crate::journal_entry::JournalEntry;
use crate::packed_entry::{PackedEntry, room};
use block_machine::laws::{front_is_serial, front_is_within, history_goes_on, ready_after};
use block_machine::{Event, Machine, Noted, Pass, Reply, Status, scans_of};
use datasets::Id;
use delta::Outcome;
use dict::Dict;
use meaning::Request;
use reads::{CompactView, IndexedView, Scanned, View};
use sets::Items;
use std::alloc::{AllocError, Global};
use std::marker::Model;
use std::thread::Threads;

/// A run of a block: what it is of, and every event that was answered, in order. Contracts see each
/// with its answer and its transcript.
#[derive(Drop)]
pub struct Book<'a> {
    terms: &'a Dict,
    base: &'a IndexedView,
    block: &'a [Request<Id>],
    machine: Machine<'a>,
    journal: Journal,
    // Room for an entry that is kept whole.
    spare: Option<Box<JournalEntry>>,
}

impl<'a> Model for Book<'a> {
    ghost use Rattle.std.specs.Coded.{codes};
    ghost use Rattle.algebra.specs.Codes.{plan_code};
    ghost use Rattle.book.specs.Run.{Run, run_of_journal, IsReplayed};
    ghost use Rattle.datasets.specs.declared.id.Id.{Id as Number};

    ghost Value = { Run };

    ghost coded = { Prim.hlevel (codes, plan_code {K = Number} (Prim.hlevel codes)) };

    ghost view = { λ b. run_of_journal b.terms.now b.base.now b.block.now b.journal.entries };

    ghost invariant = { λ b. IsReplayed (run_of_journal b.terms.now b.base.now b.block.now b.journal.entries) b.journal.entries b.machine };
}

impl<'a> Book<'a> {
    /// The book of a base and a block, before any event.
    pub fn new(
        alloc: Global,
        terms: &'a Dict,
        base: &'a IndexedView,
        block: &'a [Request<Id>],
    ) -> Result<Book<'a>, AllocError>
        requires { HasAllTerms terms.now base.now block.now }
        ensures { IfOk result (λ book. book ≡ record
            { terms = terms.now; base = base.now; block = block.now; history = [] }) }
    {
        // For the proof: the dictionary is one.
        let _count = terms.len();
        let orders = base.orders(alloc)?;
        let machine = Machine::new(alloc, block.len(), &orders)?;
        Ok(Book {
            terms,
            base,
            block,
            machine,
            journal: Journal::new(alloc),
            spare: None,
        })
    }

    /// One event of a worker, with what its read says of the base; what comes with another event is
    /// not looked at. Its reply is lawful, and the history has both at its end. A finished run is
    /// shared, and not copied. After want of memory the book is as before.
    pub fn step_scanned(
        &mut self,
        alloc: Global,
        worker: u32,
        event: &Event,
        scans: &[Scanned<'_>],
    ) -> Result<Reply, AllocError>
        requires sound { IsSoundEvent self.old event.now }
        requires scans { HasScans self.old.base event.now scans.now }
        ensures lawful { IfOk result (λ reply. IsAllowed self.old.base (state_of self.old) worker
            event.now reply) }
        ensures entry { IfOk result (λ reply. self.new
            ≡ record self.old {
              history = self.old.history
                  ++ record { worker = worker; event = kept event.now reply; reply = reply } ∷ [];
            }) }
        ensures err { OnErr result (self.new ≡ self.old) }
    {
        ready_after();
        front_is_within();
        history_goes_on();
        self.journal.reserve(alloc)?;
        let mut room = room(alloc, self.spare.take())?;
        room.prepare(alloc, event)?;
        let reply = self.machine.step(alloc, self.base, worker, event, scans)?;
        let (packed, spare) = PackedEntry::new(worker, event, &reply, room);
        self.spare = spare;
        self.journal.push(packed);
        Ok(reply)
    }

    /// The same, where the read is put to the base first.
    pub fn step(&mut self, alloc: Global, worker: u32, event: &Event) -> Result<Reply, AllocError>
        requires { IsSoundEvent self.old event.now }
        ensures lawful { IfOk result (λ reply. IsAllowed self.old.base (state_of self.old) worker
            event.now reply) }
        ensures entry { IfOk result (λ reply. self.new
            ≡ record self.old {
              history = self.old.history
                  ++ record { worker = worker; event = kept event.now reply; reply = reply } ∷ [];
            }) }
        ensures err { OnErr result (self.new ≡ self.old) }
    {
        let scans = scans_of(alloc, self.base, event)?;
        self.step_scanned(alloc, worker, event, &scans)
    }

    /// A check whose reply is chosen: where both `Passed` and `Aborted` are lawful it is the one
    /// that `passed` says. Else it is as a step of the check, and after want of memory the book is
    /// as before.
    pub fn check_as(
        &mut self,
        alloc: Global,
        worker: u32,
        i: usize,
        n: u64,
        passed: bool,
    ) -> Result<Reply, AllocError>
        ensures lawful { IfOk result (λ reply. IsAllowed self.old.base (state_of self.old) worker
            (Event.Check i n) reply) }
        ensures wanted { IfOk result (λ reply. IsAllowed self.old.base (state_of self.old) worker
            (Event.Check i n) (wanted_reply passed) → reply ≡ wanted_reply passed) }
        ensures entry { IfOk result (λ reply. self.new
            ≡ record self.old {
              history = self.old.history
                  ++ record { worker = worker; event = Event.Check i n; reply = reply } ∷ [];
            }) }
        ensures err { OnErr result (self.new ≡ self.old) }
    {
        ready_after();
        front_is_within();
        history_goes_on();
        self.journal.reserve(alloc)?;
        let room = room(alloc, self.spare.take())?;
        let reply = self
            .machine
            .check_as(alloc, self.base, worker, i, n, passed)?;
        let (packed, spare) = PackedEntry::new(worker, &Event::Check(i, n), &reply, room);
        self.spare = spare;
        self.journal.push(packed);
        Ok(reply)
    }

    /// How many requests are committed: the first ones.
    pub fn front(&self) -> usize
        ensures front { result ≡ (state_of self.now).front }
        ensures committed { (j : ℕ) → j < (state_of self.now).front
            → is_closed (Some (slot_at (state_of self.now).slots j).status) ≡ true }
    {
        self.machine.front()
    }

    /// The status of a request, if the block has it.
    pub fn status(&self, i: usize) -> Option<Status>
        ensures { result ≡ status_of (state_of self.now).slots i }
    {
        self.machine.status(i)
    }

    /// The pass of checks of a request that stands.
    pub fn pass(&self, i: usize) -> Option<Pass>
        ensures { result ≡ (slot_at (state_of self.now).slots i).pass }
    {
        self.machine.pass(i)
    }

    /// The clock when the last finished pass of checks of a request began.
    pub fn stamp(&self, i: usize) -> Option<u64>
        ensures { result ≡ (slot_at (state_of self.now).slots i).stamp }
    {
        self.machine.stamp(i)
    }

    /// The reads of a request's incarnation, in order.
    pub fn notes(&self, i: usize) -> &[Noted<'a>]
        ensures { map kept_note_of result.now ≡ transcript_of
            (slot_at (state_of self.now).slots i).notes }
    {
        self.machine.notes(i)
    }

    /// The clock when a committed request last changed what it publishes, 0 before any did.
    pub fn latest(&self) -> u64
        ensures { (moment : ℕ) → is_current (state_of self.now).slots (state_of self.now).front
            moment ≡ nat_le result moment }
    {
        self.machine.latest()
    }

    /// The least request for which something can be done but to commit it. It looks along one path
    /// of a tree, and not at each request.
    pub fn least_work(&self) -> Option<usize>
        ensures some { IfSome result (IsLeastWork (state_of self.now).slots) }
        ensures none { result ≡ None → (j : ℕ) → has_work (state_of self.now).slots j ≡ false }
    {
        self.machine.least_work()
    }

    /// The dataset of the committed requests: that of their sequential run.
    pub fn front_dataset(&self, alloc: Global) -> Result<View, AllocError>
        ensures { IfOk result (λ dataset. dataset ≡ (front_run self.now).0) }
    {
        front_is_within();
        front_is_serial();
        self.machine.front_view(alloc, self.base)
    }

    /// The replies to the committed requests: those of their sequential run.
    pub fn committed_replies(&self, alloc: Global) -> Result<Vec<meaning::Reply>, AllocError>
        ensures { IfOk result (λ replies. replies.items ≡ (front_run self.now).1) }
    {
        front_is_within();
        front_is_serial();
        self.machine.front_replies(alloc)
    }

    /// The dataset and the replies of the committed requests: those of their sequential run.
    pub fn outcome(&self, alloc: Global) -> Result<Outcome, AllocError>
        ensures { IfOk result (λ outcome. (outcome.dataset, outcome.replies) ≡ front_run self.now) }
    {
        let dataset = CompactView::from_view(alloc, self.front_dataset(alloc)?)?;
        let replies = self.committed_replies(alloc)?;
        Ok(Outcome {
            dataset,
            replies: Items::from_vec(replies),
        })
    }

    /// The same, where the book is not needed any more: its journal and its notes are let go before
    /// the dataset is made, or the notes by another thread of so many.
    pub fn into_outcome<T: Threads + Sync>(
        self,
        rt: &T,
        alloc: Global,
        threads: u32,
    ) -> Result<Outcome, AllocError>
        ensures { IfOk result (λ outcome. (outcome.dataset, outcome.replies)
            ≡ front_run self.entry) }
    {
        front_is_within();
        front_is_serial();
        let told = self.committed_replies(alloc);
        let Book {
            base,
            machine,
            journal,
            spare,
            ..
        } = self;
        drop(journal);
        drop(spare);
        match told {
            Ok(told) => ended(rt, alloc, base, machine, told, threads),
            Err(error) => {
                drop(machine);
                Err(error)
            }
        }
    }

    /// What is kept of every event that was answered, in order: each is lawful where those before
    /// it lead.
    pub fn journal(&self) -> &Journal
        ensures journal { result.now.entries ≡ map journal_entry_of self.now.history }
        ensures lawful { IsHistory (setting_of self.now) self.now.history }
    {
        &self.journal
    }

    /// The dictionary of the base and the block.
    pub fn terms(&self) -> &'a Dict
        ensures { result.now ≡ self.now.terms }
    {
        self.terms
    }

    /// The dataset before the first request.
    pub fn base(&self) -> &'a IndexedView
        ensures { result.now ≡ self.now.base }
    {
        self.base
    }

    /// The requests.
    pub fn block(&self) -> &'a [Request<Id>]
        ensures { result.now ≡ self.now.block }
    {
        self.block
    }
}

// What the committed requests come to, of which these are the replies.
fn ended<T: Threads + Sync>(
    rt: &T,
    alloc: Global,
    base: &IndexedView,
    machine: Machine<'_>,
    told: Vec<meaning::Reply>,
    threads: u32,
) -> Result<Outcome, AllocError>
    requires { machine.front ≤ length machine.slots }
    ensures { IfOk result (λ outcome. (outcome.dataset
        ≡ view_at base.now machine.entry.slots machine.entry.front)
        × (outcome.replies ≡ told.items)) }
{
    let dataset = machine.into_front_view(rt, alloc, base, threads)?;
    Ok(Outcome {
        dataset,
        replies: Items::from_vec(told),
    })
}
