//! The calls.
ghost use Rattle.std.specs.Prelude.{◌≡◌, ◌<◌, ◌≤◌, ◌∷◌, ◌++◌, ℕ, [], false, Some, slice_get, vec_len, All, IfOk, OnErr};
ghost use Rattle.block_machine.specs.Machine.{IsAllowed};
ghost use Rattle.block_machine.specs.Scans.{questions_of};
ghost use Rattle.block_machine.specs.Serial.{IsHistory};
ghost use Rattle.book.specs.Run.{state_of, setting_of, HasAllTerms, IsSoundEvent};
ghost use Rattle.blocklock.specs.History.{AreBelow};
ghost use Rattle.blocklock.specs.Passes.{IsIdleAt, Includes, Takes, MayGive, Watches, fresh_pass, given};
ghost use Rattle.scheduler.specs.Task.{IsNext};
ghost use Rattle.shared.specs.Calls.{owner, history_of, run_of, entry, IsSoundAt, Made, Tried, Has};

use crate::kept::Kept;
use crate::pass::{Pass, with_base};
use crate::refused::Refused;
use block_machine::laws::front_never_falls;
use block_machine::{Event, Reply};
use blocklock::{BlockLock, Busy, Held};
use book::Book;
use datasets::Read;
use delta::Finished;
use dict::{Dict, Id};
use meaning::Request;
use reads::{IndexedView, Scanned};
use scheduler::{Task, next};
use std::alloc::{AllocError, Global};
use std::marker::Model;
use std::sync::Wait;

/// A book that threads share. To a contract it is its lock's table, with how many workers have
/// passes.
#[derive(Drop)]
pub struct SharedBlock<'a> {
    pub(crate) lock: BlockLock<Kept<'a>>,
}

impl<'a> Model for SharedBlock<'a> {
    ghost use Rattle.std.specs.Prelude.{◌≡◌};
    ghost use Rattle.blocklock.specs.Passes.{LockTable};

    ghost Value = { LockTable };

    ghost view = { λ s. s.lock };

    // Before any event.
    ghost invariant = { λ s. s.lock.start ≡ 0 };
}

// Gives the book back.
pub(crate) fn give<'a>(held: Held<'_, Kept<'a>>, pass: &mut Pass<'a>)
    requires { (pass.old.table ≡ held.lock.now)
        × MayGive owner pass.old (history_of held.book.value.book) }
    ensures { pass.new ≡ given pass.old (history_of held.entry.book.value.book) }
{
    held.give(&mut pass.inner);
}

// Makes one event on the book that the pass holds, with what its read says of the base, and gives
// the book back.
fn make<'a>(
    alloc: Global,
    mut held: Held<'_, Kept<'a>>,
    pass: &mut Pass<'a>,
    event: Event,
    scans: &[Scanned<'_>],
) -> Result<Reply, AllocError>
    requires own { pass.old.table ≡ held.lock.now }
    requires has { Has pass.old held.book.value.book }
    requires sound { IsSoundEvent held.book.value.book event }
    requires scans { scans.now ≡ questions_of pass.old.subject.base event }
    ensures ok { IfOk result (λ reply. pass.new
        ≡ record pass.old {
          seen = pass.old.seen
              ++ entry pass.old.worker event reply ∷ [];
          holds = false;
        }) }
    ensures allowed { IfOk result (λ reply. IsAllowed pass.old.subject.base
        (state_of (run_of pass.old.subject pass.old.seen)) pass.old.worker event reply) }
    ensures lawful { IsHistory (setting_of (run_of pass.old.subject pass.new.seen)) pass.new.seen }
    ensures err { OnErr result (pass.new ≡ record pass.old { holds = false }) }
{
    let book = &mut held.book.book;
    let reply = book.step_scanned(alloc, pass.worker(), &event, scans);
    drop(event);
    let _journal = book.journal();
    give(held, pass);
    reply
}

impl<'a> SharedBlock<'a> {
    /// The shared book of a base and a block before any event, with a pass for each worker, from
    /// worker 0 on. No other worker has a pass.
    pub fn new(
        alloc: Global,
        terms: &'a Dict,
        base: &'a IndexedView,
        block: &'a [Request<Id>],
        seats: u32,
    ) -> Result<(SharedBlock<'a>, Vec<Pass<'a>>), AllocError>
        requires terms { HasAllTerms terms.now base.now block.now }
        requires seats { (0 < seats) × (seats ≤ 64) }
        ensures count { IfOk result (λ r. vec_len r.1 ≡ seats) }
        ensures seats { IfOk result (λ r. r.0.seats ≡ seats) }
        ensures passes { IfOk result (λ r. (k : ℕ) → k < seats
            → slice_get r.1.items k ≡ Some
            (fresh_pass r.0 (history_of (record
            { terms = terms.now; base = base.now; block = block.now; history = [] })) k)) }
    {
        let book = Book::new(alloc, terms, base, block)?;
        let (lock, passes) = BlockLock::new(alloc, Kept { book }, seats)?;
        let passes = with_base(alloc, base, passes)?;
        Ok((SharedBlock { lock }, passes))
    }

    // Takes the book with a pass, where it is there.
    fn try_hold<'s>(&'s self, pass: &mut Pass<'a>) -> Result<Held<'s, Kept<'a>>, Busy>
        requires { pass.old.table ≡ self.now }
        ensures held { IfOk result (λ h. (h.lock.now ≡ self.now)
            × Takes owner pass.old (history_of h.book.value.book) pass.new) }
        ensures busy { OnErr result (pass.new ≡ pass.old) }
    {
        self.lock.try_hold(&mut pass.inner)
    }

    // Takes the book with a pass, once it is there.
    pub(crate) fn hold<'s, R: Wait>(&'s self, rt: &R, pass: &mut Pass<'a>) -> Held<'s, Kept<'a>>
        requires { pass.old.table ≡ self.now }
        ensures { (result.lock.now ≡ self.now)
            × Takes owner pass.old (history_of result.book.value.book) pass.new }
    {
        self.lock.hold(rt, &mut pass.inner)
    }

    // Makes one event, and never waits. Its read is put to the base before the lock is taken.
    pub(crate) fn try_make(
        &self,
        alloc: Global,
        pass: &mut Pass<'a>,
        event: Event,
    ) -> Result<Reply, Refused>
        requires own { pass.old.table ≡ self.now }
        requires sound { IsSoundEvent (run_of pass.old.subject pass.old.seen) event }
        ensures { Tried pass.old pass.new event result }
    {
        let scans = pass.scans(alloc, &event)?;
        match self.try_hold(pass) {
            Ok(held) => match make(alloc, held, pass, event, &scans) {
                Ok(reply) => Ok(reply),
                Err(AllocError) => Err(Refused::OutOfMemory),
            },
            Err(Busy) => Err(Refused::Busy),
        }
    }

    // Makes one event, once the book is there. Its read is put to the base before the lock is taken.
    pub(crate) fn make_waiting<R: Wait>(
        &self,
        rt: &R,
        alloc: Global,
        pass: &mut Pass<'a>,
        event: Event,
    ) -> Result<Reply, AllocError>
        requires own { pass.old.table ≡ self.now }
        requires sound { IsSoundEvent (run_of pass.old.subject pass.old.seen) event }
        ensures { Made pass.old pass.new event result }
    {
        let scans = pass.scans(alloc, &event)?;
        let held = self.hold(rt, pass);
        make(alloc, held, pass, event, &scans)
    }

    /// How many requests are committed in what the pass has then seen.
    pub fn front<R: Wait>(&self, rt: &R, pass: &mut Pass<'a>) -> usize
        requires { pass.old.table ≡ self.now }
        ensures front { result ≡ (state_of (run_of pass.new.subject pass.new.seen)).front }
        ensures pass { Watches owner pass.old pass.new }
        ensures lawful { IsHistory (setting_of (run_of pass.new.subject pass.new.seen))
            pass.new.seen }
    {
        let taken = self.hold(rt, pass);
        let front = taken.book.book.front();
        let _journal = taken.book.book.journal();
        give(taken, pass);
        front
    }

    /// What a worker can do next where all stands that the pass has then seen. It makes no event.
    pub fn task<R: Wait>(&self, rt: &R, pass: &mut Pass<'a>) -> Option<Task>
        requires { pass.old.table ≡ self.now }
        ensures next { IsNext (state_of (run_of pass.new.subject pass.new.seen)) result }
        ensures pass { Watches owner pass.old pass.new }
        ensures lawful { IsHistory (setting_of (run_of pass.new.subject pass.new.seen))
            pass.new.seen }
    {
        let taken = self.hold(rt, pass);
        let task = next(&taken.book.book);
        let _journal = taken.book.book.journal();
        give(taken, pass);
        task
    }

    /// Ends the sharing. The book's journal begins with what each pass has seen, and has no other
    /// entries of its worker; no commit that a pass knew of is taken back. All its entries are of
    /// workers who have passes.
    pub fn close<R: Wait>(self, rt: &R, passes: Vec<Pass<'a>>) -> Book<'a>
        requires some { 0 < vec_len passes }
        requires passes { All (IsIdleAt self) passes.items }
        ensures includes { All (λ p. Includes owner p (history_of result)) passes.entry.items }
        ensures workers { AreBelow owner self.entry.seats result.history }
        ensures fronts { All (λ p. (state_of (run_of p.subject p.seen)).front
            ≤ (state_of result).front) passes.entry.items }
    {
        let SharedBlock { lock } = self;
        let Kept { book } = lock.close(rt, passes);
        front_never_falls();
        book
    }
}
