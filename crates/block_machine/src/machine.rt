//! The machine: one method for each event.
ghost use Rattle.std.specs.Prelude.{◌≡◌, ◌<◌, ◌≤◌, ◌+◌, ◌^◌, ℕ, length, map, nat_le, slice_get, Some, None, IfSome, true, false, IsTrue, IfOk, OnOk, OnErr, option_copied};
ghost use Rattle.reads.specs.Reads.{View as Base};
ghost use Rattle.incarnations.specs.Kept.{kept_note_of};
ghost use Rattle.incarnations.specs.Statuses.{stands_after, is_closed as closed, IsPlain, IsTold};
ghost use Rattle.incarnations.specs.Slots.{Noted as Described, transcript_of};
ghost use Rattle.validate.specs.Below.{view_at, slot_at};
ghost use Rattle.validate.specs.Verdicts.{NoteVerdict};
ghost use Rattle.slots.specs.Slots.{replies_to, status_of};
ghost use Rattle.block_machine.specs.Scans.{HasScans};
ghost use Rattle.block_machine.specs.Waiting.{has_work, IsLeastWork};
ghost use Rattle.block_machine.specs.Machine.{fresh, is_current, can_commit, CheckVerdict, NextNamesAnswer, NoteReply, verdict_reply, wanted_reply, HasNext, IsReady, IsAllowed, after};

use crate::laws::lists_are_enough;
use delta::Finished;
use incarnations::{Event, Noted, Pass, Reply, Status};
use quad_lists::Arrangement;
use reads::{CompactView, IndexedView, Scanned, View};
use slots::{Asked, Slots};
use stamp_tree::{Due, StampTree, Standing};
use std::alloc::{AllocError, Global};
use std::marker::Model;
use std::thread::Threads;
use validate::Verdict;

/// The machine of a block.
#[derive(Drop)]
pub struct Machine<'a> {
    slots: Slots<'a>,
    clock: u64,
    front: usize,
    // The last change of a committed request.
    latest: u64,
    // How each request stands, to find the next one for which something can be done.
    standings: StampTree,
}

impl<'a> Model for Machine<'a> {
    ghost use Rattle.block_machine.specs.Machine.{State};

    ghost Value = { State };

    ghost use Rattle.block_machine.specs.Beside.{KeepsBeside};

    ghost view = { λ m. record { slots = m.slots; clock = m.clock; front = m.front } };

    ghost invariant = { λ m. KeepsBeside m.slots m.front m.latest m.standings };
}

impl<'a> Machine<'a> {
    /// The machine of a block of this many requests. The orders are those in which committed
    /// changes are kept beside SPOG.
    pub fn new(
        alloc: Global,
        size: usize,
        orders: &[Arrangement],
    ) -> Result<Machine<'a>, AllocError>
        ensures { IfOk result (λ m. m ≡ fresh size) }
    {
        let standing = Standing {
            due: Due::Now,
            changed: 0,
        };
        let standings = StampTree::new(alloc, size, standing)?;
        let slots = Slots::new(alloc, size, orders)?;
        Ok(Machine {
            slots,
            clock: 0,
            front: 0,
            latest: 0,
            standings,
        })
    }

    /// How many requests are committed: the first ones.
    pub fn front(&self) -> usize
        ensures front { result ≡ self.now.front }
        ensures committed { (j : ℕ) → j < self.now.front
            → closed (Some (slot_at self.now.slots j).status) ≡ true }
    {
        self.front
    }

    /// The status of a request, if the block has it.
    pub fn status(&self, i: usize) -> Option<Status>
        ensures { result ≡ status_of self.now.slots i }
    {
        self.slots.status(i)
    }

    /// The pass of checks of a request that stands.
    pub fn pass(&self, i: usize) -> Option<Pass>
        ensures { result ≡ (slot_at self.now.slots i).pass }
    {
        self.slots.pass(i)
    }

    /// The clock when the last finished pass of checks of a request began.
    pub fn stamp(&self, i: usize) -> Option<u64>
        ensures { result ≡ (slot_at self.now.slots i).stamp }
    {
        self.slots.stamp(i)
    }

    /// The reads of a request's incarnation, in order.
    pub fn notes(&self, i: usize) -> &[Noted<'a>]
        ensures { map kept_note_of result.now ≡ transcript_of (slot_at self.now.slots i).notes }
    {
        self.slots.notes(i)
    }

    /// The clock when a committed request last changed what it publishes, 0 before any did.
    pub fn latest(&self) -> u64
        ensures { (moment : ℕ) → is_current self.now.slots self.now.front moment
            ≡ nat_le result moment }
    {
        self.latest
    }

    /// The least request for which something can be done but to commit it. It looks along one path
    /// of a tree, and not at each request.
    pub fn least_work(&self) -> Option<usize>
        ensures some { IfSome result (IsLeastWork self.now.slots) }
        ensures none { result ≡ None → (j : ℕ) → has_work self.now.slots j ≡ false }
    {
        self.standings.first()
    }

    /// The view of the committed requests.
    pub fn front_view(&self, alloc: Global, base: &IndexedView) -> Result<View, AllocError>
        requires { self.now.front ≤ length self.now.slots }
        ensures { IfOk result (λ view. view ≡ view_at base.now self.now.slots self.now.front) }
    {
        self.slots.view(alloc, base, self.front)
    }

    /// The same, where the machine is not needed any more. By several threads what it holds besides
    /// is let go beside the work.
    pub fn into_front_view<T: Threads + Sync>(
        self,
        rt: &T,
        alloc: Global,
        base: &IndexedView,
        threads: u32,
    ) -> Result<CompactView, AllocError>
        requires { self.front ≤ length self.slots }
        ensures { IfOk result (λ view. view ≡ view_at base.now self.entry.slots self.entry.front) }
    {
        let _committed = self.front();
        let Machine {
            slots,
            front,
            standings,
            ..
        } = self;
        drop(standings);
        settled_view(rt, alloc, base, slots, front, threads)
    }

    /// The committed requests' replies.
    pub fn front_replies(&self, alloc: Global) -> Result<Vec<meaning::Reply>, AllocError>
        requires { self.now.front ≤ length self.now.slots }
        ensures { IfOk result (λ list. list.items ≡ replies_to self.now.slots self.now.front) }
    {
        self.slots.replies(alloc, self.front)
    }

    /// One event of a worker, with what its read says of the base; what comes with another event is
    /// not looked at. A check compares touching lists. It takes memory before it changes anything.
    pub fn step(
        &mut self,
        alloc: Global,
        base: &'a IndexedView,
        worker: u32,
        event: &Event,
        scans: &[Scanned<'_>],
    ) -> Result<Reply, AllocError>
        requires ready { IsReady base.now self.old }
        requires scans { HasScans base.now event.now scans.now }
        ensures told { IfOk result (IsTold event.now) }
        ensures allowed { IfOk result (λ reply. IsAllowed base.now self.old worker event.now reply) }
        ensures changed { IfOk result (λ reply. self.new
            ≡ after self.old worker event.now reply) }
        ensures err { OnErr result (self.new ≡ self.old) }
    {
        match event {
            Event::Take(i) => Ok(self.take(worker, *i)),
            Event::Read(i, n, _) => self.read(alloc, base, &scans[0], worker, *i, *n),
            Event::Publish(i, n, finished) => {
                self.publish(alloc, worker, *i, *n, finished.as_ref())
            }
            Event::Begin(i, n) => Ok(self.begin(worker, *i, *n)),
            Event::Check(i, n) => self.check(alloc, base, worker, *i, *n, false),
            Event::Commit(i) => Ok(self.commit(worker, *i)),
            Event::GiveUp(i, n) => Ok(self.give_up(worker, *i, *n)),
        }
    }

    /// Takes a ready request, to execute its next incarnation. Else it is `Stale`.
    fn take(&mut self, worker: u32, i: usize) -> Reply
        ensures plain { IsPlain result }
        ensures allowed { (base : Base) → IsAllowed base self.old worker (Event.Take i) result }
        ensures changed { self.new ≡ after self.old worker (Event.Take i) result }
    {
        match self.slots.status(i) {
            Some(Status::Ready(n)) => {
                self.slots.take(i, n, worker);
                self.standings.set(i, self.slots.standing(i));
                Reply::Taken(n)
            }
            _ => Reply::Stale,
        }
    }

    /// Leaves a request that the worker executes: its next incarnation is ready, and its delta
    /// stays.
    fn give_up(&mut self, worker: u32, i: usize, n: u64) -> Reply
        requires { status_of self.old.slots i ≡ Some (Status.Executing n worker) → n + 1 < 2 ^ 64 }
        ensures plain { IsPlain result }
        ensures allowed { (base : Base) → IsAllowed base self.old worker (Event.GiveUp i n) result }
        ensures changed { self.new ≡ after self.old worker (Event.GiveUp i n) result }
    {
        let status = self.slots.status(i);
        if let Some(refusal) = incarnations::refused_execution(status, n, worker) {
            return refusal;
        }
        self.slots.give_up(i, n);
        self.standings.set(i, self.slots.standing(i));
        Reply::Given
    }

    /// Answers a read from the view of request `i`, and notes it.
    fn read(
        &mut self,
        alloc: Global,
        base: &'a IndexedView,
        scanned: &Scanned<'_>,
        worker: u32,
        i: usize,
        n: u64,
    ) -> Result<Reply, AllocError>
        requires { scanned.now.dataset ≡ base.now }
        ensures allowed { IfOk result (λ reply. IsAllowed scanned.now.dataset self.old worker
            (Event.Read i n scanned.now.read) reply) }
        ensures changed { IfOk result (λ reply. self.new
            ≡ after self.old worker (Event.Read i n scanned.now.read) reply) }
        ensures err { OnErr result (self.new ≡ self.old) }
    {
        let status = self.slots.status(i);
        if let Some(refusal) = incarnations::refused_execution(status, n, worker) {
            return Ok(refusal);
        }
        self.slots.settle(alloc, self.front)?;
        let asked = scanned.read();
        self.slots.put_in_order(alloc, asked);
        match self.slots.read(alloc, base, scanned, i)? {
            Asked::Blocked(j) => Ok(Reply::Blocked(j)),
            Asked::Answered(answer) => Ok(Reply::Answered(answer)),
        }
    }

    /// Publishes a finished run, if its transcript is the notes.
    fn publish(
        &mut self,
        alloc: Global,
        worker: u32,
        i: usize,
        n: u64,
        finished: Option<&Finished>,
    ) -> Result<Reply, AllocError>
        requires { self.old.clock + 1 < 2 ^ 64 }
        ensures plain { IfOk result IsPlain }
        ensures allowed { (base : Base) → IfOk result
            (λ reply. IsAllowed base self.old worker
            (Event.Publish i n (option_copied finished.entry)) reply) }
        ensures changed { IfOk result (λ reply. self.new
            ≡ after self.old worker (Event.Publish i n (option_copied finished.entry)) reply) }
        ensures err { OnErr result (self.new ≡ self.old) }
    {
        let status = self.slots.status(i);
        if let Some(refusal) = incarnations::refused_execution(status, n, worker) {
            return Ok(refusal);
        }
        let Some(finished) = finished else {
            return Ok(Reply::NotYet);
        };
        if !self.slots.has_transcript(alloc, i, finished)? {
            return Ok(Reply::NotYet);
        }
        self.store(alloc, i, n, finished)?;
        Ok(Reply::Published)
    }

    // The slot of request `i` after the publication, and the clock.
    fn store(
        &mut self,
        alloc: Global,
        i: usize,
        n: u64,
        finished: &Finished,
    ) -> Result<(), AllocError>
        requires within { i < length self.old.slots }
        requires room { self.old.clock + 1 < 2 ^ 64 }
        requires still { closed (status_of self.old.slots i) ≡ false }
        ensures ok { (worker : ℕ) → OnOk result (self.new
            ≡ after self.old worker (Event.Publish i n (Some finished.now)) Reply.Published) }
        ensures err { OnErr result (self.new ≡ self.old) }
    {
        self.slots.settle(alloc, self.front)?;
        let same = self.slots.publish(alloc, i, n, finished, self.clock)?;
        self.standings.set(i, self.slots.standing(i));
        if !same {
            self.clock += 1;
        }
        Ok(())
    }

    /// Begins a pass of checks of an executed request. It can begin again at any time.
    fn begin(&mut self, worker: u32, i: usize, n: u64) -> Reply
        ensures plain { IsPlain result }
        ensures allowed { (base : Base) → IsAllowed base self.old worker (Event.Begin i n) result }
        ensures changed { self.new ≡ after self.old worker (Event.Begin i n) result }
    {
        let status = self.slots.status(i);
        if let Some(refusal) = incarnations::refused_executed(status, n) {
            return refusal;
        }
        self.slots.begin(i, self.clock);
        self.standings.set(i, self.slots.standing(i));
        Reply::Begun
    }

    /// A check whose reply is chosen: where both `Passed` and `Aborted` are lawful it is the one
    /// that `passed` says. It takes memory before it changes anything.
    pub fn check_as(
        &mut self,
        alloc: Global,
        base: &IndexedView,
        worker: u32,
        i: usize,
        n: u64,
        passed: bool,
    ) -> Result<Reply, AllocError>
        requires { IsReady base.now self.old }
        ensures plain { IfOk result IsPlain }
        ensures wanted { IfOk result (λ reply. IsAllowed base.now self.old worker (Event.Check i n)
            (wanted_reply passed) → reply ≡ wanted_reply passed) }
        ensures allowed { IfOk result (λ reply. IsAllowed base.now self.old worker (Event.Check i n)
            reply) }
        ensures changed { IfOk result (λ reply. self.new
            ≡ after self.old worker (Event.Check i n) reply) }
        ensures err { OnErr result (self.new ≡ self.old) }
    {
        self.check(alloc, base, worker, i, n, passed)
    }

    /// Checks the next note, unless an estimate blocks. If `passed` is wanted it compares the noted
    /// answer with what it would be now: `Passed` where it is the same, and `Aborted` where it is
    /// another. Else it compares the touching lists. An `Err` is want of memory, and nothing else.
    fn check(
        &mut self,
        alloc: Global,
        base: &IndexedView,
        worker: u32,
        i: usize,
        n: u64,
        passed: bool,
    ) -> Result<Reply, AllocError>
        requires room { status_of self.old.slots i ≡ Some (Status.Executed n) → n + 1 < 2 ^ 64 }
        requires next { HasNext self.old i }
        requires names { NextNamesAnswer base.now self.old i }
        ensures plain { IfOk result IsPlain }
        ensures verdict { IsTrue passed → IfOk result
            (λ reply. CheckVerdict base.now self.old i n reply) }
        ensures wanted { IfOk result (λ reply. IsAllowed base.now self.old worker (Event.Check i n)
            (wanted_reply passed) → reply ≡ wanted_reply passed) }
        ensures allowed { IfOk result (λ reply. IsAllowed base.now self.old worker (Event.Check i n)
            reply) }
        ensures changed { IfOk result (λ reply. self.new
            ≡ after self.old worker (Event.Check i n) reply) }
        ensures err { OnErr result (self.new ≡ self.old) }
    {
        let status = self.slots.status(i);
        if let Some(refusal) = incarnations::refused_executed(status, n) {
            return Ok(refusal);
        }
        let Some(stands) = self.slots.pass(i) else {
            return Ok(Reply::NotYet);
        };
        match self.next_verdict(alloc, base, i, stands, passed)? {
            Verdict::Blocked(j) => Ok(Reply::Blocked(j)),
            Verdict::Same => {
                self.pass_on(i, n, stands);
                Ok(Reply::Passed)
            }
            Verdict::Changed => {
                self.slots.abort(i, n);
                self.standings.set(i, self.slots.standing(i));
                Ok(Reply::Aborted)
            }
        }
    }

    // The next note of the pass passed. As long as a pass stands the request stands as before.
    fn pass_on(&mut self, i: usize, n: u64, stands: Pass)
        requires executed { status_of self.old.slots i ≡ Some (Status.Executed n) }
        requires pass { (slot_at self.old.slots i).pass ≡ Some stands }
        requires next { HasNext self.old i }
        ensures { (worker : ℕ) → self.new ≡ after self.old worker (Event.Check i n) Reply.Passed }
    {
        self.slots.pass_on(i, stands);
        if self.slots.pass(i).is_none() {
            self.standings.set(i, self.slots.standing(i));
        }
    }

    // What the check of the next note of the pass that stands finds: by answers if `passed` is
    // wanted, and else by touching lists.
    fn next_verdict(
        &self,
        alloc: Global,
        base: &IndexedView,
        i: usize,
        stands: Pass,
        passed: bool,
    ) -> Result<Verdict, AllocError>
        requires still { closed (status_of self.now.slots i) ≡ false }
        requires pass { (slot_at self.now.slots i).pass ≡ Some stands }
        requires next { HasNext self.now i }
        requires names { NextNamesAnswer base.now self.now i }
        ensures verdict { IsTrue passed → IfOk result
            (λ verdict. (note : Described)
            → slice_get (slot_at self.now.slots i).notes stands.next ≡ Some note
            → NoteVerdict base.now self.now.slots i note verdict) }
        ensures wanted { IfOk result (λ verdict. NoteReply base.now self.now.slots i
            (slice_get (slot_at self.now.slots i).notes stands.next) (wanted_reply passed)
            → verdict_reply verdict ≡ wanted_reply passed) }
        ensures reply { IfOk result (λ verdict. NoteReply base.now self.now.slots i
            (slice_get (slot_at self.now.slots i).notes stands.next) (verdict_reply verdict)) }
    {
        if passed {
            self.slots.verdict_by_answers(alloc, base, i, stands.next)
        } else {
            lists_are_enough();
            self.slots.verdict_by_lists(alloc, i, stands.next)
        }
    }

    /// Commits the request at the front, where it is executed and stamped and no lower request has
    /// changed since.
    fn commit(&mut self, worker: u32, i: usize) -> Reply
        ensures plain { IsPlain result }
        ensures allowed { (base : Base) → IsAllowed base self.old worker (Event.Commit i) result }
        ensures changed { self.new ≡ after self.old worker (Event.Commit i) result }
    {
        let status = self.slots.status(i);
        if incarnations::is_closed(status) {
            return Reply::Stale;
        }
        if !self.may_commit(i) {
            return Reply::NotYet;
        }
        self.slots.are_few();
        let changed = self.slots.changed(i);
        self.slots.commit(i);
        self.standings.set(i, self.slots.standing(i));
        self.front += 1;
        self.latest = self.latest.max(changed);
        Reply::Committed
    }

    // Whether the request is the front, executed, and stamped.
    fn may_commit(&self, i: usize) -> bool
        requires { i < length self.now.slots }
        ensures { result ≡ can_commit self.now i }
    {
        i == self.front
            && incarnations::is_executed(self.slots.status(i))
            && incarnations::is_after(self.slots.stamp(i), self.latest)
    }
}

// The view of the first requests, which are committed.
fn settled_view<T: Threads + Sync>(
    rt: &T,
    alloc: Global,
    base: &IndexedView,
    mut slots: Slots<'_>,
    front: usize,
    threads: u32,
) -> Result<CompactView, AllocError>
    requires within { front ≤ length slots }
    requires committed { (j : ℕ) → j < front → closed (Some (slot_at slots j).status) ≡ true }
    ensures { IfOk result (λ view. view ≡ view_at base.now slots.entry front) }
{
    // What was committed last is settled first, so that the dataset is that of the front.
    match slots.settle(alloc, front) {
        Ok(()) => slots.into_view(rt, alloc, base, front, threads),
        Err(error) => {
            drop(slots);
            Err(error)
        }
    }
}
