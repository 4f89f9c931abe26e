//! What one worker does until all requests are committed.
ghost use Rattle.std.specs.Prelude.{◌≡◌, ◌<◌, ◌^◌, ◌++◌, Some, length, replicate, drop, slice_get, IfOk, IfSome, IfNone, OnErr};
ghost use Rattle.update.specs.Asked.{AreShort, IsShort};
ghost use Rattle.shared.specs.Calls.{IsSoundAt};
ghost use Rattle.shared.specs.Duty.{IsPassFor};
ghost use Rattle.shared.specs.InTurn.{checking, committing};
ghost use Rattle.pool.specs.Duty.{IsDone};
ghost use Rattle.pool.specs.Shown.{HasSeen, IsShown, FirstIsSeen, AreSeen, StaysSeen, TakeIsSeen};
ghost use Rattle.pool.specs.Stopped.{HasStopped, IsUnanswered};

use crate::asker::Asking;
use crate::gate::Gate;
use crate::lengths::Lengths;
use crate::pace::Pace;
use crate::patience::Patience;
use crate::seat::Seat;
use block_machine::{Entry, Event, Reply};
use datasets::Id;
use delta::Finished;
use dict::Dict;
use meaning::Request;
use reads::{IndexedView, Stop};
use scheduler::{Hints, Task};
use shared::{Next, Pass, SharedBlock};
use std::alloc::{AllocError, Global};
use std::collections::VecDeque;
use std::marker::Model;
use std::sync::Wait;
use std::sync::atomic::{AtomicBool, Ordering};
use update::execute;

/// How many requests a worker commits at most while it holds the book once.
const MOST_COMMITS: usize = 64;

/// Which incarnation of which request is run.
#[derive(Clone, Copy)]
pub struct Turn {
    pub place: usize,
    pub incarnation: u64,
}

/// A shared book, what it is about, and what sees the events of its workers. To a contract it is
/// what the workers are there for.
#[derive(Drop)]
pub struct Workers<'s, 'a, R: Wait, G: Gate> {
    pub(crate) rt: &'s R,
    pub(crate) alloc: Global,
    pub(crate) shared: &'s SharedBlock<'a>,
    pub(crate) terms: &'a Dict,
    pub(crate) base: &'a IndexedView,
    pub(crate) block: &'a [Request<Id>],
    pub(crate) gate: &'s G,
    pub(crate) pace: &'s Pace,
    pub(crate) lengths: &'s Lengths,
    // Whether one of them was refused memory.
    pub(crate) stopped: &'s AtomicBool,
}

impl<'s, 'a, R: Wait, G: Gate> Model for Workers<'s, 'a, R, G> {
    ghost use Rattle.std.specs.Coded.{codes};
    ghost use Rattle.algebra.specs.Codes.{plan_code};
    ghost use Rattle.datasets.specs.declared.id.Id.{Id as Number};
    ghost use Rattle.shared.specs.Duty.{Duty};

    ghost Value = { Duty };

    ghost coded = { Prim.hlevel (codes, plan_code {K = Number} (Prim.hlevel codes)) };

    ghost view = { λ w. record { table = w.shared.now; subject = record { terms = w.terms.now; base = w.base.now; block = w.block.now } } };
}

// Whether something was committed.
fn is_commit(reply: Option<Reply>) -> bool {
    matches!(reply, Some(Reply::Committed))
}

impl<'s, 'a, R: Wait, G: Gate> Workers<'s, 'a, R, G> {
    // Shows the gate an entry. The gate is called here alone.
    fn show(&self, pass: &Pass<'a>, worker: u32, entry: &Entry)
        requires { IsShown pass.now worker entry.now }
    {
        self.gate.after(worker, entry);
    }

    /// Shows the gate an answered event that the pass has seen, and gives its reply again.
    pub fn shown(&self, pass: &Pass<'a>, event: Event, reply: Reply) -> Reply
        requires { HasSeen pass.now event reply }
        ensures { result ≡ reply }
    {
        let worker = pass.worker();
        let entry = Entry {
            worker,
            event,
            reply,
        };
        self.show(pass, worker, &entry);
        entry.reply
    }

    // Shows the gate an event with the first of some replies, if there is one.
    fn show_next(
        &self,
        pass: &Pass<'a>,
        event: Event,
        replies: &mut VecDeque<Reply>,
    ) -> Option<Reply>
        requires { FirstIsSeen pass.now event replies.old.items }
        ensures { replies.new.items ≡ drop 1 replies.old.items }
    {
        match replies.pop_front() {
            Some(reply) => Some(self.shown(pass, event, reply)),
            None => None,
        }
    }

    // The finished run of a request, or nothing where a read was not answered, and the pass again.
    // An error comes only where the run stopped for want of memory.
    fn executed(
        &self,
        pass: Pass<'a>,
        turn: Turn,
        request: &Request<Id>,
    ) -> (Pass<'a>, Result<Option<Finished>, AllocError>)
        requires pass { IsPassFor self.now pass }
        requires place { turn.place < 2 ^ 32 }
        requires is { slice_get self.now.subject.block turn.place ≡ Some request.now }
        requires short { IsShort request.now }
        ensures pass { IsPassFor self.now result.0 }
        ensures sound { IfOk result.1 (λ found. IfSome found
            (λ run. IsSoundAt self.now.subject turn.place run)) }
        ensures none { IfOk result.1 (λ found. IfNone found
            (IsUnanswered request.now turn.place turn.incarnation pass.entry result.0)) }
        ensures memory { OnErr result.1 (HasStopped request.now turn.place turn.incarnation
            pass.entry result.0 Stop.Memory) }
    {
        let mut asking = Asking::new(self, pass, turn);
        let place = turn.place as u32;
        let execution = execute(self.alloc, self.terms, place, request, &mut asking);
        let pass = asking.into_pass();
        match execution {
            Ok(execution) => (pass, Ok(Some(execution.into_finished()))),
            Err(stop) => match stop {
                Stop::Memory => (pass, Err(AllocError)),
                Stop::Blocked(_) => (pass, Ok(None)),
                Stop::Stale => (pass, Ok(None)),
            },
        }
    }

    // Leaves a request. What the pass has seen stays seen.
    fn give_up(&self, pass: &mut Pass<'a>, turn: Turn) -> Result<(), AllocError>
        requires { IsPassFor self.now pass.old }
        ensures pass { IsPassFor self.now pass.new }
        ensures seen { StaysSeen pass.old pass.new }
    {
        let Turn { place, incarnation } = turn;
        let reply = self
            .shared
            .give_up(self.rt, self.alloc, pass, place, incarnation)?;
        self.shown(pass, Event::GiveUp(place, incarnation), reply);
        Ok(())
    }

    // Shows the gate the replies of a pass of checks of so many notes, as far as there are any.
    fn show_checks(
        &self,
        pass: &Pass<'a>,
        turn: Turn,
        notes: usize,
        until: usize,
        replies: &mut VecDeque<Reply>,
    )
        requires { AreSeen pass.now replies.old.items
            (replicate notes (Event.Check turn.place turn.incarnation)
            ++ committing turn.place until) }
        ensures { AreSeen pass.now replies.new.items (committing turn.place until) }
    {
        let Turn { place, incarnation } = turn;
        let mut left = notes;
        while left > 0 && !replies.is_empty() {
            let reply = self.show_next(pass, Event::Check(place, incarnation), replies);
            if let Some(Reply::Aborted) = reply {
                self.pace.slow_down();
            }
            left -= 1;
        }
    }

    // Shows the gate the replies of the commits from a place on, as far as there are any.
    fn show_commits(
        &self,
        pass: &Pass<'a>,
        place: usize,
        until: usize,
        replies: &mut VecDeque<Reply>,
    )
        requires { AreSeen pass.now replies.old.items (committing place until) }
    {
        let mut next = place;
        while next < until && !replies.is_empty() {
            let reply = self.show_next(pass, Event::Commit(next), replies);
            self.pace.commit_if(is_commit(reply));
            next += 1;
        }
    }

    // Shows the gate the replies of a settling, in order.
    fn show_settled(
        &self,
        pass: &Pass<'a>,
        turn: Turn,
        notes: usize,
        until: usize,
        replies: &mut VecDeque<Reply>,
    )
        requires { AreSeen pass.now replies.old.items
            (checking turn.place turn.incarnation notes ++ committing turn.place until) }
    {
        let Turn { place, incarnation } = turn;
        self.show_next(pass, Event::Begin(place, incarnation), replies);
        self.show_checks(pass, turn, notes, until, replies);
        self.show_commits(pass, place, until, replies);
    }

    // Below which place a worker commits while it holds the book once: from a place on those whose
    // runs are published.
    fn until(&self, place: usize) -> usize {
        let most = self.block.len().min(place.saturating_add(MOST_COMMITS));
        for next in place.saturating_add(1)..most {
            if !self.lengths.is_published(next) {
                return next;
            }
        }
        most
    }

    // Publishes the finished run of a request and settles it, and finds what can be done next, in
    // one hold of the book. It answers whether it was published, and that.
    fn published(
        &self,
        pass: &mut Pass<'a>,
        turn: Turn,
        run: Finished,
    ) -> Result<(bool, Next), AllocError>
        requires pass { IsPassFor self.now pass.old }
        requires sound { IsSoundAt self.now.subject turn.place run }
        ensures pass { IsPassFor self.now pass.new }
        ensures seen { IfOk result (λ r. TakeIsSeen pass.new r.1) }
    {
        let Turn { place, incarnation } = turn;
        let notes = run.transcript.len();
        let until = self.until(place);
        let mut replies = Vec::new(self.alloc);
        // Most often there are so many; the book is not held yet.
        replies.reserve(notes.saturating_add(3))?;
        let made = self.shared.publish_settled(
            self.rt,
            self.alloc,
            pass,
            place,
            incarnation,
            run,
            notes,
            until,
            self.pace.until_behind(place),
            &mut replies,
        );
        let is_published = matches!(replies.first(), Some(Reply::Published));
        let mut replies = VecDeque::from(replies);
        self.show_next(pass, Event::Publish(place, incarnation, None), &mut replies);
        self.show_settled(pass, turn, notes, until, &mut replies);
        let (_, next) = made?;
        Ok((is_published, next))
    }

    // Publishes a finished run and settles it while the book is held once, and leaves the request
    // where the publication is refused. It answers whether it was published, and what can be done
    // next.
    fn publish(
        &self,
        pass: &mut Pass<'a>,
        turn: Turn,
        run: Finished,
    ) -> Result<(bool, Next), AllocError>
        requires pass { IsPassFor self.now pass.old }
        requires sound { IsSoundAt self.now.subject turn.place run }
        ensures pass { IsPassFor self.now pass.new }
        ensures seen { IfOk result (λ r. TakeIsSeen pass.new r.1) }
    {
        let (is_published, next) = self.published(pass, turn, run)?;
        if is_published {
            return Ok((true, next));
        }
        self.give_up(pass, turn)?;
        Ok((false, next))
    }

    // Settles a published run of so many notes while the book is held once: its checks, as long as
    // they pass, and the commits of the request and of those behind it, as long as each can be
    // committed. It answers whether its pass of checks was begun.
    fn settle(&self, pass: &mut Pass<'a>, turn: Turn, notes: usize) -> Result<bool, AllocError>
        requires { IsPassFor self.now pass.old }
        ensures { IsPassFor self.now pass.new }
    {
        let Turn { place, incarnation } = turn;
        let until = self.until(place);
        let mut replies = Vec::new(self.alloc);
        let settled = self.shared.settle(
            self.rt,
            self.alloc,
            pass,
            place,
            incarnation,
            notes,
            until,
            &mut replies,
        );
        let is_begun = matches!(replies.first(), Some(Reply::Begun));
        self.show_settled(pass, turn, notes, until, &mut VecDeque::from(replies));
        settled?;
        Ok(is_begun)
    }

    // Runs an incarnation that was taken, publishes its run and settles it. It answers whether one
    // was published, and what can be done next.
    fn run_taken(
        &self,
        pass: Pass<'a>,
        turn: Turn,
        request: &Request<Id>,
    ) -> Result<(Pass<'a>, bool, Next), AllocError>
        requires pass { IsPassFor self.now pass }
        requires place { turn.place < 2 ^ 32 }
        requires is { slice_get self.now.subject.block turn.place ≡ Some request.now }
        requires short { IsShort request.now }
        ensures pass { IfOk result (λ r. IsPassFor self.now r.0) }
        ensures seen { IfOk result (λ r. TakeIsSeen r.0 r.2) }
    {
        let (mut pass, found) = self.executed(pass, turn, request);
        let Some(run) = found? else {
            self.pace.slow_down();
            self.give_up(&mut pass, turn)?;
            return Ok((pass, false, Next::nothing()));
        };
        // An owner more, so that its memory is given back here, and not while the book is held.
        let transcript = run.transcript.copied()?;
        self.lengths.put(turn.place, transcript.len());
        let (is_published, next) = self.publish(&mut pass, turn, run)?;
        drop(transcript);
        Ok((pass, is_published, next))
    }

    // Runs the request at a place, which was taken with this reply. It answers whether a run was
    // published, and what can be done next.
    fn run_next(
        &self,
        pass: Pass<'a>,
        place: usize,
        reply: Reply,
    ) -> Result<(Pass<'a>, bool, Next), AllocError>
        requires pass { IsPassFor self.now pass }
        requires seen { HasSeen pass (Event.Take place) reply }
        requires size { length self.now.subject.block < 2 ^ 32 }
        requires short { AreShort self.now.subject.block }
        ensures pass { IfOk result (λ r. IsPassFor self.now r.0) }
        ensures seen { IfOk result (λ r. TakeIsSeen r.0 r.2) }
    {
        let Some(request) = self.block.get(place) else {
            return Ok((pass, false, Next::nothing()));
        };
        let Reply::Taken(incarnation) = self.shown(&pass, Event::Take(place), reply) else {
            return Ok((pass, false, Next::nothing()));
        };
        self.pace.begin();
        let run = self.run_taken(pass, Turn { place, incarnation }, request);
        self.pace.end();
        run
    }

    // Checks the next note of the pass of checks. It answers whether that passed.
    fn check(&self, pass: &mut Pass<'a>, turn: Turn) -> Result<bool, AllocError>
        requires { IsPassFor self.now pass.old }
        ensures { IsPassFor self.now pass.new }
    {
        let Turn { place, incarnation } = turn;
        let reply = self
            .shared
            .check(self.rt, self.alloc, pass, place, incarnation)?;
        let reply = self.shown(pass, Event::Check(place, incarnation), reply);
        if let Reply::Aborted = reply {
            self.pace.slow_down();
        }
        Ok(matches!(reply, Reply::Passed))
    }

    // Commits the request at a place. It answers whether that was not refused.
    fn commit(&self, pass: &mut Pass<'a>, place: usize) -> Result<bool, AllocError>
        requires { IsPassFor self.now pass.old }
        ensures { IsPassFor self.now pass.new }
    {
        let reply = self.shared.commit(self.rt, self.alloc, pass, place)?;
        let reply = self.shown(pass, Event::Commit(place), reply);
        let is_committed = matches!(reply, Reply::Committed);
        self.pace.commit_if(is_committed);
        Ok(is_committed)
    }

    // Does a task that is not to take a request. It answers whether the block got on by it.
    fn act(&self, pass: Pass<'a>, task: Task) -> Result<(Pass<'a>, bool), AllocError>
        requires pass { IsPassFor self.now pass }
        ensures { IfOk result (λ r. IsPassFor self.now r.0) }
    {
        let mut pass = pass;
        let got_on = match task {
            Task::Take(_) => false,
            Task::Commit(place) => self.commit(&mut pass, place)?,
            Task::Begin(place, incarnation) => {
                let turn = Turn { place, incarnation };
                self.settle(&mut pass, turn, self.lengths.at(place))?
            }
            Task::Check(place, incarnation) => self.check(&mut pass, Turn { place, incarnation })?,
        };
        Ok((pass, got_on))
    }

    // Does what can be done next: a request that was taken with it is run. It answers whether the
    // block got on by it, and what can be done then.
    fn follow(&self, pass: Pass<'a>, next: Next) -> Result<(Pass<'a>, bool, Next), AllocError>
        requires pass { IsPassFor self.now pass }
        requires seen { TakeIsSeen pass next }
        requires size { length self.now.subject.block < 2 ^ 32 }
        requires short { AreShort self.now.subject.block }
        ensures pass { IfOk result (λ r. IsPassFor self.now r.0) }
        ensures seen { IfOk result (λ r. TakeIsSeen r.0 r.2) }
    {
        match (next.task, next.taken) {
            (Some(Task::Take(place)), Some(reply)) => self.run_next(pass, place, reply),
            (Some(task), _) => {
                let (pass, got_on) = self.act(pass, task)?;
                Ok((pass, got_on, Next::nothing()))
            }
            (None, _) => Ok((pass, false, Next::nothing())),
        }
    }

    // Looks for the next task, if there is one, and does it. A request that is too far ahead is not
    // taken. It answers as `follow` does.
    fn advance(&self, pass: Pass<'a>) -> Result<(Pass<'a>, bool, Next), AllocError>
        requires pass { IsPassFor self.now pass }
        requires size { length self.now.subject.block < 2 ^ 32 }
        requires short { AreShort self.now.subject.block }
        ensures pass { IfOk result (λ r. IsPassFor self.now r.0) }
        ensures seen { IfOk result (λ r. TakeIsSeen r.0 r.2) }
    {
        let mut pass = pass;
        let until = self.pace.until();
        let next = self
            .shared
            .take_next(self.rt, self.alloc, &mut pass, until)?;
        self.follow(pass, next)
    }

    // Leaves a hint at what could be done next when the worker last had the book, for whoever looks
    // first. A request that is too far ahead is not to be taken yet.
    fn leave_hint(&self, hints: &mut Hints, found: Option<Task>) -> Result<(), AllocError>
        requires { length self.now.subject.block < 2 ^ 32 }
    {
        match found {
            None => Ok(()),
            Some(Task::Take(_)) => Ok(()),
            Some(task) if task.place() < self.block.len() => hints.push(task),
            Some(_) => Ok(()),
        }
    }

    // What a hint says, with the reply to the take where it says that a request can be taken and
    // the request is not too far ahead.
    fn taken_by_hint(&self, pass: &mut Pass<'a>, hint: Task) -> Result<Next, AllocError>
        requires { IsPassFor self.now pass.old }
        ensures pass { IsPassFor self.now pass.new }
        ensures seen { IfOk result (TakeIsSeen pass.new) }
    {
        let task = Some(hint);
        match hint {
            Task::Take(place) if place < self.pace.until() => {
                let reply = self.shared.take(self.rt, self.alloc, pass, place)?;
                let taken = Some(reply);
                Ok(Next { task, taken })
            }
            _ => Ok(Next { task, taken: None }),
        }
    }

    // Tries a hint as it is, if there is one. It answers as `follow` does.
    fn try_hint(
        &self,
        pass: Pass<'a>,
        hints: &mut Hints,
    ) -> Result<(Pass<'a>, bool, Next), AllocError>
        requires pass { IsPassFor self.now pass }
        requires size { length self.now.subject.block < 2 ^ 32 }
        requires short { AreShort self.now.subject.block }
        ensures pass { IfOk result (λ r. IsPassFor self.now r.0) }
        ensures seen { IfOk result (λ r. TakeIsSeen r.0 r.2) }
    {
        let Some(hint) = hints.find() else {
            return Ok((pass, false, Next::nothing()));
        };
        let mut pass = pass;
        let next = self.taken_by_hint(&mut pass, hint)?;
        self.follow(pass, next)
    }

    // Runs the request that was taken last, or tries a hint, or looks for the next task. It answers
    // as `follow` does.
    fn go_on(
        &self,
        pass: Pass<'a>,
        next: Next,
        hints: &mut Hints,
        patience: &mut Patience,
    ) -> Result<(Pass<'a>, bool, Next), AllocError>
        requires pass { IsPassFor self.now pass }
        requires seen { TakeIsSeen pass next }
        requires size { length self.now.subject.block < 2 ^ 32 }
        requires short { AreShort self.now.subject.block }
        ensures pass { IfOk result (λ r. IsPassFor self.now r.0) }
        ensures seen { IfOk result (λ r. TakeIsSeen r.0 r.2) }
    {
        if next.taken.is_some() {
            return self.follow(pass, next);
        }
        self.leave_hint(hints, next.task)?;
        let (pass, got_on, next) = self.try_hint(pass, hints)?;
        if got_on || next.task.is_some() {
            return Ok((pass, got_on, next));
        }
        self.pace.wait_for_room(self.rt, patience);
        self.advance(pass)
    }

    // Does tasks until all requests are committed, or one of the workers was refused memory.
    fn work(&self, seat: Seat<'a>) -> Result<Pass<'a>, AllocError>
        requires pass { IsPassFor self.now seat }
        requires size { length self.now.subject.block < 2 ^ 32 }
        requires short { AreShort self.now.subject.block }
        ensures { IfOk result (IsDone self.now) }
    {
        let Seat {
            mut pass,
            mut hints,
        } = seat;
        let mut next = Next::nothing();
        let mut patience = Patience::new();
        for _ in self.rt.forever() {
            if self.stopped.load(Ordering::SeqCst) {
                return Err(AllocError);
            }
            let (later, got_on, found) = self.go_on(pass, next, &mut hints, &mut patience)?;
            pass = later;
            next = found;
            if got_on {
                patience.reset();
                continue;
            }
            if self.pace.are_committed(self.block.len()) {
                if self.shared.front(self.rt, &mut pass) >= self.block.len() {
                    return Ok(pass);
                }
            }
            patience.wait(self.rt);
        }
        unreachable!()
    }

    /// Does tasks until all requests are committed. An error comes only where a growth was refused,
    /// to this worker or another; then all stop.
    pub fn work_or_stop(&self, seat: Seat<'a>) -> Result<Pass<'a>, AllocError>
        requires pass { IsPassFor self.now seat }
        requires size { length self.now.subject.block < 2 ^ 32 }
        requires short { AreShort self.now.subject.block }
        ensures { IfOk result (IsDone self.now) }
    {
        let worked = self.work(seat);
        if worked.is_err() {
            self.stopped.store(true, Ordering::SeqCst);
        }
        worked
    }

    /// The same again.
    pub fn again(&self) -> Self
        ensures { result ≡ self.now }
    {
        Workers {
            rt: self.rt,
            alloc: self.alloc,
            shared: self.shared,
            terms: self.terms,
            base: self.base,
            block: self.block,
            gate: self.gate,
            pace: self.pace,
            lengths: self.lengths,
            stopped: self.stopped,
        }
    }
}
