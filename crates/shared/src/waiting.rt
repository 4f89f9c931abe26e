//! The calls that wait until the book is there. The places and incarnations are as in
//! `block_machine::Event`.
ghost use Rattle.std.specs.Prelude.{◌≡◌, ◌++◌, Some};
ghost use Rattle.shared.specs.Calls.{IsSoundAt, Made};
ghost use Rattle.shared.specs.InTurn.{questions, reading, publishing, checking, committing, Adds};
ghost use Rattle.shared.specs.Taking.{AddsAndTakes, Took};

use crate::in_turn::{make_reads, make_settling};
use crate::pass::Pass;
use crate::shared_block::{SharedBlock, give};
use crate::taking::{Next, make_publishing_and_taking, make_taking};
use block_machine::{Event, Reply};
use datasets::Read;
use delta::Finished;
use dict::Id;
use reads::Scanned;
use std::alloc::{AllocError, Global};
use std::sync::Wait;

impl<'a> SharedBlock<'a> {
    /// Takes a request, to execute its next incarnation.
    pub fn take<R: Wait>(
        &self,
        rt: &R,
        alloc: Global,
        pass: &mut Pass<'a>,
        i: usize,
    ) -> Result<Reply, AllocError>
        requires { pass.old.table ≡ self.now }
        ensures { Made pass.old pass.new (Event.Take i) result }
    {
        self.make_waiting(rt, alloc, pass, Event::Take(i))
    }

    /// What a worker can do next where all stands that the pass has then seen. Where that is to
    /// take a request below `most`, it is taken in the same hold of the lock.
    pub fn take_next<R: Wait>(
        &self,
        rt: &R,
        alloc: Global,
        pass: &mut Pass<'a>,
        most: usize,
    ) -> Result<Next, AllocError>
        requires { pass.old.table ≡ self.now }
        ensures { Took pass.old pass.new most result }
    {
        let worker = pass.worker();
        let mut held = self.hold(rt, pass);
        let _before = held.book.book.journal();
        let made = make_taking(alloc, &mut held.book.book, worker, most);
        give(held, pass);
        made
    }

    /// Asks what a read says where incarnation `n` of the request runs. The base is searched before
    /// the lock is taken.
    pub fn read<R: Wait>(
        &self,
        rt: &R,
        alloc: Global,
        pass: &mut Pass<'a>,
        i: usize,
        n: u64,
        read: &Read<Id>,
    ) -> Result<Reply, AllocError>
        requires { pass.old.table ≡ self.now }
        ensures { Made pass.old pass.new (Event.Read i n read.now) result }
    {
        self.make_waiting(rt, alloc, pass, Event::Read(i, n, *read))
    }

    /// Publishes a finished run of incarnation `n` of a request. The journal has a copy of it,
    /// which is made before the lock is taken.
    pub fn publish<R: Wait>(
        &self,
        rt: &R,
        alloc: Global,
        pass: &mut Pass<'a>,
        i: usize,
        n: u64,
        finished: &Finished,
    ) -> Result<Reply, AllocError>
        requires own { pass.old.table ≡ self.now }
        requires sound { IsSoundAt pass.old.subject i finished.now }
        ensures { Made pass.old pass.new (Event.Publish i n (Some finished.now)) result }
    {
        let copy = finished.copied(alloc)?;
        self.make_waiting(rt, alloc, pass, Event::Publish(i, n, Some(copy)))
    }

    /// Begins a pass of checks of incarnation `n` of a request.
    pub fn begin<R: Wait>(
        &self,
        rt: &R,
        alloc: Global,
        pass: &mut Pass<'a>,
        i: usize,
        n: u64,
    ) -> Result<Reply, AllocError>
        requires { pass.old.table ≡ self.now }
        ensures { Made pass.old pass.new (Event.Begin i n) result }
    {
        self.make_waiting(rt, alloc, pass, Event::Begin(i, n))
    }

    /// Checks the next note of the pass.
    pub fn check<R: Wait>(
        &self,
        rt: &R,
        alloc: Global,
        pass: &mut Pass<'a>,
        i: usize,
        n: u64,
    ) -> Result<Reply, AllocError>
        requires { pass.old.table ≡ self.now }
        ensures { Made pass.old pass.new (Event.Check i n) result }
    {
        self.make_waiting(rt, alloc, pass, Event::Check(i, n))
    }

    /// Commits a request.
    pub fn commit<R: Wait>(
        &self,
        rt: &R,
        alloc: Global,
        pass: &mut Pass<'a>,
        i: usize,
    ) -> Result<Reply, AllocError>
        requires { pass.old.table ≡ self.now }
        ensures { Made pass.old pass.new (Event.Commit i) result }
    {
        self.make_waiting(rt, alloc, pass, Event::Commit(i))
    }

    /// Leaves a request whose incarnation `n` the worker executes.
    pub fn give_up<R: Wait>(
        &self,
        rt: &R,
        alloc: Global,
        pass: &mut Pass<'a>,
        i: usize,
        n: u64,
    ) -> Result<Reply, AllocError>
        requires { pass.old.table ≡ self.now }
        ensures { Made pass.old pass.new (Event.GiveUp i n) result }
    {
        self.make_waiting(rt, alloc, pass, Event::GiveUp(i, n))
    }

    /// What follows a publication, in one hold of the lock: a pass of checks of incarnation `n` of
    /// request `i`, which has so many notes, and the commits of the requests from `i` on and below
    /// `until`. It stops behind the first reply that is none of `Begun`, `Passed` and `Committed`,
    /// and answers whether there was none. The replies come to the end of the list, those too after
    /// which a growth was refused.
    pub fn settle<R: Wait>(
        &self,
        rt: &R,
        alloc: Global,
        pass: &mut Pass<'a>,
        i: usize,
        n: u64,
        notes: usize,
        until: usize,
        replies: &mut Vec<Reply>,
    ) -> Result<bool, AllocError>
        requires { pass.old.table ≡ self.now }
        ensures { Adds pass.old pass.new (checking i n notes ++ committing i until)
            replies.old.items replies.new.items result }
    {
        replies.reserve(notes.saturating_add(1))?;
        let mut held = self.hold(rt, pass);
        let _before = held.book.book.journal();
        let made = make_settling(
            alloc,
            &mut held.book.book,
            pass,
            i,
            n,
            notes,
            until,
            replies,
        );
        give(held, pass);
        made
    }

    /// Publishes a finished run of incarnation `n` of request `i`, which the caller gives away, and
    /// settles it, in one hold of the lock. It stops behind the first reply that is none of
    /// `Published`, `Begun`, `Passed` and `Committed`, and answers whether there was none. The
    /// replies come to the end of the list, those too after which a growth was refused. Then, in
    /// the same hold, it is as `take_next`.
    pub fn publish_settled<R: Wait>(
        &self,
        rt: &R,
        alloc: Global,
        pass: &mut Pass<'a>,
        i: usize,
        n: u64,
        finished: Finished,
        notes: usize,
        until: usize,
        most: usize,
        replies: &mut Vec<Reply>,
    ) -> Result<(bool, Next), AllocError>
        requires own { pass.old.table ≡ self.now }
        requires sound { IsSoundAt pass.old.subject i finished }
        ensures { AddsAndTakes pass.old pass.new (publishing i n finished notes until)
            replies.old.items replies.new.items most result }
    {
        replies.reserve(notes.saturating_add(2))?;
        let mut held = self.hold(rt, pass);
        let _before = held.book.book.journal();
        let made = make_publishing_and_taking(
            alloc,
            &mut held.book.book,
            pass,
            i,
            n,
            finished,
            notes,
            until,
            most,
            replies,
        );
        give(held, pass);
        made
    }

    /// Asks what reads say where incarnation `n` of the request runs, in one hold of the lock, with
    /// what each says of the base. It stops behind the first that is not answered, and answers
    /// whether there was none. The replies come to the end of the list, those too after which a
    /// growth was refused.
    pub fn read_all<R: Wait>(
        &self,
        rt: &R,
        alloc: Global,
        pass: &mut Pass<'a>,
        i: usize,
        n: u64,
        reads: &[Read<Id>],
        scans: &[Scanned<'_>],
        replies: &mut Vec<Reply>,
    ) -> Result<bool, AllocError>
        requires own { pass.old.table ≡ self.now }
        requires scans { scans.now ≡ questions pass.old.subject.base reads.now }
        ensures { Adds pass.old pass.new (reading i n reads.now) replies.old.items replies.new.items
            result }
    {
        if reads.is_empty() {
            return Ok(true);
        }
        replies.reserve(reads.len())?;
        let mut held = self.hold(rt, pass);
        let _before = held.book.book.journal();
        let made = make_reads(
            alloc,
            &mut held.book.book,
            pass,
            i,
            n,
            reads,
            scans,
            replies,
        );
        give(held, pass);
        made
    }
}
