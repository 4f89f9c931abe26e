//! The calls that never wait. The places and incarnations are as in `block_machine::Event`.
ghost use Rattle.std.specs.Prelude.{◌≡◌, Some};
ghost use Rattle.shared.specs.Calls.{IsSoundAt, Tried};

use crate::pass::Pass;
use crate::refused::Refused;
use crate::shared_block::SharedBlock;
use block_machine::{Event, Reply};
use datasets::Read;
use delta::Finished;
use dict::Id;
use std::alloc::Global;

impl<'a> SharedBlock<'a> {
    /// Takes a request, to execute its next incarnation.
    pub fn try_take(&self, alloc: Global, pass: &mut Pass<'a>, i: usize) -> Result<Reply, Refused>
        requires { pass.old.table ≡ self.now }
        ensures { Tried pass.old pass.new (Event.Take i) result }
    {
        self.try_make(alloc, pass, Event::Take(i))
    }

    /// Asks what a read says where incarnation `n` of the request runs. The base is searched before
    /// the lock is taken.
    pub fn try_read(
        &self,
        alloc: Global,
        pass: &mut Pass<'a>,
        i: usize,
        n: u64,
        read: &Read<Id>,
    ) -> Result<Reply, Refused>
        requires { pass.old.table ≡ self.now }
        ensures { Tried pass.old pass.new (Event.Read i n read.now) result }
    {
        self.try_make(alloc, pass, Event::Read(i, n, *read))
    }

    /// Publishes a finished run of incarnation `n` of a request. The journal has a copy of it,
    /// which is made before the lock is taken.
    pub fn try_publish(
        &self,
        alloc: Global,
        pass: &mut Pass<'a>,
        i: usize,
        n: u64,
        finished: &Finished,
    ) -> Result<Reply, Refused>
        requires own { pass.old.table ≡ self.now }
        requires sound { IsSoundAt pass.old.subject i finished.now }
        ensures { Tried pass.old pass.new (Event.Publish i n (Some finished.now)) result }
    {
        let copy = finished.copied(alloc)?;
        self.try_make(alloc, pass, Event::Publish(i, n, Some(copy)))
    }

    /// Begins a pass of checks of incarnation `n` of a request.
    pub fn try_begin(
        &self,
        alloc: Global,
        pass: &mut Pass<'a>,
        i: usize,
        n: u64,
    ) -> Result<Reply, Refused>
        requires { pass.old.table ≡ self.now }
        ensures { Tried pass.old pass.new (Event.Begin i n) result }
    {
        self.try_make(alloc, pass, Event::Begin(i, n))
    }

    /// Checks the next note of the pass.
    pub fn try_check(
        &self,
        alloc: Global,
        pass: &mut Pass<'a>,
        i: usize,
        n: u64,
    ) -> Result<Reply, Refused>
        requires { pass.old.table ≡ self.now }
        ensures { Tried pass.old pass.new (Event.Check i n) result }
    {
        self.try_make(alloc, pass, Event::Check(i, n))
    }

    /// Commits a request.
    pub fn try_commit(&self, alloc: Global, pass: &mut Pass<'a>, i: usize) -> Result<Reply, Refused>
        requires { pass.old.table ≡ self.now }
        ensures { Tried pass.old pass.new (Event.Commit i) result }
    {
        self.try_make(alloc, pass, Event::Commit(i))
    }

    /// Leaves a request whose incarnation `n` the worker executes.
    pub fn try_give_up(
        &self,
        alloc: Global,
        pass: &mut Pass<'a>,
        i: usize,
        n: u64,
    ) -> Result<Reply, Refused>
        requires { pass.old.table ≡ self.now }
        ensures { Tried pass.old pass.new (Event.GiveUp i n) result }
    {
        self.try_make(alloc, pass, Event::GiveUp(i, n))
    }
}
