//! A shared book by the passes of its two workers, and calls that never wait.
ghost use Rattle.std.specs.Prelude.{◌≡◌, ◌+◌, ◌<◌, [], vec_len, All, IfOk};
ghost use Rattle.blocklock.specs.Passes.{IsIdleAt};
ghost use Rattle.shared.specs.Calls.{run_of};
ghost use Rattle.shared.specs.Duty.{IsPassFor};
ghost use Rattle.book.specs.Run.{IsSoundEvent};
ghost use Rattle.steps_again.specs.Runs.{IsOf, KnowsAll, Sees, duty_of};

use crate::player::Makes;
use block_machine::{Event, Reply};
use book::Book;
use numbering::Numbered;
use shared::{Pass, Refused, SharedBlock};
use std::alloc::{AllocError, Global};
use std::marker::Model;
use std::sync::Wait;

/// A shared book, what it is of, and the passes of its two workers.
#[derive(Drop)]
pub struct Seats<'a> {
    numbered: &'a Numbered,
    shared: SharedBlock<'a>,
    first: Pass<'a>,
    second: Pass<'a>,
}

impl<'a> Model for Seats<'a> {
    ghost use Rattle.std.specs.Prelude.{[]};
    ghost use Rattle.std.specs.Coded.{codes};
    ghost use Rattle.algebra.specs.Codes.{plan_code};
    ghost use Rattle.datasets.specs.declared.id.Id.{Id as Number};
    ghost use Rattle.book.specs.Run.{Run};
    ghost use Rattle.shared.specs.Calls.{run_of};
    ghost use Rattle.shared.specs.Duty.{IsPassFor};
    ghost use Rattle.steps_again.specs.Runs.{duty_of, subject_of};

    ghost Value = { Run };

    ghost coded = { Prim.hlevel (codes, plan_code {K = Number} (Prim.hlevel codes)) };

    ghost view = { λ s. run_of (subject_of s.numbered.now) [] };

    ghost invariant = { λ s. IsPassFor (duty_of s.shared s.numbered.now) s.first
        × IsPassFor (duty_of s.shared s.numbered.now) s.second };
}

// The call of an event. One that publishes nothing has none.
fn call<'a>(
    alloc: Global,
    shared: &SharedBlock<'a>,
    pass: &mut Pass<'a>,
    event: &Event,
) -> Result<Reply, Refused>
    requires own { pass.old.table ≡ shared.now }
    requires sound { IsSoundEvent (run_of pass.old.subject []) event.now }
    ensures { Sees pass.old pass.new }
{
    match event {
        Event::Take(i) => shared.try_take(alloc, pass, *i),
        Event::Read(i, n, read) => shared.try_read(alloc, pass, *i, *n, read),
        Event::Publish(i, n, Some(run)) => shared.try_publish(alloc, pass, *i, *n, run),
        Event::Publish(_, _, None) => Ok(Reply::Stale),
        Event::Begin(i, n) => shared.try_begin(alloc, pass, *i, *n),
        Event::Check(i, n) => shared.try_check(alloc, pass, *i, *n),
        Event::Commit(i) => shared.try_commit(alloc, pass, *i),
        Event::GiveUp(i, n) => shared.try_give_up(alloc, pass, *i, *n),
    }
}

impl<'a> Makes for Seats<'a> {
    ghost run = { λ s. s };

    fn make(&mut self, alloc: Global, worker: u32, event: &Event) -> Result<Reply, AllocError> {
        let made = if worker == 0 {
            call(alloc, &self.shared, &mut self.first, event)
        } else {
            call(alloc, &self.shared, &mut self.second, event)
        };
        match made {
            Ok(reply) => Ok(reply),
            Err(_) => Err(AllocError),
        }
    }
}

// A shared book with two passes.
fn opened<'a>(
    alloc: Global,
    numbered: &'a Numbered,
) -> Result<(SharedBlock<'a>, Vec<Pass<'a>>), AllocError>
    requires { KnowsAll numbered.now }
    ensures count { IfOk result (λ r. vec_len r.1 ≡ 2) }
    ensures each { IfOk result (λ r. All (IsPassFor (duty_of r.0 numbered.now)) r.1.items) }
{
    let (terms, base) = (numbered.base.terms(), numbered.base.dataset());
    SharedBlock::new(alloc, terms, base, numbered.block.as_slice(), 2)
}

// The last of the passes.
fn last<'a>(shared: &SharedBlock<'a>, numbered: &Numbered, passes: &mut Vec<Pass<'a>>) -> Pass<'a>
    requires some { 0 < vec_len passes.old }
    requires each { All (IsPassFor (duty_of shared.now numbered.now)) passes.old.items }
    ensures pass { IsPassFor (duty_of shared.now numbered.now) result }
    ensures rest { All (IsPassFor (duty_of shared.now numbered.now)) passes.new.items }
    ensures count { vec_len passes.new + 1 ≡ vec_len passes.old }
{
    passes.pop().unwrap()
}

// Two passes, as all passes.
fn all_passes<'a>(
    alloc: Global,
    shared: &SharedBlock<'a>,
    first: Pass<'a>,
    second: Pass<'a>,
) -> Result<Vec<Pass<'a>>, AllocError>
    requires first { IsIdleAt shared.now first }
    requires second { IsIdleAt shared.now second }
    ensures some { IfOk result (λ passes. 0 < vec_len passes) }
    ensures idle { IfOk result (λ passes. All (IsIdleAt shared.now) passes.items) }
{
    let mut passes = Vec::new(alloc);
    passes.push(first)?;
    passes.push(second)?;
    Ok(passes)
}

impl<'a> Seats<'a> {
    /// Before any event.
    pub fn new(alloc: Global, numbered: &'a Numbered) -> Result<Seats<'a>, AllocError>
        requires { KnowsAll numbered.now }
        ensures { IfOk result (IsOf numbered.now) }
    {
        let (shared, mut passes) = opened(alloc, numbered)?;
        let second = last(&shared, numbered, &mut passes);
        let first = last(&shared, numbered, &mut passes);
        Ok(Seats {
            numbered,
            shared,
            first,
            second,
        })
    }

    /// The book when nobody shares it any more.
    pub fn close<R: Wait>(self, rt: &R, alloc: Global) -> Result<Book<'a>, AllocError> {
        let Seats {
            shared,
            first,
            second,
            ..
        } = self;
        let passes = all_passes(alloc, &shared, first, second)?;
        Ok(shared.close(rt, passes))
    }
}
