//! Each refusal of an event, by calls of two workers on a shared book that never wait.
ghost use Rattle.std.specs.Prelude.{◌<◌, All, IfOk, IfSome, vec_len};
ghost use Rattle.blocklock.specs.Passes.{IsIdleAt};
ghost use Rattle.shared.specs.Duty.{IsPassFor};

use crate::book_inputs::{Topic, nothing, topic_of};
use crate::books::REFUSALS;
use crate::lines::{Step, Told};
use crate::numbered_blocks::numbered;
use crate::replays::has_text;
use crate::sharing::{are_told, opened_by_two};
use crate::single_worker::published_as;
use book::Book;
use shared::{Pass, SharedBlock};
use std::alloc::{AllocError, Global};
use std::sync::Wait;
use std::test::Fail;

const TAKE: [(Step, Told); 1] = [(Step::Take(0), Told::Taken(0))];

// What the other worker is told of the request that is taken.
const BY_OTHER: [(Step, Told); 2] = [
    (Step::GiveUp(0, 0), Told::NotYours),
    (Step::Read(0, 0), Told::NotYours),
];

// What the worker is told that has taken it, before its run is published.
const BEFORE: [(Step, Told); 6] = [
    (Step::Take(0), Told::Stale),
    (Step::Begin(0, 0), Told::Stale),
    (Step::Check(0, 0), Told::Stale),
    (Step::Commit(0), Told::NotYet),
    (Step::Take(1), Told::Stale),
    (Step::Commit(1), Told::Stale),
];

// What it is told after that.
const AFTER: [(Step, Told); 5] = [
    (Step::Check(0, 0), Told::NotYet),
    (Step::Begin(0, 0), Told::Begun),
    (Step::Commit(0), Told::Committed),
    (Step::Commit(0), Told::Stale),
    (Step::Begin(0, 0), Told::Stale),
];

// The pass of the other worker, if its calls are told so.
fn other_is_refused<'a>(
    alloc: Global,
    shared: &SharedBlock<'a>,
    topic: &Topic<'a>,
    pass: Pass<'a>,
) -> Option<Pass<'a>>
    requires { IsPassFor (record { table = shared.now; subject = topic.now }) pass }
    ensures { IfSome result (IsPassFor (record { table = shared.now; subject = topic.now })) }
{
    let mut pass = published_as(alloc, shared, topic, pass, 0, &[(0, Told::NotYours)])?;
    are_told(alloc, shared, topic, &mut pass, &BY_OTHER).then_some(pass)
}

// The pass of the worker that has taken the request, if its calls are told so, to the commit and
// behind it.
fn goes_through<'a>(
    alloc: Global,
    shared: &SharedBlock<'a>,
    topic: &Topic<'a>,
    pass: Pass<'a>,
) -> Option<Pass<'a>>
    requires { IsPassFor (record { table = shared.now; subject = topic.now }) pass }
    ensures { IfSome result (IsPassFor (record { table = shared.now; subject = topic.now })) }
{
    let mut pass = published_as(alloc, shared, topic, pass, 0, &[(1, Told::Stale)])?;
    if !are_told(alloc, shared, topic, &mut pass, &BEFORE) {
        return None;
    }
    let mut pass = published_as(alloc, shared, topic, pass, 0, &[(0, Told::Published)])?;
    are_told(alloc, shared, topic, &mut pass, &AFTER).then_some(pass)
}

// The passes of both workers, if all their calls are told so.
fn both_passes<'a>(
    alloc: Global,
    shared: &SharedBlock<'a>,
    topic: &Topic<'a>,
    mut first: Pass<'a>,
    second: Pass<'a>,
) -> Option<(Pass<'a>, Pass<'a>)>
    requires first { IsPassFor (record { table = shared.now; subject = topic.now }) first }
    requires second { IsPassFor (record { table = shared.now; subject = topic.now }) second }
    ensures first { IfSome result (λ r. IsPassFor (record
        { table = shared.now; subject = topic.now }) r.0) }
    ensures second { IfSome result (λ r. IsPassFor (record
        { table = shared.now; subject = topic.now }) r.1) }
{
    if !are_told(alloc, shared, topic, &mut first, &TAKE) {
        return None;
    }
    let second = other_is_refused(alloc, shared, topic, second)?;
    let first = goes_through(alloc, shared, topic, first)?;
    Some((first, second))
}

// Two passes, as all passes.
fn all_passes<'a>(
    alloc: Global,
    shared: &SharedBlock<'a>,
    topic: &Topic<'a>,
    first: Pass<'a>,
    second: Pass<'a>,
) -> Result<Vec<Pass<'a>>, AllocError>
    requires first { IsPassFor (record { table = shared.now; subject = topic.now }) first }
    requires second { IsPassFor (record { table = shared.now; subject = topic.now }) second }
    ensures some { IfOk result (λ passes. 0 < vec_len passes) }
    ensures idle { IfOk result (λ passes. All (IsIdleAt shared.now) passes.items) }
{
    let _terms = topic.terms;
    let mut passes = Vec::new(alloc);
    passes.push(first)?;
    passes.push(second)?;
    Ok(passes)
}

// The closed book of both workers, if all their calls are told so.
fn closed<'a, R: Wait>(
    rt: &R,
    alloc: Global,
    topic: &Topic<'a>,
) -> Result<Option<Book<'a>>, AllocError> {
    let (shared, first, second) = opened_by_two(alloc, topic)?;
    let Some((first, second)) = both_passes(alloc, &shared, topic, first, second) else {
        return Ok(None);
    };
    let passes = all_passes(alloc, &shared, topic, first, second)?;
    Ok(Some(shared.close(rt, passes)))
}

// Whether they are, and the book has the journal of the refusals.
fn are_refused<R: Wait>(rt: &R, alloc: Global, topic: &Topic<'_>) -> Result<bool, AllocError> {
    let Some(book) = closed(rt, alloc, topic)? else {
        return Ok(false);
    };
    let has_text = has_text(alloc, &book, REFUSALS);
    drop(book);
    has_text
}

#[test]
fn refused_calls(rt: HostRuntime) -> Result<(), Fail> {
    let alloc = rt.alloc();
    let numbered = numbered(alloc, "", "\n")?;
    let base = nothing(alloc)?;
    let are_refused = are_refused(&rt, alloc, &topic_of(&numbered, &base));
    drop(base);
    drop(numbered);
    assert!(rt; are_refused?);
    Ok(())
}
