//! A shared book and one worker alone, by calls that never wait.
ghost use Rattle.std.specs.Prelude.{◌≡◌, ◌+◌, ◌<◌, ◌≤◌, vec_len, All, IfOk};
ghost use Rattle.shared.specs.Duty.{IsPassFor};

use crate::book_inputs::{Topic, nothing, topic_of};
use crate::lines::{Step, Told, told_by};
use crate::numbered_blocks::numbered;
use crate::single_worker::{published, published_as};
use block_machine::Reply;
use datasets::Read;
use shared::{Pass, SharedBlock};
use std::alloc::{AllocError, Global};
use std::sync::Wait;
use std::test::Fail;

// A shared book with this many passes.
fn opened<'a>(
    alloc: Global,
    topic: &Topic<'a>,
    seats: u32,
) -> Result<(SharedBlock<'a>, Vec<Pass<'a>>), AllocError>
    requires seats { (0 < seats) × (seats ≤ 64) }
    ensures count { IfOk result (λ r. vec_len r.1 ≡ seats) }
    ensures each { IfOk result (λ r. All (IsPassFor (record { table = r.0; subject = topic.now }))
        r.1.items) }
{
    SharedBlock::new(alloc, topic.terms, topic.base, topic.block, seats)
}

// The last of the passes.
fn last<'a>(shared: &SharedBlock<'a>, topic: &Topic<'a>, passes: &mut Vec<Pass<'a>>) -> Pass<'a>
    requires some { 0 < vec_len passes.old }
    requires each { All (IsPassFor (record { table = shared.now; subject = topic.now }))
        passes.old.items }
    ensures pass { IsPassFor (record { table = shared.now; subject = topic.now }) result }
    ensures rest { All (IsPassFor (record { table = shared.now; subject = topic.now }))
        passes.new.items }
    ensures count { vec_len passes.new + 1 ≡ vec_len passes.old }
{
    passes.pop().unwrap()
}

/// A shared book and its only pass.
pub fn opened_alone<'a>(
    alloc: Global,
    topic: &Topic<'a>,
) -> Result<(SharedBlock<'a>, Pass<'a>), AllocError>
    ensures { IfOk result (λ r. IsPassFor (record { table = r.0; subject = topic.now }) r.1) }
{
    let (shared, mut passes) = opened(alloc, topic, 1)?;
    let pass = last(&shared, topic, &mut passes);
    Ok((shared, pass))
}

/// A shared book and its two passes.
pub fn opened_by_two<'a>(
    alloc: Global,
    topic: &Topic<'a>,
) -> Result<(SharedBlock<'a>, Pass<'a>, Pass<'a>), AllocError>
    ensures first { IfOk result (λ r. IsPassFor (record { table = r.0; subject = topic.now }) r.1) }
    ensures second { IfOk result (λ r. IsPassFor (record { table = r.0; subject = topic.now }) r.2) }
{
    let (shared, mut passes) = opened(alloc, topic, 2)?;
    let second = last(&shared, topic, &mut passes);
    let first = last(&shared, topic, &mut passes);
    Ok((shared, first, second))
}

// What a call that never waits is told, or nothing where it made no event. A read asks for all graph
// names.
fn tried<'a>(
    alloc: Global,
    shared: &SharedBlock<'a>,
    topic: &Topic<'a>,
    pass: &mut Pass<'a>,
    step: Step,
) -> Option<Told>
    requires { IsPassFor (record { table = shared.now; subject = topic.now }) pass.old }
    ensures { IsPassFor (record { table = shared.now; subject = topic.now }) pass.new }
{
    let _terms = topic.terms;
    let made = match step {
        Step::Take(i) => shared.try_take(alloc, pass, i),
        Step::Begin(i, n) => shared.try_begin(alloc, pass, i, n),
        Step::Check(i, n) => shared.try_check(alloc, pass, i, n),
        Step::Commit(i) => shared.try_commit(alloc, pass, i),
        Step::GiveUp(i, n) => shared.try_give_up(alloc, pass, i, n),
        Step::Read(i, n) => shared.try_read(alloc, pass, i, n, &Read::Graphs),
        Step::Publish(_, _) | Step::PublishNothing(_, _) => Ok(Reply::Stale),
    };
    match made {
        Ok(reply) => Some(told_by(&reply)),
        Err(_) => None,
    }
}

/// Whether each of these calls that never wait is told so.
pub fn are_told<'a>(
    alloc: Global,
    shared: &SharedBlock<'a>,
    topic: &Topic<'a>,
    pass: &mut Pass<'a>,
    calls: &[(Step, Told)],
) -> bool
    requires { IsPassFor (record { table = shared.now; subject = topic.now }) pass.old }
    ensures { IsPassFor (record { table = shared.now; subject = topic.now }) pass.new }
{
    for (step, told) in calls {
        if tried(alloc, shared, topic, pass, *step) != Some(*told) {
            return false;
        }
    }
    true
}

// What follows when a worker has published its run of the first request: it commits it, takes the
// second and gives it up.
const AFTER: [(Step, Told); 5] = [
    (Step::Begin(0, 0), Told::Begun),
    (Step::Check(0, 0), Told::Passed),
    (Step::Commit(0), Told::Committed),
    (Step::Take(1), Told::Taken(0)),
    (Step::GiveUp(1, 0), Told::Given),
];

// The calls that never wait, by one worker: the first request to its commit, and the second is
// taken and given up.
fn goes_through<'a>(
    alloc: Global,
    shared: &SharedBlock<'a>,
    topic: &Topic<'a>,
    mut pass: Pass<'a>,
) -> bool
    requires { IsPassFor (record { table = shared.now; subject = topic.now }) pass }
{
    let take = [(Step::Take(0), Told::Taken(0))];
    if !are_told(alloc, shared, topic, &mut pass, &take) {
        return false;
    }
    match published(alloc, shared, topic, pass, 0) {
        Some(mut pass) => are_told(alloc, shared, topic, &mut pass, &AFTER),
        None => false,
    }
}

// How many requests are committed as a first pass sees it, where a second one has committed the
// first request.
fn front_of_others<'a, R: Wait>(
    rt: &R,
    alloc: Global,
    topic: &Topic<'a>,
) -> Result<Option<usize>, AllocError> {
    let (shared, mut first, second) = opened_by_two(alloc, topic)?;
    let went = goes_through(alloc, &shared, topic, second);
    let front = shared.front(rt, &mut first);
    drop(first);
    drop(shared);
    Ok(went.then_some(front))
}

// The calls that never wait, by one worker, of a request that asks nothing: it is given up once, a
// publication comes too late, and the next incarnation is committed.
fn goes_by_journal<'a>(
    alloc: Global,
    shared: &SharedBlock<'a>,
    topic: &Topic<'a>,
    mut pass: Pass<'a>,
) -> bool
    requires { IsPassFor (record { table = shared.now; subject = topic.now }) pass }
{
    let before = [
        (Step::Take(0), Told::Taken(0)),
        (Step::GiveUp(0, 0), Told::Given),
        (Step::Take(0), Told::Taken(1)),
    ];
    let publications = [(0, Told::Stale), (1, Told::Published)];
    let after = [
        (Step::Begin(0, 1), Told::Begun),
        (Step::Commit(0), Told::Committed),
    ];
    if !are_told(alloc, shared, topic, &mut pass, &before) {
        return false;
    }
    match published_as(alloc, shared, topic, pass, 0, &publications) {
        Some(mut pass) => are_told(alloc, shared, topic, &mut pass, &after),
        None => false,
    }
}

// Whether a worker alone goes through them.
fn alone_goes(alloc: Global, topic: &Topic<'_>) -> Result<bool, AllocError> {
    let (shared, pass) = opened_alone(alloc, topic)?;
    let went = goes_by_journal(alloc, &shared, topic, pass);
    drop(shared);
    Ok(went)
}

#[test]
fn calls_succeed(rt: HostRuntime) -> Result<(), Fail> {
    let alloc = rt.alloc();
    let numbered = numbered(alloc, "", "\n")?;
    let base = nothing(alloc)?;
    let went = alone_goes(alloc, &topic_of(&numbered, &base));
    drop(base);
    drop(numbered);
    assert!(rt; went?);
    Ok(())
}

/// A block of two requests.
pub const BLOCK: &str =
    "INSERT DATA { <x:a> <x:p> <x:b> }\n----\nINSERT DATA { <x:a> <x:p> <x:b> , <x:c> }";

#[test]
fn front_counts_others(rt: HostRuntime) -> Result<(), Fail> {
    let alloc = rt.alloc();
    let numbered = numbered(alloc, "", BLOCK)?;
    let base = nothing(alloc)?;
    let front = front_of_others(&rt, alloc, &topic_of(&numbered, &base));
    drop(base);
    drop(numbered);
    assert!(rt; front? == Some(1));
    Ok(())
}
