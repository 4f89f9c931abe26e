//! Each call on a shared book that may wait, by a worker alone, with what it is told.
ghost use Rattle.std.specs.Prelude.{◌<◌, All, IfOk, vec_len};
ghost use Rattle.blocklock.specs.Passes.{IsIdleAt};
ghost use Rattle.shared.specs.Calls.{IsSoundAt};
ghost use Rattle.shared.specs.Duty.{IsPassFor};

use crate::book_inputs::{Topic, nothing, topic_of};
use crate::lines::{Step, Told, told_with_count};
use crate::numbered_blocks::{numbered, request_at};
use crate::sharing::{BLOCK, opened_alone};
use crate::single_worker::executed;
use block_machine::Reply;
use book::Book;
use datasets::{GraphPlace, Id, QuadPattern, Read};
use delta::Finished;
use scheduler::Task;
use shared::{Pass, SharedBlock};
use std::alloc::{AllocError, Global};
use std::sync::Wait;
use std::test::Fail;

/// Asks for all quads.
const QUADS: Read<Id> = Read::Scan(QuadPattern {
    subject: None,
    predicate: None,
    object: None,
    graph: GraphPlace::Any,
});

// What a call that may wait is told, with how many quads it is answered, or nothing where a growth
// was refused. A read asks for all quads.
fn waited<'a, R: Wait>(
    rt: &R,
    alloc: Global,
    shared: &SharedBlock<'a>,
    topic: &Topic<'a>,
    pass: &mut Pass<'a>,
    step: Step,
) -> Option<(Told, u64)>
    requires { IsPassFor (record { table = shared.now; subject = topic.now }) pass.old }
    ensures { IsPassFor (record { table = shared.now; subject = topic.now }) pass.new }
{
    let _terms = topic.terms;
    let made = match step {
        Step::Take(i) => shared.take(rt, alloc, pass, i),
        Step::Read(i, n) => shared.read(rt, alloc, pass, i, n, &QUADS),
        Step::Begin(i, n) => shared.begin(rt, alloc, pass, i, n),
        Step::Check(i, n) => shared.check(rt, alloc, pass, i, n),
        Step::Commit(i) => shared.commit(rt, alloc, pass, i),
        Step::GiveUp(i, n) => shared.give_up(rt, alloc, pass, i, n),
        Step::Publish(_, _) | Step::PublishNothing(_, _) => Ok(Reply::Stale),
    };
    match made {
        Ok(reply) => Some(told_with_count(&reply)),
        Err(_) => None,
    }
}

// Whether each of these calls is told so.
fn are_told<'a, R: Wait>(
    rt: &R,
    alloc: Global,
    shared: &SharedBlock<'a>,
    topic: &Topic<'a>,
    pass: &mut Pass<'a>,
    calls: &[(Step, Told, u64)],
) -> bool
    requires { IsPassFor (record { table = shared.now; subject = topic.now }) pass.old }
    ensures { IsPassFor (record { table = shared.now; subject = topic.now }) pass.new }
{
    for (step, told, count) in calls {
        if waited(rt, alloc, shared, topic, pass, *step) != Some((*told, *count)) {
            return false;
        }
    }
    true
}

// Whether a run of the first request is published.
fn is_published<'a, R: Wait>(
    rt: &R,
    alloc: Global,
    shared: &SharedBlock<'a>,
    topic: &Topic<'a>,
    pass: &mut Pass<'a>,
    run: &Finished,
) -> bool
    requires pass { IsPassFor (record { table = shared.now; subject = topic.now }) pass.old }
    requires sound { IsSoundAt topic.now 0 run.now }
    ensures { IsPassFor (record { table = shared.now; subject = topic.now }) pass.new }
{
    let _terms = topic.terms;
    match shared.publish(rt, alloc, pass, 0, 0, run) {
        Ok(reply) => matches!(reply, Reply::Published),
        Err(_) => false,
    }
}

// Whether the run of the first request is published, whose reads are made by calls that never wait.
fn publishes<'a, R: Wait>(
    rt: &R,
    alloc: Global,
    shared: &SharedBlock<'a>,
    topic: &Topic<'a>,
    pass: Pass<'a>,
) -> (Pass<'a>, bool)
    requires { IsPassFor (record { table = shared.now; subject = topic.now }) pass }
    ensures { IsPassFor (record { table = shared.now; subject = topic.now }) result.0 }
{
    let Some(request) = request_at(topic.block, 0) else {
        return (pass, false);
    };
    match executed(alloc, shared, topic, pass, 0, request) {
        (mut pass, Some(run)) => {
            let is_published = is_published(rt, alloc, shared, topic, &mut pass, &run);
            (pass, is_published)
        }
        (pass, None) => (pass, false),
    }
}

// Whether a read of all quads for the second request, by a call that never waits, finds one.
fn finds_at_once<'a>(
    alloc: Global,
    shared: &SharedBlock<'a>,
    topic: &Topic<'a>,
    pass: &mut Pass<'a>,
) -> bool
    requires { IsPassFor (record { table = shared.now; subject = topic.now }) pass.old }
    ensures { IsPassFor (record { table = shared.now; subject = topic.now }) pass.new }
{
    let _terms = topic.terms;
    match shared.try_read(alloc, pass, 1, 0, &QUADS) {
        Ok(reply) => told_with_count(&reply) == (Told::Answered, 1),
        Err(_) => false,
    }
}

const TAKE: [(Step, Told, u64); 2] = [
    (Step::Take(0), Told::Taken(0), 0),
    (Step::Take(0), Told::Stale, 0),
];

// What follows when the run of the first request is published: it is committed, and the second
// request finds its quad.
const AFTER: [(Step, Told, u64); 5] = [
    (Step::Begin(0, 0), Told::Begun, 0),
    (Step::Check(0, 0), Told::Passed, 0),
    (Step::Commit(0), Told::Committed, 0),
    (Step::Take(1), Told::Taken(0), 0),
    (Step::Read(1, 0), Told::Answered, 1),
];

const LEAVE: [(Step, Told, u64); 1] = [(Step::GiveUp(1, 0), Told::Given, 0)];

// Whether the second request, which is taken, reads so and is left.
fn leaves<'a, R: Wait>(
    rt: &R,
    alloc: Global,
    shared: &SharedBlock<'a>,
    topic: &Topic<'a>,
    pass: &mut Pass<'a>,
) -> bool
    requires { IsPassFor (record { table = shared.now; subject = topic.now }) pass.old }
    ensures { IsPassFor (record { table = shared.now; subject = topic.now }) pass.new }
{
    if !finds_at_once(alloc, shared, topic, pass) {
        return false;
    }
    are_told(rt, alloc, shared, topic, pass, &LEAVE)
}

// The pass with which the first request is committed and the second taken and left, and whether
// each call was told so.
fn goes_through<'a, R: Wait>(
    rt: &R,
    alloc: Global,
    shared: &SharedBlock<'a>,
    topic: &Topic<'a>,
    mut pass: Pass<'a>,
) -> (Pass<'a>, bool)
    requires { IsPassFor (record { table = shared.now; subject = topic.now }) pass }
    ensures { IsPassFor (record { table = shared.now; subject = topic.now }) result.0 }
{
    if !are_told(rt, alloc, shared, topic, &mut pass, &TAKE) {
        return (pass, false);
    }
    let (mut pass, is_published) = publishes(rt, alloc, shared, topic, pass);
    if !is_published {
        return (pass, false);
    }
    let went = are_told(rt, alloc, shared, topic, &mut pass, &AFTER);
    (pass, went)
}

// Whether one request is committed, and the second can be taken next.
fn can_go_on<'a, R: Wait>(
    rt: &R,
    shared: &SharedBlock<'a>,
    topic: &Topic<'a>,
    pass: &mut Pass<'a>,
) -> bool
    requires { IsPassFor (record { table = shared.now; subject = topic.now }) pass.old }
    ensures { IsPassFor (record { table = shared.now; subject = topic.now }) pass.new }
{
    let _terms = topic.terms;
    let task = shared.task(rt, pass);
    let front = shared.front(rt, pass);
    front == 1 && matches!(task, Some(Task::Take(1)))
}

// The only pass, as all passes.
fn all_passes<'a>(
    alloc: Global,
    shared: &SharedBlock<'a>,
    topic: &Topic<'a>,
    pass: Pass<'a>,
) -> Result<Vec<Pass<'a>>, AllocError>
    requires { IsPassFor (record { table = shared.now; subject = topic.now }) pass }
    ensures some { IfOk result (λ passes. 0 < vec_len passes) }
    ensures idle { IfOk result (λ passes. All (IsIdleAt shared.now) passes.items) }
{
    let _terms = topic.terms;
    let mut passes = Vec::new(alloc);
    passes.push(pass)?;
    Ok(passes)
}

// The closed book of a worker, and whether it was told so, and then could take the second request
// again where one was committed.
fn closed<'a, R: Wait>(
    rt: &R,
    alloc: Global,
    shared: SharedBlock<'a>,
    topic: &Topic<'a>,
    pass: Pass<'a>,
) -> Result<(Book<'a>, bool), AllocError>
    requires { IsPassFor (record { table = shared; subject = topic.now }) pass }
{
    let (mut pass, went) = goes_through(rt, alloc, &shared, topic, pass);
    let left = leaves(rt, alloc, &shared, topic, &mut pass);
    let can_go_on = can_go_on(rt, &shared, topic, &mut pass);
    let passes = all_passes(alloc, &shared, topic, pass)?;
    Ok((shared.close(rt, passes), went && left && can_go_on))
}

// Whether it has an entry for each call that was answered, and one for the read of the run.
fn is_closed<R: Wait>(rt: &R, alloc: Global, topic: &Topic<'_>) -> Result<bool, AllocError> {
    let (shared, pass) = opened_alone(alloc, topic)?;
    let (book, went) = closed(rt, alloc, shared, topic, pass)?;
    let has_entries = book.front() == 1 && book.journal().len() == 11;
    drop(book);
    Ok(went && has_entries)
}

#[test]
fn calls_that_may_wait(rt: HostRuntime) -> Result<(), Fail> {
    let alloc = rt.alloc();
    let numbered = numbered(alloc, "", BLOCK)?;
    let base = nothing(alloc)?;
    let is_closed = is_closed(&rt, alloc, &topic_of(&numbered, &base));
    drop(base);
    drop(numbered);
    assert!(rt; is_closed?);
    Ok(())
}
