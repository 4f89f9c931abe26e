//! Many events of a worker while it holds a shared book once.
ghost use Rattle.shared.specs.Calls.{IsSoundAt};
ghost use Rattle.shared.specs.Duty.{IsPassFor};

use crate::book_inputs::{Topic, nothing, topic_of};
use crate::lines::{Step, Told, told_by, told_with_count};
use crate::numbered_blocks::{numbered, request_at};
use crate::sharing::{BLOCK, are_told, opened_alone, opened_by_two};
use crate::single_worker::{executed, published};
use block_machine::Reply;
use datasets::{GraphPlace, QuadPattern, Read};
use delta::Finished;
use reads::Scanned;
use shared::{Next, Pass, SharedBlock};
use std::alloc::{AllocError, Global};
use std::sync::Wait;
use std::test::Fail;

// Takes the first request, publishes its run and settles it.
fn settles<'a, R: Wait>(
    rt: &R,
    alloc: Global,
    shared: &SharedBlock<'a>,
    topic: &Topic<'a>,
    mut pass: Pass<'a>,
    replies: &mut Vec<Reply>,
) -> Result<bool, AllocError>
    requires { IsPassFor (record { table = shared.now; subject = topic.now }) pass }
{
    let take = [(Step::Take(0), Told::Taken(0))];
    if !are_told(alloc, shared, topic, &mut pass, &take) {
        return Ok(false);
    }
    match published(alloc, shared, topic, pass, 0) {
        Some(mut pass) => shared.settle(rt, alloc, &mut pass, 0, 0, 1, topic.block.len(), replies),
        None => Ok(false),
    }
}

// The reply to the take of the next request, if it was taken.
fn push_taken(next: Next, replies: &mut Vec<Reply>) -> Result<(), AllocError> {
    if let Some(reply) = next.taken {
        replies.push(reply)?;
    }
    Ok(())
}

// Publishes and settles the run of the first request, and takes the next one.
fn publishes_run<'a, R: Wait>(
    rt: &R,
    alloc: Global,
    shared: &SharedBlock<'a>,
    topic: &Topic<'a>,
    mut pass: Pass<'a>,
    run: Finished,
    replies: &mut Vec<Reply>,
) -> Result<bool, AllocError>
    requires pass { IsPassFor (record { table = shared.now; subject = topic.now }) pass }
    requires sound { IsSoundAt topic.now 0 run }
{
    let until = topic.block.len();
    let published = shared.publish_settled(
        rt, alloc, &mut pass, 0, 0, run, 1, until, until, replies,
    );
    drop(pass);
    let (whole, next) = published?;
    push_taken(next, replies)?;
    Ok(whole)
}

// Takes the first request, runs it, publishes and settles its run, and takes the next one.
fn publishes_settled<'a, R: Wait>(
    rt: &R,
    alloc: Global,
    shared: &SharedBlock<'a>,
    topic: &Topic<'a>,
    mut pass: Pass<'a>,
    replies: &mut Vec<Reply>,
) -> Result<bool, AllocError>
    requires { IsPassFor (record { table = shared.now; subject = topic.now }) pass }
{
    let take = [(Step::Take(0), Told::Taken(0))];
    if !are_told(alloc, shared, topic, &mut pass, &take) {
        return Ok(false);
    }
    let Some(request) = request_at(topic.block, 0) else {
        return Ok(false);
    };
    match executed(alloc, shared, topic, pass, 0, request) {
        (pass, Some(run)) => publishes_run(rt, alloc, shared, topic, pass, run, replies),
        _ => Ok(false),
    }
}

// What can be done first, with the reply to a take of a request below a place.
fn first_task<R: Wait>(
    rt: &R,
    alloc: Global,
    topic: &Topic<'_>,
    most: usize,
) -> Result<Next, AllocError> {
    let (shared, mut pass) = opened_alone(alloc, topic)?;
    let next = shared.take_next(rt, alloc, &mut pass, most);
    drop(pass);
    drop(shared);
    next
}

// Reads all quads and all names for the second request.
fn reads<'a, R: Wait>(
    rt: &R,
    alloc: Global,
    shared: &SharedBlock<'a>,
    topic: &Topic<'a>,
    pass: &mut Pass<'a>,
    replies: &mut Vec<Reply>,
) -> Result<bool, AllocError>
    requires { IsPassFor (record { table = shared.now; subject = topic.now }) pass.old }
{
    let all = QuadPattern {
        subject: None,
        predicate: None,
        object: None,
        graph: GraphPlace::Any,
    };
    let reads = [Read::Scan(all), Read::Graphs];
    let quads = Scanned::new(alloc, topic.base, &reads[0])?;
    let names = Scanned::new(alloc, topic.base, &reads[1])?;
    shared.read_all(rt, alloc, pass, 1, 0, &reads, &[quads, names], replies)
}

// Takes the second request and reads all quads and all names for it.
fn reads_all<'a, R: Wait>(
    rt: &R,
    alloc: Global,
    shared: &SharedBlock<'a>,
    topic: &Topic<'a>,
    mut pass: Pass<'a>,
    replies: &mut Vec<Reply>,
) -> Result<bool, AllocError>
    requires { IsPassFor (record { table = shared.now; subject = topic.now }) pass }
{
    let take = [(Step::Take(1), Told::Taken(0))];
    if !are_told(alloc, shared, topic, &mut pass, &take) {
        return Ok(false);
    }
    reads(rt, alloc, shared, topic, &mut pass, replies)
}

// What two workers are told that do so, one after the other.
fn push_both<'a, R: Wait>(
    rt: &R,
    alloc: Global,
    shared: &SharedBlock<'a>,
    topic: &Topic<'a>,
    first: Pass<'a>,
    second: Pass<'a>,
    replies: &mut Vec<Reply>,
) -> Result<(), AllocError>
    requires first { IsPassFor (record { table = shared.now; subject = topic.now }) first }
    requires second { IsPassFor (record { table = shared.now; subject = topic.now }) second }
{
    let settled = settles(rt, alloc, shared, topic, first, replies);
    let read = reads_all(rt, alloc, shared, topic, second, replies);
    settled?;
    read?;
    Ok(())
}

// The replies to the two workers of a book.
fn replies_of<R: Wait>(rt: &R, alloc: Global, topic: &Topic<'_>) -> Result<Vec<Reply>, AllocError> {
    let (shared, first, second) = opened_by_two(alloc, topic)?;
    let mut replies = Vec::new(alloc);
    let pushed = push_both(rt, alloc, &shared, topic, first, second, &mut replies);
    drop(shared);
    pushed?;
    Ok(replies)
}

// The replies to one worker that publishes and settles in one hold.
fn replies_to_publication<R: Wait>(
    rt: &R,
    alloc: Global,
    topic: &Topic<'_>,
) -> Result<Vec<Reply>, AllocError> {
    let (shared, pass) = opened_alone(alloc, topic)?;
    let mut replies = Vec::new(alloc);
    let pushed = publishes_settled(rt, alloc, &shared, topic, pass, &mut replies);
    drop(shared);
    pushed?;
    Ok(replies)
}

// What is told, each with how many quads or names were answered.
fn told(alloc: Global, replies: &[Reply]) -> Result<Vec<(Told, u64)>, AllocError> {
    let mut told = Vec::new(alloc);
    for reply in replies {
        told.push(told_with_count(reply))?;
    }
    Ok(told)
}

const EXPECTED: [(Told, u64); 6] = [
    (Told::Begun, 0),
    (Told::Passed, 0),
    (Told::Committed, 0),
    (Told::NotYet, 0),
    (Told::Answered, 1),
    (Told::Answered, 0),
];

// Whether the two workers are told so.
fn are_expected<R: Wait>(rt: &R, alloc: Global, topic: &Topic<'_>) -> Result<bool, AllocError> {
    let replies = replies_of(rt, alloc, topic)?;
    let told = told(alloc, replies.as_slice())?;
    Ok(told.as_slice() == EXPECTED.as_slice())
}

const PUBLISHED: [(Told, u64); 6] = [
    (Told::Published, 0),
    (Told::Begun, 0),
    (Told::Passed, 0),
    (Told::Committed, 0),
    (Told::NotYet, 0),
    (Told::Taken(0), 0),
];

// Whether the one worker is told so.
fn is_published<R: Wait>(rt: &R, alloc: Global, topic: &Topic<'_>) -> Result<bool, AllocError> {
    let replies = replies_to_publication(rt, alloc, topic)?;
    let told = told(alloc, replies.as_slice())?;
    Ok(told.as_slice() == PUBLISHED.as_slice())
}

// Whether something can be done first, and what is told of the take of a request below a place,
// where one is taken at once.
fn first_told<R: Wait>(
    rt: &R,
    alloc: Global,
    topic: &Topic<'_>,
    most: usize,
) -> Result<(bool, Option<Told>), AllocError> {
    let next = first_task(rt, alloc, topic, most)?;
    let told = match &next.taken {
        Some(reply) => Some(told_by(reply)),
        None => None,
    };
    Ok((next.task.is_some(), told))
}

// Whether each of these workers is told what it should be.
fn are_all_told<R: Wait>(rt: &R, alloc: Global, topic: &Topic<'_>) -> Result<bool, AllocError> {
    Ok(
        are_expected(rt, alloc, topic)?
            && is_published(rt, alloc, topic)?
            && first_told(rt, alloc, topic, 0)? == (true, None)
            && first_told(rt, alloc, topic, 1)?.1 == Some(Told::Taken(0)),
    )
}

#[test]
fn many_events_in_one_hold(rt: HostRuntime) -> Result<(), Fail> {
    let alloc = rt.alloc();
    let numbered = numbered(alloc, "", BLOCK)?;
    let base = nothing(alloc)?;
    let topic = topic_of(&numbered, &base);
    let are_told = are_all_told(&rt, alloc, &topic);
    drop(base);
    drop(numbered);
    assert!(rt; are_told?);
    Ok(())
}
