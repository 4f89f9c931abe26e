//! Blocks run one request after another.
ghost use Rattle.std.specs.Prelude.{IsTrue, IfOk};
ghost use Rattle.update.specs.Asked.{AreShort, IsShort};
ghost use Rattle.machine_tests.specs.Terms.{KnowsAll};

use crate::numbered_blocks::{count_quads, has_quads, numbered, numbered_by};
use datasets::Id;
use delta::Outcome;
use meaning::{Refusal, Reply, Request};
use numbering::Numbered;
use pool::{Open, run_block};
use serial::run;
use std::alloc::{AllocError, Global};
use std::sync::Wait;
use std::test::Fail;
use std::thread::Threads;

/// A block over a base, and what it comes to.
struct Row {
    base: &'static str,
    block: &'static str,
    replies: &'static [Reply],
    quads: &'static str,
}

const ROWS: [Row; 2] = [
    // Each request is run on what those before it left.
    Row {
        base: "<x:a> <x:p> <x:b> .\n<x:b> <x:p> <x:b> .\n",
        block: "INSERT DATA { <x:a> <x:p> <x:c> }\n----\nDELETE DATA { <x:a> <x:p> <x:b> }\n----\nINSERT\n----\n\
            INSERT DATA { <x:a> <x:p> <x:c> }\n----\n\
            DELETE { ?s <x:p> ?o } INSERT { ?o <x:p> ?s } WHERE { ?s <x:p> ?o }",
        replies: &[
            Reply::Done {
                added: 1,
                removed: 0,
            },
            Reply::Done {
                added: 0,
                removed: 1,
            },
            Reply::Refused(Refusal::Syntax),
            Reply::Done {
                added: 0,
                removed: 0,
            },
            Reply::Done {
                added: 1,
                removed: 1,
            },
        ],
        quads: "+ <x:b> <x:p> <x:b>\n+ <x:c> <x:p> <x:a>\n",
    },
    // No request leaves the base.
    Row {
        base: "<x:a> <x:p> <x:b> .\n",
        block: "",
        replies: &[],
        quads: "+ <x:a> <x:p> <x:b>\n",
    },
];

fn is_short(request: &Request<Id>) -> bool
    ensures { IsTrue result → IsShort request.now }
{
    match request {
        Ok(operations) => operations.len() < 1000,
        Err(_) => true,
    }
}

/// Whether each request has few operations.
pub fn are_short(block: &[Request<Id>]) -> bool
    ensures { IsTrue result → AreShort block.now }
{
    block.iter().all(is_short)
}

/// What a block over a base comes to, request by request, where it has at most a thousand.
pub fn outcome(alloc: Global, numbered: &Numbered) -> Result<Option<Outcome>, AllocError>
    requires { KnowsAll numbered.now }
{
    let block = numbered.block.as_slice();
    if block.len() > 1000 || !are_short(block) {
        return Ok(None);
    }
    Ok(Some(run(alloc, &numbered.base, block)?))
}

// Whether that are these replies, and a dataset of these quads.
fn is_come_to(
    alloc: Global,
    numbered: &Numbered,
    replies: &[Reply],
    quads: &str,
) -> Result<bool, AllocError>
    requires { KnowsAll numbered.now }
{
    let Some(outcome) = outcome(alloc, numbered)? else {
        return Ok(false);
    };
    Ok(
        outcome.replies.as_slice() == replies
            && has_quads(alloc, numbered.base.terms(), &outcome.dataset, quads)?,
    )
}

/// Whether a row comes out.
fn comes_out(alloc: Global, row: &Row) -> Result<bool, Fail> {
    let numbered = numbered(alloc, row.base, row.block)?;
    let is_come_to = is_come_to(alloc, &numbered, row.replies, row.quads);
    drop(numbered);
    Ok(is_come_to?)
}

#[test]
fn one_after_another(rt: HostRuntime) -> Result<(), Fail> {
    for row in &ROWS {
        assert!(rt; comes_out(rt.alloc(), row)?, "{}", row.block);
    }
    Ok(())
}

const DIGITS: [&str; 4] = ["1", "2", "3", "4"];

// Whether the request at this place puts its quad in. The others take it out.
fn is_in(place: usize) -> bool {
    (place / 16) % 2 == 0
}

fn push_request(text: &mut String, place: usize) -> Result<(), AllocError> {
    text.push_str(if is_in(place) { "INSERT" } else { "DELETE" })?;
    text.push_str(" DATA { <x:a> <x:p> ")?;
    text.push_str(DIGITS[place % 4])?;
    text.push_str(DIGITS[place / 4 % 4])?;
    text.push_str(" }\n----\n")
}

// Sixteen quads are put in, taken out, put in and so on, one a request. The last request is
// refused.
fn rounds(alloc: Global) -> Result<String, AllocError> {
    let mut text = String::new(alloc);
    for place in 0..208 {
        push_request(&mut text, place)?;
    }
    text.push_str("INSERT")?;
    Ok(text)
}

fn reply_at(place: usize) -> Reply {
    if place == 208 {
        return Reply::Refused(Refusal::Syntax);
    }
    let (added, removed) = if is_in(place) { (1, 0) } else { (0, 1) };
    Reply::Done { added, removed }
}

fn are_as_told(replies: &[Reply]) -> bool {
    for place in 0..replies.len() {
        if replies[place] != reply_at(place) {
            return false;
        }
    }
    true
}

// Whether each request of the rounds is told what it does, and the sixteen quads are in at the end.
fn is_joined(alloc: Global, numbered: &Numbered) -> Result<bool, AllocError>
    requires { KnowsAll numbered.now }
{
    let Some(outcome) = outcome(alloc, numbered)? else {
        return Ok(false);
    };
    let replies = outcome.replies.as_slice();
    Ok(replies.len() == 209 && are_as_told(replies) && count_quads(&outcome.dataset) == 16)
}

// The rounds at their numbers.
fn numbered_rounds(alloc: Global) -> Result<Numbered, Fail>
    ensures { IfOk result (λ n. KnowsAll n) }
{
    let block = rounds(alloc)?;
    numbered(alloc, "", block.as_str())
}

#[test]
fn changes_are_joined(rt: HostRuntime) -> Result<(), Fail> {
    let numbered = numbered_rounds(rt.alloc())?;
    let is_joined = is_joined(rt.alloc(), &numbered);
    drop(numbered);
    assert!(rt; is_joined?);
    Ok(())
}

// The same at numbers that threads find.
fn rounds_by_threads<T: Threads + Sync>(rt: &T, alloc: Global) -> Result<Numbered, Fail>
    ensures { IfOk result (λ n. KnowsAll n) }
{
    let block = rounds(alloc)?;
    numbered_by(rt, alloc, block.as_str())
}

#[test]
fn changes_numbered_by_threads_are_joined(rt: HostRuntime) -> Result<(), Fail> {
    let numbered = rounds_by_threads(&rt, rt.alloc())?;
    let is_joined = is_joined(rt.alloc(), &numbered);
    drop(numbered);
    assert!(rt; is_joined?);
    Ok(())
}

// A number's last four digits to the base of four.
fn push_number(text: &mut String, number: usize) -> Result<(), AllocError> {
    for part in [number / 64, number / 16, number / 4, number] {
        text.push_str(DIGITS[part % 4])?;
    }
    Ok(())
}

// 100 requests, each of which puts in a quad of its own.
fn apart(alloc: Global) -> Result<String, AllocError> {
    let mut text = String::new(alloc);
    for place in 0..100 {
        text.push_str("INSERT DATA { <x:a> <x:p> ")?;
        push_number(&mut text, place)?;
        text.push_str(" }\n----\n")?;
    }
    Ok(text)
}

// Whether four workers put in each of 100 quads, whose changes are joined at the end by threads.
fn are_put_in<R: Threads + Wait + Sync>(
    rt: &R,
    alloc: Global,
    numbered: &Numbered,
) -> Result<bool, AllocError>
    requires { KnowsAll numbered.now }
{
    let block = numbered.block.as_slice();
    if block.len() > 1000 || !are_short(block) {
        return Ok(false);
    }
    let (terms, base) = (numbered.base.terms(), numbered.base.dataset());
    let outcome = run_block(rt, alloc, terms, base, block, 4, &Open)?;
    let replies = outcome.replies.as_slice();
    let added = replies.iter().filter(|reply| **reply == reply_at(0));
    Ok(added.count() == 100 && count_quads(&outcome.dataset) == 100)
}

#[test]
fn changes_apart_are_joined_by_threads(rt: HostRuntime) -> Result<(), Fail> {
    let block = apart(rt.alloc())?;
    let numbered = numbered(rt.alloc(), "", block.as_str())?;
    let are_put_in = are_put_in(&rt, rt.alloc(), &numbered);
    drop(numbered);
    assert!(rt; are_put_in?);
    Ok(())
}
