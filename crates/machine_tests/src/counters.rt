//! A block in which each request moves one counter on, so that each conflicts with the one before
//! it.
ghost use Rattle.std.specs.Prelude.{IfOk};
ghost use Rattle.machine_tests.specs.Terms.{KnowsAll};

use crate::blocks::{are_short, outcome};
use crate::numbered_blocks::{numbered, quads_of, repeated};
use delta::Outcome;
use dict::Dict;
use meaning::Reply;
use numbering::Numbered;
use pool::{Gate, run_block};
use std::alloc::{AllocError, Global};
use std::sync::Wait;
use std::test::Fail;
use std::thread::Threads;

// Moves the counter on to the number behind its own.
const MOVE: &str = "\
    DELETE { <x:c> <x:at> ?n } INSERT { <x:c> <x:at> ?m } \
    WHERE { <x:c> <x:at> ?n . ?n <x:next> ?m }";

const MOVED: Reply = Reply::Done {
    added: 1,
    removed: 1,
};

// The counter at the first of some numbers, each with the one behind it.
fn numbers(alloc: Global, moves: u32) -> Result<String, AllocError> {
    let mut text = String::from_str(alloc, "<x:c> <x:at> <x:n0> .\n")?;
    for number in 0..moves {
        let next = number.saturating_add(1);
        let line = format!(in alloc; "<x:n{number}> <x:next> <x:n{next}> .\n")?;
        text.push_str(line.as_str())?;
    }
    Ok(text)
}

/// A counter and a block of so many requests, each of which moves it on.
pub fn counter(alloc: Global, moves: u32) -> Result<Numbered, Fail>
    ensures { IfOk result (λ n. KnowsAll n) }
{
    let base = numbers(alloc, moves)?;
    let block = repeated(alloc, MOVE, moves)?;
    numbered(alloc, base.as_str(), block.as_str())
}

// Whether the counter, whose quad is the first one, is at a number.
fn is_at(alloc: Global, quads: &[u8], number: usize) -> Result<bool, AllocError> {
    let line = format!(in alloc; "+ <x:c> <x:at> <x:n{number}>\n")?;
    Ok(quads.starts_with(line.as_bytes()))
}

// Whether each request moved the counter on, which is at their number, and two outcomes are one.
fn are_counted(
    alloc: Global,
    terms: &Dict,
    one: &Outcome,
    other: &Outcome,
) -> Result<bool, AllocError> {
    let replies = one.replies.as_slice();
    let quads = quads_of(alloc, terms, &one.dataset)?;
    let others = quads_of(alloc, terms, &other.dataset)?;
    Ok(
        replies.iter().all(|reply| *reply == MOVED)
            && is_at(alloc, quads.as_slice(), replies.len())?
            && replies == other.replies.as_slice()
            && quads.as_slice() == others.as_slice(),
    )
}

// Whether an outcome is that of the requests one after another, and counts them.
fn is_counted(alloc: Global, numbered: &Numbered, one: &Outcome) -> Result<bool, AllocError>
    requires { KnowsAll numbered.now }
{
    let Some(other) = outcome(alloc, numbered)? else {
        return Ok(false);
    };
    are_counted(alloc, numbered.base.terms(), one, &other)
}

/// Whether so many workers, watched by a gate, come to what the requests come to one after another,
/// and that is their number.
pub fn is_counted_by<R: Threads + Wait + Sync, G: Gate + Sync>(
    rt: &R,
    alloc: Global,
    numbered: &Numbered,
    workers: u32,
    gate: &G,
) -> Result<bool, AllocError>
    requires { KnowsAll numbered.now }
{
    let block = numbered.block.as_slice();
    if workers == 0 || workers > 64 || block.len() > 1000 || !are_short(block) {
        return Ok(false);
    }
    let (terms, base) = (numbered.base.terms(), numbered.base.dataset());
    let outcome = run_block(rt, alloc, terms, base, block, workers, gate)?;
    let is_counted = is_counted(alloc, numbered, &outcome);
    drop(outcome);
    is_counted
}
