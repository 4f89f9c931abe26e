//! The whole block, by workers on threads of their own.
ghost use Rattle.std.specs.Prelude.{◌≡◌, ◌<◌, ◌≤◌, ◌^◌, length, All, IfOk};
ghost use Rattle.book.specs.Run.{state_of, HasAllTerms};
ghost use Rattle.dict.specs.Dictionary.{numbers};
ghost use Rattle.meaning.specs.Run.{run};
ghost use Rattle.update.specs.Asked.{AreShort};
ghost use Rattle.blocklock.specs.History.{AreBelow};
ghost use Rattle.shared.specs.Calls.{owner};
ghost use Rattle.shared.specs.Duty.{IsPassFor};

use crate::crew::Crew;
use crate::gate::Gate;
use crate::lengths::Lengths;
use crate::pace::Pace;
use crate::seat::seats_of;
use crate::worker::Workers;
use book::Book;
use datasets::Id;
use delta::Outcome;
use dict::Dict;
use meaning::Request;
use reads::IndexedView;
use scheduler::Hints;
use shared::{Pass, SharedBlock};
use std::alloc::{AllocError, Global};
use std::sync::Wait;
use std::sync::atomic::AtomicBool;
use std::thread::Threads;

// A shared book with a pass for each worker.
fn opened<'a>(
    alloc: Global,
    terms: &'a Dict,
    base: &'a IndexedView,
    block: &'a [Request<Id>],
    workers: u32,
) -> Result<(SharedBlock<'a>, Vec<Pass<'a>>), AllocError>
    requires terms { HasAllTerms terms.now base.now block.now }
    requires workers { (0 < workers) × (workers ≤ 64) }
    ensures count { IfOk result (λ r. length r.1.items ≡ workers) }
    ensures seats { IfOk result (λ r. r.0.seats ≡ workers) }
    ensures passes { IfOk result (λ r. All (IsPassFor
        (record {
          table = r.0;
          subject = record
              { terms = terms.now; base = base.now; block = block.now };
        })) r.1.items) }
{
    let (shared, passes) = SharedBlock::new(alloc, terms, base, block, workers)?;
    Ok((shared, passes))
}

/// Runs a block on a base to its end, by a worker for each of these hints, from 1 to 64, each on a
/// thread of its own where one can be had; the calling thread is one of them. A worker looks for
/// tasks where its hints say, before it asks the book; they may be of any requests. Where it
/// returns, all requests are committed in the book, and each entry of its journal is of one of
/// these workers. The gate sees each answered event. An error comes only where a growth was
/// refused.
pub fn run_book_with_hints<'a, R: Threads + Wait + Sync, G: Gate + Sync>(
    rt: &R,
    alloc: Global,
    terms: &'a Dict,
    base: &'a IndexedView,
    block: &'a [Request<Id>],
    hints: Vec<Hints>,
    gate: &G,
) -> Result<Book<'a>, AllocError>
    requires some { 0 < length hints.items }
    requires most { length hints.items ≤ 64 }
    requires terms { HasAllTerms terms.now base.now block.now }
    requires size { length block.now < 2 ^ 32 }
    requires short { AreShort block.now }
    ensures terms { IfOk result (λ book. book.terms ≡ terms.now) }
    ensures base { IfOk result (λ book. book.base ≡ base.now) }
    ensures block { IfOk result (λ book. book.block ≡ block.now) }
    ensures whole { IfOk result (λ book. length block.now ≤ (state_of book).front) }
    ensures workers { IfOk result (λ book. AreBelow owner (length hints.items)
        book.history) }
{
    let (shared, passes) = opened(alloc, terms, base, block, hints.len() as u32)?;
    let seats = seats_of(alloc, passes, hints)?;
    let pace = Pace::new();
    let lengths = Lengths::new(alloc, block.len())?;
    let stopped = AtomicBool::new(false);
    let workers = Workers {
        rt,
        alloc,
        shared: &shared,
        terms,
        base,
        block,
        gate,
        pace: &pace,
        lengths: &lengths,
        stopped: &stopped,
    };
    let passes = Crew { workers, seats }.work()?;
    Ok(shared.close(rt, passes))
}

/// The same by this many workers, from 1 to 64, with no hints at first.
pub fn run_book<'a, R: Threads + Wait + Sync, G: Gate + Sync>(
    rt: &R,
    alloc: Global,
    terms: &'a Dict,
    base: &'a IndexedView,
    block: &'a [Request<Id>],
    workers: u32,
    gate: &G,
) -> Result<Book<'a>, AllocError>
    requires some { 0 < workers }
    requires most { workers ≤ 64 }
    requires terms { HasAllTerms terms.now base.now block.now }
    requires size { length block.now < 2 ^ 32 }
    requires short { AreShort block.now }
    ensures terms { IfOk result (λ book. book.terms ≡ terms.now) }
    ensures base { IfOk result (λ book. book.base ≡ base.now) }
    ensures block { IfOk result (λ book. book.block ≡ block.now) }
    ensures whole { IfOk result (λ book. length block.now ≤ (state_of book).front) }
    ensures workers { IfOk result (λ book. AreBelow owner workers book.history) }
{
    let hints = Hints::new(alloc, workers)?;
    run_book_with_hints(rt, alloc, terms, base, block, hints, gate)
}

/// Runs a block on a base by this many workers, from 1 to 64, each on a thread of its own where one
/// can be had: the dataset and the replies of running the requests one after another. The gate sees
/// each answered event. An error comes only where a growth was refused.
#[tactic(auto, using(crate::proofs::Passes::whole_run))]
pub fn run_block<R: Threads + Wait + Sync, G: Gate + Sync>(
    rt: &R,
    alloc: Global,
    terms: &Dict,
    base: &IndexedView,
    block: &[Request<Id>],
    workers: u32,
    gate: &G,
) -> Result<Outcome, AllocError>
    requires some { 0 < workers }
    requires most { workers ≤ 64 }
    requires terms { HasAllTerms terms.now base.now block.now }
    requires size { length block.now < 2 ^ 32 }
    requires short { AreShort block.now }
    ensures { IfOk result (λ outcome. (outcome.dataset, outcome.replies)
        ≡ run (numbers terms.now) block.now base.now) }
{
    let book = run_book(rt, alloc, terms, base, block, workers, gate)?;
    book.into_outcome(rt, alloc, workers)
}
