//! What a pool's gate sees of the workers, beside the journal of their book.
ghost use Rattle.std.specs.Prelude.{IfOk};
ghost use Rattle.machine_tests.specs.Terms.{KnowsAll};

use crate::blocks::are_short;
use crate::lines::{Line, line_of, line_of_kept};
use crate::numbered_blocks::{count_quads, numbered, repeated};
use block_machine::Entry;
use book::Book;
use numbering::Numbered;
use pool::{Gate, run_book};
use std::alloc::{AllocError, Global};
use std::sync::atomic::{AtomicBool, Ordering};
use std::sync::{Mutex, Wait};
use std::test::Fail;
use std::thread::Threads;

/// Keeps a line of each entry that it sees, with its worker.
#[derive(Drop)]
struct Sees<'r, R: Wait> {
    rt: &'r R,
    lines: Mutex<Vec<(u32, Line)>>,
    // Whether a growth was refused.
    is_full: AtomicBool,
}

impl<'r, R: Wait> Gate for Sees<'r, R> {
    fn after(&self, worker: u32, entry: &Entry) {
        let mut lines = self.lines.lock(self.rt);
        if lines.push((worker, line_of(entry))).is_err() {
            self.is_full.store(true, Ordering::SeqCst);
        }
    }
}

// Whether the journal has of a worker what the gate saw of it, in that order.
fn has_seen(book: &Book<'_>, lines: &[(u32, Line)], worker: u32) -> bool {
    let journal = book.journal();
    let mut seen = lines.iter().filter(|line| line.0 == worker);
    for place in 0..journal.len() {
        let entry = journal.entry(place);
        if entry.worker() != worker {
            continue;
        }
        match seen.next() {
            Some(line) if line.1 == line_of_kept(entry) => (),
            _ => return false,
        }
    }
    seen.next().is_none()
}

// Whether the journal has of each of four workers what the gate saw of it and nothing else.
fn has_all(book: &Book<'_>, lines: &[(u32, Line)]) -> bool {
    book.journal().len() == lines.len() && (0..4u32).all(|worker| has_seen(book, lines, worker))
}

// Whether the outcome of a book is that of the block.
fn is_outcome(alloc: Global, book: &Book<'_>) -> Result<bool, AllocError> {
    let outcome = book.outcome(alloc)?;
    Ok(outcome.replies.len() == 64 && count_quads(&outcome.dataset) == 2)
}

// Whether so many workers, watched by a gate, run the block so.
fn is_run<'a, R: Threads + Wait + Sync>(
    rt: &R,
    alloc: Global,
    numbered: &'a Numbered,
    workers: u32,
    gate: &Sees<'_, R>,
) -> Result<bool, AllocError>
    requires { KnowsAll numbered.now }
{
    let block = numbered.block.as_slice();
    if workers == 0 || workers > 4 || block.len() > 1000 || !are_short(block) {
        return Ok(false);
    }
    let (terms, base) = (numbered.base.terms(), numbered.base.dataset());
    let book = run_book(rt, alloc, terms, base, block, workers, gate)?;
    let are_seen = has_all(&book, gate.lines.lock(rt).as_slice());
    let is_outcome = is_outcome(alloc, &book);
    drop(book);
    Ok(are_seen && is_outcome?)
}

// Whether the gate sees all that so many workers do.
fn is_seen<R: Threads + Wait + Sync>(
    rt: &R,
    alloc: Global,
    numbered: &Numbered,
    workers: u32,
) -> Result<bool, AllocError>
    requires { KnowsAll numbered.now }
{
    let gate = Sees {
        rt,
        lines: Mutex::new(Vec::new(alloc)),
        is_full: AtomicBool::new(false),
    };
    Ok(is_run(rt, alloc, numbered, workers, &gate)? && !gate.is_full.load(Ordering::SeqCst))
}

const BLOCK: &str =
    "INSERT DATA { <x:a> <x:p> <x:b> }\n----\nINSERT DATA { <x:a> <x:p> <x:b> , <x:c> }";

// That block 32 times, at its numbers.
fn long_numbered(alloc: Global) -> Result<Numbered, Fail>
    ensures { IfOk result (λ n. KnowsAll n) }
{
    let block = repeated(alloc, BLOCK, 32)?;
    numbered(alloc, "", block.as_str())
}

// Of one worker the gate sees the journal, line by line.
#[test]
fn one_thread(rt: HostRuntime) -> Result<(), Fail> {
    let numbered = long_numbered(rt.alloc())?;
    let is_seen = is_seen(&rt, rt.alloc(), &numbered, 1);
    drop(numbered);
    assert!(rt; is_seen?);
    Ok(())
}

#[test]
fn four_threads(rt: HostRuntime) -> Result<(), Fail> {
    let numbered = long_numbered(rt.alloc())?;
    let is_seen = is_seen(&rt, rt.alloc(), &numbered, 4);
    drop(numbered);
    assert!(rt; is_seen?);
    Ok(())
}
