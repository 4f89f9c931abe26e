//! What a gate sees of a run, beside the journal that the run writes.
ghost use Rattle.std.specs.Prelude.{◌<◌, ◌≤◌};

use block_machine::{Entry, Event, Reply};
use cli::{Gate, run_with_journal_engine};
use devices::Watched;
use std::alloc::{AllocError, Global};
use std::sync::atomic::{AtomicBool, Ordering};
use std::sync::{Mutex, Wait};
use std::thread::Threads;

/// How the journal's line of an entry begins and ends. Between them stands what a read asks for.
#[derive(Drop)]
struct Ends {
    worker: u32,
    front: String,
    back: String,
}

/// What a worker does, up to what a read asks for.
fn event_text(alloc: Global, event: &Event) -> Result<String, AllocError> {
    match event {
        Event::Take(i) => format!(in alloc; "take {i:04} > "),
        Event::Read(i, n, _) => format!(in alloc; "read {i:04} {n} "),
        Event::Publish(i, n, _) => format!(in alloc; "publish {i:04} {n} > "),
        Event::Begin(i, n) => format!(in alloc; "begin {i:04} {n} > "),
        Event::Check(i, n) => format!(in alloc; "check {i:04} {n} > "),
        Event::Commit(i) => format!(in alloc; "commit {i:04} > "),
        Event::GiveUp(i, n) => format!(in alloc; "giveup {i:04} {n} > "),
    }
}

/// What it is told, without the count of an answer.
fn reply_text(alloc: Global, reply: &Reply) -> Result<String, AllocError> {
    match reply {
        Reply::Taken(n) => format!(in alloc; " > taken {n}"),
        Reply::Answered(_) => String::from_str(alloc, ""),
        Reply::Blocked(j) => format!(in alloc; " > blocked {j:04}"),
        Reply::Published => String::from_str(alloc, " > published"),
        Reply::Begun => String::from_str(alloc, " > begun"),
        Reply::Passed => String::from_str(alloc, " > passed"),
        Reply::Aborted => String::from_str(alloc, " > aborted"),
        Reply::Committed => String::from_str(alloc, " > committed"),
        Reply::Given => String::from_str(alloc, " > given"),
        Reply::Stale => String::from_str(alloc, " > stale"),
        Reply::NotYours => String::from_str(alloc, " > not-yours"),
        Reply::NotYet => String::from_str(alloc, " > not-yet"),
    }
}

fn ends_of(alloc: Global, worker: u32, entry: &Entry) -> Result<Ends, AllocError> {
    let event = event_text(alloc, &entry.event)?;
    let front = format!(in alloc; "{worker:02} {event}")?;
    let back = reply_text(alloc, &entry.reply)?;
    Ok(Ends {
        worker,
        front,
        back,
    })
}

/// Keeps of each entry that it sees how its line begins and ends.
#[derive(Drop)]
struct Sees<'r, R: Wait> {
    rt: &'r R,
    alloc: Global,
    lines: Mutex<Vec<Ends>>,
    // Whether a growth was refused, or an entry had another worker.
    is_off: AtomicBool,
}

impl<'r, R: Wait> Sees<'r, R> {
    fn keep(&self, worker: u32, entry: &Entry) -> Result<(), AllocError> {
        let line = ends_of(self.alloc, worker, entry)?;
        let mut lines = self.lines.lock(self.rt);
        lines.push(line)?;
        Ok(())
    }
}

impl<'r, R: Wait> Gate for Sees<'r, R> {
    fn after(&self, worker: u32, entry: &Entry) {
        if worker != entry.worker || self.keep(worker, entry).is_err() {
            self.is_off.store(true, Ordering::SeqCst);
        }
    }
}

/// The journal of a run of a block by so many workers, watched by a gate, if the run went well.
fn journal_of<T: Threads + Wait + Sync>(
    rt: &T,
    alloc: Global,
    block: &str,
    workers: u32,
    gate: &Sees<'_, T>,
) -> Option<Vec<u8>>
    requires some { 0 < workers }
    requires most { workers ≤ 64 }
{
    let mut base = Watched::new(BASE.as_bytes());
    let mut block = Watched::new(block.as_bytes());
    let mut dataset = Watched::new(Vec::new(alloc));
    let mut replies = Watched::new(Vec::new(alloc));
    let mut journal = Watched::new(Vec::new(alloc));
    let outcome = run_with_journal_engine(
        rt,
        alloc,
        &mut base,
        &mut block,
        &mut dataset,
        &mut replies,
        &mut journal,
        workers,
        gate,
    );
    match outcome {
        Ok(()) => Some(journal.inner),
        Err(_) => None,
    }
}

/// Whether a line of a journal is of an entry.
fn is_line_of(line: &str, ends: &Ends) -> bool {
    line.starts_with(ends.front.as_str()) && line.ends_with(ends.back.as_str())
}

/// Whether these lines of one worker are of the entries that the gate saw of it, in that order.
fn are_lines_of(lines: &[&str], seen: &[Ends], worker: u32) -> bool {
    let mut places = lines.iter();
    for ends in seen {
        if ends.worker == worker {
            match places.next() {
                Some(line) if is_line_of(line, ends) => (),
                _ => return false,
            }
        }
    }
    places.next().is_none()
}

/// The lines of one worker.
fn lines_by<'a>(alloc: Global, text: &'a str, worker: u32) -> Result<Vec<&'a str>, AllocError> {
    let front = format!(in alloc; "{worker:02} ")?;
    let mut lines = Vec::new(alloc);
    for line in text.split('\n') {
        if line.starts_with(front.as_str()) {
            lines.push(line)?;
        }
    }
    Ok(lines)
}

/// Whether a journal has of each of four workers what the gate saw of it, and of no other.
fn has_seen(alloc: Global, text: &str, seen: &[Ends]) -> Result<bool, AllocError> {
    // The first line tells the form, and the last one is empty.
    let mut so = text.split('\n').count() == seen.len().saturating_add(2);
    for worker in 0..4u32 {
        let lines = lines_by(alloc, text, worker)?;
        so = so && are_lines_of(&lines, seen, worker);
    }
    Ok(so)
}

/// Whether the journal of a run by so many workers has what the gate saw.
fn is_seen<T: Threads + Wait + Sync>(
    rt: &T,
    alloc: Global,
    block: &str,
    workers: u32,
) -> Result<bool, AllocError>
    requires some { 0 < workers }
    requires most { workers ≤ 64 }
{
    let gate = Sees {
        rt,
        alloc,
        lines: Mutex::new(Vec::new(alloc)),
        is_off: AtomicBool::new(false),
    };
    let Some(journal) = journal_of(rt, alloc, block, workers, &gate) else {
        return Ok(false);
    };
    let Ok(text) = str::from_utf8(&journal) else {
        return Ok(false);
    };
    let is_seen = has_seen(alloc, text, gate.lines.lock(rt).as_slice())?;
    Ok(is_seen && !gate.is_off.load(Ordering::SeqCst))
}

const BASE: &str = "<x:a> <x:p> <x:b> .\n";

/// Requests that read what those before them change, one that is refused, and one that fails.
const BLOCK: &str = "INSERT DATA { <x:c> <x:p> <x:b> }
----
DELETE { ?s <x:p> ?o } INSERT { ?s <x:q> ?o } WHERE { ?s <x:p> ?o }
----
INSERT
----
CREATE GRAPH <x:g>
----
CREATE GRAPH <x:g>
----
INSERT { ?s <x:p> ?o } WHERE { ?s <x:q> ?o } ; DROP ALL
";

#[test]
fn one_worker_is_seen(rt: HostRuntime) -> Result<(), AllocError> {
    assert!(rt; is_seen(&rt, rt.alloc(), BLOCK, 1)?);
    assert!(rt; is_seen(&rt, rt.alloc(), "", 1)?);
    Ok(())
}

#[test]
fn four_workers_are_seen(rt: HostRuntime) -> Result<(), AllocError> {
    assert!(rt; is_seen(&rt, rt.alloc(), BLOCK, 4)?);
    Ok(())
}
