//! Requests that conflict many times in a row.
ghost use Rattle.machine_tests.specs.Terms.{KnowsAll};

use crate::counters::{counter, is_counted_by};
use crate::waits::Count;
use block_machine::{Entry, Event, Reply};
use numbering::Numbered;
use pool::Gate;
use std::alloc::{AllocError, Global};
use std::sync::Wait;
use std::test::Fail;
use std::thread::Threads;

/// Lets the first runs of as many requests as there are workers conflict: all have read before the
/// second one ends, and then the third and so on, each once the one before it has ended. The first
/// one goes on last.
#[derive(Drop)]
struct Queue<'r, R: Wait> {
    rt: &'r R,
    workers: usize,
    // How many reads of these runs were answered: as many as there are workers while all are held
    // at their first one.
    read: Count,
    // How many of these runs were published or given up.
    ended: Count,
    // How many checks were aborted and reads blocked.
    in_vain: Count,
    // How many waits were too long.
    given_up: Count,
}

impl<'r, R: Wait> Queue<'r, R> {
    fn new(rt: &'r R, workers: usize) -> Queue<'r, R> {
        Queue {
            rt,
            workers,
            read: Count::new(),
            ended: Count::new(),
            in_vain: Count::new(),
            given_up: Count::new(),
        }
    }

    // Behind how many ends the run of the request at a place goes on.
    fn turn(&self, place: usize) -> usize {
        if place == 0 {
            self.workers.saturating_sub(1)
        } else {
            place.saturating_sub(1)
        }
    }

    // A read of the first run of a request was answered.
    fn hold(&self, place: usize) {
        self.read.raise();
        self.read.await_least(self.rt, self.workers, &self.given_up);
        self.ended
            .await_least(self.rt, self.turn(place), &self.given_up);
    }
}

// The request whose first run made a read that was answered.
fn place_read(entry: &Entry) -> Option<usize> {
    match (&entry.event, &entry.reply) {
        (Event::Read(place, incarnation, _), Reply::Answered(_)) if *incarnation == 0 => {
            Some(*place)
        }
        _ => None,
    }
}

// The request whose first run was published or given up.
fn place_ended(entry: &Entry) -> Option<usize> {
    match (&entry.event, &entry.reply) {
        (Event::Publish(place, incarnation, _), Reply::Published) if *incarnation == 0 => {
            Some(*place)
        }
        (Event::GiveUp(place, incarnation), Reply::Given) if *incarnation == 0 => Some(*place),
        _ => None,
    }
}

impl<'r, R: Wait> Gate for Queue<'r, R> {
    fn after(&self, _worker: u32, entry: &Entry) {
        if matches!(&entry.reply, Reply::Aborted | Reply::Blocked(_)) {
            self.in_vain.raise();
        }
        if let Some(place) = place_ended(entry) {
            if place < self.workers {
                self.ended.raise();
            }
        }
        if let Some(place) = place_read(entry) {
            if place < self.workers {
                self.hold(place);
            }
        }
    }
}

// Whether so many workers, all but two of whose first runs are in vain, count the requests.
fn do_count<R: Threads + Wait + Sync>(
    rt: &R,
    alloc: Global,
    numbered: &Numbered,
    workers: u32,
) -> Result<bool, AllocError>
    requires { KnowsAll numbered.now }
{
    let gate = Queue::new(rt, workers as usize);
    let is_counted = is_counted_by(rt, alloc, numbered, workers, &gate);
    let was_held = gate.given_up.get() == 0 && gate.in_vain.get().saturating_add(2) >= gate.workers;
    drop(gate);
    Ok(is_counted? && was_held)
}

// Whether each of these numbers of workers does.
fn all_count<R: Threads + Wait + Sync>(
    rt: &R,
    alloc: Global,
    numbered: &Numbered,
) -> Result<bool, AllocError>
    requires { KnowsAll numbered.now }
{
    for workers in [4u32, 8, 12] {
        if !do_count(rt, alloc, numbered, workers)? {
            return Ok(false);
        }
    }
    Ok(true)
}

#[test]
fn conflicts_in_a_row(rt: HostRuntime) -> Result<(), Fail> {
    let numbered = counter(rt.alloc(), 40)?;
    let all_count = all_count(&rt, rt.alloc(), &numbered);
    drop(numbered);
    assert!(rt; all_count?);
    Ok(())
}
