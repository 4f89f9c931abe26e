//! Blocks run by a pool whose gate holds workers up until others have got on.
ghost use Rattle.machine_tests.specs.Terms.{KnowsAll};

use crate::blocks::are_short;
use crate::counters::{counter, is_counted_by};
use crate::numbered_blocks::{has_quads, numbered};
use crate::waits::Count;
use block_machine::{Entry, Event, Reply};
use meaning::Reply as Answer;
use numbering::Numbered;
use pool::{Gate, run_block};
use std::alloc::{AllocError, Global};
use std::sync::Wait;
use std::sync::atomic::{AtomicBool, Ordering};
use std::test::Fail;
use std::thread::{Threads, yield_now};

/// What comes of a request.
#[derive(Clone, Copy, PartialEq)]
enum Step {
    Taken,
    Read,
    Published,
}

/// Each of these requests, by their places, is held when it has come to a step first, until all of
/// those have come to another.
struct Hold {
    step: Step,
    places: &'static [usize],
    until: Step,
    of: &'static [usize],
}

// Which of the first eight requests have come to a step.
#[derive(Drop)]
struct Seen {
    taken: [AtomicBool; 8],
    read: [AtomicBool; 8],
    published: [AtomicBool; 8],
}

fn none() -> [AtomicBool; 8] {
    [
        AtomicBool::new(false),
        AtomicBool::new(false),
        AtomicBool::new(false),
        AtomicBool::new(false),
        AtomicBool::new(false),
        AtomicBool::new(false),
        AtomicBool::new(false),
        AtomicBool::new(false),
    ]
}

impl Seen {
    fn flag(&self, step: Step, place: usize) -> Option<&AtomicBool> {
        match step {
            Step::Taken => self.taken.get(place),
            Step::Read => self.read.get(place),
            Step::Published => self.published.get(place),
        }
    }

    // Says that a request has come to a step, and whether for the first time.
    fn is_first(&self, step: Step, place: usize) -> bool {
        match self.flag(step, place) {
            Some(flag) => !flag.swap(true, Ordering::SeqCst),
            None => false,
        }
    }

    fn has(&self, step: Step, place: usize) -> bool {
        match self.flag(step, place) {
            Some(flag) => flag.load(Ordering::SeqCst),
            None => false,
        }
    }
}

/// Holds workers up, each for many looks at most.
#[derive(Drop)]
struct Holds {
    holds: &'static [Hold],
    seen: Seen,
    gave_in: AtomicBool,
}

impl Holds {
    fn new(holds: &'static [Hold]) -> Holds {
        let seen = Seen {
            taken: none(),
            read: none(),
            published: none(),
        };
        let gave_in = AtomicBool::new(false);
        Holds {
            holds,
            seen,
            gave_in,
        }
    }

    fn hold(&self, hold: &Hold) {
        for _look in 0..10_000_000u32 {
            if hold
                .of
                .iter()
                .all(|place| self.seen.has(hold.until, *place))
            {
                return;
            }
            yield_now();
        }
        self.gave_in.store(true, Ordering::SeqCst);
    }
}

fn step_of(entry: &Entry) -> Option<(Step, usize)> {
    match (&entry.event, &entry.reply) {
        (Event::Take(place), Reply::Taken(_)) => Some((Step::Taken, *place)),
        (Event::Read(place, _, _), Reply::Answered(_)) => Some((Step::Read, *place)),
        (Event::Publish(place, _, _), Reply::Published) => Some((Step::Published, *place)),
        _ => None,
    }
}

impl Gate for Holds {
    fn after(&self, _worker: u32, entry: &Entry) {
        let Some((step, place)) = step_of(entry) else {
            return;
        };
        if !self.seen.is_first(step, place) {
            return;
        }
        for hold in self.holds {
            if hold.step == step && hold.places.contains(&place) {
                self.hold(hold);
            }
        }
    }
}

/// A block over a base, where workers are held, and what it comes to with these numbers of workers.
struct Row {
    base: &'static str,
    block: &'static str,
    holds: &'static [Hold],
    workers: &'static [u32],
    replies: &'static [Answer],
    quads: &'static str,
}

const ONE: Answer = Answer::Done {
    added: 1,
    removed: 0,
};

const GONE: Answer = Answer::Done {
    added: 0,
    removed: 1,
};

const NOTHING: Answer = Answer::Done {
    added: 0,
    removed: 0,
};

// The first request is held after its take until the second is published.
const OVERTAKEN: &[Hold] = &[Hold {
    step: Step::Taken,
    places: &[0],
    until: Step::Published,
    of: &[1],
}];

const ROWS: [Row; 3] = [
    // Nothing that the second reads is changed by the first.
    Row {
        base: "",
        block: "INSERT DATA { <x:a> <x:p> 1 }\n----\nINSERT DATA { <x:b> <x:p> 1 }",
        holds: OVERTAKEN,
        workers: &[2, 8],
        replies: &[ONE, ONE],
        quads: "+ <x:a> <x:p> \"1\"^^<http://www.w3.org/2001/XMLSchema#integer>\n\
            + <x:b> <x:p> \"1\"^^<http://www.w3.org/2001/XMLSchema#integer>\n",
    },
    // The second reads what the first changes.
    Row {
        base: "",
        block: "INSERT DATA { <x:a> <x:p> <x:b> }\n----\n\
            INSERT { ?x <x:q> <x:c> } WHERE { ?x <x:p> ?y }",
        holds: OVERTAKEN,
        workers: &[2, 8],
        replies: &[ONE, ONE],
        quads: "+ <x:a> <x:p> <x:b>\n+ <x:a> <x:q> <x:c>\n",
    },
    // The first changes what the second has read, before the second reads more.
    Row {
        base: "<x:a> <x:p> <x:b> .\n",
        block: "DELETE DATA { <x:a> <x:p> <x:b> }\n----\n\
            INSERT { ?s <x:q> <x:b> } WHERE { { ?s <x:p> ?o } UNION { ?s <x:p> <x:b> } }",
        holds: &[
            Hold {
                step: Step::Taken,
                places: &[0],
                until: Step::Read,
                of: &[1],
            },
            Hold {
                step: Step::Read,
                places: &[1],
                until: Step::Published,
                of: &[0],
            },
        ],
        workers: &[2, 8],
        replies: &[GONE, NOTHING],
        quads: "",
    },
];

// Whether this many workers, held by a gate, come to these replies and quads.
fn come_to<R: Threads + Wait + Sync>(
    rt: &R,
    alloc: Global,
    numbered: &Numbered,
    workers: u32,
    row: &Row,
    gate: &Holds,
) -> Result<bool, AllocError>
    requires { KnowsAll numbered.now }
{
    let block = numbered.block.as_slice();
    if workers == 0 || workers > 64 || block.len() > 1000 || !are_short(block) {
        return Ok(false);
    }
    let (terms, base) = (numbered.base.terms(), numbered.base.dataset());
    let outcome = run_block(rt, alloc, terms, base, block, workers, gate)?;
    let are_replies = outcome.replies.as_slice() == row.replies;
    let has_quads = has_quads(alloc, terms, &outcome.dataset, row.quads);
    drop(outcome);
    Ok(are_replies && has_quads?)
}

// Whether they do, and the gate does not give in.
fn come_out<R: Threads + Wait + Sync>(
    rt: &R,
    alloc: Global,
    numbered: &Numbered,
    workers: u32,
    row: &Row,
) -> Result<bool, AllocError>
    requires { KnowsAll numbered.now }
{
    let gate = Holds::new(row.holds);
    let come_to = come_to(rt, alloc, numbered, workers, row, &gate);
    let gave_in = gate.gave_in.load(Ordering::SeqCst);
    drop(gate);
    Ok(come_to? && !gave_in)
}

// Whether each of the row's numbers of workers does.
fn all_come_out<R: Threads + Wait + Sync>(
    rt: &R,
    alloc: Global,
    numbered: &Numbered,
    row: &Row,
) -> Result<bool, AllocError>
    requires { KnowsAll numbered.now }
{
    for workers in row.workers {
        if !come_out(rt, alloc, numbered, *workers, row)? {
            return Ok(false);
        }
    }
    Ok(true)
}

// Whether the row comes out.
fn comes_out<R: Threads + Wait + Sync>(rt: &R, alloc: Global, row: &Row) -> Result<bool, Fail> {
    let numbered = numbered(alloc, row.base, row.block)?;
    let come_out = all_come_out(rt, alloc, &numbered, row);
    drop(numbered);
    Ok(come_out?)
}

#[test]
fn workers_overlap(rt: HostRuntime) -> Result<(), Fail> {
    for row in &ROWS {
        assert!(rt; comes_out(&rt, rt.alloc(), row)?, "{}", row.block);
    }
    Ok(())
}

const EIGHT: &[usize] = &[0, 1, 2, 3, 4, 5, 6, 7];

// Each of eight requests is held after its take until all are taken, and after its first read until
// all have read.
const TOGETHER: Row = Row {
    base: "",
    block: "INSERT DATA { <x:a> <x:p> <x:0> }\n----\n\
        INSERT DATA { <x:a> <x:p> <x:1> }\n----\n\
        INSERT DATA { <x:a> <x:p> <x:2> }\n----\n\
        INSERT DATA { <x:a> <x:p> <x:3> }\n----\n\
        INSERT DATA { <x:a> <x:p> <x:4> }\n----\n\
        INSERT DATA { <x:a> <x:p> <x:5> }\n----\n\
        INSERT DATA { <x:a> <x:p> <x:6> }\n----\n\
        INSERT DATA { <x:a> <x:p> <x:7> }",
    holds: &[
        Hold {
            step: Step::Taken,
            places: EIGHT,
            until: Step::Taken,
            of: EIGHT,
        },
        Hold {
            step: Step::Read,
            places: EIGHT,
            until: Step::Read,
            of: EIGHT,
        },
    ],
    workers: &[8],
    replies: &[ONE, ONE, ONE, ONE, ONE, ONE, ONE, ONE],
    quads: "+ <x:a> <x:p> <x:0>\n\
        + <x:a> <x:p> <x:1>\n\
        + <x:a> <x:p> <x:2>\n\
        + <x:a> <x:p> <x:3>\n\
        + <x:a> <x:p> <x:4>\n\
        + <x:a> <x:p> <x:5>\n\
        + <x:a> <x:p> <x:6>\n\
        + <x:a> <x:p> <x:7>\n",
};

#[test]
fn eight_together(rt: HostRuntime) -> Result<(), Fail> {
    assert!(rt; comes_out(&rt, rt.alloc(), &TOGETHER)?);
    Ok(())
}

/// Lets one of two workers begin first: the other one is held after its take until the first has
/// published a run, and then the first until the other has published one.
#[derive(Drop)]
struct Turns<'r, R: Wait> {
    rt: &'r R,
    first: u32,
    // How many runs the first worker has published, and how many the other.
    by_first: Count,
    by_other: Count,
    // How many waits were too long.
    given_up: Count,
}

impl<'r, R: Wait> Turns<'r, R> {
    // A worker has published a run.
    fn publish(&self, worker: u32) {
        if worker == self.first {
            self.by_first.raise();
            self.by_other.await_least(self.rt, 1, &self.given_up);
        } else {
            self.by_other.raise();
        }
    }
}

impl<'r, R: Wait> Gate for Turns<'r, R> {
    fn after(&self, worker: u32, entry: &Entry) {
        match step_of(entry) {
            Some((Step::Published, _)) => self.publish(worker),
            Some((Step::Taken, _)) if worker != self.first => {
                self.by_first.await_least(self.rt, 1, &self.given_up);
            }
            _ => {}
        }
    }
}

// Whether two workers, of which this one begins, count the requests.
fn count_by_turns<R: Threads + Wait + Sync>(
    rt: &R,
    alloc: Global,
    numbered: &Numbered,
    first: u32,
) -> Result<bool, AllocError>
    requires { KnowsAll numbered.now }
{
    let gate = Turns {
        rt,
        first,
        by_first: Count::new(),
        by_other: Count::new(),
        given_up: Count::new(),
    };
    let is_counted = is_counted_by(rt, alloc, numbered, 2, &gate);
    let given_up = gate.given_up.get();
    drop(gate);
    Ok(is_counted? && given_up == 0)
}

// Whether they do, whoever begins.
fn count_in_both_orders<R: Threads + Wait + Sync>(
    rt: &R,
    alloc: Global,
    numbered: &Numbered,
) -> Result<bool, AllocError>
    requires { KnowsAll numbered.now }
{
    Ok(count_by_turns(rt, alloc, numbered, 0)? && count_by_turns(rt, alloc, numbered, 1)?)
}

#[test]
fn gates_that_sleep(rt: HostRuntime) -> Result<(), Fail> {
    let numbered = counter(rt.alloc(), 8)?;
    let are_counted = count_in_both_orders(&rt, rt.alloc(), &numbered);
    drop(numbered);
    assert!(rt; are_counted?);
    Ok(())
}
