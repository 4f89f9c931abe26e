//! Journals through the engines of `run` and `replay`, over devices that fail.
ghost use Rattle.std.specs.Prelude.{◌<◌, ◌≤◌};

use crate::failing_devices::{Narrow, Slow};
use cli::{Fault, File, Open, replay_engine, run_with_journal_engine};
use devices::Watched;
use std::alloc::Global;
use std::sync::Wait;
use std::thread::Threads;

/// What an engine told and wrote.
#[derive(Drop)]
struct Answer {
    outcome: Result<(), Fault>,
    dataset: Vec<u8>,
    replies: Vec<u8>,
}

impl Answer {
    fn wrote(&self, dataset: &[u8], replies: &[u8]) -> bool {
        self.dataset.as_slice() == dataset && self.replies.as_slice() == replies
    }
}

/// More calls than any device here is given.
const MANY: usize = 1 << 30;

/// A replay whose journal comes byte by byte, by so many good reads.
fn replayed(alloc: Global, base: &[u8], block: &[u8], journal: &[u8], good_reads: usize) -> Answer {
    let mut base = Watched::new(base);
    let mut block = Watched::new(block);
    let mut journal = Watched::new(Slow {
        rest: journal,
        good_reads,
    });
    let mut dataset = Watched::new(Vec::new(alloc));
    let mut replies = Watched::new(Vec::new(alloc));
    let outcome = replay_engine(
        alloc,
        &mut base,
        &mut block,
        &mut journal,
        &mut dataset,
        &mut replies,
    );
    Answer {
        outcome,
        dataset: dataset.inner,
        replies: replies.inner,
    }
}

/// What the engine of a run told and wrote.
#[derive(Drop)]
struct Record {
    answer: Answer,
    journal: Vec<u8>,
}

/// How many calls of each writer go well.
#[derive(Clone, Copy)]
struct Good {
    dataset: usize,
    replies: usize,
    journal: usize,
}

const ALL_GOOD: Good = Good {
    dataset: MANY,
    replies: MANY,
    journal: MANY,
};

/// A run whose texts are taken byte by byte.
fn recorded<T: Threads + Wait + Sync>(
    rt: &T,
    alloc: Global,
    base: &[u8],
    block: &[u8],
    good: Good,
    workers: u32,
) -> Record
    requires some { 0 < workers }
    requires most { workers ≤ 64 }
{
    let mut base = Watched::new(base);
    let mut block = Watched::new(block);
    let mut dataset = Watched::new(Narrow::new(alloc, good.dataset));
    let mut replies = Watched::new(Narrow::new(alloc, good.replies));
    let mut journal = Watched::new(Narrow::new(alloc, good.journal));
    let outcome = run_with_journal_engine(
        rt,
        alloc,
        &mut base,
        &mut block,
        &mut dataset,
        &mut replies,
        &mut journal,
        workers,
        &Open,
    );
    let answer = Answer {
        outcome,
        dataset: dataset.inner.text,
        replies: replies.inner.text,
    };
    Record {
        answer,
        journal: journal.inner.text,
    }
}

const BASE: &str = "<x:a> <x:p> <x:b> .\n";

const BLOCK: &str = "INSERT DATA { <x:c> <x:p> <x:b> }";

const DATASET: &str = "<x:a> <x:p> <x:b> .\n<x:c> <x:p> <x:b> .\n";

const REPLIES: &str = "0 ok +1 -0\n";

/// What one worker does.
const JOURNAL: &str = "sparql-block journal 1
00 take 0000 > taken 0
00 read 0000 0 scan <x:c> <x:p> <x:b> default > answer 0
00 publish 0000 0 > published
00 begin 0000 0 > begun
00 check 0000 0 > passed
00 commit 0000 > committed
";

// The read of the end is one more.
#[test]
fn each_read_of_the_journal_fails_once(rt: HostRuntime) {
    let alloc = rt.alloc();
    let (base, block, journal) = (BASE.as_bytes(), BLOCK.as_bytes(), JOURNAL.as_bytes());
    for good_reads in 0..=journal.len() {
        let answer = replayed(alloc, base, block, journal, good_reads);
        assert!(rt;
            matches!(answer.outcome, Err(Fault::CannotRead(File::Journal)))
                && answer.wrote(b"", b""),
            "{good_reads}"
        );
    }
    let answer = replayed(alloc, base, block, journal, journal.len() + 1);
    assert!(rt; answer.outcome.is_ok() && answer.wrote(DATASET.as_bytes(), REPLIES.as_bytes()));
}

/// The run of the block by one worker.
fn recorded_alone<T: Threads + Wait + Sync>(rt: &T, alloc: Global, good: Good) -> Record {
    recorded(rt, alloc, BASE.as_bytes(), BLOCK.as_bytes(), good, 1)
}

#[test]
fn a_journal_of_one_worker(rt: HostRuntime) {
    let record = recorded_alone(&rt, rt.alloc(), ALL_GOOD);
    let answer = &record.answer;
    assert!(rt; answer.outcome.is_ok() && answer.wrote(DATASET.as_bytes(), REPLIES.as_bytes()));
    assert!(rt; record.journal.as_slice() == JOURNAL.as_bytes());
}

/// Whether the run fails at this file with so much of each text written.
fn stops_at<T: Threads + Wait + Sync>(
    rt: &T,
    alloc: Global,
    good: Good,
    failed: File,
    written: [usize; 3],
) -> bool {
    let Record { answer, journal } = recorded_alone(rt, alloc, good);
    matches!(answer.outcome, Err(Fault::CannotWrite(file)) if file == failed)
        && [answer.dataset.len(), answer.replies.len(), journal.len()] == written
        && DATASET.as_bytes().starts_with(&answer.dataset)
        && REPLIES.as_bytes().starts_with(&answer.replies)
        && JOURNAL.as_bytes().starts_with(&journal)
}

// The calls of a writer are its bytes, and the flush. What comes later is not touched.
#[test]
fn each_write_of_the_dataset_fails_once(rt: HostRuntime) {
    for dataset in 0..=DATASET.len() {
        let good = Good {
            dataset,
            ..ALL_GOOD
        };
        assert!(rt;
            stops_at(&rt, rt.alloc(), good, File::Answer, [dataset, 0, 0]),
            "{dataset}"
        );
    }
}

#[test]
fn each_write_of_the_replies_fails_once(rt: HostRuntime) {
    for replies in 0..=REPLIES.len() {
        let good = Good {
            replies,
            ..ALL_GOOD
        };
        let written = [DATASET.len(), replies, 0];
        assert!(rt;
            stops_at(&rt, rt.alloc(), good, File::Answer, written),
            "{replies}"
        );
    }
}

#[test]
fn each_write_of_the_journal_fails_once(rt: HostRuntime) {
    for journal in 0..=JOURNAL.len() {
        let good = Good {
            journal,
            ..ALL_GOOD
        };
        let written = [DATASET.len(), REPLIES.len(), journal];
        assert!(rt;
            stops_at(&rt, rt.alloc(), good, File::Journal, written),
            "{journal}"
        );
    }
}
