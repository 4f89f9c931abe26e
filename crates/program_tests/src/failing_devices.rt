//! The engine of `run` over readers and writers of one byte at a time. Each call fails once.
use cli::{Fault, run_engine};
use devices::Watched;
use std::alloc::{AllocError, Global};
use std::io;
use std::io::{Read, Write};
use std::sync::Wait;
use std::thread::Threads;

/// What the engine wrote, and its status.
#[derive(Drop)]
struct Answer {
    status: u8,
    dataset: Vec<u8>,
    replies: Vec<u8>,
}

pub(crate) fn status_of(outcome: &Result<(), Fault>) -> u8 {
    match outcome {
        Ok(()) => 0,
        Err(fault) => fault.status(),
    }
}

fn is_as_expected(answer: &Answer, status: u8, dataset: &str, replies: &str) -> bool {
    answer.status == status
        && answer.dataset.as_slice() == dataset.as_bytes()
        && answer.replies.as_slice() == replies.as_bytes()
}

/// This many times the bytes.
pub(crate) fn repeated(alloc: Global, bytes: &[u8], times: u32) -> Result<Vec<u8>, AllocError> {
    let mut text = Vec::new(alloc);
    for _time in 0..times {
        text.extend_from_slice(bytes)?;
    }
    Ok(text)
}

/// A reader that gives one byte at a time, and fails at a read that is counted down to.
#[derive(Drop)]
pub(crate) struct Slow<'a> {
    pub(crate) rest: &'a [u8],
    pub(crate) good_reads: usize,
}

impl Read for Slow<'_> {
    fn read(&mut self, buf: &mut [u8]) -> io::Result<usize> {
        if self.good_reads == 0 {
            return Err(io::Error::from(io::ErrorKind::Other));
        }
        self.good_reads -= 1;
        match (self.rest, buf) {
            ([first, rest @ ..], [place, ..]) => {
                *place = *first;
                self.rest = rest;
                Ok(1)
            }
            _ => Ok(0),
        }
    }
}

/// A writer that takes one byte at a time, and fails at a write or a flush that is counted down to.
#[derive(Drop)]
pub(crate) struct Narrow {
    pub(crate) text: Vec<u8>,
    pub(crate) good_calls: usize,
}

impl Narrow {
    pub(crate) fn new(alloc: Global, good_calls: usize) -> Narrow {
        Narrow {
            text: Vec::new(alloc),
            good_calls,
        }
    }
}

impl Write for Narrow {
    fn write(&mut self, buf: &[u8]) -> io::Result<usize> {
        if self.good_calls == 0 {
            return Err(io::Error::from(io::ErrorKind::Other));
        }
        self.good_calls -= 1;
        match buf {
            [first, ..] => {
                self.text.push(*first)?;
                Ok(1)
            }
            [] => Ok(0),
        }
    }

    fn flush(&mut self) -> io::Result<()> {
        if self.good_calls == 0 {
            return Err(io::Error::from(io::ErrorKind::Other));
        }
        self.good_calls -= 1;
        Ok(())
    }
}

const BASE: &str = "<http://e/a> <http://e/p> <http://e/b> .\n";

const BLOCK: &str = "INSERT DATA { <http://e/c> <http://e/p> <http://e/b> }";

const DATASET: &str =
    "<http://e/a> <http://e/p> <http://e/b> .\n<http://e/c> <http://e/p> <http://e/b> .\n";

const REPLIES: &str = "0 ok +1 -0\n";

/// How many calls of each of the four go well.
#[derive(Clone, Copy)]
struct Good {
    base: usize,
    block: usize,
    dataset: usize,
    replies: usize,
}

const ALL_GOOD: Good = Good {
    base: 1000,
    block: 1000,
    dataset: 1000,
    replies: 1000,
};

/// What the engine writes over slow readers and narrow writers, some of which fail.
fn narrow_answer<T: Threads + Wait + Sync>(rt: &T, alloc: Global, good: Good) -> Answer {
    let mut base = Watched::new(Slow {
        rest: BASE.as_bytes(),
        good_reads: good.base,
    });
    let mut block = Watched::new(Slow {
        rest: BLOCK.as_bytes(),
        good_reads: good.block,
    });
    let mut dataset = Watched::new(Narrow::new(alloc, good.dataset));
    let mut replies = Watched::new(Narrow::new(alloc, good.replies));
    let outcome = run_engine(
        rt,
        alloc,
        &mut base,
        &mut block,
        &mut dataset,
        &mut replies,
        2,
    );
    Answer {
        status: status_of(&outcome),
        dataset: dataset.inner.text,
        replies: replies.inner.text,
    }
}

#[test]
fn one_byte_at_a_time(rt: HostRuntime) {
    let answer = narrow_answer(&rt, rt.alloc(), ALL_GOOD);
    assert!(rt; is_as_expected(&answer, 0, DATASET, REPLIES));
}

/// Whether a device failed when so much of the dataset and of the replies was written.
fn stops_at<T: Threads + Wait + Sync>(
    rt: &T,
    alloc: Global,
    good: Good,
    dataset: usize,
    replies: usize,
) -> bool {
    let answer = narrow_answer(rt, alloc, good);
    answer.status == 6
        && answer.dataset.len() == dataset
        && answer.replies.len() == replies
        && DATASET.as_bytes().starts_with(&answer.dataset)
        && REPLIES.as_bytes().starts_with(&answer.replies)
}

#[test]
fn each_read_of_the_base_fails_once(rt: HostRuntime) {
    for base in 0..=BASE.len() {
        let good = Good { base, ..ALL_GOOD };
        assert!(rt; stops_at(&rt, rt.alloc(), good, 0, 0), "{base}");
    }
}

#[test]
fn each_read_of_the_block_fails_once(rt: HostRuntime) {
    for block in 0..=BLOCK.len() {
        let good = Good { block, ..ALL_GOOD };
        assert!(rt; stops_at(&rt, rt.alloc(), good, 0, 0), "{block}");
    }
}

#[test]
fn each_write_of_the_dataset_fails_once(rt: HostRuntime) {
    for dataset in 0..=DATASET.len() {
        let good = Good {
            dataset,
            ..ALL_GOOD
        };
        assert!(rt; stops_at(&rt, rt.alloc(), good, dataset, 0), "{dataset}");
    }
}

#[test]
fn each_write_of_the_replies_fails_once(rt: HostRuntime) {
    for replies in 0..=REPLIES.len() {
        let good = Good {
            replies,
            ..ALL_GOOD
        };
        assert!(rt;
            stops_at(&rt, rt.alloc(), good, DATASET.len(), replies),
            "{replies}"
        );
    }
}
