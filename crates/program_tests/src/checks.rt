//! The engine of `check` over a reader and a writer of one byte at a time. Each call fails once.
use crate::failing_devices::{Narrow, Slow, repeated, status_of};
use cli::check_engine;
use devices::Watched;
use std::alloc::{AllocError, Global};

/// What the engine wrote, and its status.
#[derive(Drop)]
struct Told {
    status: u8,
    lines: Vec<u8>,
}

impl Told {
    fn is(&self, status: u8, lines: &str) -> bool {
        self.status == status && self.lines.as_slice() == lines.as_bytes()
    }
}

/// What the engine wrote of a block behind what the writer held.
fn told_behind(alloc: Global, held: Vec<u8>, block: &[u8]) -> Told {
    let mut block = Watched::new(block);
    let mut replies = Watched::new(held);
    let outcome = check_engine(alloc, &mut block, &mut replies);
    Told {
        status: status_of(&outcome),
        lines: replies.inner,
    }
}

const BLOCK: &str = "\n----\nINSERT";

const LINES: &str = "0 accepted\n1 refused syntax\n";

/// What the engine writes over a slow reader and a narrow writer, which take so many calls.
fn narrow(alloc: Global, block: &str, good_reads: usize, good_calls: usize) -> Told {
    let mut block = Watched::new(Slow {
        rest: block.as_bytes(),
        good_reads,
    });
    let mut replies = Watched::new(Narrow::new(alloc, good_calls));
    let outcome = check_engine(alloc, &mut block, &mut replies);
    Told {
        status: status_of(&outcome),
        lines: replies.inner.text,
    }
}

/// Whether a device failed when so much was written.
fn is_cut_at(told: &Told, length: usize) -> bool {
    told.status == 6 && told.lines.len() == length && LINES.as_bytes().starts_with(&told.lines)
}

#[test]
fn each_read_fails_once(rt: HostRuntime) {
    for reads in 0..=BLOCK.len() {
        let told = narrow(rt.alloc(), BLOCK, reads, 1000);
        assert!(rt; is_cut_at(&told, 0), "{reads}");
    }
}

#[test]
fn each_write_fails_once(rt: HostRuntime) {
    for writes in 0..=LINES.len() {
        let told = narrow(rt.alloc(), BLOCK, 1000, writes);
        assert!(rt; is_cut_at(&told, writes), "{writes}");
    }
}

// An empty answer is flushed.
#[test]
fn verdicts_over_slow_devices(rt: HostRuntime) {
    assert!(rt; narrow(rt.alloc(), BLOCK, 1000, 1000).is(0, LINES));
    assert!(rt; narrow(rt.alloc(), "", 1000, 0).is(6, ""));
    assert!(rt; narrow(rt.alloc(), "", 1000, 1).is(0, ""));
}

#[test]
fn what_the_writer_held_stays(rt: HostRuntime) -> Result<(), AllocError> {
    let held = repeated(rt.alloc(), b"held\n", 1)?;
    assert!(rt; told_behind(rt.alloc(), held, b"\n").is(0, "held\n0 accepted\n"));
    Ok(())
}
