//! Writers that are touched in turn, each only after the one before it was flushed, also where a
//! text is empty; and files that are made where the answer is empty.
use crate::failing_devices::status_of;
use cli::{InFile, Open, OutFile, run_with_journal_engine, serial_engine};
use devices::Watched;
use std::alloc::Global;
use std::cell::RefCell;
use std::io::Write;
use std::rt::Files;
use std::sync::Wait;
use std::test::Fail;
use std::thread::Threads;
use std::{fs, io};

/// A writer that takes what it is given, and fails at a call that is counted down to. It notes its
/// calls in a list that writers share: a letter for writes, one after another, and one for flushes.
#[derive(Drop)]
struct Noting<'a> {
    calls: &'a RefCell<Vec<u8>>,
    marks: (u8, u8),
    good_calls: usize,
}

impl Noting<'_> {
    fn note(&self, mark: u8) -> io::Result<()> {
        let Ok(mut calls) = self.calls.try_borrow_mut() else {
            return Err(io::Error::from(io::ErrorKind::Other));
        };
        if calls.last() != Some(&mark) {
            calls.push(mark)?;
        }
        Ok(())
    }

    // Notes a call, and says whether it goes well.
    fn call(&mut self, mark: u8) -> io::Result<()> {
        self.note(mark)?;
        if self.good_calls == 0 {
            return Err(io::Error::from(io::ErrorKind::Other));
        }
        self.good_calls -= 1;
        Ok(())
    }
}

impl Write for Noting<'_> {
    fn write(&mut self, buf: &[u8]) -> io::Result<usize> {
        self.call(self.marks.0)?;
        Ok(buf.len())
    }

    fn flush(&mut self) -> io::Result<()> {
        self.call(self.marks.1)
    }
}

/// What becomes of the writers of a dataset, replies and a journal of which so many calls go well:
/// the status, the calls in turn, and which are flushed.
struct Row {
    base: &'static str,
    block: &'static str,
    good: [usize; 3],
    status: u8,
    calls: &'static str,
    flushed: [bool; 3],
}

const MANY: usize = 1 << 30;

const BASE: &str = "<x:a> <x:p> <x:b> .\n";

const BLOCK: &str = "INSERT DATA { <x:c> <x:p> <x:b> }";

const RUNS: [Row; 11] = [
    Row {
        base: BASE,
        block: BLOCK,
        good: [MANY, MANY, MANY],
        status: 0,
        calls: "dDrRjJ",
        flushed: [true, true, true],
    },
    // No dataset, no replies, neither of both.
    Row {
        base: "",
        block: "INSERT",
        good: [MANY, MANY, MANY],
        status: 0,
        calls: "DrRjJ",
        flushed: [true, true, true],
    },
    Row {
        base: BASE,
        block: "",
        good: [MANY, MANY, MANY],
        status: 0,
        calls: "dDRjJ",
        flushed: [true, true, true],
    },
    Row {
        base: "",
        block: "",
        good: [MANY, MANY, MANY],
        status: 0,
        calls: "DRjJ",
        flushed: [true, true, true],
    },
    // The write or the flush of one fails, and the others behind it are not touched.
    Row {
        base: BASE,
        block: BLOCK,
        good: [0, MANY, MANY],
        status: 6,
        calls: "d",
        flushed: [false, false, false],
    },
    Row {
        base: "",
        block: BLOCK,
        good: [1, MANY, MANY],
        status: 6,
        calls: "dD",
        flushed: [false, false, false],
    },
    Row {
        base: BASE,
        block: BLOCK,
        good: [MANY, 0, MANY],
        status: 6,
        calls: "dDr",
        flushed: [true, false, false],
    },
    Row {
        base: BASE,
        block: BLOCK,
        good: [MANY, 1, MANY],
        status: 6,
        calls: "dDrR",
        flushed: [true, false, false],
    },
    Row {
        base: BASE,
        block: BLOCK,
        good: [MANY, MANY, 0],
        status: 6,
        calls: "dDrRj",
        flushed: [true, true, false],
    },
    Row {
        base: BASE,
        block: BLOCK,
        good: [MANY, MANY, 1],
        status: 6,
        calls: "dDrRjJ",
        flushed: [true, true, false],
    },
    // A fault of what is read comes before any of them is touched.
    Row {
        base: "x",
        block: BLOCK,
        good: [MANY, MANY, MANY],
        status: 3,
        calls: "",
        flushed: [false, false, false],
    },
];

/// The writer of a dataset whose calls are noted.
fn dataset_to<'a>(calls: &'a RefCell<Vec<u8>>, good_calls: usize) -> Noting<'a> {
    Noting {
        calls,
        marks: (b'd', b'D'),
        good_calls,
    }
}

fn replies_to<'a>(calls: &'a RefCell<Vec<u8>>, good_calls: usize) -> Noting<'a> {
    Noting {
        calls,
        marks: (b'r', b'R'),
        good_calls,
    }
}

fn journal_to<'a>(calls: &'a RefCell<Vec<u8>>, good_calls: usize) -> Noting<'a> {
    Noting {
        calls,
        marks: (b'j', b'J'),
        good_calls,
    }
}

fn are_calls(calls: &RefCell<Vec<u8>>, wanted: &str) -> bool {
    match calls.try_borrow() {
        Ok(calls) => calls.as_slice() == wanted.as_bytes(),
        Err(_) => false,
    }
}

/// The status of a run with a journal by two workers, and which of its writers are flushed.
fn recorded<T: Threads + Wait + Sync>(
    rt: &T,
    alloc: Global,
    row: &Row,
    calls: &RefCell<Vec<u8>>,
) -> (u8, [bool; 3]) {
    let mut base = Watched::new(row.base.as_bytes());
    let mut block = Watched::new(row.block.as_bytes());
    let mut dataset = Watched::new(dataset_to(calls, row.good[0]));
    let mut replies = Watched::new(replies_to(calls, row.good[1]));
    let mut journal = Watched::new(journal_to(calls, row.good[2]));
    let outcome = run_with_journal_engine(
        rt,
        alloc,
        &mut base,
        &mut block,
        &mut dataset,
        &mut replies,
        &mut journal,
        2,
        &Open,
    );
    let flushed = [dataset.is_flushed, replies.is_flushed, journal.is_flushed];
    (status_of(&outcome), flushed)
}

fn is_run_in_turn<T: Threads + Wait + Sync>(rt: &T, alloc: Global, row: &Row) -> bool {
    let calls = RefCell::new(Vec::new(alloc));
    let (status, flushed) = recorded(rt, alloc, row, &calls);
    status == row.status && flushed == row.flushed && are_calls(&calls, row.calls)
}

#[test]
fn writers_of_a_run_in_turn(rt: HostRuntime) {
    for row in &RUNS {
        assert!(rt;
            is_run_in_turn(&rt, rt.alloc(), row),
            "{} {:?}",
            row.calls,
            row.good
        );
    }
}

/// The same of the engine of `serial`, which writes no journal.
const SERIAL: [Row; 5] = [
    Row {
        base: BASE,
        block: BLOCK,
        good: [MANY, MANY, 0],
        status: 0,
        calls: "dDrR",
        flushed: [true, true, false],
    },
    Row {
        base: "",
        block: "",
        good: [MANY, MANY, 0],
        status: 0,
        calls: "DR",
        flushed: [true, true, false],
    },
    Row {
        base: "",
        block: "",
        good: [0, MANY, 0],
        status: 6,
        calls: "D",
        flushed: [false, false, false],
    },
    Row {
        base: BASE,
        block: BLOCK,
        good: [MANY, 0, 0],
        status: 6,
        calls: "dDr",
        flushed: [true, false, false],
    },
    Row {
        base: BASE,
        block: "",
        good: [MANY, 0, 0],
        status: 6,
        calls: "dDR",
        flushed: [true, false, false],
    },
];

fn answered(alloc: Global, row: &Row, calls: &RefCell<Vec<u8>>) -> (u8, [bool; 3]) {
    let mut base = Watched::new(row.base.as_bytes());
    let mut block = Watched::new(row.block.as_bytes());
    let mut dataset = Watched::new(dataset_to(calls, row.good[0]));
    let mut replies = Watched::new(replies_to(calls, row.good[1]));
    let outcome = serial_engine(alloc, &mut base, &mut block, &mut dataset, &mut replies);
    let flushed = [dataset.is_flushed, replies.is_flushed, false];
    (status_of(&outcome), flushed)
}

fn is_answered_in_turn(alloc: Global, row: &Row) -> bool {
    let calls = RefCell::new(Vec::new(alloc));
    let (status, flushed) = answered(alloc, row, &calls);
    status == row.status && flushed == row.flushed && are_calls(&calls, row.calls)
}

#[test]
fn writers_of_one_thread_in_turn(rt: HostRuntime) {
    for row in &SERIAL {
        assert!(rt;
            is_answered_in_turn(rt.alloc(), row),
            "{} {:?}",
            row.calls,
            row.good
        );
    }
}

/// The status of a serial run of two files into two others.
fn status_over<R: Files + AllocGlobal>(rt: &R, dataset: &str, replies: &str) -> io::Result<u8> {
    let mut base = Watched::new(InFile::new(rt, "base.nq"));
    let mut block = Watched::new(InFile::new(rt, "block.ru"));
    let mut dataset = Watched::new(OutFile::new(rt.alloc(), rt, dataset)?);
    let mut replies = Watched::new(OutFile::new(rt.alloc(), rt, replies)?);
    let outcome = serial_engine(
        rt.alloc(),
        &mut base,
        &mut block,
        &mut dataset,
        &mut replies,
    );
    Ok(status_of(&outcome))
}

// Where the replies' file can't be made, the dataset's is whole, and what it held is gone.
#[test]
fn files_of_an_empty_answer(rt: HostRuntime) -> Result<(), Fail> {
    fs::write(&rt, "base.nq", "")?;
    fs::write(&rt, "block.ru", "")?;
    fs::write(&rt, "out.nq", "held")?;
    assert!(rt; status_over(&rt, "out.nq", "none/replies")? == 6);
    assert!(rt; fs::read(&rt, "out.nq")?.is_empty());
    fs::write(&rt, "out.nq", "held")?;
    assert!(rt; status_over(&rt, "out.nq", "replies")? == 0);
    assert!(rt; fs::read(&rt, "out.nq")?.is_empty());
    assert!(rt; fs::read(&rt, "replies")?.is_empty());
    fs::write(&rt, "out.nq", "held")?;
    assert!(rt; status_over(&rt, "none/out.nq", "out.nq")? == 6);
    assert!(rt; fs::read(&rt, "out.nq")?.as_slice() == b"held".as_slice());
    Ok(())
}
