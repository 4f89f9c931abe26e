//! Texts of journals: those that are read and written again, and bad entries.
use journal::{JournalFault, read_journal, write_lines};
use std::alloc::{AllocError, Global};
use std::test::Fail;

/// Journals whose made nodes have the tag 1.
pub const JOURNALS: [&str; 5] = [
    "sparql-block journal 1\n",
    "sparql-block journal 1
00 take 0000 > taken 0
00 giveup 0000 0 > given
00 take 0000 > taken 1
00 publish 0000 0 > stale
00 publish 0000 1 > published
00 begin 0000 1 > begun
00 commit 0000 > committed
",
    "sparql-block journal 1
00 take 0000 > taken 0
01 take 0001 > taken 0
01 publish 0001 0 > published
01 begin 0001 0 > begun
01 commit 0001 > not-yet
00 publish 0000 0 > published
00 begin 0000 0 > begun
00 commit 0000 > committed
01 commit 0001 > committed
",
    "sparql-block journal 1
00 read 0000 0 scan - - - - > answer 0
00 read 0001 1 scan <x:a> <x:p> <x:b> default > answer 1
00 read 0020 12 scan _:b <x:p> \"a b > c\" <x:g> > answer 18446744073709551615
00 read 0300 0 scan _:m1r0o1l22s4294967295 <x:p> \"\\\" \\\\ \\n \\r\"@en-gb <x:g> > blocked 9999
00 read 9999 0 scan \"\" \"é\"^^<x:t> _:m1 - > blocked 0000
00 read 0000 0 is <x:g> > answer 0
00 read 0000 0 is _:m2r0o0l0s0 > answer 1
00 read 0000 0 graphs > answer 7
",
    "sparql-block journal 1
07 check 0123 18446744073709551615 > passed
63 check 0123 0 > aborted
63 check 0123 0 > not-yours
00 check 9999 10 > blocked 0100
",
];

fn is_written_again(alloc: Global, text: &str) -> Result<bool, JournalFault> {
    let lines = read_journal(alloc, text.as_bytes(), 1)?;
    Ok(write_lines(alloc, &lines, 1)?.as_slice() == text.as_bytes())
}

#[test]
fn journals_are_written_again(rt: HostRuntime) -> Result<(), JournalFault> {
    for text in &JOURNALS {
        assert!(rt; is_written_again(rt.alloc(), text)?, "{text:?}");
    }
    Ok(())
}

/// The bad entry of a text, if it has one. An `Err` where memory ran out.
fn bad_entry(alloc: Global, text: &[u8]) -> Result<Option<u64>, JournalFault> {
    match read_journal(alloc, text, 1) {
        Ok(_) => Ok(None),
        Err(JournalFault::BadEntry(number)) => Ok(Some(number)),
        Err(fault) => Err(fault),
    }
}

/// Texts whose first line is no journal's.
const FOREIGN: [&[u8]; 7] = [
    b"",
    b"\n",
    b"sparql-block journal 1",
    b"sparql-block journal 1\r\n",
    b"sparql-block journal 3\n",
    b" sparql-block journal 1\n",
    b"00 take 0000 > taken 0\n",
];

#[test]
fn foreign_first_lines(rt: HostRuntime) -> Result<(), Fail> {
    for text in &FOREIGN {
        assert_eq!(rt; bad_entry(rt.alloc(), text)?, Some(0), "{text:?}");
    }
    Ok(())
}

/// A journal of one good line.
const GOOD: &[u8] = b"sparql-block journal 1\n00 take 0000 > taken 0\n";

/// What is no entry's line.
const BAD: [&[u8]; 33] = [
    b"\n",
    b"00 take 0000 > taken 0",
    b"00 take 0000 > taken 0\r\n",
    b"00 take 0000 > taken 00\n",
    b"00 take 0000 > taken +1\n",
    b"00 take 0000 > taken -1\n",
    b"00 take 0000 > taken\n",
    b"00 take 0000 > taken 18446744073709551616\n",
    b"00 take 0000 > taken 0 \n",
    b" 00 take 0000 > taken 0\n",
    b"00  take 0000 > taken 0\n",
    b"00\ttake 0000 > taken 0\n",
    b"00 take 0000 >taken 0\n",
    b"00 take 0000 < taken 0\n",
    b"0 take 0000 > taken 0\n",
    b"000 take 0000 > taken 0\n",
    b"64 take 0000 > taken 0\n",
    b"00 take 000 > taken 0\n",
    b"00 take 00000 > taken 0\n",
    b"00 took 0000 > taken 0\n",
    b"00 take\0 0000 > taken 0\n",
    b"00 take 0000 > taken 0\0\n",
    b"00 publish 0000 > published\n",
    b"00 commit 0000 > Committed\n",
    b"00 read 0000 0 scan - - - > answer 0\n",
    b"00 read 0000 0 scan default - - - > answer 0\n",
    b"00 read 0000 0 is - > answer 0\n",
    b"00 read 0000 0 is <x> > answer 0\n",
    b"00 read 0000 0 is \"\\t\" > answer 0\n",
    b"00 read 0000 0 is \"a\"@EN > answer 0\n",
    b"00 read 0000 0 is \"\xff\" > answer 0\n",
    b"00 read 0000 0 is _:m1r0 > answer 0\n",
    b"00 read 0000 0 is _:m1r0o0l0s00 > answer 0\n",
];

/// Two texts, one behind the other.
fn joined(alloc: Global, front: &[u8], back: &[u8]) -> Result<Vec<u8>, AllocError> {
    let mut text = front.to_vec(alloc)?;
    text.extend_from_slice(back)?;
    Ok(text)
}

#[test]
fn bad_entries(rt: HostRuntime) -> Result<(), Fail> {
    for line in &BAD {
        let text = joined(rt.alloc(), GOOD, line)?;
        assert_eq!(rt; bad_entry(rt.alloc(), &text)?, Some(2), "{line:?}");
    }
    Ok(())
}

/// A journal of one line with this many bytes in a literal, and what follows it.
fn long_line(alloc: Global, count: usize, back: &[u8]) -> Result<Vec<u8>, AllocError> {
    let front = b"sparql-block journal 1\n00 read 0000 0 is \"";
    let mut text = front.to_vec(alloc)?;
    for _ in 0..count {
        text.push(b' ')?;
    }
    text.extend_from_slice(back)?;
    Ok(text)
}

#[test]
fn long_lines(rt: HostRuntime) -> Result<(), Fail> {
    let good = long_line(rt.alloc(), 1 << 20, b"\" > answer 0\n")?;
    assert_eq!(rt; bad_entry(rt.alloc(), &good)?, None);
    for back in [b" > answer 0\n".as_slice(), b"\" > answer\n", b"\n"] {
        let bad = long_line(rt.alloc(), 1 << 20, back)?;
        assert_eq!(rt; bad_entry(rt.alloc(), &bad)?, Some(1));
    }
    Ok(())
}

#[test]
fn messages_of_journals(rt: HostRuntime) -> Result<(), Fail> {
    let faults = [
        (JournalFault::OutOfMemory, "out of memory"),
        (JournalFault::BadEntry(3), "bad entry 3"),
        (JournalFault::Illegal(4), "entry 4 is not lawful"),
    ];
    for (fault, message) in &faults {
        let text = fault.to_string(rt.alloc())?;
        assert!(rt; text.as_str() == *message, "{message}");
    }
    Ok(())
}
