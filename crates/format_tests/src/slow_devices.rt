//! Readers and writers that are slow, or fail.
ghost use Rattle.std.specs.Prelude.{◌<◌, ◌-◌, ◌^◌};

use crate::fixtures::{TWO_GRAPHS, fault_of, two_graphs};
use canonical_nquads::{WriteFault, canonical_text, write};
use devices::{ReadFault, Watched, fill};
use nquads::{BaseFault, read, read_by};
use std::alloc::{AllocError, Global};
use std::io;
use std::io::{Read, Write};
use std::test::Fail;
use terms::DataSet;

/// A reader that gives one byte at a time, and fails at a read that is counted down to.
#[derive(Drop)]
pub struct Slow<'a> {
    pub rest: &'a [u8],
    pub good_reads: usize,
}

impl Read for Slow<'_> {
    fn read(&mut self, buf: &mut [u8]) -> io::Result<usize> {
        if self.good_reads == 0 {
            return Err(io::Error::from(io::ErrorKind::Other));
        }
        self.good_reads -= 1;
        match (self.rest, buf) {
            ([first, rest @ ..], [place, ..]) => {
                *place = *first;
                self.rest = rest;
                Ok(1)
            }
            _ => Ok(0),
        }
    }
}

/// A writer that takes so many bytes at a time, and fails at a write or a flush that is counted down
/// to.
#[derive(Drop)]
struct Narrow {
    text: Vec<u8>,
    most: usize,
    good_calls: usize,
}

impl Write for Narrow {
    fn write(&mut self, buf: &[u8]) -> io::Result<usize> {
        if self.good_calls == 0 {
            return Err(io::Error::from(io::ErrorKind::Other));
        }
        self.good_calls -= 1;
        let (taken, _) = buf.split_at(self.most.min(buf.len()));
        self.text.extend_from_slice(taken)?;
        Ok(taken.len())
    }

    fn flush(&mut self) -> io::Result<()> {
        if self.good_calls == 0 {
            return Err(io::Error::from(io::ErrorKind::Other));
        }
        self.good_calls -= 1;
        Ok(())
    }
}

/// Room for all that the tests write, so that a writer asks for no memory later.
fn room(alloc: Global) -> Result<Vec<u8>, AllocError> {
    let mut text = Vec::new(alloc);
    text.reserve(128)?;
    Ok(text)
}

const TEXT: &[u8] = b"<x:b> <x:p> <x:c> .\r\n# no more\r<x:a> <x:p> <x:c> .";

const WRITTEN: &[u8] = b"<x:a> <x:p> <x:c> .\n<x:b> <x:p> <x:c> .\n";

/// Whether what a reader gives has that canonical text, and no read failed.
fn is_read<R: Read>(alloc: Global, reader: &mut Watched<R>) -> Result<bool, BaseFault>
    requires { reader.old.failures < 2 ^ 64 - 1 }
{
    let dataset = read(alloc, reader)?;
    Ok(canonical_text(alloc, &dataset, 1)?.as_slice() == WRITTEN && reader.failures == 0)
}

#[test]
fn slow_or_at_once(rt: HostRuntime) -> Result<(), BaseFault> {
    assert!(rt; is_read(rt.alloc(), &mut Watched::new(TEXT))?);
    let mut slow = Watched::new(Slow {
        rest: TEXT,
        good_reads: 1000,
    });
    assert!(rt; is_read(rt.alloc(), &mut slow)?);
    Ok(())
}

#[test]
fn each_read_fails_once(rt: HostRuntime) -> Result<(), Fail> {
    for good_reads in 0..=TEXT.len() {
        let mut reader = Watched::new(Slow {
            rest: TEXT,
            good_reads,
        });
        let outcome = read(rt.alloc(), &mut reader);
        let fault = fault_of(outcome)?;
        assert!(rt; matches!(fault, Some(BaseFault::Device)), "{good_reads}");
        assert_eq!(rt; reader.failures, 1);
    }
    Ok(())
}

#[test]
fn each_read_fails_once_by_threads(rt: HostRuntime) -> Result<(), Fail> {
    for good_reads in 0..=TEXT.len() {
        let mut reader = Watched::new(Slow {
            rest: TEXT,
            good_reads,
        });
        let outcome = read_by(&rt, rt.alloc(), &mut reader, 2, 5);
        let fault = fault_of(outcome)?;
        assert!(rt; matches!(fault, Some(BaseFault::Device)), "{good_reads}");
        assert_eq!(rt; reader.failures, 1);
    }
    Ok(())
}

/// Whether the writer failed. An `Err` where memory ran out.
fn write_failed(outcome: Result<(), WriteFault>) -> Result<bool, WriteFault> {
    match outcome {
        Err(WriteFault::OutOfMemory) => Err(WriteFault::OutOfMemory),
        Err(WriteFault::Device) => Ok(true),
        Ok(()) => Ok(false),
    }
}

/// Whether the write of a dataset to a writer that takes so many bytes at a time, in so many calls,
/// fails once, with what it took written, unless that is all.
fn is_cut_at(
    alloc: Global,
    dataset: &DataSet,
    most: usize,
    good_calls: usize,
) -> Result<bool, Fail> {
    let text = room(alloc)?;
    let mut writer = Watched::new(Narrow {
        text,
        most,
        good_calls,
    });
    let outcome = write(alloc, &mut writer, dataset, 1);
    let taken = good_calls.saturating_mul(most).min(TWO_GRAPHS.len());
    let failures = if taken < TWO_GRAPHS.len() { 1 } else { 0 };
    let is_cut = writer.failures == failures
        && writer.inner.text.len() == taken
        && TWO_GRAPHS.as_bytes().starts_with(&writer.inner.text);
    drop(writer);
    Ok(write_failed(outcome)? == (failures == 1) && is_cut)
}

#[test]
fn each_write_fails_once(rt: HostRuntime) -> Result<(), Fail> {
    let dataset = two_graphs(rt.alloc())?;
    for most in [1, 2, 3, 7, 1000] {
        for good_calls in 0..=TWO_GRAPHS.len() {
            assert!(rt;
                is_cut_at(rt.alloc(), &dataset, most, good_calls)?,
                "{most} {good_calls}"
            );
        }
    }
    Ok(())
}

/// What a read of one byte gave, and how many have failed by then.
fn read_one(reader: &mut Watched<Slow<'_>>) -> (Option<u8>, u64)
    requires { reader.old.failures < 2 ^ 64 - 1 }
{
    let mut buffer = [0u8; 4];
    let byte = match reader.read(&mut buffer) {
        Ok(1) => Some(buffer[0]),
        _ => None,
    };
    (byte, reader.failures)
}

#[test]
fn single_reads(rt: HostRuntime) {
    let mut reader = Watched::new(Slow {
        rest: b"ab",
        good_reads: 2,
    });
    assert!(rt; read_one(&mut reader) == (Some(b'a'), 0));
    assert!(rt; reader.failures == 0 && read_one(&mut reader) == (Some(b'b'), 0));
    assert!(rt; reader.failures == 0 && read_one(&mut reader) == (None, 1));
}

#[test]
fn single_writes(rt: HostRuntime) -> Result<(), Fail> {
    let text = room(rt.alloc())?;
    let mut writer = Watched::new(Narrow {
        text,
        most: 1,
        good_calls: 2,
    });
    assert!(rt; matches!(writer.write(b"ab"), Ok(1)));
    assert_eq!(rt; writer.failures, 0);
    assert!(rt; matches!(writer.write(b""), Ok(0)));
    assert_eq!(rt; writer.failures, 0);
    assert!(rt; writer.write(b"b").is_err());
    assert_eq!(rt; writer.failures, 1);
    assert!(rt; writer.inner.text.as_slice() == b"a".as_slice());
    Ok(())
}

#[test]
fn whole_writes(rt: HostRuntime) -> Result<(), Fail> {
    let text = room(rt.alloc())?;
    let mut writer = Watched::new(Narrow {
        text,
        most: 1,
        good_calls: 3,
    });
    assert!(rt; writer.write_all(b"bc").is_ok());
    assert_eq!(rt; writer.failures, 0);
    assert!(rt; writer.flush().is_ok());
    assert_eq!(rt; writer.failures, 0);
    assert!(rt; writer.write_all(b"d").is_err());
    assert_eq!(rt; writer.failures, 1);
    assert!(rt; writer.flush().is_err());
    assert_eq!(rt; writer.failures, 2);
    assert!(rt; writer.inner.text.as_slice() == b"bc".as_slice());
    Ok(())
}

// A writer that takes nothing of a text fails. Of no text there is nothing to take.
#[test]
fn writes_of_nothing(rt: HostRuntime) -> Result<(), Fail> {
    let text = room(rt.alloc())?;
    let mut writer = Watched::new(Narrow {
        text,
        most: 0,
        good_calls: 9,
    });
    assert!(rt; matches!(writer.write(b""), Ok(0)));
    assert_eq!(rt; writer.failures, 0);
    assert!(rt; writer.write_all(b"").is_ok());
    assert_eq!(rt; writer.failures, 0);
    assert!(rt; writer.write(b"a").is_err());
    assert_eq!(rt; writer.failures, 1);
    assert!(rt; writer.write_all(b"ab").is_err());
    assert_eq!(rt; writer.failures, 2);
    assert!(rt; writer.inner.text.is_empty() && writer.inner.good_calls == 6);
    Ok(())
}

// What is written after a flush, be it an empty text, is to be flushed again.
#[test]
fn flushes(rt: HostRuntime) -> Result<(), Fail> {
    let text = room(rt.alloc())?;
    let mut writer = Watched::new(Narrow {
        text,
        most: 2,
        good_calls: 0,
    });
    assert!(rt; !writer.is_flushed);
    assert!(rt; writer.flush().is_err());
    assert!(rt; writer.failures == 1 && !writer.is_flushed);
    writer.inner.good_calls = 3;
    assert!(rt; writer.flush().is_ok());
    assert!(rt; writer.failures == 1 && writer.is_flushed);
    assert!(rt; writer.write_all(b"").is_ok());
    assert!(rt; writer.failures == 1 && !writer.is_flushed);
    assert!(rt; writer.flush().is_ok());
    assert!(rt; writer.failures == 1 && writer.is_flushed);
    assert!(rt; writer.write_all(b"ab").is_ok());
    assert!(rt; writer.failures == 1 && !writer.is_flushed);
    assert!(rt; writer.flush().is_err());
    assert!(rt; writer.failures == 2 && !writer.is_flushed);
    Ok(())
}

/// Whether a reader fills up what is there to more than a limit, and later on to its end.
fn is_filled(alloc: Global, limit: u8, more: &[u8], good_reads: usize) -> Result<bool, ReadFault> {
    let mut bytes = b"ab".to_vec(alloc)?;
    let mut reader = Watched::new(Slow {
        rest: b"0123456789",
        good_reads: 20,
    });
    let is_all = fill(&mut reader, &mut bytes, limit as usize)?;
    let is_more = bytes.as_slice() == more && reader.inner.good_reads == good_reads;
    if reader.failures != 0 {
        return Ok(false);
    }
    let is_rest = fill(&mut reader, &mut bytes, 1000)?;
    Ok(is_more && !is_all && is_rest && bytes.as_slice() == b"ab0123456789".as_slice())
}

#[test]
fn fills_in_turn(rt: HostRuntime) -> Result<(), ReadFault> {
    assert!(rt; is_filled(rt.alloc(), 0, b"ab", 20)?);
    assert!(rt; is_filled(rt.alloc(), 1, b"ab", 20)?);
    assert!(rt; is_filled(rt.alloc(), 2, b"ab0", 19)?);
    assert!(rt; is_filled(rt.alloc(), 11, b"ab0123456789", 10)?);
    Ok(())
}
