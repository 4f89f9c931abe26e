//! Readers and writers whose failed calls are counted.
ghost use Rattle.std.specs.Prelude.{◌≡◌, ◌≤◌, ◌<◌, ◌+◌, ◌-◌, ◌^◌, ◌++◌, ℕ, List, length, take, false, is_ok, if◌then◌else◌, IfOk, OnOk, OnErr};
ghost use Rattle.std.specs.Io.{ReadsAtMost};
ghost use Rattle.std.specs.Io.KnownBytes.{Appends, Keeps, ReadConsumes};

use std::io::{Read, Write};
use thiserror::Error;

/// A call of a reader or a writer failed.
#[derive(Clone, Copy, Debug, Error)]
#[error("the device failed")]
pub struct Failed;

/// A reader or a writer. `failures` is the number of its failed calls: an `Err`, or a write of none
/// of a slice that has bytes. Nothing is tried again. `is_flushed` says whether a flush went well
/// and nothing, not even an empty text, was written since.
#[derive(Drop)]
pub struct Watched<T> {
    pub inner: T,
    pub failures: u64,
    pub is_flushed: bool,
}

impl<T> Watched<T> {
    /// No call has failed yet, and nothing is flushed.
    pub fn new(inner: T) -> Watched<T>
        ensures { result ≡ record { inner = inner; failures = 0; is_flushed = false } }
    {
        Watched {
            inner,
            failures: 0,
            is_flushed: false,
        }
    }
}

impl<R: Read> Watched<R> {
    /// One read. An `Err` comes where it failed, and then no byte is taken.
    pub fn read(&mut self, buf: &mut [u8]) -> Result<usize, Failed>
        requires { self.old.failures < 2 ^ 64 - 1 }
        ensures bound { ReadsAtMost result buf.new }
        ensures bytes { ReadConsumes (R.remaining self.old.inner) (R.remaining self.new.inner)
            result buf.new }
        ensures count { self.new.failures ≡ (if is_ok result then self.old.failures
            else self.old.failures + 1) }
        ensures flushed { self.new.is_flushed ≡ self.old.is_flushed }
    {
        match self.inner.read(buf) {
            Ok(count) => Ok(count),
            Err(_) => {
                self.failures += 1;
                Err(Failed)
            }
        }
    }
}

impl<W: Write> Watched<W> {
    /// One write. It takes at least a byte where there is one. An `Err` comes where it failed, and
    /// then no byte is written.
    pub fn write(&mut self, buf: &[u8]) -> Result<usize, Failed>
        requires { self.old.failures < 2 ^ 64 - 1 }
        ensures bound { IfOk result (λ n. n ≤ length buf.now) }
        ensures some { IfOk result (λ n. 0 < length buf.now → 0 < n) }
        ensures bytes { IfOk result (λ n. Appends (W.contents self.old.inner)
            (W.contents self.new.inner) (take n buf.now)) }
        ensures err { OnErr result (Keeps (W.contents self.old.inner) (W.contents self.new.inner)) }
        ensures count { self.new.failures ≡ (if is_ok result then self.old.failures
            else self.old.failures + 1) }
        ensures flushed { self.new.is_flushed ≡ false }
    {
        self.is_flushed = false;
        match self.inner.write(buf) {
            Ok(count) if count > 0 || buf.is_empty() => Ok(count),
            _ => {
                self.failures += 1;
                Err(Failed)
            }
        }
    }

    /// Writes a whole text. An `Err` comes where a write failed, and then a beginning of the text
    /// is written.
    pub fn write_all(&mut self, text: &[u8]) -> Result<(), Failed>
        requires { self.old.failures < 2 ^ 64 - 1 }
        ensures ok { OnOk result (Appends (W.contents self.old.inner) (W.contents self.new.inner)
            text.now) }
        ensures err { OnErr result ((n : ℕ) × Appends (W.contents self.old.inner)
            (W.contents self.new.inner) (take n text.now)) }
        ensures count { self.new.failures ≡ (if is_ok result then self.old.failures
            else self.old.failures + 1) }
        ensures flushed { self.new.is_flushed ≡ false }
    {
        self.is_flushed = false;
        let mut rest = text;
        while rest.len() > 0 {
            let count = self.write(rest)?;
            let (_, later) = rest.split_at(count);
            rest = later;
        }
        Ok(())
    }

    /// Flushes the writer. An `Err` comes where that failed.
    pub fn flush(&mut self) -> Result<(), Failed>
        requires { self.old.failures < 2 ^ 64 - 1 }
        ensures bytes { Keeps (W.contents self.old.inner) (W.contents self.new.inner) }
        ensures count { self.new.failures ≡ (if is_ok result then self.old.failures
            else self.old.failures + 1) }
        ensures flushed { self.new.is_flushed ≡ is_ok result }
    {
        match self.inner.flush() {
            Ok(()) => {
                self.is_flushed = true;
                Ok(())
            }
            Err(_) => {
                self.is_flushed = false;
                self.failures += 1;
                Err(Failed)
            }
        }
    }
}
