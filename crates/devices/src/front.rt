//! The first bytes that a reader gives.
ghost use Rattle.std.specs.Prelude.{◌≡◌, ◌<◌, ◌+◌, ◌-◌, ◌^◌, ◌++◌, ℕ, List, IfOk, IfSome, if◌then◌else◌};
ghost use Rattle.devices.specs.Front.{IsFront, IsFilled, is_device};
ghost use Rattle.devices.specs.declared.front.ReadFault.TheVariants.{OutOfMemory, Device};

use crate::watched::{Failed, Watched};
use std::alloc::{AllocError, AllocFailed, Global};
use std::io::Read;
use thiserror::Error;

/// More bytes than any memory holds.
const MOST_BYTES: usize = 4_611_686_018_427_387_904;

/// Why the bytes of a reader did not come.
#[derive(Clone, Copy, Debug, Error)]
pub enum ReadFault {
    /// A growth was refused.
    #[error("out of memory")]
    OutOfMemory,
    /// The reader failed.
    #[error("cannot read")]
    Device,
}

impl From<AllocError> for ReadFault {
    ghost from_gives = { λ _ e. e ≡ OutOfMemory };

    fn from(_e: AllocError) -> ReadFault {
        ReadFault::OutOfMemory
    }
}

impl<T: Drop> From<AllocFailed<T>> for ReadFault {
    ghost from_gives = { λ _ e. e ≡ OutOfMemory };

    fn from(_e: AllocFailed<T>) -> ReadFault {
        ReadFault::OutOfMemory
    }
}

impl From<Failed> for ReadFault {
    ghost from_gives = { λ _ e. e ≡ Device };

    fn from(_e: Failed) -> ReadFault {
        ReadFault::Device
    }
}

/// Adds bytes of a reader to those that are there, until it has no more or there are more than the
/// limit. Says whether it has no more. Nothing is read behind a failed read. `OutOfMemory` may come
/// at any text, and then bytes that the reader gave may be lost; `Device` comes only where a read
/// failed. What was there stays in front, also where it fails.
pub fn fill<R: Read>(
    reader: &mut Watched<R>,
    bytes: &mut Vec<u8>,
    limit: usize,
) -> Result<bool, ReadFault>
    requires failures { reader.old.failures < 2 ^ 64 - 1 }
    requires limit { limit < 2 ^ 63 }
    ensures filled { IfOk result (λ is_all. IsFilled limit (R.remaining reader.old.inner)
        (R.remaining reader.new.inner) bytes.old.items bytes.new.items is_all) }
    ensures kept { (given : List ℕ) × (bytes.new.items ≡ bytes.old.items ++ given) }
    ensures count { reader.new.failures ≡ (if is_device result then reader.old.failures + 1
        else reader.old.failures) }
{
    let mut buffer = [0u8; 65_536];
    while bytes.len() <= limit {
        let count = reader.read(&mut buffer)?;
        if count == 0 {
            return Ok(true);
        }
        let (given, _) = buffer.split_at(count);
        bytes.extend_from_slice(given)?;
    }
    Ok(false)
}

/// The first bytes that a reader gives: all of them, or more than the limit. Nothing is read behind
/// a failed read. `OutOfMemory` may come at any text, `Device` only where a read failed.
pub fn front_of<R: Read>(
    alloc: Global,
    reader: &mut Watched<R>,
    limit: usize,
) -> Result<Vec<u8>, ReadFault>
    requires failures { reader.old.failures < 2 ^ 64 - 1 }
    requires limit { limit < 2 ^ 63 }
    ensures front { IfOk result (λ bytes. IfSome (R.remaining reader.old.inner)
        (λ text. IsFront limit text bytes.items)) }
    ensures count { reader.new.failures ≡ (if is_device result then reader.old.failures + 1
        else reader.old.failures) }
{
    let mut bytes = Vec::new(alloc);
    fill(reader, &mut bytes, limit)?;
    Ok(bytes)
}

/// All bytes that a reader gives. Nothing is read behind a failed read. `OutOfMemory` may come at
/// any text, `Device` only where a read failed.
pub fn all_of<R: Read>(alloc: Global, reader: &mut Watched<R>) -> Result<Vec<u8>, ReadFault>
    requires failures { reader.old.failures < 2 ^ 64 - 1 }
    ensures all { IfOk result (λ bytes. IfSome (R.remaining reader.old.inner)
        (λ text. bytes.items ≡ text)) }
    ensures count { reader.new.failures ≡ (if is_device result then reader.old.failures + 1
        else reader.old.failures) }
{
    let bytes = front_of(alloc, reader, MOST_BYTES)?;
    if bytes.len() > MOST_BYTES {
        return Err(ReadFault::OutOfMemory);
    }
    Ok(bytes)
}
