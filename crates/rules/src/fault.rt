//! Why a block was not read.
ghost use Rattle.std.specs.Prelude.{◌≡◌};
ghost use Rattle.rules.specs.declared.fault.BlockFault.TheVariants.{OutOfMemory};

use std::alloc::{AllocError, AllocFailed};
use thiserror::Error;

/// Why a block was not read: the first of the last three that holds, or a growth was refused.
#[derive(Debug, Drop, Error)]
pub enum BlockFault {
    #[error("out of memory")]
    OutOfMemory,
    /// The block has more than 2^28 bytes.
    #[error("too long")]
    TooLong,
    /// The block has more than 4,096 requests.
    #[error("too many requests")]
    TooManyRequests,
    /// The block is not UTF-8.
    #[error("not UTF-8")]
    BadUtf8,
}

impl From<AllocError> for BlockFault {
    ghost from_gives = { λ _ e. e ≡ OutOfMemory };

    fn from(_e: AllocError) -> BlockFault {
        BlockFault::OutOfMemory
    }
}

impl<T: Drop> From<AllocFailed<T>> for BlockFault {
    ghost from_gives = { λ _ e. e ≡ OutOfMemory };

    fn from(_e: AllocFailed<T>) -> BlockFault {
        BlockFault::OutOfMemory
    }
}
