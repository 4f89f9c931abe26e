//! Why a base was not read.
ghost use Rattle.std.specs.Prelude.{◌≡◌};
ghost use Rattle.nquads.specs.Long.{fault_of_device};
ghost use Rattle.nquads.specs.declared.fault.BaseFault.TheVariants.{OutOfMemory};

use devices::ReadFault;
use std::alloc::{AllocError, AllocFailed};
use thiserror::Error;

/// Why a base was not read.
#[derive(Debug, Drop, Error)]
pub enum BaseFault {
    /// A growth was refused.
    #[error("out of memory")]
    OutOfMemory,
    /// The first bad line, counted from 1.
    #[error("bad line {0}")]
    BadLine(usize),
    /// More than 2^30 bytes, and no line that lies with its end in the first 2^30 bytes is bad.
    #[error("too long")]
    TooLong,
    /// The reader failed.
    #[error("cannot read")]
    Device,
}

impl From<AllocError> for BaseFault {
    ghost from_gives = { λ _ e. e ≡ OutOfMemory };

    fn from(_e: AllocError) -> BaseFault {
        BaseFault::OutOfMemory
    }
}

impl<T: Drop> From<AllocFailed<T>> for BaseFault {
    ghost from_gives = { λ _ e. e ≡ OutOfMemory };

    fn from(_e: AllocFailed<T>) -> BaseFault {
        BaseFault::OutOfMemory
    }
}

impl From<ReadFault> for BaseFault {
    ghost from_gives = { λ f e. e ≡ fault_of_device f };

    fn from(f: ReadFault) -> BaseFault {
        match f {
            ReadFault::OutOfMemory => BaseFault::OutOfMemory,
            ReadFault::Device => BaseFault::Device,
        }
    }
}
