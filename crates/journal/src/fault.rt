//! Why a journal was not taken.
ghost use Rattle.std.specs.Prelude.{◌≡◌};
ghost use Rattle.journal.specs.declared.fault.JournalFault.TheVariants.{OutOfMemory};

use std::alloc::{AllocError, AllocFailed};
use thiserror::Error;

/// Why a journal was not taken.
#[derive(Debug, Drop, Error)]
pub enum JournalFault {
    /// A growth was refused.
    #[error("out of memory")]
    OutOfMemory,
    /// The first entry, counted from 1, whose line is no entry's text, or 0 where the first line of
    /// the file is not a journal's.
    #[error("bad entry {0}")]
    BadEntry(u64),
    /// The first entry, counted from 1, that is not lawful where it stands.
    #[error("entry {0} is not lawful")]
    Illegal(u64),
}

impl From<AllocError> for JournalFault {
    ghost from_gives = { λ _ e. e ≡ OutOfMemory };

    fn from(_e: AllocError) -> JournalFault {
        JournalFault::OutOfMemory
    }
}

impl<T: Drop> From<AllocFailed<T>> for JournalFault {
    ghost from_gives = { λ _ e. e ≡ OutOfMemory };

    fn from(_e: AllocFailed<T>) -> JournalFault {
        JournalFault::OutOfMemory
    }
}
