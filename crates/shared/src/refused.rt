//! Why a call made no event.
ghost use Rattle.std.specs.Prelude.{◌≡◌};
ghost use Rattle.shared.specs.declared.refused.Refused.TheVariants.{OutOfMemory};

use std::alloc::{AllocError, AllocFailed};

/// Why a call made no event.
#[derive(Clone, Copy)]
pub enum Refused {
    /// Another worker had the book.
    Busy,
    /// A growth was refused.
    OutOfMemory,
}

impl From<AllocError> for Refused {
    ghost from_gives = { λ _ r. r ≡ OutOfMemory };

    fn from(_error: AllocError) -> Refused {
        Refused::OutOfMemory
    }
}

impl<T: Drop> From<AllocFailed<T>> for Refused {
    ghost from_gives = { λ _ r. r ≡ OutOfMemory };

    fn from(failed: AllocFailed<T>) -> Refused {
        Refused::from(AllocError::from(failed))
    }
}
