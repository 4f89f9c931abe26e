//! What a line says, and why it was not read.
ghost use Rattle.std.specs.Prelude.{◌≡◌};
ghost use Rattle.nquads_lines.specs.declared.stop.Stop.TheVariants.{Memory};

use datasets::Quad;
use std::alloc::{AllocError, AllocFailed};
use terms::TermCow;

/// What a line says.
#[derive(Drop)]
pub enum Line<'a> {
    /// Blanks or a comment, or nothing at all.
    Nothing,
    /// A named graph is declared, by its name.
    Graph(TermCow<'a>),
    /// A quad is stated.
    Statement(Quad<TermCow<'a>>),
}

/// Why a line was not read.
#[derive(Clone, Copy, Debug)]
pub enum Stop {
    /// Memory ran out.
    Memory,
    /// It says nothing that may stand there.
    Bad,
}

impl From<AllocError> for Stop {
    ghost from_gives = { λ _ e. e ≡ Memory };

    fn from(_e: AllocError) -> Stop {
        Stop::Memory
    }
}

impl<T: Drop> From<AllocFailed<T>> for Stop {
    ghost from_gives = { λ _ e. e ≡ Memory };

    fn from(_e: AllocFailed<T>) -> Stop {
        Stop::Memory
    }
}
