//! What answers the reads of a run.
ghost use Rattle.std.specs.Prelude.{◌≡◌};
ghost use Rattle.reads.specs.declared.source.Stop.TheVariants.{Memory as OfMemory};

use crate::answered::Answered;
use crate::note::Note;
use datasets::{Id, Read};
use std::alloc::{AllocError, AllocFailed};

/// Why a run ends without a result.
#[derive(Clone, Copy, Drop, Debug, PartialEq, Eq)]
pub enum Stop {
    /// The answer waits for the request at this place of the block, counted from 0.
    Blocked(usize),
    /// A growth was refused.
    Memory,
    /// The run is out of date.
    Stale,
}

impl From<AllocError> for Stop {
    ghost from_gives = { λ _ stop. stop ≡ OfMemory };

    fn from(_error: AllocError) -> Stop {
        Stop::Memory
    }
}

impl<T: Drop> From<AllocFailed<T>> for Stop {
    ghost from_gives = { λ _ stop. stop ≡ OfMemory };

    fn from(failed: AllocFailed<T>) -> Stop {
        Stop::from(AllocError::from(failed))
    }
}

/// What answers the reads of a run, or stops it. Nothing says that its answers agree with one
/// another.
pub trait Source {
    ghost use Rattle.std.specs.Prelude.{Result};
    ghost use Rattle.reads.specs.Reads.{Answer as Answering, Read as Reading};
    ghost use Rattle.reads.specs.declared.source.Stop.{Stop as Stopping};
    ghost use Rattle.reads.specs.Asking.{AsksAll};

    /// What asking for a read may come to: the source before, the read, the answer or why it stops,
    /// and the source after.
    ghost asks: { Self → Reading → Result Answering Stopping → Self → Type 0 };

    /// The answer to a read.
    fn ask(&mut self, read: &Read<Id>) -> Result<Answered, Stop>
        ensures { asks self.old read.now result self.new };

    /// Asks for each of the reads in turn and notes it with its answer at the end, until it stops.
    /// The room for the notes is there before anything is asked, so that no answer is lost. A
    /// source that answers many reads at less cost than one after another has a body of its own.
    fn ask_all(&mut self, reads: &[Read<Id>], notes: &mut Vec<Note>) -> Result<(), Stop>
        ensures { AsksAll asks self.old reads.now notes.old.items notes.new.items result self.new }
    {
        notes.reserve(reads.len())?;
        for read in reads {
            let answer = self.ask(read)?;
            notes.push_reserved(Note {
                read: *read,
                answer,
            });
        }
        Ok(())
    }
}
