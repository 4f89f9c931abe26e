//! A base that comes in pieces.
ghost use Rattle.std.specs.Prelude.{◌≡◌, ◌≤◌, ◌<◌, ◌+◌, ◌^◌, length};
ghost use Rattle.nquads.specs.Fed.{lasting};

use crate::base::MOST_BYTES;
use crate::fault::BaseFault;
use crate::kept::{Kept, answer, nothing_kept, take_within};
use std::alloc::Global;
use terms::DataSet;

/// A base that comes in pieces, of which each line is read as soon as its end is known: when its LF
/// has come, or its CR and a byte behind it. The end of CR LF is its LF.
#[derive(Drop)]
pub struct Feed {
    limit: usize,
    kept: Kept,
    /// Why no more is taken, once that was told.
    fault: Option<BaseFault>,
    ghost ends: { kept.read.ends ≤ kept.len },
    ghost within: { kept.len + length kept.rest.items ≤ limit },
    ghost most: { limit < 2 ^ 32 },
}

/// The same fault again.
fn again(fault: &BaseFault) -> BaseFault
    ensures { result ≡ fault.now }
{
    match fault {
        BaseFault::OutOfMemory => BaseFault::OutOfMemory,
        BaseFault::BadLine(number) => BaseFault::BadLine(*number),
        BaseFault::TooLong => BaseFault::TooLong,
        BaseFault::Device => BaseFault::Device,
    }
}

/// The fault that is told again at every later piece, unless this one may not come again.
fn lasting(fault: &BaseFault) -> Option<BaseFault>
    ensures { result ≡ lasting fault.now }
{
    match fault {
        BaseFault::OutOfMemory => None,
        BaseFault::BadLine(number) => Some(BaseFault::BadLine(*number)),
        BaseFault::TooLong => Some(BaseFault::TooLong),
        BaseFault::Device => Some(BaseFault::Device),
    }
}

impl Feed {
    ghost use Rattle.std.specs.Prelude.{ℕ};
    ghost use Rattle.nquads.specs.Fed.{Fed, nothing_fed, fed_with, AnswersPiece, AnswersAll};
    ghost use Rattle.nquads.specs.Feeding.{IsFed};

    /// Nothing was fed, and there may be 2^30 bytes.
    pub fn new(alloc: Global) -> Feed
        ensures { IsFed (2 ^ 30) nothing_fed result }
    {
        Feed::with_limit(alloc, MOST_BYTES as u32)
    }

    /// The same, where there may be so many bytes.
    pub fn with_limit(alloc: Global, limit: u32) -> Feed
        ensures { IsFed limit nothing_fed result }
    {
        Feed {
            limit: limit as usize,
            kept: nothing_kept(alloc),
            fault: None,
        }
    }

    /// Takes a piece in. `BadLine` comes at the first piece with which the end of a bad line is
    /// known, of which that is the first; else `TooLong` at the first with which there are more
    /// bytes than there may be. Each of them comes again at every later piece. `OutOfMemory` may
    /// come at any piece before, and then it is as if the piece had not been fed.
    pub fn feed(&mut self, piece: &[u8]) -> Result<(), BaseFault>
        ensures answer { (limit : ℕ) (before : Fed) → IsFed limit before self.old
            → AnswersPiece limit before piece.now result }
        ensures fed { (limit : ℕ) (before : Fed) → IsFed limit before self.old
            → IsFed limit (fed_with before piece.now result) self.new }
    {
        if let Some(fault) = &self.fault {
            return Err(again(fault));
        }
        match take_within(&mut self.kept, piece, self.limit) {
            Ok(()) => Ok(()),
            Err(fault) => {
                self.fault = lasting(&fault);
                Err(fault)
            }
        }
    }

    /// The dataset of all that was fed, or why it is none: what `read` answers where all pieces
    /// come from a reader, one behind the other. A fault that was told is told again.
    pub fn finish(self) -> Result<DataSet, BaseFault>
        ensures { (limit : ℕ) (fed : Fed) → IsFed limit fed self → AnswersAll limit fed result }
    {
        let Feed { kept, fault, .. } = self;
        if let Some(fault) = fault {
            drop(kept);
            return Err(fault);
        }
        answer(kept)
    }
}
