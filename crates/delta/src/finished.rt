//! Finished runs of requests and of blocks.
ghost use Rattle.std.specs.Prelude.{◌≡◌, IfOk};

use crate::delta::Delta;
use reads::{CompactView, Note, SharedItems};
use sets::Items;
use std::alloc::{AllocError, Global};

/// A finished run of a request: what it read and was answered, in order, the change that it makes,
/// and the reply to the request. Specs/Sound.antt says when it is sound.
#[derive(Drop)]
pub struct Finished {
    pub transcript: SharedItems<Note>,
    pub delta: Delta,
    pub reply: meaning::Reply,
}

/// What first requests of a block come to: the dataset that they leave, and their replies in order.
#[derive(Drop)]
pub struct Outcome {
    pub dataset: CompactView,
    pub replies: Items<meaning::Reply>,
}

impl Finished {
    /// The same again: its transcript and its change are shared, and not copied.
    pub fn copied(&self, alloc: Global) -> Result<Finished, AllocError>
        ensures { IfOk result (λ copy. copy ≡ self.now) }
    {
        Ok(Finished {
            transcript: self.transcript.copied()?,
            delta: self.delta.copied(alloc)?,
            reply: self.reply,
        })
    }
}
