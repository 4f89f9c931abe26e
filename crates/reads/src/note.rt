//! Reads with their answers.

use crate::answered::Answered;
use datasets::{Id, Read};

/// A read with its answer.
#[derive(Drop)]
pub struct Note {
    pub read: Read<Id>,
    pub answer: Answered,
}
