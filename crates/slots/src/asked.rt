//! What a read of a request comes to.

use reads::Answered;

/// What a read comes to: an estimate that blocks it, or its answer.
#[derive(Drop)]
pub enum Asked {
    /// The greatest lower request that is an estimate and whose delta covers the read.
    Blocked(usize),
    Answered(Answered),
}
