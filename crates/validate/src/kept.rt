//! What is kept of a block's requests.

use incarnations::Slot;
use version_overlay::{ChangeFilter, Settled};

/// The slots of a block's requests, and what the first of them make of a dataset, as one, once they
/// are committed.
#[derive(Drop)]
pub struct Kept<'a> {
    pub slots: Vec<Slot<'a>>,
    /// How many of the first requests are settled.
    pub low: usize,
    /// The changes of those that are settled.
    pub settled: Settled,
    /// A filter of all changes that were published.
    pub published: ChangeFilter,
}
