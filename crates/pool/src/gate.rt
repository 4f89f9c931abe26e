//! What sees the events of the workers.

use block_machine::Entry;

/// Sees each answered event of the workers of a pool.
pub trait Gate {
    /// Is called after each answered event of a worker, reads too, on the worker's thread and while
    /// it doesn't hold the book. The entry of a publication has no finished run.
    fn after(&self, worker: u32, entry: &Entry);
}

/// The gate that does nothing.
#[derive(Clone, Copy)]
pub struct Open;

impl Gate for Open {
    fn after(&self, _worker: u32, _entry: &Entry) {}
}
