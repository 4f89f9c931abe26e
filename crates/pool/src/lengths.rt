//! How many notes the runs have that were published.
//!
//! A worker that begins a pass of checks of a run that another has published takes from here how
//! many checks it makes before it commits, and that it need not try to commit what nobody has
//! published. What it is told changes which events it makes and nothing else, so no contract speaks
//! of it.

use std::alloc::{AllocError, Global};
use std::sync::atomic::{AtomicUsize, Ordering};

/// How many notes the last published run of each request has, which all workers share.
#[derive(Drop)]
pub(crate) struct Lengths {
    // One more than the notes, and 0 before any run.
    notes: Vec<AtomicUsize>,
}

impl Lengths {
    /// Those of a block of this many requests: none is published.
    pub(crate) fn new(alloc: Global, size: usize) -> Result<Lengths, AllocError> {
        let mut notes = Vec::with_capacity(alloc, size)?;
        for _ in 0..size {
            notes.push(AtomicUsize::new(0))?;
        }
        Ok(Lengths { notes })
    }

    fn count_at(&self, place: usize) -> usize {
        match self.notes.get(place) {
            Some(count) => count.load(Ordering::SeqCst),
            None => 0,
        }
    }

    /// How many notes the request's run has that was published last.
    pub(crate) fn at(&self, place: usize) -> usize {
        self.count_at(place).saturating_sub(1)
    }

    /// Whether a run of the request is published, or is about to be.
    pub(crate) fn is_published(&self, place: usize) -> bool {
        self.count_at(place) > 0
    }

    /// A run of the request with so many notes is published.
    pub(crate) fn put(&self, place: usize, notes: usize) {
        if let Some(it) = self.notes.get(place) {
            it.store(notes.saturating_add(1), Ordering::SeqCst);
        }
    }
}
