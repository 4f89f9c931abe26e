//! How far ahead of the committed requests others are begun.
//!
//! Where each request reads what the one before it writes, what runs ahead runs in vain, and takes
//! the lock and the processors from the one that gets on. So each run that comes to nothing halves
//! how far ahead one may be, and each commit lets it grow by a little: by less where runs ahead
//! came to nothing before enough requests were committed beside them. Where as many requests are
//! run as may be ahead, a worker more would find nothing to do: it waits, and leaves the book to
//! the others. That changes when a request is begun and nothing else.

use crate::patience::Patience;
use std::sync::Wait;
use std::sync::atomic::{AtomicUsize, Ordering};

/// The parts of a request in which it is counted how far ahead one may be.
const PARTS: usize = 64;

/// How far ahead a request may be at first, and at most, in parts: as far as there may be workers.
const FARTHEST: usize = 64 * PARTS;

/// How far ahead a request may be at least, in parts: the first that is not committed is always
/// begun.
const NEAREST: usize = PARTS;

/// By how many parts a commit lets it grow at most.
const MOST_GROWTH: usize = 8;

/// So many requests committed while others run ahead are enough for it to grow fast.
const ENOUGH: usize = 8;

/// After how many looks a worker that waits for room asks the book all the same.
const MOST_LOOKS: usize = 16;

/// How far ahead of the committed requests others are begun, which all workers share.
#[derive(Drop)]
pub(crate) struct Pace {
    // How far, in parts of a request.
    ahead: AtomicUsize,
    // By how many parts a commit lets it grow.
    growth: AtomicUsize,
    // How many requests were committed, since a run last came to nothing, while others could run
    // ahead.
    beside: AtomicUsize,
    // How many commits were told: no more than there are, and in the end as many.
    committed: AtomicUsize,
    // How many requests are run now.
    running: AtomicUsize,
}

impl Pace {
    /// As far ahead as there may be workers.
    pub(crate) fn new() -> Pace {
        Pace {
            ahead: AtomicUsize::new(FARTHEST),
            growth: AtomicUsize::new(MOST_GROWTH),
            beside: AtomicUsize::new(0),
            committed: AtomicUsize::new(0),
            running: AtomicUsize::new(0),
        }
    }

    fn most(&self) -> usize {
        self.ahead.load(Ordering::SeqCst) / PARTS
    }

    /// Below which place a request may be begun now.
    pub(crate) fn until(&self) -> usize {
        let committed = self.committed.load(Ordering::SeqCst);
        committed.saturating_add(self.most())
    }

    /// The same once the request at a place is published: where all before it are committed, it
    /// will be too.
    pub(crate) fn until_behind(&self, place: usize) -> usize {
        let committed = self.committed.load(Ordering::SeqCst);
        let first = if place == committed {
            committed.saturating_add(1)
        } else {
            committed
        };
        first.saturating_add(self.most())
    }

    /// A request was taken, and is run.
    pub(crate) fn begin(&self) {
        self.running.fetch_add(1, Ordering::SeqCst);
    }

    /// It is run no more.
    pub(crate) fn end(&self) {
        self.running.fetch_sub(1, Ordering::SeqCst);
    }

    /// Waits while as many requests are run as may be ahead, but not for long.
    pub(crate) fn wait_for_room<R: Wait>(&self, rt: &R, patience: &mut Patience) {
        for _look in 0..MOST_LOOKS {
            if self.running.load(Ordering::SeqCst) < self.most() {
                return;
            }
            patience.wait(rt);
        }
    }

    /// Whether so many commits were told.
    pub(crate) fn are_committed(&self, requests: usize) -> bool {
        requests <= self.committed.load(Ordering::SeqCst)
    }

    /// One more request is committed.
    pub(crate) fn commit(&self) {
        self.committed.fetch_add(1, Ordering::SeqCst);
        let ahead = self.ahead.load(Ordering::SeqCst);
        if 2 * PARTS <= ahead && ENOUGH <= self.beside.fetch_add(1, Ordering::SeqCst) {
            self.growth.store(MOST_GROWTH, Ordering::SeqCst);
        }
        let growth = self.growth.load(Ordering::SeqCst);
        let farther = ahead.saturating_add(growth).min(FARTHEST);
        self.ahead.store(farther, Ordering::SeqCst);
    }

    /// One more request is committed, if it is so.
    pub(crate) fn commit_if(&self, so: bool) {
        if so {
            self.commit();
        }
    }

    /// A run came to nothing.
    pub(crate) fn slow_down(&self) {
        if self.beside.swap(0, Ordering::SeqCst) < ENOUGH {
            let growth = self.growth.load(Ordering::SeqCst);
            self.growth.store((growth / 2).max(1), Ordering::SeqCst);
        }
        let ahead = self.ahead.load(Ordering::SeqCst);
        self.ahead.store((ahead / 2).max(NEAREST), Ordering::SeqCst);
    }
}
