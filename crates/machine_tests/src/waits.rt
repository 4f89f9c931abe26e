//! How a gate waits for other workers, but not for ever.

use std::sync::Wait;
use std::sync::atomic::{AtomicUsize, Ordering};
use std::thread::Parker;
use std::time::Duration;

/// How often a gate looks at most, a millisecond apart.
const MOST_LOOKS: u32 = 10_000;

/// A number that workers raise, and others wait for.
#[derive(Drop)]
pub struct Count {
    number: AtomicUsize,
}

impl Count {
    pub fn new() -> Count {
        Count {
            number: AtomicUsize::new(0),
        }
    }

    pub fn raise(&self) {
        self.number.fetch_add(1, Ordering::SeqCst);
    }

    pub fn get(&self) -> usize {
        self.number.load(Ordering::SeqCst)
    }

    /// Waits until the number is so large at least, but not for long: then the one who gives up is
    /// counted, and nobody waits any more.
    pub fn await_least<R: Wait>(&self, rt: &R, least: usize, given_up: &Count) {
        for _look in 0..MOST_LOOKS {
            if least <= self.get() || given_up.get() > 0 {
                return;
            }
            Parker::new().park_timeout(rt, Duration::from_millis(1));
        }
        given_up.raise();
    }
}
