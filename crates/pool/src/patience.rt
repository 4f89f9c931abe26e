//! How a worker waits that has looked in vain.

use crossbeam_utils::Backoff;
use std::sync::Wait;
use std::thread::Parker;
use std::time::Duration;

/// How long a worker sleeps first, in microseconds.
const SHORTEST_SLEEP: u64 = 50;

/// How long it sleeps at most: twice as long each time until then.
const LONGEST_SLEEP: u64 = 800;

/// A worker waits for some cycles first, then for other threads of its processor, and then it
/// sleeps, so that those that get on have the processors: two may be one core.
#[derive(Drop)]
pub(crate) struct Patience {
    backoff: Backoff,
    // How long it sleeps next, in microseconds.
    sleep: u64,
}

impl Patience {
    /// That of a worker that has not looked yet.
    pub(crate) fn new() -> Patience {
        Patience {
            backoff: Backoff::new(),
            sleep: SHORTEST_SLEEP,
        }
    }

    /// Waits a moment, longer each time.
    pub(crate) fn wait<R: Wait>(&mut self, rt: &R) {
        if !self.backoff.is_completed() {
            self.backoff.snooze();
            return;
        }
        Parker::new().park_timeout(rt, Duration::from_micros(self.sleep));
        self.sleep = self.sleep.saturating_mul(2).min(LONGEST_SLEEP);
    }

    /// The worker got on.
    pub(crate) fn reset(&mut self) {
        self.backoff.reset();
        self.sleep = SHORTEST_SLEEP;
    }
}
