//! How many entries of sorted orders were read.
ghost use Rattle.std.specs.Prelude.{◌≡◌, ◌+◌, ◌<◌, ◌^◌};

use std::marker::Model;

/// A count of looks: of readings of an entry of an `Order`. Contracts see it as that number.
#[derive(Drop)]
pub struct Looks {
    count: u64,
}

impl Model for Looks {
    ghost use Rattle.std.specs.Prelude.{ℕ};

    ghost Value = { ℕ };

    ghost view = { λ l. l.count };
}

impl Looks {
    /// No looks.
    pub fn new() -> Looks
        ensures { result ≡ 0 }
    {
        Looks { count: 0 }
    }

    /// How many there were.
    pub fn count(&self) -> u64
        ensures { result ≡ self.now }
    {
        self.count
    }

    // One more.
    pub(crate) fn add_one(&mut self)
        requires { self.old < u64.MAX }
        ensures { self.new ≡ self.old + 1 }
    {
        let Looks { count } = self;
        *count += 1;
    }

    // So many more.
    pub(crate) fn add(&mut self, more: usize)
        requires { self.old + more < 2 ^ 64 }
        ensures { self.new ≡ self.old + more }
    {
        let Looks { count } = self;
        *count += more as u64;
    }
}
