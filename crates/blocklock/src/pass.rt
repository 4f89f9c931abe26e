ghost use Rattle.std.specs.Prelude.{◌≡◌};

use crate::journaled::Journaled;
use crate::plays::{Slot, ViewOf};
use atomic_table::Seat;
use std::marker::Model;

/// What one worker knows of the book. It has no access of its own: a worker takes the book with it.
#[derive(Drop)]
pub struct Pass<B: Journaled> {
    pub(crate) seat: Seat<Slot<B>, ViewOf<B>>,
    pub(crate) worker: u32,
}

impl<B: Journaled> Model for Pass<B> {
    ghost use Rattle.blocklock.specs.Passes.{PassView};

    ghost Value = { PassView B.Subject B.Entry };

    ghost use Rattle.blocklock.specs.Passes.{IsSeatOf, seated};

    ghost view = { λ p. seated p.seat.table_id p.worker p.seat.me.0 };

    ghost invariant = { λ p. IsSeatOf p.worker p.seat.me };
}

impl<B: Journaled> Pass<B> {
    /// The worker whose calls are made with it.
    pub fn worker(&self) -> u32
        ensures { result ≡ self.now.worker }
    {
        self.worker
    }
}
