//! Numbers of terms.

use sets::Exact;

/// A term by its number in a frozen dictionary, or a node that a request makes.
#[derive(Clone, Copy, PartialEq, Eq, PartialOrd, Ord, Debug)]
pub enum Id {
    Known(u32),
    Made {
        request: u32,
        op: u32,
        label: u32,
        rank: u32,
    },
}

impl Exact for Id {
    ghost use Rattle.datasets.specs.Id.{id_exact};

    ghost exact = { id_exact };
}
