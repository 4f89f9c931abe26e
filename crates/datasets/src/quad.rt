//! Quads and the patterns that match them.

use sets::Exact;

/// A quad: a triple and the graph that it is in. No graph name is the default graph, which comes
/// first.
#[derive(Clone, Copy, Drop, PartialEq, Eq, PartialOrd, Ord, Debug)]
pub struct Quad<T> {
    pub subject: T,
    pub predicate: T,
    pub object: T,
    pub graph: Option<T>,
}

impl<T: Exact> Exact for Quad<T> {
    ghost use Rattle.datasets.specs.Id.{quad_exact};

    ghost exact = { λ a b e. quad_exact T.cmp T.exact a b e };
}
