//! Between which graphs the quads of a change lie.
ghost use Rattle.std.specs.Prelude.{◌≡◌};
ghost use Rattle.datasets.specs.declared.id.Id.{Id as Number};
ghost use Rattle.datasets.specs.declared.quad.Quad.{Quad as QuadOf};
ghost use Rattle.delta.specs.GraphSpan.{graph_number as the_graph_number, IsWithin, AreWithin, lets as the_lets};

use datasets::{GraphPlace, Id, Quad};
use quad_sets::QuadSlice;

/// Between which graphs, by their numbers, some quads lie: any, or those from the least to the
/// greatest, of which there are none where the least is above the greatest.
#[derive(Clone, Copy)]
pub enum GraphSpan {
    Any,
    Between { low: u64, high: u64 },
}

/// A number of a graph. Made nodes have one and the same.
fn graph_number(graph: &Option<Id>) -> u64
    ensures { result ≡ the_graph_number graph.now }
{
    match graph {
        None => 0,
        Some(Id::Known(number)) => *number as u64 + 1,
        Some(Id::Made { .. }) => u64::MAX,
    }
}

impl GraphSpan {
    /// That of no quads.
    pub fn new() -> GraphSpan {
        GraphSpan::Between {
            low: u64::MAX,
            high: 0,
        }
    }

    /// With one more quad.
    fn with(self, quad: &Quad<Id>) -> GraphSpan
        ensures here { IsWithin result quad.now }
        ensures kept { (q : QuadOf Number) → IsWithin self q → IsWithin result q }
    {
        match self {
            GraphSpan::Any => GraphSpan::Any,
            GraphSpan::Between { low, high } => {
                let number = graph_number(&quad.graph);
                GraphSpan::Between {
                    low: low.min(number),
                    high: high.max(number),
                }
            }
        }
    }

    /// With some more quads.
    pub fn with_all(self, quads: &QuadSlice<'_>) -> GraphSpan
        ensures here { AreWithin result quads.now }
        ensures kept { (q : QuadOf Number) → IsWithin self q → IsWithin result q }
    {
        let mut span = self;
        for place in 0..quads.len() {
            span = span.with(&quads.get(place));
        }
        span
    }

    /// Whether a quad of such a graph may be among them.
    pub fn lets(&self, place: &GraphPlace<Id>) -> bool
        ensures { result ≡ the_lets self.now place.now }
    {
        match (self, place) {
            (GraphSpan::Between { low, high }, GraphPlace::Only(graph)) => {
                let number = graph_number(graph);
                *low <= number && number <= *high
            }
            _ => true,
        }
    }
}
