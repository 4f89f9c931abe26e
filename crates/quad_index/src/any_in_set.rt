//! Whether a pattern matches any quad of a set.
ghost use Rattle.std.specs.Prelude.{◌≡◌};
ghost use Rattle.std.specs.List.{list_any};
ghost use Rattle.std.specs.List.Sorted.{IsStrictlySortedBy};
ghost use Rattle.datasets.specs.Id.{id_order};
ghost use Rattle.datasets.specs.Dataset.{quad_order, matches as the_matches};

use crate::search::part_of_set;
use datasets::{Id, Quad, QuadPattern};
use quad_lists::matching::matches;

// Whether any of the quads matches.
fn is_any_matching(quads: &[Quad<Id>], pattern: &QuadPattern<Id>) -> bool
    ensures { result ≡ list_any (the_matches id_order pattern.now) quads.now }
{
    quads.iter().any(|quad| matches(pattern, quad))
}

/// Whether any quad of a set matches.
pub fn is_any_in_set(quads: &[Quad<Id>], pattern: &QuadPattern<Id>) -> bool
    requires { IsStrictlySortedBy (quad_order id_order) quads.now }
    ensures { result ≡ list_any (the_matches id_order pattern.now) quads.now }
{
    is_any_matching(part_of_set(quads, pattern), pattern)
}
