//! Which quads a pattern matches.
ghost use Rattle.std.specs.Prelude.{◌≡◌, IfOk, filter, ◌&&◌};
ghost use Rattle.datasets.specs.Id.{id_order};
ghost use Rattle.datasets.specs.Dataset.{matches as the_matches, free_or, in_place};

use datasets::{GraphPlace, Id, Quad, QuadPattern};
use std::alloc::{AllocError, Global};

fn is_free_or(place: Option<Id>, term: Id) -> bool
    ensures { result ≡ free_or id_order place term }
{
    match place {
        None => true,
        Some(wanted) => term == wanted,
    }
}

fn is_in_place(place: GraphPlace<Id>, graph: Option<Id>) -> bool
    ensures { result ≡ in_place id_order place graph }
{
    match place {
        GraphPlace::Any => true,
        GraphPlace::Only(wanted) => graph == wanted,
    }
}

/// Whether a quad matches a pattern: each place with a term has that term.
pub fn matches(pattern: &QuadPattern<Id>, quad: &Quad<Id>) -> bool
    ensures { result ≡ the_matches id_order pattern.now quad.now }
{
    is_free_or(pattern.subject, quad.subject)
        && is_free_or(pattern.predicate, quad.predicate)
        && is_free_or(pattern.object, quad.object)
        && is_in_place(pattern.graph, quad.graph)
}

/// The quads that match, in their order.
pub fn matching(
    alloc: Global,
    pattern: &QuadPattern<Id>,
    quads: &[Quad<Id>],
) -> Result<Vec<Quad<Id>>, AllocError>
    ensures { IfOk result (λ kept. kept.items
        ≡ filter (the_matches id_order pattern.now) quads.now) }
{
    quads
        .iter()
        .copied()
        .filter(|quad| matches(pattern, quad))
        .collect(alloc)
}
