//! Quads of known terms, found and put in order in little memory.
ghost use Rattle.std.specs.Prelude.{◌≡◌, IfOk, filter, map};
ghost use Rattle.datasets.specs.Id.{id_order};
ghost use Rattle.datasets.specs.Dataset.{quad_order, matches as the_matches};
ghost use Rattle.sets.specs.Sets.{set_of as the_set_of};
ghost use Rattle.quad_lists.specs.Known.{quad_of};
ghost use Rattle.quad_lists.specs.KnownOrder.{known_order};

use crate::key::Arrangement;
use crate::known::KnownQuad;
use crate::matching::matches;
use datasets::{Id, QuadPattern};
use radix::{is_set, set_by_numbers};
use sets::set_of;
use std::alloc::{AllocError, Global};

/// Those that match, in their order.
pub(crate) fn known_matching(
    alloc: Global,
    pattern: &QuadPattern<Id>,
    known: &[KnownQuad],
) -> Result<Vec<KnownQuad>, AllocError>
    ensures { IfOk result (λ found. map quad_of found.items
        ≡ filter (the_matches id_order pattern.now) (map quad_of known.now)) }
{
    let mut found = Vec::new(alloc);
    found.reserve_exact(known.len())?;
    for entry in known {
        if matches(pattern, &entry.to_quad()) {
            found.push(*entry)?;
        }
    }
    Ok(found)
}

// The set of these quads.
fn set_from(
    alloc: Global,
    known: &[KnownQuad],
    arrangement: Arrangement,
) -> Result<Vec<KnownQuad>, AllocError>
    ensures { IfOk result (λ set. set.items ≡ the_set_of known_order known.now) }
{
    match arrangement {
        // Those with one predicate stand by object, graph and subject, so that by subject they are
        // in order.
        Arrangement::Pogs => set_by_numbers(alloc, known, 1, |quad, _| quad.subject),
        _ => Ok(set_of(Vec::from_slice(alloc, known)?)),
    }
}

/// The set of these quads. It takes the least time where they stand in its order, or are of one
/// predicate in this one.
pub(crate) fn narrow_set(
    alloc: Global,
    known: &[KnownQuad],
    arrangement: Arrangement,
) -> Result<Vec<KnownQuad>, AllocError>
    ensures { IfOk result (λ set. map quad_of set.items
        ≡ the_set_of (quad_order id_order) (map quad_of known.now)) }
{
    if is_set(known) {
        return Vec::from_slice(alloc, known);
    }
    set_from(alloc, known, arrangement)
}
