//! Sets of quads of known terms.
ghost use Rattle.std.specs.Prelude.{◌≡◌, ◌≤◌, IfOk, filter, length, map};
ghost use Rattle.std.specs.List.{list_any};
ghost use Rattle.std.specs.List.Sorted.{IsStrictlySortedBy};
ghost use Rattle.sets.specs.Sets.{has, union, without};
ghost use Rattle.datasets.specs.Id.{id_order};
ghost use Rattle.datasets.specs.Dataset.{quad_order, matches as the_matches};
ghost use Rattle.quad_lists.specs.Known.{quad_of};

use crate::lists::changed;
use crate::near::is_member_near;
use crate::runs::changed_in_runs;
use datasets::{Id, Quad, QuadPattern};
use quad_index::part_for;
use quad_lists::matching::matches;
use quad_lists::{Arrangement, KnownQuad};
use sets::is_member;
use std::alloc::{AllocError, Global};

/// Of a set, a part that has all that the pattern matches.
pub(crate) fn part_of_known<'a>(
    known: &'a [KnownQuad],
    pattern: &QuadPattern<Id>,
) -> &'a [KnownQuad]
    requires { IsStrictlySortedBy (quad_order id_order) (map quad_of known.now) }
    ensures { filter (the_matches id_order pattern.now) (map quad_of result.now)
        ≡ filter (the_matches id_order pattern.now) (map quad_of known.now) }
{
    part_for(known, Arrangement::Spog, pattern)
}

fn is_any_widened(known: &[KnownQuad], pattern: &QuadPattern<Id>) -> bool
    ensures { result ≡ list_any (the_matches id_order pattern.now) (map quad_of known.now) }
{
    known
        .iter()
        .map(|entry| entry.to_quad())
        .any(|quad| matches(pattern, &quad))
}

/// Whether any quad of a set matches.
pub(crate) fn is_any_known(known: &[KnownQuad], pattern: &QuadPattern<Id>) -> bool
    requires { IsStrictlySortedBy (quad_order id_order) (map quad_of known.now) }
    ensures { result ≡ list_any (the_matches id_order pattern.now) (map quad_of known.now) }
{
    is_any_widened(part_of_known(known, pattern), pattern)
}

/// Whether a set has the quad.
pub(crate) fn is_among_known(known: &[KnownQuad], quad: &Quad<Id>) -> bool
    requires { IsStrictlySortedBy (quad_order id_order) (map quad_of known.now) }
    ensures { result ≡ has (quad_order id_order) (map quad_of known.now) quad.now }
{
    match KnownQuad::from_quad(quad) {
        Some(entry) => is_member(known, &entry),
        None => false,
    }
}

/// Whether a set has the quad, and a place to begin with for a greater one. It is fast where the
/// place before it is the quad's.
pub(crate) fn is_near_known(known: &[KnownQuad], place: usize, quad: &Quad<Id>) -> (bool, usize)
    requires set { IsStrictlySortedBy (quad_order id_order) (map quad_of known.now) }
    requires place { place ≤ length known.now }
    ensures value { result.0 ≡ has (quad_order id_order) (map quad_of known.now) quad.now }
    ensures place { result.1 ≤ length known.now }
{
    match KnownQuad::from_quad(quad) {
        Some(entry) => is_member_near(known, place, &entry),
        None => (false, place),
    }
}

/// The set of the quads of a set that are none of another's, and of more, where a run of members
/// between changes is long.
pub(crate) fn known_changed_in_runs(
    alloc: Global,
    quads: &[KnownQuad],
    gone: &[KnownQuad],
    more: &[KnownQuad],
) -> Result<Vec<KnownQuad>, AllocError>
    requires quads { IsStrictlySortedBy (quad_order id_order) (map quad_of quads.now) }
    requires gone { IsStrictlySortedBy (quad_order id_order) (map quad_of gone.now) }
    requires more { IsStrictlySortedBy (quad_order id_order) (map quad_of more.now) }
    ensures { IfOk result (λ after. map quad_of after.items ≡ union (quad_order id_order)
        (without (quad_order id_order) (map quad_of quads.now) (map quad_of gone.now))
        (map quad_of more.now)) }
{
    changed_in_runs(alloc, quads, gone, more)
}

/// The set of the quads that are none of a set's, and of more.
pub(crate) fn known_changed(
    quads: Vec<KnownQuad>,
    gone: &[KnownQuad],
    more: &[KnownQuad],
) -> Result<Vec<KnownQuad>, AllocError>
    requires { IsStrictlySortedBy (quad_order id_order) (map quad_of gone.now) }
    ensures { IfOk result (λ after. map quad_of after.items ≡ union (quad_order id_order)
        (without (quad_order id_order) (map quad_of quads.items) (map quad_of gone.now))
        (map quad_of more.now)) }
{
    changed(quads, gone, more)
}
