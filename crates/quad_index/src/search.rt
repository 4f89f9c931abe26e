//! Binary search in entries that are sorted by their keys.
ghost use Rattle.std.specs.Prelude.{◌≡◌, ◌≤◌, Bool, filter, slice_range, length, true, false};
ghost use Rattle.std.specs.List.{AllWithin};
ghost use Rattle.std.specs.List.Sorted.{IsSortedByKey, IsStrictlySortedBy};
ghost use Rattle.std.specs.Ordering.{is_eq};
ghost use Rattle.datasets.specs.Id.{id_order};
ghost use Rattle.datasets.specs.Dataset.{quad_order, matches};
ghost use Rattle.datasets.specs.declared.id.Id.{Id as Number};
ghost use Rattle.datasets.specs.declared.quad.Quad.{Quad as Spoken};
ghost use Rattle.quad_lists.specs.Keys.{key_order, key_of, order_at, is_before as the_is_before};
ghost use Rattle.quad_lists.specs.Known.{quad_of};

use datasets::{Id, Quad, QuadPattern};
use quad_lists::{Arrangement, Depth, Key, KnownQuad, is_before};

/// What has a quad, by which it is sorted and looked for: a quad itself, or one with more beside
/// it.
pub trait Entry {
    ghost quad: { Self → Spoken Number };

    /// Its key in an order.
    fn key(&self, arrangement: Arrangement) -> Key
        ensures { result ≡ key_of arrangement (quad self.now) };
}

impl Entry for Quad<Id> {
    ghost quad = { λ q. q };

    fn key(&self, arrangement: Arrangement) -> Key {
        arrangement.key_of(self)
    }
}

impl Entry for KnownQuad {
    ghost quad = { quad_of };

    fn key(&self, arrangement: Arrangement) -> Key {
        arrangement.key_of(&self.to_quad())
    }
}

// The first place whose entry isn't before the target: not less by so many places, or, with `past`,
// greater.
fn place_of<E: Entry>(
    entries: &[E],
    arrangement: Arrangement,
    depth: Depth,
    target: &Key,
    past: bool,
) -> usize
    requires { IsSortedByKey (λ e. key_of arrangement (E.quad e)) key_order entries.now }
    ensures within { result ≤ length entries.now }
    ensures front { AllWithin (λ e. the_is_before past
        (order_at depth (key_of arrangement (E.quad e)) target.now) ≡ true) entries.now 0 result }
    ensures back { AllWithin (λ e. the_is_before past
        (order_at depth (key_of arrangement (E.quad e)) target.now) ≡ false) entries.now result
        (length entries.now) }
{
    let mut low = 0;
    let mut high = entries.len();
    while low < high {
        let middle = low + (high - low) / 2;
        let key = entries[middle].key(arrangement);
        if is_before(past, depth.compare(&key, target)) {
            low = middle + 1;
        } else {
            high = middle;
        }
    }
    low
}

fn between<E>(entries: &[E], first: usize, past: usize) -> &[E]
    requires ordered { first ≤ past }
    requires within { past ≤ length entries.now }
    ensures { result.now ≡ slice_range entries.now first past }
{
    &entries[first..past]
}

// The entries that begin as the target does, in so many places.
fn part_of<'a, E: Entry>(
    entries: &'a [E],
    arrangement: Arrangement,
    depth: Depth,
    target: &Key,
) -> &'a [E]
    requires { IsSortedByKey (λ e. key_of arrangement (E.quad e)) key_order entries.now }
    ensures { result.now ≡ filter (λ e. is_eq
        (order_at depth (key_of arrangement (E.quad e)) target.now)) entries.now }
{
    let first = place_of(entries, arrangement, depth, target, false);
    let past = place_of(entries, arrangement, depth, target, true);
    between(entries, first, past)
}

/// Of entries that are sorted in an order, a part that has all whose quad the pattern matches:
/// those that begin as the pattern does, as far as its places are bound.
pub fn part_for<'a, E: Entry>(
    entries: &'a [E],
    arrangement: Arrangement,
    pattern: &QuadPattern<Id>,
) -> &'a [E]
    requires { IsSortedByKey (λ e. key_of arrangement (E.quad e)) key_order entries.now }
    ensures { (p : E → Bool) → ((e : E) → p e ≡ true
        → matches id_order pattern.now (E.quad e) ≡ true)
        → filter p result.now ≡ filter p entries.now }
{
    let bounds = arrangement.bounds_of(pattern);
    part_of(entries, arrangement, bounds.depth(), &bounds.target())
}

/// Of a set of quads, a part that has all that the pattern matches.
pub fn part_of_set<'a>(quads: &'a [Quad<Id>], pattern: &QuadPattern<Id>) -> &'a [Quad<Id>]
    requires { IsStrictlySortedBy (quad_order id_order) quads.now }
    ensures { filter (matches id_order pattern.now) result.now
        ≡ filter (matches id_order pattern.now) quads.now }
{
    part_for(quads, Arrangement::Spog, pattern)
}
