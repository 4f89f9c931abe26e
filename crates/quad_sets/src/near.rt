//! Search in a set for values most of which rise: near the place of the one before, and else by
//! binary search.
ghost use Rattle.std.specs.Prelude.{◌≡◌, ◌≤◌, ◌<◌, ◌-◌, length, slice_index_or, IsTrue, IfSome};
ghost use Rattle.std.specs.List.Sorted.{IsStrictlySortedBy};
ghost use Rattle.sets.specs.Sets.{has};

use sets::Exact;
use std::cmp::Ordering;

// Whether a value is above the member before a place, if there is one.
fn is_above<T: Exact>(set: &[T], place: usize, value: &T) -> bool
    requires { place ≤ length set.now }
    ensures { IsTrue result → (d : T) → 0 < place
        → T.cmp (slice_index_or set.now (place - 1) d) value.now ≡ Ordering.Less }
{
    if place == 0 {
        return true;
    }
    match set[place - 1].cmp(value) {
        Ordering::Less => true,
        _ => false,
    }
}

// Whether a set has a value, if its members on both sides of a place tell that.
fn told_near<T: Exact>(set: &[T], place: usize, value: &T) -> Option<bool>
    requires set { IsStrictlySortedBy T.cmp set.now }
    requires place { place ≤ length set.now }
    ensures { IfSome result (λ so. so ≡ has T.cmp set.now value.now) }
{
    if !is_above(set, place, value) {
        return None;
    }
    if place == set.len() {
        return Some(false);
    }
    match set[place].cmp(value) {
        Ordering::Less => None,
        Ordering::Equal => Some(true),
        Ordering::Greater => Some(false),
    }
}

// Whether a set has a value, and the place of the first greater one.
fn searched<T: Exact>(set: &[T], value: &T) -> (bool, usize)
    requires { IsStrictlySortedBy T.cmp set.now }
    ensures value { result.0 ≡ has T.cmp set.now value.now }
    ensures place { result.1 ≤ length set.now }
{
    match set.binary_search(value) {
        Ok(place) => (true, place + 1),
        Err(place) => (false, place),
    }
}

/// Whether a set has a value, and a place to begin with for a greater one. It is fast where the
/// place before it is the value's.
pub(crate) fn is_member_near<T: Exact>(set: &[T], place: usize, value: &T) -> (bool, usize)
    requires set { IsStrictlySortedBy T.cmp set.now }
    requires place { place ≤ length set.now }
    ensures value { result.0 ≡ has T.cmp set.now value.now }
    ensures place { result.1 ≤ length set.now }
{
    match told_near(set, place, value) {
        Some(true) if place < set.len() => (true, place + 1),
        Some(so) => (so, place),
        None => searched(set, value),
    }
}
