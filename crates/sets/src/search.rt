//! Binary search in a set.
ghost use Rattle.std.specs.Prelude.{◌≡◌, false, Some, IfSome, IfNone, slice_get};
ghost use Rattle.std.specs.List.Sorted.{IsStrictlySortedBy};
ghost use Rattle.sets.specs.Sets.{has};

use crate::Exact;

/// The place of a value in a set, counted from 0, or nothing where the set lacks it.
pub fn place_of<T: Exact>(set: &[T], value: &T) -> Option<usize>
    requires { IsStrictlySortedBy T.cmp set.now }
    ensures found { IfSome result (λ place. slice_get set.now place ≡ Some value.now) }
    ensures none { IfNone result (has T.cmp set.now value.now ≡ false) }
{
    set.binary_search(value).ok()
}

/// Whether a set has the value.
pub fn is_member<T: Exact>(set: &[T], value: &T) -> bool
    requires { IsStrictlySortedBy T.cmp set.now }
    ensures { result ≡ has T.cmp set.now value.now }
{
    place_of(set, value).is_some()
}
