//! Lists as contracts see them, and finite sets as lists that rise strictly in an order.
//!
//! A set is one list, so two sets are equal exactly if their lists are: rank is place, count is
//! length. Stands on std alone.
#![tactic(auto)]

ghost use Rattle.std.specs.Prelude.{◌≡◌};
ghost use Rattle.std.specs.declared.cmp.Ordering.TheVariants.{Equal};
ghost use Rattle.sets.specs.Sets.{set_of as the_set_of};

mod items;
mod search;

pub use items::Items;
pub use search::{is_member, place_of};

/// An order that tells any two values apart.
pub trait Exact: Ord {
    ghost exact: { (x y : Self) → Self.cmp x y ≡ Equal → x ≡ y };
}

/// The set of the members of a vector.
pub fn set_of<T: Exact + Drop>(mut members: Vec<T>) -> Vec<T>
    ensures { result.items ≡ the_set_of T.cmp members.items }
{
    members.sort_unstable();
    members.dedup();
    members
}
