//! Differences of lists, by binary search.
ghost use Rattle.std.specs.Prelude.{◌≡◌, IfOk};
ghost use Rattle.std.specs.List.Sorted.{IsStrictlySortedBy};
ghost use Rattle.sets.specs.Sets.{without};
ghost use Rattle.datasets.specs.Id.{id_order};

use datasets::Id;
use sets::is_member;
use std::alloc::{AllocError, Global};

/// The names that are not in a set, in their order.
pub fn names_outside(alloc: Global, names: &[Id], set: &[Id]) -> Result<Vec<Id>, AllocError>
    requires { IsStrictlySortedBy id_order set.now }
    ensures { IfOk result (λ kept. kept.items ≡ without id_order names.now set.now) }
{
    let mut kept = Vec::new(alloc);
    for name in names {
        if !is_member(set, name) {
            kept.push(*name)?;
        }
    }
    Ok(kept)
}
