//! Lists of quads and of graph names: differences, sets after a change, and whether there is any.
ghost use Rattle.std.specs.Prelude.{◌≡◌, ◌++◌, true, IfOk};
ghost use Rattle.std.specs.List.{list_any};
ghost use Rattle.std.specs.List.Sorted.{IsStrictlySortedBy};
ghost use Rattle.sets.specs.Sets.{union, without};
ghost use Rattle.datasets.specs.Id.{id_order};
ghost use Rattle.datasets.specs.Dataset.{quad_order};
ghost use Rattle.reads.specs.Same.{quads_eq};

use datasets::{Id, Quad};
use quad_sets::QuadSlice;
use reads::lists::{copied_names, names_union};
use sets::is_member;
use std::alloc::{AllocError, Global};

/// Whether there is any name.
pub(crate) fn has_names(names: &[Id]) -> bool
    ensures { result ≡ list_any (λ name. true) names.now }
{
    names.iter().any(|_name| true)
}

/// Whether two sets of quads are the same.
pub(crate) fn same_sets(a: &QuadSlice<'_>, b: &QuadSlice<'_>) -> bool
    ensures { result ≡ quads_eq a.now b.now }
{
    a.is_same(b)
}

// The names that are none of a set's.
fn names_without(mut names: Vec<Id>, others: &[Id]) -> Vec<Id>
    requires { IsStrictlySortedBy id_order others.now }
    ensures { result.items ≡ without id_order names.items others.now }
{
    names.retain(|name| !is_member(others, name));
    names
}

/// The set of the names that are none of a set's, and of more.
pub(crate) fn names_after(
    alloc: Global,
    names: Vec<Id>,
    gone: &[Id],
    more: &[Id],
) -> Result<Vec<Id>, AllocError>
    requires { IsStrictlySortedBy id_order gone.now }
    ensures { IfOk result (λ after. after.items
        ≡ union id_order (without id_order names.items gone.now) more.now) }
{
    let more = copied_names(alloc, more)?;
    names_union(names_without(names, gone), more)
}
