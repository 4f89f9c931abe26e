//! Joins that end as soon as there are more mappings than a limit.
ghost use Rattle.std.specs.Prelude.{◌≡◌, ◌++◌, map, filter, filter_map, IfOk, OnOk};
ghost use Rattle.std.specs.List.{flat_map};
ghost use Rattle.algebra.specs.Expressions.{expression_of};
ghost use Rattle.datasets.specs.Id.{id_order};
ghost use Rattle.meaning.specs.Mapping.{mapping_cmp, joined};
ghost use Rattle.meaning.specs.Solutions.{passes_all};
ghost use Rattle.sets.specs.Sets.{set_of as the_set_of};
ghost use Rattle.solution.specs.Limits.{up_to};
ghost use Rattle.solution.specs.Lookups.{near};

use crate::filters::Filters;
use crate::lookup::Lookup;
use crate::mapping::Mapping;
use crate::operators::passes_each;
use crate::solutions::Solutions;
use algebra::Expression;
use datasets::Id;
use sets::set_of;
use std::alloc::{AllocError, Global};

// Adds the merges of a mapping with those of these that it is compatible with, where they pass each
// filter.
fn push_merges<F: Filters>(
    alloc: Global,
    filters: &[Expression<Id>],
    by: &F,
    found: &mut Vec<Mapping>,
    a: &Mapping,
    others: &[Mapping],
) -> Result<(), AllocError>
    ensures { OnOk result (found.new.items ≡ found.old.items
        ++ filter (passes_all (F.passes by.now) (map expression_of filters.now))
        (filter_map (joined id_order a.now) others.now)) }
{
    for b in others {
        if a.is_compatible(b) {
            let merge = a.merge(b)?;
            if passes_each(alloc, filters, by, &merge)? {
                found.push(merge)?;
            }
        }
    }
    Ok(())
}

// Adds the merges of a mapping with those near it that it is compatible with, where they pass each
// filter.
fn push_passing<F: Filters>(
    alloc: Global,
    filters: &[Expression<Id>],
    by: &F,
    found: &mut Vec<Mapping>,
    a: &Mapping,
    right: &Lookup,
) -> Result<(), AllocError>
    ensures { OnOk result (found.new.items ≡ found.old.items
        ++ filter (passes_all (F.passes by.now) (map expression_of filters.now))
        (filter_map (joined id_order a.now)
        (near right.now.variables.items right.now.mappings.items right.now.loose.items a.now))) }
{
    push_merges(alloc, filters, by, found, a, right.near(a))?;
    push_merges(alloc, filters, by, found, a, right.loose())
}

/// The merges of all compatible pairs that are near, where they pass each filter, unless there are
/// more than the limit. Whenever more than the limit have come, repeats are taken out, so that no
/// more than twice as many are kept, and those of one mapping on the left.
pub fn joins_up_to<F: Filters>(
    alloc: Global,
    filters: &[Expression<Id>],
    by: &F,
    left: &[Mapping],
    right: &Lookup,
    limit: usize,
) -> Result<Option<Solutions>, AllocError>
    ensures { IfOk result (λ found. found ≡ up_to limit
        (the_set_of (mapping_cmp id_order)
        (flat_map (λ a. filter (passes_all (F.passes by.now) (map expression_of filters.now))
        (filter_map (joined id_order a) (near right.now.variables.items right.now.mappings.items
        right.now.loose.items a))) left.now))) }
{
    let mut found = Vec::new(alloc);
    let mut known = 0;
    for a in left {
        push_passing(alloc, filters, by, &mut found, a, right)?;
        if found.len().saturating_sub(known) > limit {
            found = set_of(found);
            known = found.len();
            if known > limit {
                return Ok(None);
            }
        }
    }
    Ok(Solutions::from_mappings(found).up_to(limit))
}
