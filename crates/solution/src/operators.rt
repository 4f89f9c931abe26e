//! The operators of the algebra on lists of mappings, one mapping at a time.
ghost use Rattle.std.specs.Prelude.{◌≡◌, ◌++◌, ◌&&◌, ◌||◌, not, map, filter, filter_map, IfOk, OnOk};
ghost use Rattle.std.specs.List.{list_all, flat_map};
ghost use Rattle.algebra.specs.Expressions.{expression_of};
ghost use Rattle.datasets.specs.Id.{id_order};
ghost use Rattle.meaning.specs.Mapping.{joined, compatible, merge, shares, fitted};
ghost use Rattle.meaning.specs.Solutions.{passes_all};
ghost use Rattle.solution.specs.Lookups.{near};

use crate::filters::Filters;
use crate::lookup::Lookup;
use crate::mapping::Mapping;
use algebra::{Expression, Place};
use datasets::Id;
use std::alloc::{AllocError, Global};

// Adds the merges of a mapping with those of these that it is compatible with.
fn push_merges(found: &mut Vec<Mapping>, a: &Mapping, others: &[Mapping]) -> Result<(), AllocError>
    ensures { OnOk result (found.new.items ≡ found.old.items
        ++ filter_map (joined id_order a.now) others.now) }
{
    for b in others {
        if a.is_compatible(b) {
            found.push(a.merge(b)?)?;
        }
    }
    Ok(())
}

// Adds the merges of a mapping with those near it that it is compatible with.
fn push_joined(found: &mut Vec<Mapping>, a: &Mapping, right: &Lookup) -> Result<(), AllocError>
    ensures { OnOk result (found.new.items ≡ found.old.items
        ++ filter_map (joined id_order a.now)
        (near right.now.variables.items right.now.mappings.items right.now.loose.items a.now)) }
{
    push_merges(found, a, right.near(a))?;
    push_merges(found, a, right.loose())
}

/// The merges of all compatible pairs that are near, in any order and with repeats.
pub fn joins(alloc: Global, left: &[Mapping], right: &Lookup) -> Result<Vec<Mapping>, AllocError>
    ensures { IfOk result (λ found. found.items
        ≡ flat_map (λ a. filter_map (joined id_order a)
        (near right.now.variables.items right.now.mappings.items right.now.loose.items a))
        left.now) }
{
    let mut found = Vec::new(alloc);
    for a in left {
        push_joined(&mut found, a, right)?;
    }
    Ok(found)
}

/// Adds the mappings under which a place of a pattern is this term. An error comes only where a
/// growth was refused; some of them may have been added then, so a caller drops what it found.
pub fn push_fitted(
    found: &mut Vec<Mapping>,
    place: Place<Id>,
    term: Id,
    mappings: Vec<Mapping>,
) -> Result<(), AllocError>
    ensures { OnOk result (found.new.items ≡ found.old.items
        ++ filter_map (fitted id_order place term) mappings.items) }
{
    for mapping in mappings {
        if let Some(fit) = mapping.fit(place, term) {
            found.push(fit)?;
        }
    }
    Ok(())
}

// Whether each of these is incompatible with a mapping, or shares no variable with it.
fn are_apart(a: &Mapping, others: &[Mapping]) -> bool
    ensures { result ≡ list_all (λ b. not (compatible id_order a.now b) || not (shares a.now b))
        others.now }
{
    others.iter().all(|b| !a.is_compatible(b) || !a.shares(b))
}

// Whether each that is near a mapping is incompatible with it, or shares no variable with it.
fn is_apart(a: &Mapping, right: &Lookup) -> bool
    ensures { result ≡ list_all (λ b. not (compatible id_order a.now b) || not (shares a.now b))
        (near right.now.variables.items right.now.mappings.items right.now.loose.items a.now) }
{
    are_apart(a, right.near(a)) && are_apart(a, right.loose())
}

/// Those that each on the right is incompatible with or shares no variable with.
pub fn apart_from(
    alloc: Global,
    mappings: Vec<Mapping>,
    right: &Lookup,
) -> Result<Vec<Mapping>, AllocError>
    ensures { IfOk result (λ kept. kept.items
        ≡ filter (λ a. list_all (λ b. not (compatible id_order a b) || not (shares a b))
        (near right.now.variables.items right.now.mappings.items right.now.loose.items a))
        mappings.items) }
{
    let mut kept = Vec::new(alloc);
    for a in mappings {
        if is_apart(&a, right) {
            kept.push(a)?;
        }
    }
    Ok(kept)
}

/// Whether a mapping passes each filter.
pub fn passes_each<F: Filters>(
    alloc: Global,
    filters: &[Expression<Id>],
    by: &F,
    mapping: &Mapping,
) -> Result<bool, AllocError>
    ensures { IfOk result (λ so. so ≡ passes_all (F.passes by.now) (map expression_of filters.now)
        mapping.now) }
{
    for filter in filters {
        if !by.is_passed(alloc, filter, mapping)? {
            return Ok(false);
        }
    }
    Ok(true)
}

// Whether no merge of a mapping with one of these that it is compatible with passes the filters.
fn fail<F: Filters>(
    alloc: Global,
    filters: &[Expression<Id>],
    by: &F,
    a: &Mapping,
    others: &[Mapping],
) -> Result<bool, AllocError>
    ensures { IfOk result (λ so. so ≡ list_all
        (λ b. not (compatible id_order a.now b
        && passes_all (F.passes by.now) (map expression_of filters.now) (merge a.now b)))
        others.now) }
{
    for b in others {
        if a.is_compatible(b) && passes_each(alloc, filters, by, &a.merge(b)?)? {
            return Ok(false);
        }
    }
    Ok(true)
}

// Whether no merge of a mapping with one near it that it is compatible with passes the filters.
fn fails_all<F: Filters>(
    alloc: Global,
    filters: &[Expression<Id>],
    by: &F,
    a: &Mapping,
    right: &Lookup,
) -> Result<bool, AllocError>
    ensures { IfOk result (λ so. so ≡ list_all
        (λ b. not (compatible id_order a.now b
        && passes_all (F.passes by.now) (map expression_of filters.now) (merge a.now b)))
        (near right.now.variables.items right.now.mappings.items right.now.loose.items a.now)) }
{
    if fail(alloc, filters, by, a, right.near(a))? {
        fail(alloc, filters, by, a, right.loose())
    } else {
        Ok(false)
    }
}

/// Those that pass each filter.
pub fn passing<F: Filters>(
    alloc: Global,
    filters: &[Expression<Id>],
    by: &F,
    mappings: Vec<Mapping>,
) -> Result<Vec<Mapping>, AllocError>
    ensures { IfOk result (λ kept. kept.items
        ≡ filter (passes_all (F.passes by.now) (map expression_of filters.now)) mappings.items) }
{
    let mut kept = Vec::new(alloc);
    for mapping in mappings {
        if passes_each(alloc, filters, by, &mapping)? {
            kept.push(mapping)?;
        }
    }
    Ok(kept)
}

/// Those that no mapping on the right goes on from under the filters.
pub fn difference<F: Filters>(
    alloc: Global,
    filters: &[Expression<Id>],
    by: &F,
    mappings: Vec<Mapping>,
    right: &Lookup,
) -> Result<Vec<Mapping>, AllocError>
    ensures { IfOk result (λ kept. kept.items
        ≡ filter (λ a. list_all (λ b. not
        (compatible id_order a b && passes_all (F.passes by.now) (map expression_of filters.now)
        (merge a b))) (near right.now.variables.items right.now.mappings.items right.now.loose.items
        a)) mappings.items) }
{
    let mut kept = Vec::new(alloc);
    for a in mappings {
        if fails_all(alloc, filters, by, &a, right)? {
            kept.push(a)?;
        }
    }
    Ok(kept)
}
