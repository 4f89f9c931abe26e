//! Mappings, found by what they have for the variables that nearly all of them bind.
ghost use Rattle.std.specs.Prelude.{◌≡◌, ◌≤◌, Bool, not, List, Option, length, filter, slice_range, IfOk};
ghost use Rattle.std.specs.Ordering.{is_lt, is_le};
ghost use Rattle.std.specs.List.{list_any};
ghost use Rattle.std.specs.List.Sorted.{IsSorted};
ghost use Rattle.datasets.specs.declared.id.Id.{Id as Number};
ghost use Rattle.solution.specs.Lookups.{order_at as the_order_at, tied, binds as the_binds, near_bound, IsStart, IsEnd, HasAll};

use crate::mapping::Mapping;
use std::alloc::{AllocError, Global};
use std::cmp::Ordering;

// Of so many mappings, one may lack a variable by which they are looked up.
const MOST_TO_ONE_LACKING: usize = 32;

// By what two mappings have for these variables, in turn.
fn order_at(variables: &[usize], a: &Mapping, b: &Mapping) -> Ordering
    ensures { result ≡ the_order_at variables.now a.now b.now }
{
    for variable in variables {
        let order = a.place(*variable).cmp(&b.place(*variable));
        if order != Ordering::Equal {
            return order;
        }
    }
    Ordering::Equal
}

fn is_before(variables: &[usize], a: &Mapping, b: &Mapping) -> bool
    ensures { result ≡ is_lt (the_order_at variables.now a.now b.now) }
{
    order_at(variables, a, b).is_lt()
}

fn is_up_to(variables: &[usize], a: &Mapping, b: &Mapping) -> bool
    ensures { result ≡ is_le (the_order_at variables.now a.now b.now) }
{
    order_at(variables, a, b).is_le()
}

// Whether a mapping binds each of these variables.
fn binds(variables: &[usize], mapping: &Mapping) -> bool
    ensures { result ≡ the_binds variables.now mapping.now }
{
    variables
        .iter()
        .all(|variable| mapping.place(*variable).is_some())
}

// Whether few of these lack a variable.
fn is_mostly_bound(mappings: &[Mapping], variable: usize) -> bool {
    let lacking = mappings.iter().filter(|m| m.place(variable).is_none());
    lacking.count() <= mappings.len() / MOST_TO_ONE_LACKING
}

// The variables that nearly all on both sides bind.
fn variables_for(
    alloc: Global,
    left: &[Mapping],
    right: &[Mapping],
) -> Result<Vec<usize>, AllocError> {
    let width = match left {
        [first, ..] => first.width(),
        [] => 0,
    };
    let mut variables = Vec::new(alloc);
    for variable in 0..width {
        if is_mostly_bound(left, variable) && is_mostly_bound(right, variable) {
            variables.push(variable)?;
        }
    }
    Ok(variables)
}

// Those that bind each of these variables, and the others.
fn parted(
    alloc: Global,
    variables: &[usize],
    mappings: Vec<Mapping>,
) -> Result<(Vec<Mapping>, Vec<Mapping>), AllocError>
    ensures bound { IfOk result (λ r. r.0.items ≡ filter (the_binds variables.now) mappings.items) }
    ensures loose { IfOk result (λ r. r.1.items ≡ filter (λ m. not (the_binds variables.now m))
        mappings.items) }
{
    let mut bound = Vec::new(alloc);
    let mut loose = Vec::new(alloc);
    for mapping in mappings {
        if binds(variables, &mapping) {
            bound.push(mapping)?;
        } else {
            loose.push(mapping)?;
        }
    }
    Ok((bound, loose))
}

fn between(mappings: &[Mapping], first: usize, past: usize) -> &[Mapping]
    requires ordered { first ≤ past }
    requires within { past ≤ length mappings.now }
    ensures { result.now ≡ slice_range mappings.now first past }
{
    &mappings[first..past]
}

// Among mappings that are sorted by what they have for some variables, where those begin that
// aren't before one.
fn start_of(variables: &[usize], sorted: &[Mapping], a: &Mapping) -> usize
    requires { IsSorted (the_order_at variables.now) sorted.now }
    ensures within { result ≤ length sorted.now }
    ensures start { IsStart variables.now sorted.now a.now result }
{
    sorted.partition_point(|b| is_before(variables, b, a))
}

// The same, where those begin that are past it.
fn end_of(variables: &[usize], sorted: &[Mapping], a: &Mapping) -> usize
    requires { IsSorted (the_order_at variables.now) sorted.now }
    ensures within { result ≤ length sorted.now }
    ensures end { IsEnd variables.now sorted.now a.now result }
{
    sorted.partition_point(|b| is_up_to(variables, b, a))
}

// Of mappings that are sorted by what they have for some variables, those that have what one has.
fn tied_in<'a>(variables: &[usize], sorted: &'a [Mapping], a: &Mapping) -> &'a [Mapping]
    requires { IsSorted (the_order_at variables.now) sorted.now }
    ensures { result.now ≡ tied variables.now sorted.now a.now }
{
    let first = start_of(variables, sorted, a);
    let past = end_of(variables, sorted, a);
    between(sorted, first, past)
}

// These mappings, sorted by what they have for some variables.
fn sorted_at(variables: &[usize], mut mappings: Vec<Mapping>) -> Result<Vec<Mapping>, AllocError>
    ensures sorted { IfOk result (λ sorted. IsSorted (the_order_at variables.now) sorted.items) }
    ensures members { IfOk result (λ sorted. (test : List (Option Number) → Bool)
        → list_any test sorted.items ≡ list_any test mappings.items) }
{
    mappings.sort_by(|a, b| order_at(variables, a, b))?;
    Ok(mappings)
}

/// Mappings that bind some variables, sorted by what they have for these, and others.
#[derive(Drop)]
pub struct Lookup {
    pub variables: Vec<usize>,
    pub mappings: Vec<Mapping>,
    pub loose: Vec<Mapping>,
    ghost sorted: { IsSorted (the_order_at variables.items) mappings.items },
}

impl Lookup {
    /// The mappings on the right, to be found by the variables that nearly all on both sides bind.
    pub fn new(alloc: Global, left: &[Mapping], right: Vec<Mapping>) -> Result<Lookup, AllocError>
        ensures { IfOk result (λ lookup. HasAll lookup.variables.items lookup.mappings.items
            lookup.loose.items right.items) }
    {
        let variables = variables_for(alloc, left, &right)?;
        let (bound, loose) = parted(alloc, &variables, right)?;
        let mappings = sorted_at(&variables, bound)?;
        Ok(Lookup {
            variables,
            mappings,
            loose,
        })
    }

    /// Of those that bind the variables, those that have for them what a mapping has; all, where it
    /// lacks one of the variables.
    pub fn near(&self, a: &Mapping) -> &[Mapping]
        ensures { result.now ≡ near_bound self.now.variables.items self.now.mappings.items a.now }
    {
        if binds(&self.variables, a) {
            tied_in(&self.variables, &self.mappings, a)
        } else {
            &self.mappings
        }
    }

    /// Those that lack one of the variables.
    pub fn loose(&self) -> &[Mapping]
        ensures { result.now ≡ self.now.loose.items }
    {
        &self.loose
    }
}
