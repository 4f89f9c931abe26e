//! Sets of solution mappings, and the operators of the algebra on them.
ghost use Rattle.std.specs.Prelude.{◌≡◌, ◌++◌, ◌∷◌, [], length, map, filter, filter_map, false, Some, slice_get, IfOk, IfSome, IfNone, OnOk};
ghost use Rattle.std.specs.List.Sorted.{IsStrictlySortedBy};
ghost use Rattle.algebra.specs.Expressions.{expression_of};
ghost use Rattle.datasets.specs.Id.{id_order};
ghost use Rattle.meaning.specs.Mapping.{empty_mapping, mapping_cmp, fitted};
ghost use Rattle.meaning.specs.Operators as operators;
ghost use Rattle.meaning.specs.Solutions.{passes_all, solutions_among as the_solutions_among};
ghost use Rattle.sets.specs.Sets.{has, set_of as the_set_of};
ghost use Rattle.solution.specs.Limits.{up_to as the_up_to};

use crate::among::solutions_among;
use crate::disjoint::share_some;
use crate::filters::Filters;
use crate::limited::joins_up_to;
use crate::lookup::Lookup;
use crate::mapping::Mapping;
use crate::operators::{apart_from, difference, joins, passing, push_fitted};
use crate::unit::is_unit;
use algebra::{Expression, Place, TriplePattern};
use datasets::Id;
use quad_sets::QuadSlice;
use sets::{place_of, set_of};
use std::alloc::{AllocError, Global};
use std::marker::Model;

/// A set of solution mappings. Contracts see them in their order.
#[derive(Drop)]
pub struct Solutions {
    mappings: Vec<Mapping>,
}

impl Model for Solutions {
    ghost use Rattle.std.specs.Prelude.{List, Option};
    ghost use Rattle.std.specs.List.Sorted.{IsStrictlySortedBy};
    ghost use Rattle.datasets.specs.declared.id.Id.{Id};
    ghost use Rattle.datasets.specs.Id.{id_order};
    ghost use Rattle.meaning.specs.Mapping.{mapping_cmp};

    ghost Value = { List (List (Option Id)) };

    ghost view = { λ s. s.mappings.items };

    ghost invariant = { λ s. IsStrictlySortedBy (mapping_cmp id_order) s.mappings.items };
}

impl Solutions {
    /// No mapping. It takes no memory.
    pub fn none(alloc: Global) -> Solutions
        ensures { result ≡ [] }
    {
        Solutions {
            mappings: Vec::new(alloc),
        }
    }

    /// The empty mapping alone, where a pattern has this many variables.
    pub fn empty_mapping(alloc: Global, width: u32) -> Result<Solutions, AllocError>
        ensures { IfOk result (λ found. found ≡ empty_mapping width ∷ []) }
    {
        let mut mappings = Vec::new(alloc);
        mappings.push(Mapping::empty(alloc, width)?)?;
        Ok(Solutions { mappings })
    }

    /// The set of these mappings, in any order and with repeats. It takes no memory.
    pub fn from_mappings(mappings: Vec<Mapping>) -> Solutions
        ensures { result ≡ the_set_of (mapping_cmp id_order) mappings.items }
    {
        Solutions {
            mappings: set_of(mappings),
        }
    }

    /// The solutions of a triple pattern among these triples, whatever their graphs. The pattern's
    /// variables are numbered below the width.
    pub fn among(
        alloc: Global,
        width: u32,
        pattern: &TriplePattern<Id>,
        quads: &QuadSlice<'_>,
    ) -> Result<Solutions, AllocError>
        ensures { IfOk result (λ found. found ≡ the_solutions_among id_order width pattern.now
            quads.now) }
    {
        let mappings = solutions_among(alloc, width, pattern, quads)?;
        Ok(Solutions { mappings })
    }

    /// Its mappings, in their order, each once.
    pub fn as_slice(&self) -> &[Mapping]
        ensures value { result.now ≡ self.now }
        ensures set { IsStrictlySortedBy (mapping_cmp id_order) self.now }
    {
        self.mappings.as_slice()
    }

    /// How many there are.
    pub fn len(&self) -> usize
        ensures { result ≡ length self.now }
    {
        self.mappings.len()
    }

    /// These, unless there are more than the limit.
    pub fn up_to(self, limit: usize) -> Option<Solutions>
        ensures { result ≡ the_up_to limit self }
    {
        if self.len() > limit { None } else { Some(self) }
    }

    /// The place of a mapping in the order of mappings, counted from 0, or nothing where it is no
    /// solution.
    pub fn rank(&self, mapping: &Mapping) -> Option<usize>
        ensures found { IfSome result (λ rank. slice_get self.now rank ≡ Some mapping.now) }
        ensures none { IfNone result (has (mapping_cmp id_order) self.now mapping.now ≡ false) }
    {
        place_of(&self.mappings, mapping)
    }

    /// Adds the mappings under which a place of a pattern is this term. An error comes only where a
    /// growth was refused; some of them may have been added then, so a caller drops what it found.
    pub fn push_fitted(
        self,
        place: Place<Id>,
        term: Id,
        found: &mut Vec<Mapping>,
    ) -> Result<(), AllocError>
        ensures { OnOk result (found.new.items
            ≡ found.old.items ++ filter_map (fitted id_order place term) self) }
    {
        push_fitted(found, place, term, self.mappings)
    }

    /// The merges of all compatible pairs (SPARQL 1.1 Query, 18.5, Join).
    pub fn join(&self, alloc: Global, right: Solutions) -> Result<Solutions, AllocError>
        ensures { IfOk result (λ found. found ≡ operators.join id_order self.now right) }
    {
        if is_unit(&self.mappings, &right.mappings) {
            return Ok(right);
        }
        let right = Lookup::new(alloc, &self.mappings, right.mappings)?;
        let found = joins(alloc, &self.mappings, &right)?;
        Ok(Solutions::from_mappings(found))
    }

    /// The merges of all compatible pairs that pass each filter, unless there are more than the
    /// limit. It ends as soon as there are.
    pub fn join_up_to<F: Filters>(
        &self,
        alloc: Global,
        right: Solutions,
        filters: &[Expression<Id>],
        by: &F,
        limit: usize,
    ) -> Result<Option<Solutions>, AllocError>
        ensures { IfOk result (λ found. found ≡ the_up_to limit
            (filter (passes_all (F.passes by.now) (map expression_of filters.now))
            (operators.join id_order self.now right))) }
    {
        if is_unit(&self.mappings, &right.mappings) {
            let kept = right.filter(alloc, filters, by)?;
            return Ok(kept.up_to(limit));
        }
        let right = Lookup::new(alloc, &self.mappings, right.mappings)?;
        joins_up_to(alloc, filters, by, &self.mappings, &right, limit)
    }

    /// What `left_join` gives, unless there are more than the limit. It ends as soon as more merges
    /// are found.
    pub fn left_join_up_to<F: Filters>(
        self,
        alloc: Global,
        right: Solutions,
        filters: &[Expression<Id>],
        by: &F,
        limit: usize,
    ) -> Result<Option<Solutions>, AllocError>
        ensures { IfOk result (λ found. found ≡ the_up_to limit
            (operators.left_join id_order (passes_all (F.passes by.now)
            (map expression_of filters.now)) self right)) }
    {
        let right = Lookup::new(alloc, &self.mappings, right.mappings)?;
        let Some(merges) = joins_up_to(alloc, filters, by, &self.mappings, &right, limit)? else {
            return Ok(None);
        };
        let rest = difference(alloc, filters, by, self.mappings, &right)?;
        let all = merges.union_with(rest)?;
        Ok(all.up_to(limit))
    }

    /// The merges that pass each filter, and those on the left that have none (SPARQL 1.1 Query,
    /// 18.5, LeftJoin).
    pub fn left_join<F: Filters>(
        self,
        alloc: Global,
        right: Solutions,
        filters: &[Expression<Id>],
        by: &F,
    ) -> Result<Solutions, AllocError>
        ensures { IfOk result (λ found. found ≡ operators.left_join id_order
            (passes_all (F.passes by.now) (map expression_of filters.now)) self right) }
    {
        let right = Lookup::new(alloc, &self.mappings, right.mappings)?;
        let merges = Solutions::from_mappings(joins(alloc, &self.mappings, &right)?);
        let found = merges.filter(alloc, filters, by)?;
        let rest = difference(alloc, filters, by, self.mappings, &right)?;
        found.union_with(rest)
    }

    /// The solutions of either (SPARQL 1.1 Query, 18.5, Union).
    pub fn union(self, other: Solutions) -> Result<Solutions, AllocError>
        ensures { IfOk result (λ found. found ≡ operators.union_of id_order self other) }
    {
        self.union_with(other.mappings)
    }

    // These, and others in any order.
    fn union_with(self, mut others: Vec<Mapping>) -> Result<Solutions, AllocError>
        ensures { IfOk result (λ found. found ≡ operators.union_of id_order self others.items) }
    {
        let mut mappings = self.mappings;
        mappings.append(&mut others)?;
        Ok(Solutions::from_mappings(mappings))
    }

    /// Those that each on the right is incompatible with or shares no variable with (SPARQL 1.1
    /// Query, 18.5, Minus).
    pub fn minus(self, alloc: Global, right: Solutions) -> Result<Solutions, AllocError>
        ensures { IfOk result (λ found. found ≡ operators.minus id_order self right) }
    {
        if !share_some(&self.mappings, &right.mappings) {
            return Ok(self);
        }
        let right = Lookup::new(alloc, &self.mappings, right.mappings)?;
        let mappings = apart_from(alloc, self.mappings, &right)?;
        Ok(Solutions { mappings })
    }

    /// Those that pass each filter (SPARQL 1.1 Query, 18.5, Filter).
    pub fn filter<F: Filters>(
        self,
        alloc: Global,
        filters: &[Expression<Id>],
        by: &F,
    ) -> Result<Solutions, AllocError>
        ensures { IfOk result (λ found. found ≡ filter
            (passes_all (F.passes by.now) (map expression_of filters.now)) self) }
    {
        let mappings = passing(alloc, filters, by, self.mappings)?;
        Ok(Solutions { mappings })
    }
}
