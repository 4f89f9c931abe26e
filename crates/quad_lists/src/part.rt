//! Quads that are lent: some or all of a list's, or entries of an order, all of which were looked
//! at.
ghost use Rattle.std.specs.Prelude.{◌≡◌, ◌<◌, ◌↔◌, IsTrue, IfOk, filter, length};
ghost use Rattle.std.proofs.Common.{get_or};
ghost use Rattle.std.specs.List.Sorted.{IsStrictlySortedBy};
ghost use Rattle.datasets.specs.Id.{id_order};
ghost use Rattle.datasets.specs.Dataset.{quad_order, matches as the_matches};
ghost use Rattle.sets.specs.Sets.{set_of as the_set_of};
ghost use Rattle.quad_lists.specs.Part.{quads_of_part};

use crate::key::Arrangement;
use crate::known::KnownQuad;
use crate::matching::matching;
use crate::narrow::{known_matching, narrow_set};
use crate::quad_list::QuadList;
use datasets::{Id, Quad, QuadPattern};
use radix::is_set;
use sets::{Exact, set_of};
use std::alloc::{AllocError, Global};

/// Quads one after another, lent: all of known terms, or any.
#[derive(Clone, Copy)]
pub enum Part<'a> {
    Narrow(&'a [KnownQuad]),
    Wide(&'a [Quad<Id>]),
}

// The item at a place.
fn item_at<T: Copy>(items: &[T], place: usize) -> T
    requires { place < length items.now }
    ensures { result ≡ get_or items.now place result }
{
    items[place]
}

// Whether others are the same items, in the same places.
fn same_items<T: Exact>(items: &[T], others: &[T]) -> bool
    ensures { IsTrue result ↔ (items.now ≡ others.now) }
{
    if items.len() != others.len() {
        return false;
    }
    for place in 0..items.len() {
        if !items[place].cmp(&others[place]).is_eq() {
            return false;
        }
    }
    true
}

impl Part<'_> {
    /// How many quads there are.
    pub fn len(&self) -> usize
        ensures { result ≡ length (quads_of_part self.now) }
    {
        match self {
            Part::Narrow(known) => known.len(),
            Part::Wide(quads) => quads.len(),
        }
    }

    /// The quad at a place, counted from 0.
    pub fn get(&self, place: usize) -> Quad<Id>
        requires { place < length (quads_of_part self.now) }
        ensures { result ≡ get_or (quads_of_part self.now) place result }
    {
        match self {
            Part::Narrow(known) => item_at(known, place).to_quad(),
            Part::Wide(quads) => item_at(quads, place),
        }
    }

    /// Whether others are the same quads, in the same places.
    pub fn is_same(&self, other: &Part<'_>) -> bool
        ensures { IsTrue result ↔ (quads_of_part self.now ≡ quads_of_part other.now) }
    {
        match (self, other) {
            (Part::Narrow(known), Part::Narrow(others)) => same_items(known, others),
            _ => self.is_same_widened(other),
        }
    }

    // The same, where each quad is widened.
    fn is_same_widened(&self, other: &Part<'_>) -> bool
        ensures { IsTrue result ↔ (quads_of_part self.now ≡ quads_of_part other.now) }
    {
        if self.len() != other.len() {
            return false;
        }
        for place in 0..self.len() {
            if !self.get(place).cmp(&other.get(place)).is_eq() {
                return false;
            }
        }
        true
    }

    /// Whether they are a set: each is below the next, by subject, predicate, object and graph.
    pub fn is_set(&self) -> bool
        ensures { IsTrue result
            ↔ IsStrictlySortedBy (quad_order id_order) (quads_of_part self.now) }
    {
        match self {
            Part::Narrow(known) => is_set(known),
            Part::Wide(quads) => is_set(quads),
        }
    }

    /// The same quads, as a list of their own.
    pub fn copied(&self, alloc: Global) -> Result<QuadList, AllocError>
        ensures { IfOk result (λ list. list ≡ quads_of_part self.now) }
    {
        match self {
            Part::Narrow(known) => Ok(QuadList::of_known(Vec::from_slice(alloc, known)?)),
            Part::Wide(quads) => Ok(QuadList::of_wide(Vec::from_slice(alloc, quads)?)),
        }
    }

    /// Those of its quads that match.
    pub fn matching(&self, alloc: Global, pattern: &QuadPattern<Id>) -> Result<QuadList, AllocError>
        ensures { IfOk result (λ found. found
            ≡ filter (the_matches id_order pattern.now) (quads_of_part self.now)) }
    {
        match self {
            Part::Narrow(known) => Ok(QuadList::of_known(known_matching(alloc, pattern, known)?)),
            Part::Wide(quads) => Ok(QuadList::of_wide(matching(alloc, pattern, quads)?)),
        }
    }

    /// The set of its quads. It takes the least time where they stand in this order, or in that of
    /// the set.
    pub fn set(&self, alloc: Global, arrangement: Arrangement) -> Result<QuadList, AllocError>
        ensures { IfOk result (λ set. set
            ≡ the_set_of (quad_order id_order) (quads_of_part self.now)) }
    {
        match self {
            Part::Narrow(known) => Ok(QuadList::of_known(narrow_set(alloc, known, arrangement)?)),
            Part::Wide(quads) => Ok(QuadList::of_wide(set_of(Vec::from_slice(alloc, quads)?))),
        }
    }
}
