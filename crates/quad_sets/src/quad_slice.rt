//! Sets of quads that are lent.
ghost use Rattle.std.specs.Prelude.{◌≡◌, ◌<◌, ◌≤◌, ◌++◌, ◌↔◌, IsTrue, List, [], IfOk, IfSome, OnOk, filter, length, map, slice_range};
ghost use Rattle.std.specs.List.{list_any};
ghost use Rattle.std.specs.List.Sorted.{IsPermutation, IsStrictlySortedBy};
ghost use Rattle.std.proofs.Common.{get_or};
ghost use Rattle.sets.specs.Sets.{has, without};
ghost use Rattle.datasets.specs.Id.{id_order};
ghost use Rattle.datasets.specs.Dataset.{quad_order, matches as the_matches};
ghost use Rattle.datasets.specs.declared.id.Id.{Id as Number};
ghost use Rattle.datasets.specs.declared.quad.Quad.{Quad as Spoken};
ghost use Rattle.quad_index.specs.Index.{AllAlike, arrangements_of};
ghost use Rattle.quad_lists.specs.Known.{quad_of};
ghost use Rattle.quad_lists.specs.Part.{quads_of_part};

use crate::narrow::{is_among_known, is_any_known, is_near_known, part_of_known};
use crate::near::is_member_near;
use crate::quad_set::QuadSet;
use datasets::{Id, Quad, QuadPattern};
use quad_index::{Index, Looks, Order, is_any_in_set, part_of_set};
use quad_lists::{Arrangement, KnownQuad, Part, QuadList, order_for, widened_quads};
use sets::is_member;
use std::alloc::{AllocError, Global};
use std::marker::Model;

/// A set of quads, lent. Contracts see its list, by subject, predicate, object and graph.
#[derive(Drop)]
pub struct QuadSlice<'a> {
    entries: Part<'a>,
}

impl<'a> Model for QuadSlice<'a> {
    ghost use Rattle.std.specs.Prelude.{List};
    ghost use Rattle.std.specs.List.Sorted.{IsStrictlySortedBy};
    ghost use Rattle.datasets.specs.declared.id.Id.{Id};
    ghost use Rattle.datasets.specs.declared.quad.Quad.{Quad};
    ghost use Rattle.datasets.specs.Id.{id_order};
    ghost use Rattle.datasets.specs.Dataset.{quad_order};
    ghost use Rattle.quad_lists.specs.Part.{quads_of_part};

    ghost Value = { List (Quad Id) };

    ghost view = { λ s. quads_of_part s.entries };

    ghost invariant = { λ s. IsStrictlySortedBy (quad_order id_order) (quads_of_part s.entries) };
}

// The items from one place on and before another.
fn between<T>(items: &[T], first: usize, past: usize) -> &[T]
    requires ordered { first ≤ past }
    requires within { past ≤ length items.now }
    ensures { result.now ≡ slice_range items.now first past }
{
    &items[first..past]
}

// Puts the quads that these are at the end.
fn push_widened(quads: &mut Vec<Quad<Id>>, known: &[KnownQuad]) -> Result<(), AllocError>
    ensures { OnOk result (quads.new.items ≡ quads.old.items ++ map quad_of known.now) }
{
    quads.reserve_exact(known.len())?;
    for entry in known {
        quads.push(entry.to_quad())?;
    }
    Ok(())
}

// That of some orders whose quads stand so.
fn order_among(orders: &[Order], arrangement: Arrangement) -> Option<&Order>
    ensures { (quads : List (Spoken Number)) → AllAlike quads orders.now
        → IfSome result (λ order. IsPermutation quads order.now.quads) }
{
    for order in orders {
        if order.arrangement() == arrangement {
            return Some(order);
        }
    }
    None
}

impl<'a> QuadSlice<'a> {
    /// No quads.
    pub fn new() -> QuadSlice<'a>
        ensures { result ≡ [] }
    {
        QuadSlice {
            entries: Part::Narrow(&[]),
        }
    }

    /// What a set has.
    pub(crate) fn of_entries(entries: Part<'a>) -> QuadSlice<'a>
        requires { IsStrictlySortedBy (quad_order id_order) (quads_of_part entries) }
        ensures { result ≡ quads_of_part entries.entry }
    {
        QuadSlice { entries }
    }

    /// The quads of a list that is a set.
    pub fn of_set(list: &'a QuadList) -> QuadSlice<'a>
        requires { IsStrictlySortedBy (quad_order id_order) list.now }
        ensures { result ≡ list.now }
    {
        QuadSlice::of_entries(list.lent())
    }

    /// The quads of an index.
    pub fn of_index(index: &'a Index) -> QuadSlice<'a>
        ensures { result ≡ index.now.quads }
    {
        index.rises();
        QuadSlice::of_entries(index.lent())
    }

    /// What it has.
    pub(crate) fn entries(&self) -> Part<'a>
        ensures value { quads_of_part result ≡ self.now }
        ensures set { IsStrictlySortedBy (quad_order id_order) (quads_of_part result) }
    {
        self.entries
    }

    /// Its quads are a set.
    pub fn rises(&self)
        ensures { IsStrictlySortedBy (quad_order id_order) self.now }
    {
        let _ = &self.entries;
    }

    /// How many quads it has.
    pub fn len(&self) -> usize
        ensures { result ≡ length self.now }
    {
        self.entries.len()
    }

    /// Whether it has none.
    pub fn is_empty(&self) -> bool
        ensures { IsTrue result ↔ (self.now ≡ []) }
    {
        self.len() == 0
    }

    /// The quad at a place, counted from 0.
    pub fn get(&self, place: usize) -> Quad<Id>
        requires { place < length self.now }
        ensures { result ≡ get_or self.now place result }
    {
        self.entries.get(place)
    }

    /// Whether it has the quad, by binary search.
    pub fn contains(&self, quad: &Quad<Id>) -> bool
        ensures { result ≡ has (quad_order id_order) self.now quad.now }
    {
        match self.entries {
            Part::Narrow(known) => is_among_known(known, quad),
            Part::Wide(quads) => is_member(quads, quad),
        }
    }

    /// Whether any of its quads matches. They are found by binary search, as far as the first
    /// places are bound.
    pub fn has_match(&self, pattern: &QuadPattern<Id>) -> bool
        ensures { result ≡ list_any (the_matches id_order pattern.now) self.now }
    {
        match self.entries {
            Part::Narrow(known) => is_any_known(known, pattern),
            Part::Wide(quads) => is_any_in_set(quads, pattern),
        }
    }

    // A part that has all of its quads that match.
    fn part_near(&self, pattern: &QuadPattern<Id>) -> Part<'a>
        ensures { filter (the_matches id_order pattern.now) (quads_of_part result)
            ≡ filter (the_matches id_order pattern.now) self.now }
    {
        match self.entries {
            Part::Narrow(known) => Part::Narrow(part_of_known(known, pattern)),
            Part::Wide(quads) => Part::Wide(part_of_set(quads, pattern)),
        }
    }

    /// Its quads that match, which are found in the same way.
    pub fn matching(&self, alloc: Global, pattern: &QuadPattern<Id>) -> Result<QuadSet, AllocError>
        ensures { IfOk result (λ found. found
            ≡ filter (the_matches id_order pattern.now) self.now) }
    {
        self.rises();
        let found = self.part_near(pattern).matching(alloc, pattern)?;
        Ok(QuadSet::of_list(found))
    }

    // Its quads in an order.
    fn in_order(&self, alloc: Global, arrangement: Arrangement) -> Result<Order, AllocError>
        ensures arrangement { IfOk result (λ order. order.arrangement ≡ arrangement) }
        ensures quads { IfOk result (λ order. IsPermutation self.now order.quads) }
    {
        match self.entries {
            Part::Narrow(known) => Order::sorted_known(alloc, known, arrangement),
            Part::Wide(quads) => Order::sorted(alloc, quads, arrangement),
        }
    }

    /// Its quads in these orders. An error comes only where memory runs out, as it does for 2^62
    /// quads.
    pub fn in_orders(
        &self,
        alloc: Global,
        arrangements: &[Arrangement],
    ) -> Result<Vec<Order>, AllocError>
        ensures orders { IfOk result (λ orders. arrangements_of orders.items ≡ arrangements.now) }
        ensures alike { IfOk result (λ orders. AllAlike self.now orders.items) }
    {
        let mut orders = Vec::new(alloc);
        for arrangement in arrangements {
            orders.push(self.in_order(alloc, *arrangement)?)?;
        }
        Ok(orders)
    }

    /// Its quads that match. They are looked for in the order that begins with the bound places, if
    /// that is one of these, else in SPOG.
    pub fn scan(
        &self,
        alloc: Global,
        orders: &[Order],
        pattern: &QuadPattern<Id>,
    ) -> Result<QuadSet, AllocError>
        requires { AllAlike self.now orders.now }
        ensures { IfOk result (λ found. found
            ≡ filter (the_matches id_order pattern.now) self.now) }
    {
        self.rises();
        let Some(order) = order_among(orders, order_for(pattern)) else {
            return self.matching(alloc, pattern);
        };
        let found = order.matching_set(alloc, pattern, &mut Looks::new())?;
        Ok(QuadSet::of_list(found))
    }

    /// Puts its quads at the end of others.
    pub fn push_all(&self, quads: &mut Vec<Quad<Id>>) -> Result<(), AllocError>
        ensures { OnOk result (quads.new.items ≡ quads.old.items ++ self.now) }
    {
        match self.entries {
            Part::Narrow(known) => push_widened(quads, known),
            Part::Wide(own) => quads.extend_from_slice(own),
        }
    }

    /// Its quads.
    pub fn quads(&self, alloc: Global) -> Result<Vec<Quad<Id>>, AllocError>
        ensures { IfOk result (λ quads. quads.items ≡ self.now) }
    {
        let mut quads = Vec::new(alloc);
        self.push_all(&mut quads)?;
        Ok(quads)
    }

    /// Its quads from one place on and before another.
    pub fn part(
        &self,
        alloc: Global,
        first: usize,
        past: usize,
    ) -> Result<Vec<Quad<Id>>, AllocError>
        requires ordered { first ≤ past }
        requires within { past ≤ length self.now }
        ensures { IfOk result (λ quads. quads.items ≡ slice_range self.now first past) }
    {
        match self.entries {
            Part::Narrow(known) => widened_quads(alloc, between(known, first, past)),
            Part::Wide(quads) => Vec::from_slice(alloc, between(quads, first, past)),
        }
    }

    /// Whether another set has the same quads.
    pub fn is_same(&self, other: &QuadSlice<'_>) -> bool
        ensures { IsTrue result ↔ (self.now ≡ other.now) }
    {
        self.entries.is_same(&other.entries)
    }

    // Whether it has the quad, and a place to begin with for a greater one. It is fast where the
    // place before it is the quad's.
    fn has_near(&self, place: usize, quad: &Quad<Id>) -> (bool, usize)
        requires { place ≤ length self.now }
        ensures value { result.0 ≡ has (quad_order id_order) self.now quad.now }
        ensures place { result.1 ≤ length self.now }
    {
        match self.entries {
            Part::Narrow(known) => is_near_known(known, place, quad),
            Part::Wide(quads) => is_member_near(quads, place, quad),
        }
    }

    // Of some quads those that it lacks, in their order. It goes along both lists.
    fn lacking(&self, mut quads: Vec<Quad<Id>>) -> Vec<Quad<Id>>
        ensures { result.items ≡ without (quad_order id_order) quads.items self.now }
    {
        let mut kept = 0;
        let mut place = 0;
        for i in 0..quads.len() {
            let quad = quads[i];
            let (is_there, next) = self.has_near(place, &quad);
            place = next;
            if is_there {
                continue;
            }
            quads[kept] = quad;
            kept += 1;
        }
        quads.truncate(kept);
        quads
    }

    /// Of some quads those that it lacks, in their order. It is fastest where they rise.
    pub fn lacked(&self, quads: Vec<Quad<Id>>) -> Vec<Quad<Id>>
        ensures { result.items ≡ without (quad_order id_order) quads.items self.now }
    {
        if self.is_empty() {
            return quads;
        }
        self.lacking(quads)
    }
}
