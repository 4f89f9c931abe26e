//! The quads of a set, sorted in one of the orders, whose entries are looked at one by one.
ghost use Rattle.std.specs.Prelude.{◌≡◌, ◌+◌, ◌-◌, ◌<◌, ◌≤◌, ◌^◌, IfOk, filter, map, slice_range, length, true, false};
ghost use Rattle.std.specs.List.{AllWithin, HoldsAt};
ghost use Rattle.std.proofs.Common.{get_or};
ghost use Rattle.std.specs.List.Sorted.{IsPermutation, IsSortedByKey, IsStrictlySortedBy};
ghost use Rattle.sets.specs.Sets.{set_of as the_set_of};
ghost use Rattle.datasets.specs.Id.{id_order};
ghost use Rattle.datasets.specs.Dataset.{quad_order, matches as the_matches};
ghost use Rattle.quad_lists.specs.Known.{quad_of};
ghost use Rattle.quad_lists.specs.Keys.{arrangement_for, bounds_of as the_bounds_of, is_sought, order_at, key_of, key_order, is_before as the_is_before};
ghost use Rattle.quad_index.specs.Looks.{IsSearch, IsNarrowed, IsScan};
ghost use Rattle.quad_lists.specs.Part.{quads_of_part};
ghost use Rattle.quad_lists.specs.QuadList.{quads_in};

use crate::looks::Looks;
use crate::sorted::{known_set_by, sorted_known, sorted_known_by};
use datasets::{Id, Quad, QuadPattern};
use quad_lists::{
    Arrangement, Depth, Entries, Key, KnownQuad, Part, QuadList, is_before, known_beside,
    known_quads, known_set, order_for,
};
use sets::set_of;
use std::alloc::{AllocError, Global};
use std::cmp::Ordering;
use std::marker::Model;
use std::thread::Threads;

/// Quads sorted in an order. Contracts see the order and the list of them.
#[derive(Drop)]
pub struct Order {
    arrangement: Arrangement,
    entries: Entries,
}

impl Model for Order {
    ghost use Rattle.quad_index.specs.Sorted.{Sorted};

    ghost Value = { Sorted };

    ghost use Rattle.quad_lists.specs.QuadList.{quads_in};
    ghost use Rattle.quad_index.specs.Sorted.{IsOrder};

    ghost view = { λ o. record { arrangement = o.arrangement; quads = quads_in o.entries } };

    ghost invariant = { λ o. IsOrder o.arrangement (quads_in o.entries) };
}

// Where entries may be that begin as a target does: from `low` to `high`. Those from `middle` to
// `after` do.
#[derive(Clone, Copy)]
struct Around {
    low: usize,
    middle: usize,
    after: usize,
    high: usize,
}

// These quads as entries.
fn entries_of(alloc: Global, quads: &[Quad<Id>]) -> Result<Entries, AllocError>
    ensures { IfOk result (λ entries. quads_in entries ≡ quads.now) }
{
    match known_quads(alloc, quads)? {
        Some(known) => Ok(Entries::Narrow(known)),
        None => Ok(Entries::Wide(Vec::from_slice(alloc, quads)?)),
    }
}

// These quads by their keys.
fn sorted_quads(
    alloc: Global,
    quads: &[Quad<Id>],
    arrangement: Arrangement,
) -> Result<Vec<Quad<Id>>, AllocError>
    ensures sorted { IfOk result (λ sorted. IsSortedByKey (key_of arrangement) key_order
        sorted.items) }
    ensures same { IfOk result (λ sorted. IsPermutation quads.now sorted.items) }
{
    let mut sorted = Vec::from_slice(alloc, quads)?;
    sorted.sort_unstable_by_key(|quad| arrangement.key_of(quad));
    Ok(sorted)
}

impl Order {
    /// A set of quads in SPOG. 2^62 quads and more are out of memory.
    pub fn of_set(alloc: Global, quads: &[Quad<Id>]) -> Result<Order, AllocError>
        requires { IsStrictlySortedBy (quad_order id_order) quads.now }
        ensures { IfOk result (λ order. order ≡ record
            { arrangement = Arrangement.Spog; quads = quads.now }) }
    {
        if quads.len() >= 0x4000_0000_0000_0000 {
            return Err(AllocError);
        }
        let entries = entries_of(alloc, quads)?;
        Ok(Order {
            arrangement: Arrangement::Spog,
            entries,
        })
    }

    // A set of quads of known terms in SPOG. 2^62 quads and more are out of memory.
    fn of_known_set(known: Vec<KnownQuad>) -> Result<Order, AllocError>
        requires { IsStrictlySortedBy (quad_order id_order) (map quad_of known.items) }
        ensures { IfOk result (λ order. order ≡ record
            { arrangement = Arrangement.Spog; quads = map quad_of known.items }) }
    {
        if known.len() >= 0x4000_0000_0000_0000 {
            return Err(AllocError);
        }
        Ok(Order {
            arrangement: Arrangement::Spog,
            entries: Entries::Narrow(known),
        })
    }

    // The set of these quads in SPOG. 2^62 quads and more are out of memory.
    fn of_wide_quads(alloc: Global, quads: Vec<Quad<Id>>) -> Result<Order, AllocError>
        ensures { IfOk result (λ order. order ≡ record {
          arrangement = Arrangement.Spog;
          quads = the_set_of (quad_order id_order) quads.items;
        }) }
    {
        Order::of_set(alloc, set_of(quads).as_slice())
    }

    /// The set of these quads, in any order and with doubles, in SPOG. 2^62 quads and more are out
    /// of memory.
    pub fn of_quads(alloc: Global, quads: QuadList) -> Result<Order, AllocError>
        ensures { IfOk result (λ order. order ≡ record
            { arrangement = Arrangement.Spog; quads = the_set_of (quad_order id_order) quads }) }
    {
        match quads.into_entries() {
            Entries::Narrow(known) => Order::of_known_set(known_set(known)),
            Entries::Wide(quads) => Order::of_wide_quads(alloc, quads),
        }
    }

    /// The same, put in order by several threads.
    pub(crate) fn of_quads_by<T: Threads + Sync>(
        rt: &T,
        alloc: Global,
        quads: QuadList,
    ) -> Result<Order, AllocError>
        ensures { IfOk result (λ order. order ≡ record
            { arrangement = Arrangement.Spog; quads = the_set_of (quad_order id_order) quads }) }
    {
        match quads.into_entries() {
            Entries::Narrow(known) => {
                let set = known_set_by(rt, alloc, known)?;
                Order::of_known_set(set)
            }
            Entries::Wide(quads) => Order::of_wide_quads(alloc, quads),
        }
    }

    /// These quads in an order. 2^62 quads and more are out of memory.
    pub fn sorted(
        alloc: Global,
        quads: &[Quad<Id>],
        arrangement: Arrangement,
    ) -> Result<Order, AllocError>
        ensures arrangement { IfOk result (λ order. order.arrangement ≡ arrangement) }
        ensures quads { IfOk result (λ order. IsPermutation quads.now order.quads) }
    {
        if quads.len() >= 0x4000_0000_0000_0000 {
            return Err(AllocError);
        }
        let entries = Entries::Wide(sorted_quads(alloc, quads, arrangement)?);
        Ok(Order {
            arrangement,
            entries,
        })
    }

    /// These quads of known terms in an order. 2^62 quads and more are out of memory.
    pub fn sorted_known(
        alloc: Global,
        known: &[KnownQuad],
        arrangement: Arrangement,
    ) -> Result<Order, AllocError>
        ensures arrangement { IfOk result (λ order. order.arrangement ≡ arrangement) }
        ensures quads { IfOk result (λ order. IsPermutation (map quad_of known.now) order.quads) }
    {
        if known.len() >= 0x4000_0000_0000_0000 {
            return Err(AllocError);
        }
        let entries = Entries::Narrow(sorted_known(alloc, known, arrangement)?);
        Ok(Order {
            arrangement,
            entries,
        })
    }

    /// The same quads in another order.
    pub fn rearranged(&self, alloc: Global, arrangement: Arrangement) -> Result<Order, AllocError>
        ensures arrangement { IfOk result (λ order. order.arrangement ≡ arrangement) }
        ensures quads { IfOk result (λ order. IsPermutation self.now.quads order.quads) }
    {
        let entries = match &self.entries {
            Entries::Narrow(known) => Entries::Narrow(sorted_known(alloc, known, arrangement)?),
            Entries::Wide(quads) => Entries::Wide(sorted_quads(alloc, quads, arrangement)?),
        };
        Ok(Order {
            arrangement,
            entries,
        })
    }

    /// The same, put in order by several threads.
    pub(crate) fn rearranged_by<T: Threads + Sync>(
        &self,
        rt: &T,
        alloc: Global,
        arrangement: Arrangement,
    ) -> Result<Order, AllocError>
        ensures arrangement { IfOk result (λ order. order.arrangement ≡ arrangement) }
        ensures quads { IfOk result (λ order. IsPermutation self.now.quads order.quads) }
    {
        let entries = match &self.entries {
            Entries::Narrow(known) => {
                Entries::Narrow(sorted_known_by(rt, alloc, known, arrangement)?)
            }
            Entries::Wide(quads) => Entries::Wide(sorted_quads(alloc, quads, arrangement)?),
        };
        Ok(Order {
            arrangement,
            entries,
        })
    }

    /// The order in which its quads stand.
    pub fn arrangement(&self) -> Arrangement
        ensures { result ≡ self.now.arrangement }
    {
        self.arrangement
    }

    /// How many quads it has.
    pub fn len(&self) -> usize
        ensures { result ≡ length self.now.quads }
    {
        self.entries.len()
    }

    /// Its quads, one after another.
    pub fn quads(&self, alloc: Global) -> Result<Vec<Quad<Id>>, AllocError>
        ensures { IfOk result (λ quads. quads.items ≡ self.now.quads) }
    {
        self.entries.quads(alloc)
    }

    // The same, lent.
    pub(crate) fn lent(&self) -> Part<'_>
        ensures { quads_of_part result ≡ self.now.quads }
    {
        self.entries.lent()
    }

    // The same, as they are kept.
    pub(crate) fn copied_entries(&self, alloc: Global) -> Result<Entries, AllocError>
        ensures { IfOk result (λ entries. quads_in entries ≡ self.now.quads) }
    {
        self.entries.copied(alloc)
    }

    /// The quad at a place, counted from 0: a look.
    pub fn look(&self, place: usize, looks: &mut Looks) -> Quad<Id>
        requires within { place < length self.now.quads }
        requires room { looks.old < u64.MAX }
        ensures entry { result ≡ get_or self.now.quads place result }
        ensures counted { looks.new ≡ looks.old + 1 }
    {
        looks.add_one();
        match &self.entries {
            Entries::Narrow(known) => known[place].to_quad(),
            Entries::Wide(quads) => quads[place],
        }
    }

    // How the entry at a place stands to a target, by so many of their first places: a look.
    fn look_beside(&self, place: usize, depth: Depth, target: &Key, looks: &mut Looks) -> Ordering
        requires within { place < length self.now.quads }
        requires room { looks.old < u64.MAX }
        ensures answer { HoldsAt (λ q. result ≡ order_at depth
            (key_of self.now.arrangement q) target.now) self.now.quads place }
        ensures counted { looks.new ≡ looks.old + 1 }
    {
        looks.add_one();
        match &self.entries {
            Entries::Narrow(known) => {
                known_beside(&known[place], self.arrangement, depth, target)
            }
            Entries::Wide(quads) => depth.compare(&self.arrangement.key_of(&quads[place]), target),
        }
    }

    // Where the entries that begin as the target does may be. Looks at the middle of what is left,
    // until it finds one, or nothing is left.
    fn around(&self, depth: Depth, target: &Key, looks: &mut Looks) -> Around
        requires room { looks.old < 2 ^ 63 }
        ensures ordered { (result.low ≤ result.middle) × (result.middle ≤ result.after)
            × (result.after ≤ result.high) × (result.high ≤ length self.now.quads) }
        ensures low_front { AllWithin (λ q. the_is_before false
            (order_at depth (key_of self.now.arrangement q) target.now) ≡ true) self.now.quads 0
            result.low }
        ensures middle_back { AllWithin (λ q. the_is_before false
            (order_at depth (key_of self.now.arrangement q) target.now) ≡ false) self.now.quads
            result.middle (length self.now.quads) }
        ensures after_front { AllWithin (λ q. the_is_before true
            (order_at depth (key_of self.now.arrangement q) target.now) ≡ true) self.now.quads 0
            result.after }
        ensures high_back { AllWithin (λ q. the_is_before true
            (order_at depth (key_of self.now.arrangement q) target.now) ≡ false) self.now.quads
            result.high (length self.now.quads) }
        ensures looks { looks.old ≤ looks.new × IsNarrowed looks.old looks.new
            (length self.now.quads) (result.middle - result.low) (result.high - result.after) }
    {
        // The entries are known to be sorted where one of the fields is read.
        let _ = &self.arrangement;
        let mut low = 0;
        let mut high = self.len();
        while low < high {
            let middle = low + (high - low) / 2;
            match self.look_beside(middle, depth, target, looks) {
                Ordering::Less => low = middle + 1,
                Ordering::Greater => high = middle,
                Ordering::Equal => {
                    return Around {
                        low,
                        middle,
                        after: middle + 1,
                        high,
                    };
                }
            }
        }
        Around {
            low,
            middle: low,
            after: low,
            high: low,
        }
    }

    // The first place whose entry isn't before the target: not less by so many places, or, with
    // `past`, greater. All before `from` are before it, and none from `to` on.
    fn place_of(
        &self,
        depth: Depth,
        target: &Key,
        past: bool,
        from: usize,
        to: usize,
        looks: &mut Looks,
    ) -> usize
        requires ordered { (from ≤ to) × (to ≤ length self.now.quads) }
        requires front { AllWithin (λ q. the_is_before past
            (order_at depth (key_of self.now.arrangement q) target.now) ≡ true) self.now.quads 0
            from }
        requires back { AllWithin (λ q. the_is_before past
            (order_at depth (key_of self.now.arrangement q) target.now) ≡ false) self.now.quads to
            (length self.now.quads) }
        requires room { looks.old < 2 ^ 63 + 128 }
        ensures within { (from ≤ result) × (result ≤ to) }
        ensures front { AllWithin (λ q. the_is_before past
            (order_at depth (key_of self.now.arrangement q) target.now) ≡ true) self.now.quads 0
            result }
        ensures back { AllWithin (λ q. the_is_before past
            (order_at depth (key_of self.now.arrangement q) target.now) ≡ false) self.now.quads
            result (length self.now.quads) }
        ensures looks { IsSearch looks.old looks.new (to - from) }
    {
        let _ = &self.arrangement;
        let mut low = from;
        let mut high = to;
        while low < high {
            let middle = low + (high - low) / 2;
            if is_before(past, self.look_beside(middle, depth, target, looks)) {
                low = middle + 1;
            } else {
                high = middle;
            }
        }
        low
    }

    // The entries of a part: so many looks.
    fn look_at_part(&self, first: usize, past: usize, looks: &mut Looks) -> Part<'_>
        requires ordered { first ≤ past }
        requires within { past ≤ length self.now.quads }
        requires room { looks.old + (past - first) < 2 ^ 64 }
        ensures entries { quads_of_part result ≡ slice_range self.now.quads first past }
        ensures counted { looks.new ≡ looks.old + (past - first) }
    {
        looks.add(past - first);
        match &self.entries {
            Entries::Narrow(known) => Part::Narrow(&known[first..past]),
            Entries::Wide(quads) => Part::Wide(&quads[first..past]),
        }
    }

    // The entries that begin as the pattern does, as far as its places are bound.
    fn part_for(&self, pattern: &QuadPattern<Id>, looks: &mut Looks) -> Part<'_>
        requires { looks.old < 2 ^ 63 }
        ensures entries { quads_of_part result
            ≡ filter (λ q. is_sought (the_bounds_of self.now.arrangement pattern.now)
            (key_of self.now.arrangement q)) self.now.quads }
        ensures looks { IsScan looks.old looks.new (length self.now.quads)
            (length (quads_of_part result)) }
    {
        let bounds = self.arrangement.bounds_of(pattern);
        let depth = bounds.depth();
        let target = bounds.target();
        let around = self.around(depth, &target, looks);
        let first = self.place_of(depth, &target, false, around.low, around.middle, looks);
        let past = self.place_of(depth, &target, true, around.after, around.high, looks);
        self.look_at_part(first, past, looks)
    }

    /// The quads that match, in this order: those that begin as the pattern does, as far as its
    /// places are bound.
    pub fn matching(
        &self,
        alloc: Global,
        pattern: &QuadPattern<Id>,
        looks: &mut Looks,
    ) -> Result<QuadList, AllocError>
        requires { looks.old < 2 ^ 63 }
        ensures found { IfOk result (λ found. found
            ≡ filter (the_matches id_order pattern.now) self.now.quads) }
        ensures looks { IfOk result (λ found. self.now.arrangement ≡ arrangement_for pattern.now
            → IsScan looks.old looks.new (length self.now.quads) (length found)) }
    {
        let part = self.part_for(pattern, looks);
        if self.arrangement == order_for(pattern) {
            part.copied(alloc)
        } else {
            part.matching(alloc, pattern)
        }
    }

    /// The set of the quads that match.
    pub fn matching_set(
        &self,
        alloc: Global,
        pattern: &QuadPattern<Id>,
        looks: &mut Looks,
    ) -> Result<QuadList, AllocError>
        requires { looks.old < 2 ^ 63 }
        ensures found { IfOk result (λ found. found ≡ the_set_of (quad_order id_order)
            (filter (the_matches id_order pattern.now) self.now.quads)) }
        ensures looks { self.now.arrangement ≡ arrangement_for pattern.now
            → IsScan looks.old looks.new (length self.now.quads)
            (length (filter (the_matches id_order pattern.now) self.now.quads)) }
    {
        let part = self.part_for(pattern, looks);
        if self.arrangement == order_for(pattern) {
            part.set(alloc, self.arrangement)
        } else {
            Ok(part.matching(alloc, pattern)?.into_set())
        }
    }
}
