//! A set of quads, kept in several orders.
ghost use Rattle.std.specs.Prelude.{◌≡◌, ◌∷◌, ◌<◌, ◌^◌, IfOk, IfSome, IfNone, filter, length};
ghost use Rattle.std.specs.List.{Contains};
ghost use Rattle.std.specs.List.Sorted.{IsPermutation, IsStrictlySortedBy};
ghost use Rattle.sets.specs.Sets.{set_of as the_set_of};
ghost use Rattle.datasets.specs.Id.{id_order};
ghost use Rattle.datasets.specs.Dataset.{quad_order, matches};
ghost use Rattle.quad_lists.specs.Keys.{arrangement_for};
ghost use Rattle.quad_index.specs.Index.{AllAlike, arrangements_of};
ghost use Rattle.quad_index.specs.Looks.{IsScan};
ghost use Rattle.quad_lists.specs.Part.{quads_of_part};
ghost use Rattle.quad_lists.specs.QuadList.{quads_in};

use crate::looks::Looks;
use crate::order::Order;
use datasets::{Id, Quad, QuadPattern};
use quad_lists::{Arrangement, Entries, Part, QuadList, order_for};
use std::alloc::{AllocError, Global};
use std::marker::Model;
use std::thread::Threads;

/// A set of quads. Contracts see its list, and the orders in which it is kept: SPOG, and those that
/// it was made with. In an order that begins with the bound places of a pattern, its quads are
/// found by binary search.
#[derive(Drop)]
pub struct Index {
    spog: Order,
    others: Vec<Order>,
}

impl Model for Index {
    ghost use Rattle.std.specs.Prelude.{◌∷◌};
    ghost use Rattle.quad_lists.specs.declared.key.Arrangement.TheVariants.{Spog};
    ghost use Rattle.quad_index.specs.Indexed.{Indexed};

    ghost Value = { Indexed };

    ghost use Rattle.quad_index.specs.Index.{IsIndex, arrangements_of};

    ghost view = { λ i. record { quads = i.spog.quads; orders = Spog ∷ arrangements_of i.others.items } };

    ghost invariant = { λ i. IsIndex i.spog i.others.items };
}

// The same quads in each of these orders.
fn orders_of(
    alloc: Global,
    spog: &Order,
    arrangements: &[Arrangement],
) -> Result<Vec<Order>, AllocError>
    ensures orders { IfOk result (λ orders. arrangements_of orders.items ≡ arrangements.now) }
    ensures alike { IfOk result (λ orders. AllAlike spog.now.quads orders.items) }
{
    let mut orders = Vec::new(alloc);
    for arrangement in arrangements {
        orders.push(spog.rearranged(alloc, *arrangement)?)?;
    }
    Ok(orders)
}

// The same, put in order by several threads.
fn orders_of_by<T: Threads + Sync>(
    rt: &T,
    alloc: Global,
    spog: &Order,
    arrangements: &[Arrangement],
) -> Result<Vec<Order>, AllocError>
    ensures orders { IfOk result (λ orders. arrangements_of orders.items ≡ arrangements.now) }
    ensures alike { IfOk result (λ orders. AllAlike spog.now.quads orders.items) }
{
    let mut orders = Vec::new(alloc);
    for arrangement in arrangements {
        orders.push(spog.rearranged_by(rt, alloc, *arrangement)?)?;
    }
    Ok(orders)
}

impl Index {
    /// This set of quads, in SPOG and in these orders. An error comes only where memory runs out,
    /// as it does for 2^62 quads.
    pub fn new(
        alloc: Global,
        quads: &[Quad<Id>],
        arrangements: &[Arrangement],
    ) -> Result<Index, AllocError>
        requires { IsStrictlySortedBy (quad_order id_order) quads.now }
        ensures { IfOk result (λ index. index ≡ record
            { quads = quads.now; orders = Arrangement.Spog ∷ arrangements.now }) }
    {
        let spog = Order::of_set(alloc, quads)?;
        let others = orders_of(alloc, &spog, arrangements)?;
        Ok(Index { spog, others })
    }

    /// The set of these quads, in any order and with doubles, in SPOG and in these orders. An error
    /// comes only where memory runs out, as it does for 2^62 quads.
    pub fn of_quads(
        alloc: Global,
        quads: QuadList,
        arrangements: &[Arrangement],
    ) -> Result<Index, AllocError>
        ensures { IfOk result (λ index. index ≡ record {
          quads = the_set_of (quad_order id_order) quads;
          orders = Arrangement.Spog ∷
              arrangements.now;
        }) }
    {
        let spog = Order::of_quads(alloc, quads)?;
        let others = orders_of(alloc, &spog, arrangements)?;
        Ok(Index { spog, others })
    }

    /// The same, put in order by several threads.
    pub fn of_quads_by<T: Threads + Sync>(
        rt: &T,
        alloc: Global,
        quads: QuadList,
        arrangements: &[Arrangement],
    ) -> Result<Index, AllocError>
        ensures { IfOk result (λ index. index ≡ record {
          quads = the_set_of (quad_order id_order) quads;
          orders = Arrangement.Spog ∷
              arrangements.now;
        }) }
    {
        let spog = Order::of_quads_by(rt, alloc, quads)?;
        let others = orders_of_by(rt, alloc, &spog, arrangements)?;
        Ok(Index { spog, others })
    }

    /// Its quads are a set.
    pub fn rises(&self)
        ensures { IsStrictlySortedBy (quad_order id_order) self.now.quads }
    {
        let _ = &self.spog;
    }

    /// Its quads, by subject, predicate, object and graph.
    pub fn quads(&self, alloc: Global) -> Result<Vec<Quad<Id>>, AllocError>
        ensures { IfOk result (λ quads. quads.items ≡ self.now.quads) }
    {
        self.spog.quads(alloc)
    }

    /// The same, lent.
    pub fn lent(&self) -> Part<'_>
        ensures { quads_of_part result ≡ self.now.quads }
    {
        self.spog.lent()
    }

    /// The same, in little memory where all are of known terms.
    pub fn entries(&self, alloc: Global) -> Result<Entries, AllocError>
        ensures { IfOk result (λ entries. quads_in entries ≡ self.now.quads) }
    {
        self.spog.copied_entries(alloc)
    }

    /// The orders beside SPOG, in which its quads are kept.
    pub fn orders(&self, alloc: Global) -> Result<Vec<Arrangement>, AllocError>
        ensures { IfOk result (λ orders. Arrangement.Spog ∷ orders.items ≡ self.now.orders) }
    {
        let mut orders = Vec::new(alloc);
        for order in &self.others {
            orders.push(order.arrangement())?;
        }
        Ok(orders)
    }

    // The quads in this order, if it was made beside SPOG.
    fn other(&self, arrangement: Arrangement) -> Option<&Order>
        ensures arrangement { IfSome result (λ order. order.now.arrangement ≡ arrangement) }
        ensures alike { IfSome result (λ order. IsPermutation self.now.quads order.now.quads) }
        ensures set { IsStrictlySortedBy (quad_order id_order) self.now.quads }
        ensures none { IfNone result (Contains self.now.orders arrangement
            → arrangement ≡ Arrangement.Spog) }
    {
        for order in &self.others {
            if order.arrangement() == arrangement {
                return Some(order);
            }
        }
        None
    }

    /// The quads that match, by subject, predicate, object and graph. They are looked for in the
    /// order that begins with the bound places, if it is kept, and then for no more looks than
    /// twice as many as their number in the index has binary digits, and one for each that is
    /// found; else in SPOG. Sorting what was found is no look.
    pub fn scan_counted(
        &self,
        alloc: Global,
        pattern: &QuadPattern<Id>,
        looks: &mut Looks,
    ) -> Result<QuadList, AllocError>
        requires { looks.old < 2 ^ 63 }
        ensures found { IfOk result (λ found. found
            ≡ filter (matches id_order pattern.now) self.now.quads) }
        ensures looks { IfOk result (λ found. Contains self.now.orders (arrangement_for pattern.now)
            → IsScan looks.old looks.new (length self.now.quads) (length found)) }
    {
        match self.other(order_for(pattern)) {
            Some(order) => order.matching_set(alloc, pattern, looks),
            None => self.spog.matching(alloc, pattern, looks),
        }
    }

    /// The quads that match, by subject, predicate, object and graph, as `scan_counted` finds them.
    pub fn scan(&self, alloc: Global, pattern: &QuadPattern<Id>) -> Result<QuadList, AllocError>
        ensures { IfOk result (λ found. found
            ≡ filter (matches id_order pattern.now) self.now.quads) }
    {
        self.scan_counted(alloc, pattern, &mut Looks::new())
    }
}
