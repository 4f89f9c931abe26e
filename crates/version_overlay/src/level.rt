//! One change of several requests, its present quads in several orders where they are asked for,
//! and what it makes of the part of a dataset that a read asks for.
ghost use Rattle.std.specs.Prelude.{◌≡◌, true, false, [], IfOk, filter};
ghost use Rattle.std.specs.List.{list_any};
ghost use Rattle.sets.specs.Sets.{has};
ghost use Rattle.datasets.specs.declared.id.Id.{Id as Number};
ghost use Rattle.datasets.specs.declared.quad.Quad.{Quad as Named};
ghost use Rattle.datasets.specs.Id.{id_order};
ghost use Rattle.datasets.specs.Dataset.{quad_order, matches};
ghost use Rattle.change_laws.specs.Laws.{IsRising};
ghost use Rattle.quad_index.specs.Index.{AllAlike};
ghost use Rattle.reads.specs.Reads.{View as Dataset, says, applied};
ghost use Rattle.version_overlay.specs.Settled.{part_or};

use crate::along::{changed_part, part_of};
use datasets::{Id, QuadPattern, Read};
use delta::Delta;
use quad_index::Order;
use quad_lists::Arrangement;
use quad_sets::{QuadSet, QuadSlice};
use reads::{Scanned, View};
use std::alloc::{AllocError, Global};
use std::marker::Model;

/// With fewer present quads a search of them all is as fast as one by an order.
const WORTH_ORDERS: usize = 128;

// The quads of a set in these orders, where there are many.
fn orders_worth(
    alloc: Global,
    quads: &QuadSlice<'_>,
    orders: &[Arrangement],
) -> Result<Vec<Order>, AllocError>
    ensures { IfOk result (λ orders. AllAlike quads.now orders.items) }
{
    if quads.len() < WORTH_ORDERS {
        return Ok(Vec::new(alloc));
    }
    quads.in_orders(alloc, orders)
}

/// A change whose present quads are found by binary search, once they are put in order. Contracts
/// see the change.
#[derive(Drop)]
pub struct Level {
    change: Delta,
    // The present quads in orders beside SPOG.
    orders: Vec<Order>,
    // Whether they were put in order, where they are many.
    is_ordered: bool,
}

impl Model for Level {
    ghost use Rattle.reads.specs.Reads.{Delta};
    ghost use Rattle.quad_index.specs.Index.{AllAlike};

    ghost Value = { Delta };

    ghost view = { λ l. l.change };

    ghost invariant = { λ l. AllAlike l.change.present l.orders.items };
}

impl Level {
    /// This change, its present quads in SPOG alone. It takes no memory.
    pub fn new(alloc: Global, change: Delta) -> Level
        ensures { result ≡ change }
    {
        Level {
            change,
            orders: Vec::new(alloc),
            is_ordered: false,
        }
    }

    /// The present quads are put in these orders beside SPOG, where they are many, they were not
    /// before, and there is memory. A read finds them sooner then.
    pub fn put_in_order(&mut self, alloc: Global, orders: &[Arrangement])
        ensures { self.new ≡ self.old }
    {
        if self.is_ordered {
            return;
        }
        if let Ok(orders) = orders_worth(alloc, &self.change.present(), orders) {
            self.orders = orders;
            self.is_ordered = true;
        }
    }

    /// Whether the present quads were put in order.
    pub fn is_ordered(&self) -> bool {
        self.is_ordered
    }

    /// The change.
    pub fn change(&self) -> &Delta
        ensures { result.now ≡ self.now }
    {
        &self.change
    }

    /// What is asked for of a dataset, if changes have changed it, with this change more, where
    /// that changes it.
    pub fn part_after(
        &self,
        alloc: Global,
        scanned: &Scanned<'_>,
        part: Option<View>,
    ) -> Result<Option<View>, AllocError>
        ensures { IfOk result (λ next. (d : Dataset) → IsRising id_order d
            → says scanned.now.read (part_or scanned.now.dataset part) ≡ says scanned.now.read d
            → says scanned.now.read (part_or scanned.now.dataset next)
            ≡ says scanned.now.read (applied self.now d)) }
    {
        match scanned.read() {
            Read::Scan(pattern) => self.scan_after(alloc, scanned, pattern, part),
            Read::GraphIs(_) => changed_part(alloc, scanned, &self.change, part),
            Read::Graphs => changed_part(alloc, scanned, &self.change, part),
        }
    }

    // The same, where the read is a scan. What comes is found by binary search, and what goes is
    // looked for among what is there.
    fn scan_after(
        &self,
        alloc: Global,
        scanned: &Scanned<'_>,
        pattern: &QuadPattern<Id>,
        part: Option<View>,
    ) -> Result<Option<View>, AllocError>
        requires { scanned.now.read ≡ Read.Scan pattern.now }
        ensures { IfOk result (λ next. (d : Dataset) → IsRising id_order d
            → says scanned.now.read (part_or scanned.now.dataset part) ≡ says scanned.now.read d
            → says scanned.now.read (part_or scanned.now.dataset next)
            ≡ says scanned.now.read (applied self.now d)) }
    {
        let coming = self.change.present().scan(alloc, &self.orders, pattern)?;
        let going = self.change.absent();
        if coming.as_slice().is_empty() && !is_any_gone(alloc, scanned, pattern, &part, &going)? {
            return Ok(part);
        }
        self.with_coming(alloc, scanned, pattern, part, &coming.as_slice())
    }

    // The same, where these are the quads that come.
    fn with_coming(
        &self,
        alloc: Global,
        scanned: &Scanned<'_>,
        _pattern: &QuadPattern<Id>,
        part: Option<View>,
        coming: &QuadSlice<'_>,
    ) -> Result<Option<View>, AllocError>
        requires scan { scanned.now.read ≡ Read.Scan _pattern.now }
        requires coming { coming.now ≡ filter (matches id_order _pattern.now) self.now.present }
        ensures { IfOk result (λ next. (d : Dataset) → IsRising id_order d
            → says scanned.now.read (part_or scanned.now.dataset part) ≡ says scanned.now.read d
            → says scanned.now.read (part_or scanned.now.dataset next)
            ≡ says scanned.now.read (applied self.now d)) }
    {
        let (quads, names) = part_of(alloc, scanned, part)?.into_parts();
        drop(names);
        let going = self.change.absent();
        let quads = QuadSet::of_changed(alloc, quads.into_list(), &going, coming)?;
        Ok(Some(View::from_sets(quads, Vec::new(alloc))))
    }
}

// Whether any quad that is asked for may be one of a set's.
fn is_any_gone(
    alloc: Global,
    scanned: &Scanned<'_>,
    pattern: &QuadPattern<Id>,
    part: &Option<View>,
    going: &QuadSlice<'_>,
) -> Result<bool, AllocError>
    requires scan { scanned.now.read ≡ Read.Scan pattern.now }
    ensures { IfOk result (λ so. so ≡ false → (q : Named Number)
        → has (quad_order id_order) (filter (matches id_order pattern.now)
        (part_or scanned.now.dataset part.now).quads) q ≡ true
        → has (quad_order id_order) going.now q ≡ false) }
{
    match part {
        Some(view) => Ok(have_common(&view.quads(), going)),
        None => is_any_told_gone(alloc, scanned, pattern, going),
    }
}

// Whether any quad that the scan says of the dataset may be one of a set's.
fn is_any_told_gone(
    alloc: Global,
    scanned: &Scanned<'_>,
    pattern: &QuadPattern<Id>,
    going: &QuadSlice<'_>,
) -> Result<bool, AllocError>
    requires scan { scanned.now.read ≡ Read.Scan pattern.now }
    ensures { IfOk result (λ so. so ≡ false → (q : Named Number)
        → has (quad_order id_order) (filter (matches id_order pattern.now)
        scanned.now.dataset.quads) q ≡ true → has (quad_order id_order) going.now q ≡ false) }
{
    let _ = pattern;
    scanned.rises();
    let answer = scanned.answer(alloc)?;
    match answer.quads() {
        Some(quads) => Ok(have_common(&QuadSlice::of_set(quads), going)),
        None => Ok(true),
    }
}

// Whether two sets of quads have a quad in common. Those of the smaller one are looked for in the
// other.
fn have_common(first: &QuadSlice<'_>, second: &QuadSlice<'_>) -> bool
    ensures { result ≡ false → (q : Named Number) → has (quad_order id_order) first.now q ≡ true
        → has (quad_order id_order) second.now q ≡ false }
{
    if first.len() <= second.len() {
        is_any_of(first, second)
    } else {
        is_any_of(second, first)
    }
}

// Whether any of a set's quads is one of another's.
fn is_any_of(quads: &QuadSlice<'_>, set: &QuadSlice<'_>) -> bool
    ensures { result ≡ list_any (λ q. has (quad_order id_order) set.now q) quads.now }
{
    for place in 0..quads.len() {
        if set.contains(&quads.get(place)) {
            return true;
        }
    }
    false
}
