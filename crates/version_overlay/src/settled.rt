//! The changes of the requests that are committed, which will not change again.
//!
//! They lie in levels, the oldest first. Nothing is done with those that came last until a read may
//! find something in them: then levels that are alike in length become one, and each is put in
//! order. So a read looks at few of them, what a change speaks of is copied about as often as there
//! are levels, and where no read finds anything they are joined at the end, by several threads. A
//! filter tells what a read can't find. What is joined in one go is bounded, and the rest is left to
//! later reads, as others wait meanwhile for the book that keeps the changes.
ghost use Rattle.std.specs.Prelude.{◌≡◌, true, false, [], IfOk, OnOk, OnErr};
ghost use Rattle.datasets.specs.Id.{id_order};
ghost use Rattle.change_laws.specs.Laws.{IsRising};
ghost use Rattle.reads.specs.Reads.{View as Dataset, says, applied, no_change};
ghost use Rattle.version_overlay.specs.Joined.{Joined, most_joined};
ghost use Rattle.version_overlay.specs.Settled.{changed_by, part_or};

use crate::along::push_covering;
use crate::change_filter::ChangeFilter;
use crate::joining::{MOST, all_joined, all_joined_by, join_alike};
use crate::level::Level;
use datasets::{Id, Read};
use delta::Delta;
use quad_lists::Arrangement;
use reads::{CompactView, IndexedView, Scanned, View};
use std::alloc::{AllocError, Global};
use std::marker::Model;
use std::thread::Threads;

/// Changes that will not change again, one after another, as one. A filter is asked before them.
#[derive(Drop)]
pub struct Settled {
    orders: Vec<Arrangement>,
    filter: ChangeFilter,
    levels: Vec<Level>,
}

impl Model for Settled {
    ghost use Rattle.std.specs.Prelude.{List};
    ghost use Rattle.reads.specs.Reads.{Delta};
    ghost use Rattle.version_overlay.specs.Settled.{StopsUnchanged};

    ghost Value = { List Delta };

    ghost view = { λ s. s.levels.items };

    ghost invariant = { λ s. StopsUnchanged s.filter s.levels.items };
}

impl Settled {
    /// No change yet. The quads of those that come are kept in these orders, beside SPOG. An error
    /// comes only where memory runs out.
    pub fn new(alloc: Global, orders: &[Arrangement]) -> Result<Settled, AllocError>
        ensures { IfOk result (λ settled. settled ≡ []) }
    {
        let orders = Vec::from_slice(alloc, orders)?;
        Ok(Settled {
            orders,
            filter: ChangeFilter::new(alloc),
            levels: Vec::new(alloc),
        })
    }

    /// One more change, after the others. After want of memory they make of a dataset what they
    /// made. One that speaks of nothing adds nothing, but for the first, which makes sets of what
    /// it is applied to.
    pub fn push(&mut self, alloc: Global, delta: &Delta) -> Result<(), AllocError>
        ensures ok { OnOk result ((d : Dataset) → changed_by self.new d
            ≡ applied delta.now (changed_by self.old d)) }
        ensures err { OnErr result ((d : Dataset) → changed_by self.new d ≡ changed_by self.old d) }
    {
        if !self.levels.is_empty() && says_nothing(delta) {
            return Ok(());
        }
        self.filter.put(delta)?;
        let level = Level::new(alloc, delta.copied(alloc)?);
        self.levels.push(level)?;
        Ok(())
    }

    /// The changes are joined where they are alike in length, and put in order, as far as there is
    /// memory, so that a read that they may have changed is answered sooner. Those that are joined
    /// have 131,072 quads and names at most, each counted as often as it is joined. They make of a
    /// dataset what they made.
    pub fn put_in_order(&mut self, alloc: Global)
        ensures same { (d : Dataset) → changed_by self.new d ≡ changed_by self.old d }
        ensures joined { Joined self.old most_joined self.new }
    {
        join_alike(alloc, &mut self.levels, &self.orders);
        put_some_in_order(alloc, &mut self.levels, &self.orders);
    }

    /// Whether the changes may have changed what the read says.
    pub fn may_say_else(&self, read: &Read<Id>) -> bool
        ensures { result ≡ false → (d : Dataset) → IsRising id_order d
            → says read.now (changed_by self.now d) ≡ says read.now d }
    {
        self.filter.may_cover(read)
    }

    /// The part of the dataset after the changes that a read asks for, from what it says of the
    /// dataset: none where they don't speak of it.
    pub fn part(&self, alloc: Global, scanned: &Scanned<'_>) -> Result<Option<View>, AllocError>
        ensures { IfOk result (λ part. says scanned.now.read (part_or scanned.now.dataset part)
            ≡ says scanned.now.read (changed_by self.now scanned.now.dataset)) }
    {
        scanned.rises();
        if !self.may_say_else(scanned.read()) {
            return Ok(None);
        }
        let mut part = None;
        for level in &self.levels {
            part = level.part_after(alloc, scanned, part)?;
        }
        Ok(part)
    }

    /// Those that a read asks for, one after another: what it says after them is what it says after
    /// all. They are shared, and not copied.
    pub fn changes(&self, alloc: Global, read: &Read<Id>) -> Result<Vec<Delta>, AllocError>
        ensures { IfOk result (λ found. (d : Dataset) → IsRising id_order d
            → says read.now (changed_by found.items d) ≡ says read.now (changed_by self.now d)) }
    {
        let mut found = Vec::new(alloc);
        if !self.may_say_else(read) {
            return Ok(found);
        }
        for each in &self.levels {
            push_covering(alloc, &mut found, each.change(), read)?;
        }
        Ok(found)
    }

    /// The dataset after the changes. An error comes only where memory runs out.
    pub fn apply(&self, alloc: Global, view: View) -> Result<View, AllocError>
        ensures { IfOk result (λ after. after ≡ changed_by self.now view) }
    {
        if self.levels.is_empty() {
            return Ok(view);
        }
        all_joined(alloc, self.levels.as_slice())?.apply(alloc, view)
    }

    /// The same of a dataset in its orders, where the changes are not needed any more, and are let
    /// go as soon as they are one. An error comes only where memory runs out.
    pub fn into_applied(
        self,
        alloc: Global,
        dataset: &IndexedView,
    ) -> Result<CompactView, AllocError>
        ensures { IfOk result (λ after. after ≡ changed_by self dataset.now) }
    {
        if self.levels.is_empty() {
            drop(self);
            return dataset.compact(alloc);
        }
        let change = all_joined(alloc, self.levels.as_slice());
        drop(self);
        let joined = change?;
        joined.apply_indexed(alloc, dataset)
    }

    /// The same, where so many threads make the changes one, and lay them over the dataset.
    pub fn into_applied_by<T: Threads + Sync>(
        self,
        rt: &T,
        alloc: Global,
        dataset: &IndexedView,
        threads: u32,
    ) -> Result<CompactView, AllocError>
        ensures { IfOk result (λ after. after ≡ changed_by self dataset.now) }
    {
        if self.levels.is_empty() {
            drop(self);
            return dataset.compact(alloc);
        }
        let change = all_joined_by(rt, alloc, self.levels.as_slice(), threads);
        drop(self);
        let joined = change?;
        joined.apply_indexed_by(rt, alloc, dataset, threads as usize)
    }
}

// Whether a change speaks of nothing.
fn says_nothing(delta: &Delta) -> bool
    ensures { result ≡ true → delta.now ≡ no_change }
{
    delta.present().is_empty()
        && delta.absent().is_empty()
        && delta.there().is_empty()
        && delta.gone().is_empty()
}

// A level is put in these orders if so many quads may be, or it is longer than each that is joined:
// how many may be after it.
fn put_one_in_order(alloc: Global, level: &mut Level, orders: &[Arrangement], left: usize) -> usize
    ensures { level.new ≡ level.old }
{
    let count = level.change().present().len();
    if level.is_ordered() || (left < count && count <= MOST) {
        return left;
    }
    level.put_in_order(alloc, orders);
    left.saturating_sub(count)
}

// The levels are put in these orders, the oldest first, as far as there is memory, and about as many
// quads as are joined. A long change of one request is put in order at once.
fn put_some_in_order(alloc: Global, levels: &mut Vec<Level>, orders: &[Arrangement])
    ensures { levels.new.items ≡ levels.old.items }
{
    let mut left = MOST;
    for level in levels.iter_mut() {
        left = put_one_in_order(alloc, level, orders, left);
    }
}
