//! What the requests below one have published: the view that their deltas make, their estimates,
//! and their changes. Each look goes along the requests that may have changed what is asked for,
//! but for those that are settled: their changes are one.
ghost use Rattle.std.specs.Prelude.{◌≡◌, ◌≤◌, ◌<◌, ◌&&◌, ◌++◌, ◌∷◌, [], Some, suc, length, IfOk, OnOk, if◌then◌else◌};
ghost use Rattle.datasets.specs.Id.{id_order};
ghost use Rattle.change_laws.specs.Laws.{IsRising};
ghost use Rattle.reads.specs.Reads.{View as Base, says, applied, covers};
ghost use Rattle.version_overlay.specs.Settled.{changed_by, part_or};
ghost use Rattle.validate.specs.Below.{view_at, blocker as blocker_of, touching as touching_of};
ghost use Rattle.validate.specs.Lower.{Leads};
ghost use Rattle.validate.specs.Kept.{shown, Holds};

use crate::kept::Kept;
use datasets::{Id, Read};
use delta::Delta;
use incarnations::Slot;
use reads::{Scanned, View};
use sets::Items;
use std::alloc::{AllocError, Global};
use version_overlay::along::{changed_part, push_covering};

// The deltas of the requests from `low` on and below `high`, one after another, as one.
fn changes(alloc: Global, slots: &[Slot<'_>], low: usize, high: usize) -> Result<Delta, AllocError>
    requires some { low < high }
    requires within { high ≤ length slots.now }
    ensures { IfOk result (λ delta. (base : Base)
        → applied delta (view_at base (shown slots.now) low)
        ≡ view_at base (shown slots.now) high) }
{
    let middle = low + (high - low) / 2;
    if middle == low {
        return slots[low].delta.copied(alloc);
    }
    let first = changes(alloc, slots, low, middle)?;
    let second = changes(alloc, slots, middle, high)?;
    first.followed_by(alloc, &second)
}

/// A dataset that the requests below `low` leave, with the deltas of those from `low` on and below
/// `high`.
pub fn changed_from(
    alloc: Global,
    slots: &[Slot<'_>],
    low: usize,
    high: usize,
    view: View,
) -> Result<View, AllocError>
    requires rises { low ≤ high }
    requires within { high ≤ length slots.now }
    ensures { IfOk result (λ after. (base : Base) → view ≡ view_at base (shown slots.now) low
        → after ≡ view_at base (shown slots.now) high) }
{
    if low == high {
        return Ok(view);
    }
    changes(alloc, slots, low, high)?.apply(alloc, view)
}

/// What is asked for of the base with the deltas of the requests below `i`, from what the read says
/// of the base and of the settled changes: none where no delta has changed that. An error comes
/// only where memory runs out.
pub fn part_before(
    alloc: Global,
    scanned: &Scanned<'_>,
    kept: &Kept<'_>,
    list: &[usize],
    i: usize,
) -> Result<Option<View>, AllocError>
    requires holds { Holds kept.now }
    requires within { i ≤ length kept.now.slots.items }
    requires leads { Leads (shown kept.now.slots.items) scanned.now.read kept.now.low list.now i }
    ensures { IfOk result (λ part. says scanned.now.read (part_or scanned.now.dataset part)
        ≡ says scanned.now.read (view_at scanned.now.dataset (shown kept.now.slots.items) i)) }
{
    scanned.rises();
    let mut part = kept.settled.part(alloc, scanned)?;
    for request in list {
        let request = *request;
        part = changed_part(alloc, scanned, &kept.slots[request].delta, part)?;
    }
    Ok(part)
}

/// The changes of the requests below `i` that the read asks for, one after another, as it says of
/// the base with their deltas what it says after these. They are shared, and not copied.
pub fn changes_before(
    alloc: Global,
    scanned: &Scanned<'_>,
    kept: &Kept<'_>,
    list: &[usize],
    i: usize,
) -> Result<Vec<Delta>, AllocError>
    requires holds { Holds kept.now }
    requires within { i ≤ length kept.now.slots.items }
    requires leads { Leads (shown kept.now.slots.items) scanned.now.read kept.now.low list.now i }
    ensures { IfOk result (λ found. says scanned.now.read
        (changed_by found.items scanned.now.dataset)
        ≡ says scanned.now.read (view_at scanned.now.dataset (shown kept.now.slots.items) i)) }
{
    scanned.rises();
    let mut found = kept.settled.changes(alloc, scanned.read())?;
    for request in list {
        let request = *request;
        push_covering(
            alloc,
            &mut found,
            &kept.slots[request].delta,
            scanned.read(),
        )?;
    }
    Ok(found)
}

/// The greatest request below `i` that is an estimate and whose delta covers the read. The list
/// begins at `low`, below which all are settled.
pub fn blocker(
    kept: &Kept<'_>,
    low: usize,
    list: &[usize],
    i: usize,
    read: &Read<Id>,
) -> Option<usize>
    requires holds { Holds kept.now }
    requires low { low ≤ kept.now.low }
    requires within { i ≤ length kept.now.slots.items }
    requires leads { Leads (shown kept.now.slots.items) read.now low list.now i }
    ensures { result ≡ blocker_of (shown kept.now.slots.items) i read.now }
{
    let mut found = None;
    for request in list {
        let request = *request;
        found = blocker_or(&kept.slots[request], request, read, found);
    }
    found
}

// The request of this slot, if it is an estimate whose delta covers the read.
fn blocker_or(
    slot: &Slot<'_>,
    request: usize,
    read: &Read<Id>,
    found: Option<usize>,
) -> Option<usize>
    ensures { result ≡ (if slot.now.estimate && covers slot.now.delta read.now then Some request
        else found) }
{
    if slot.estimate && slot.delta.covers(read) {
        Some(request)
    } else {
        found
    }
}

/// The requests from `low` on and below `i` whose delta covers the read, each with the incarnation
/// of its last publication.
pub fn touching(
    alloc: Global,
    slots: &[Slot<'_>],
    low: usize,
    list: &[usize],
    i: usize,
    read: &Read<Id>,
) -> Result<Items<(usize, u64)>, AllocError>
    requires within { i ≤ length slots.now }
    requires leads { Leads (shown slots.now) read.now low list.now i }
    ensures { IfOk result (λ found. touching_of (shown slots.now) low read.now ++ found
        ≡ touching_of (shown slots.now) i read.now) }
{
    let mut found = Items::new(alloc);
    for request in list {
        let request = *request;
        push_touching(&mut found, &slots[request], request, read)?;
    }
    Ok(found)
}

// The request of this slot, if its delta covers the read.
fn push_touching(
    found: &mut Items<(usize, u64)>,
    slot: &Slot<'_>,
    request: usize,
    read: &Read<Id>,
) -> Result<(), AllocError>
    ensures { OnOk result (found.new ≡ found.old
        ++ (if covers slot.now.delta read.now then (request, slot.now.version) ∷ [] else [])) }
{
    if slot.delta.covers(read) {
        found.push((request, slot.version))?;
    }
    Ok(())
}
