//! What a read says of a dataset that changes have changed, one after another.
ghost use Rattle.std.specs.Prelude.{◌≡◌, IfOk, OnOk};
ghost use Rattle.datasets.specs.Id.{id_order};
ghost use Rattle.change_laws.specs.Laws.{IsRising};
ghost use Rattle.reads.specs.Reads.{View as Dataset, says, applied};
ghost use Rattle.version_overlay.specs.Settled.{changed_by, part_or};

use datasets::{Id, Read};
use delta::Delta;
use reads::{Answered, IndexedView, Scanned, View};
use std::alloc::{AllocError, Global};

/// What is asked for of a dataset, if changes have changed it, with one change more, where that
/// covers the read.
pub fn changed_part(
    alloc: Global,
    scanned: &Scanned<'_>,
    delta: &Delta,
    part: Option<View>,
) -> Result<Option<View>, AllocError>
    ensures { IfOk result (λ next. (d : Dataset) → IsRising id_order d
        → says scanned.now.read (part_or scanned.now.dataset part) ≡ says scanned.now.read d
        → says scanned.now.read (part_or scanned.now.dataset next)
        ≡ says scanned.now.read (applied delta.now d)) }
{
    let read = scanned.read();
    if !delta.covers(read) {
        return Ok(part);
    }
    let part = part_of(alloc, scanned, part)?;
    let next = delta.asked(alloc, read)?.apply(alloc, part)?;
    Ok(Some(next))
}

/// What is asked for of the dataset, where no change has changed it yet, or what is left of it.
pub(crate) fn part_of(
    alloc: Global,
    scanned: &Scanned<'_>,
    part: Option<View>,
) -> Result<View, AllocError>
    ensures { IfOk result (λ found. says scanned.now.read found
        ≡ says scanned.now.read (part_or scanned.now.dataset part)) }
{
    match part {
        Some(part) => Ok(part),
        None => scanned.part(alloc),
    }
}

/// What the read says of the dataset, where no change has changed it, or of what is left of it.
pub fn answer_of(
    alloc: Global,
    scanned: &Scanned<'_>,
    part: Option<View>,
) -> Result<Answered, AllocError>
    ensures { IfOk result (λ answer. answer ≡ says scanned.now.read
        (part_or scanned.now.dataset part)) }
{
    match part {
        Some(part) => part.answer(alloc, scanned.read()),
        None => scanned.answer(alloc),
    }
}

/// One more change, shared and not copied, if it covers the read: the read says after all of them
/// what it says with that change too.
pub fn push_covering(
    alloc: Global,
    changes: &mut Vec<Delta>,
    delta: &Delta,
    read: &Read<Id>,
) -> Result<(), AllocError>
    ensures { OnOk result ((d : Dataset) → IsRising id_order d
        → says read.now (changed_by changes.new.items d)
        ≡ says read.now (applied delta.now (changed_by changes.old.items d))) }
{
    if !delta.covers(read) {
        return Ok(());
    }
    let copy = delta.copied(alloc)?;
    changes.push(copy)?;
    Ok(())
}

/// What a read says of the dataset after these changes. An error comes only where memory runs out.
pub fn answer_after(
    alloc: Global,
    dataset: &IndexedView,
    changes: &[Delta],
    read: &Read<Id>,
) -> Result<Answered, AllocError>
    ensures { IfOk result (λ answer. answer ≡ says read.now (changed_by changes.now dataset.now)) }
{
    let scanned = Scanned::new(alloc, dataset, read)?;
    scanned.rises();
    let mut part = None;
    for delta in changes {
        part = changed_part(alloc, &scanned, delta, part)?;
    }
    answer_of(alloc, &scanned, part)
}
