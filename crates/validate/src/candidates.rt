//! The lower requests whose change covers what a read asks for, in order.
ghost use Rattle.std.specs.Prelude.{◌≡◌, ◌≤◌, ◌++◌, ◌∷◌, [], length, IfOk, OnOk, if◌then◌else◌};
ghost use Rattle.reads.specs.Reads.{covers};
ghost use Rattle.validate.specs.Kept.{shown, Holds};
ghost use Rattle.validate.specs.Lower.{Leads};

use crate::kept::Kept;
use datasets::{Id, Read};
use incarnations::Slot;
use std::alloc::{AllocError, Global};

// The request of this slot too, if its delta covers the read.
fn push_if_covering(
    found: &mut Vec<usize>,
    slot: &Slot<'_>,
    request: usize,
    read: &Read<Id>,
) -> Result<(), AllocError>
    ensures { OnOk result (found.new.items
        ≡ (if covers slot.now.delta read.now then found.old.items ++ request ∷ []
        else found.old.items)) }
{
    if slot.delta.covers(read) {
        found.push(request)?;
    }
    Ok(())
}

// Those from `from` on and below `i` whose delta covers the read. It looks at each of them.
fn covering_between(
    alloc: Global,
    slots: &[Slot<'_>],
    from: usize,
    i: usize,
    read: &Read<Id>,
) -> Result<Vec<usize>, AllocError>
    requires rises { from ≤ i }
    requires within { i ≤ length slots.now }
    ensures { IfOk result (λ list. Leads (shown slots.now) read.now from list.items i) }
{
    let mut found = Vec::new(alloc);
    for request in from..i {
        push_if_covering(&mut found, &slots[request], request, read)?;
    }
    Ok(found)
}

/// The requests from `from` on and below `i` that may have changed what the read asks for, rising:
/// none whose delta covers it is missing. Where nothing that was published covers the read, that
/// is one look at the filter, and else one at each of these requests.
pub fn candidates_for(
    alloc: Global,
    kept: &Kept<'_>,
    from: usize,
    i: usize,
    read: &Read<Id>,
) -> Result<Vec<usize>, AllocError>
    requires holds { Holds kept.now }
    requires rises { from ≤ i }
    requires within { i ≤ length kept.now.slots.items }
    ensures { IfOk result (λ list. Leads (shown kept.now.slots.items) read.now from list.items i) }
{
    if !kept.published.may_cover(read) {
        return Ok(Vec::new(alloc));
    }
    covering_between(alloc, kept.slots.as_slice(), from, i, read)
}
