//! How committed requests are settled: their changes become one, and no read asks them one by one.
ghost use Rattle.std.specs.Prelude.{◌≡◌, ◌<◌, ◌≤◌, ◌+◌, ℕ, true, Some, length, OnOk, OnErr};
ghost use Rattle.incarnations.specs.Statuses.{is_closed};
ghost use Rattle.validate.specs.Below.{slot_at};
ghost use Rattle.validate.specs.Kept.{shown, Holds};

use datasets::{Id, Read};
use std::alloc::{AllocError, Global};
use validate::Kept;

// The first request that is not settled is settled. After want of memory nothing is.
fn settle_next(alloc: Global, kept: &mut Kept<'_>) -> Result<(), AllocError>
    requires holds { Holds kept.old }
    requires within { kept.old.low < length kept.old.slots.items }
    requires closed { is_closed (Some (slot_at (shown kept.old.slots.items) kept.old.low).status)
        ≡ true }
    ensures holds { Holds kept.new }
    ensures slots { kept.new.slots.items ≡ kept.old.slots.items }
    ensures ok { OnOk result (kept.new.low ≡ kept.old.low + 1) }
{
    let low = kept.low;
    kept.settled.push(alloc, &kept.slots[low].delta)?;
    kept.low = low + 1;
    Ok(())
}

/// The requests below `to` are settled, as far as there is memory.
pub fn settle(alloc: Global, kept: &mut Kept<'_>, to: usize) -> Result<(), AllocError>
    requires holds { Holds kept.old }
    requires within { to ≤ length kept.old.slots.items }
    requires closed { (j : ℕ) → j < to → is_closed
        (Some (slot_at (shown kept.old.slots.items) j).status) ≡ true }
    ensures holds { Holds kept.new }
    ensures slots { kept.new.slots.items ≡ kept.old.slots.items }
{
    if to <= kept.low {
        return Ok(());
    }
    for _low in kept.low..to {
        settle_next(alloc, kept)?;
    }
    Ok(())
}

/// Where the settled changes may have changed what a read says they are joined and put in order, as
/// far as there is memory: it is answered sooner then.
pub fn put_in_order(alloc: Global, kept: &mut Kept<'_>, read: &Read<Id>)
    requires { Holds kept.old }
    ensures holds { Holds kept.new }
    ensures slots { kept.new.slots.items ≡ kept.old.slots.items }
{
    if kept.settled.may_say_else(read) {
        kept.settled.put_in_order(alloc);
    }
}
