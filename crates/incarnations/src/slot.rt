//! The changes of one request's slot.
ghost use Rattle.std.specs.Prelude.{◌≡◌, ◌<◌, ◌+◌, ◌^◌, ◌++◌, ◌∷◌, [], OnOk, OnErr, IfOk, length, map};
ghost use Rattle.delta.specs.Same.{delta_eq};
ghost use Rattle.incarnations.specs.declared.state.Noted.{Noted as KeptNote};
ghost use Rattle.incarnations.specs.Slots.{Noted as Described, taken, published as published_slot, begun as begun_slot, passed as passed_slot, aborted as aborted_slot, given as given_slot, committed as committed_slot};
ghost use Rattle.incarnations.specs.Kept.{plain, slot_by, fresh_kept};
ghost use Rattle.incarnations.specs.Standings.{standing_of};

use crate::state::{Noted, Pass, Slot, Status};
use delta::{Delta, Finished};
use sets::Items;
use stamp_tree::{Due, Standing};
use std::alloc::{AllocError, Global};

/// A request before its first event.
pub fn fresh<'a>(alloc: Global) -> Slot<'a>
    ensures { result ≡ fresh_kept }
{
    Slot {
        status: Status::Ready(0),
        notes: Items::new(alloc),
        delta: Delta::new(alloc),
        version: 0,
        reply: None,
        estimate: false,
        changed: 0,
        pass: None,
        stamp: None,
    }
}

/// When something is to be done for the request but to commit it, and its last change.
pub fn standing(slot: &Slot<'_>) -> Standing
    ensures { result ≡ standing_of (slot_by plain slot.now) }
{
    let due = match slot.status {
        Status::Ready(_) => Due::Now,
        Status::Executing(_, _) | Status::Committed(_) => Due::Never,
        Status::Executed(_) => match (slot.pass, slot.stamp) {
            (None, Some(moment)) => Due::After(moment),
            _ => Due::Now,
        },
    };
    Standing {
        due,
        changed: slot.changed,
    }
}

/// The worker executes incarnation `n`, with no notes yet.
pub fn take(slot: &mut Slot<'_>, n: u64, worker: u32)
    ensures by { (f : KeptNote → Described) → slot_by f slot.new
        ≡ taken (slot_by f slot.old) n worker }
    ensures notes { slot.new.notes ≡ [] }
{
    slot.status = Status::Executing(n, worker);
    slot.notes.clear();
}

/// One more note. After want of memory the slot is as before.
pub fn note<'a>(slot: &mut Slot<'a>, noted: Noted<'a>) -> Result<(), AllocError>
    ensures ok { OnOk result (slot.new ≡ record slot.old
        { notes = slot.old.notes ++ noted.entry ∷ [] }) }
    ensures err { OnErr result (slot.new ≡ slot.old) }
{
    slot.notes.push(noted)
}

/// A pass begins. With no notes there is nothing to check, and the stamp is the clock.
pub fn begin(slot: &mut Slot<'_>, clock: u64)
    ensures by { (f : KeptNote → Described) → slot_by f slot.new
        ≡ begun_slot (slot_by f slot.old) (map f slot.old.notes) clock }
    ensures notes { slot.new.notes ≡ slot.old.notes }
{
    if slot.notes.is_empty() {
        slot.pass = None;
        slot.stamp = Some(clock);
    } else {
        slot.pass = Some(Pass {
            start: clock,
            next: 0,
        });
        slot.stamp = None;
    }
}

/// The next note comes. After the last one the pass is over, and its start is the stamp.
pub fn pass(slot: &mut Slot<'_>, stands: Pass)
    requires { stands.next < length slot.old.notes }
    ensures by { (f : KeptNote → Described) → slot_by f slot.new
        ≡ passed_slot (slot_by f slot.old) (Some stands) }
    ensures notes { slot.new.notes ≡ slot.old.notes }
{
    let count = slot.notes.len();
    let next = stands.next + 1;
    if next == count {
        slot.pass = None;
        slot.stamp = Some(stands.start);
    } else {
        slot.pass = Some(Pass {
            start: stands.start,
            next,
        });
    }
}

/// The next incarnation is ready. The delta stays, as an estimate.
pub fn abort(slot: &mut Slot<'_>, n: u64)
    requires { n + 1 < 2 ^ 64 }
    ensures by { (f : KeptNote → Described) → slot_by f slot.new
        ≡ aborted_slot (slot_by f slot.old) n }
    ensures notes { slot.new.notes ≡ [] }
{
    give_up(slot, n);
    slot.estimate = true;
    slot.pass = None;
    slot.stamp = None;
}

/// The next incarnation is ready. The delta and its mark stay.
pub fn give_up(slot: &mut Slot<'_>, n: u64)
    requires { n + 1 < 2 ^ 64 }
    ensures by { (f : KeptNote → Described) → slot_by f slot.new
        ≡ given_slot (slot_by f slot.old) n }
    ensures notes { slot.new.notes ≡ [] }
{
    slot.status = Status::Ready(n + 1);
    slot.notes.clear();
}

/// The request is committed.
pub fn commit(slot: &mut Slot<'_>)
    ensures by { (f : KeptNote → Described) → slot_by f slot.new
        ≡ committed_slot (slot_by f slot.old) slot.old.status }
    ensures notes { slot.new.notes ≡ slot.old.notes }
{
    if let Status::Executed(n) = slot.status {
        slot.status = Status::Committed(n);
    }
}

/// A publication. It answers whether the delta is as before. After want of memory the slot is as
/// before.
pub fn publish(
    alloc: Global,
    slot: &mut Slot<'_>,
    n: u64,
    finished: &Finished,
    clock: u64,
) -> Result<bool, AllocError>
    requires { clock + 1 < 2 ^ 64 }
    ensures ok { OnOk result ((f : KeptNote → Described)
        → slot_by f slot.new ≡ published_slot (slot_by f slot.old) n finished.now clock) }
    ensures notes { OnOk result (slot.new.notes ≡ slot.old.notes) }
    ensures same { IfOk result (λ same. same ≡ delta_eq slot.old.delta finished.now.delta) }
    ensures err { OnErr result (slot.new ≡ slot.old) }
{
    let same = slot.delta.is_same(&finished.delta);
    let delta = finished.delta.copied(alloc)?;
    if !same {
        slot.changed = clock + 1;
    }
    slot.status = Status::Executed(n);
    slot.delta = delta;
    slot.version = n;
    slot.reply = Some(finished.reply);
    slot.estimate = false;
    slot.pass = None;
    slot.stamp = None;
    forget_all(alloc, &mut slot.notes);
    Ok(same)
}

// What can give memory back that contracts don't see.
trait Forget: Drop {
    fn forget(&mut self)
        ensures { self.new ≡ self.old };
}

impl<'a> Forget for Noted<'a> {
    // Its answer is no longer kept, where it can be found again.
    fn forget(&mut self) {
        self.note.forget();
    }
}

fn forget_all<T: Forget>(alloc: Global, list: &mut Items<T>)
    ensures { list.new ≡ list.old }
{
    let mut items = std::mem::replace(list, Items::new(alloc)).into_vec();
    for item in items.iter_mut() {
        item.forget();
    }
    *list = Items::from_vec(items);
}
