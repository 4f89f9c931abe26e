//! The check of one note: whether its read would be answered as before.
ghost use Rattle.std.specs.Prelude.{◌≡◌, ◌≤◌, ◌↔◌, length, IsTrue, IfOk};
ghost use Rattle.reads.specs.Reads.{says};
ghost use Rattle.validate.specs.Below.{view_at};
ghost use Rattle.validate.specs.Lower.{Leads};
ghost use Rattle.validate.specs.Verdicts.{NoteVerdict, ListVerdict};
ghost use Rattle.validate.specs.Kept.{shown, whole, Holds};

use crate::below::{blocker, part_before, touching};
use crate::candidates::candidates_for;
use crate::kept::Kept;
use datasets::{Id, Read};
use incarnations::Noted;
use reads::{Answered, IndexedView, Scanned};
use std::alloc::{AllocError, Global};
use version_overlay::along::answer_of;

/// What a check of a note finds.
#[derive(Clone, Copy)]
pub enum Verdict {
    /// The answer now is the noted one.
    Same,
    /// It is another.
    Changed,
    /// An estimate of this lower request covers the read: the greatest such one.
    Blocked(usize),
}

/// Compares a note's answer with the answer now, at request `i`.
pub fn check(
    alloc: Global,
    base: &IndexedView,
    kept: &Kept<'_>,
    i: usize,
    note: &Noted<'_>,
) -> Result<Verdict, AllocError>
    requires holds { Holds kept.now }
    requires within { i ≤ length kept.now.slots.items }
    requires above { kept.now.low ≤ i }
    ensures { IfOk result (λ verdict. NoteVerdict base.now (shown kept.now.slots.items) i
        (whole kept.now.slots.items note.now) verdict) }
{
    let read = &note.note.read();
    let list = candidates_for(alloc, kept, kept.low, i, read)?;
    if let Some(j) = blocker(kept, kept.low, &list, i, read) {
        return Ok(Verdict::Blocked(j));
    }
    let now = answer_at(alloc, base, kept, &list, i, read);
    drop(list);
    let now = now?;
    if note.note.is_answer(alloc, &now)? {
        Ok(Verdict::Same)
    } else {
        Ok(Verdict::Changed)
    }
}

// What the read says now at request `i`.
fn answer_at(
    alloc: Global,
    base: &IndexedView,
    kept: &Kept<'_>,
    list: &[usize],
    i: usize,
    read: &Read<Id>,
) -> Result<Answered, AllocError>
    requires holds { Holds kept.now }
    requires within { i ≤ length kept.now.slots.items }
    requires leads { Leads (shown kept.now.slots.items) read.now kept.now.low list.now i }
    ensures { IfOk result (λ answer. answer
        ≡ says read.now (view_at base.now (shown kept.now.slots.items) i)) }
{
    let scanned = Scanned::new(alloc, base, read)?;
    let part = part_before(alloc, &scanned, kept, list, i)?;
    answer_of(alloc, &scanned, part)
}

/// Compares a note's touching list with the list now, at request `i`, from the first request on
/// that was not settled when it was made: no answer is computed.
pub fn check_list(
    alloc: Global,
    kept: &Kept<'_>,
    i: usize,
    note: &Noted<'_>,
) -> Result<Verdict, AllocError>
    requires holds { Holds kept.now }
    requires within { i ≤ length kept.now.slots.items }
    requires low { note.now.low ≤ kept.now.low }
    requires above { kept.now.low ≤ i }
    ensures { IfOk result (λ verdict. ListVerdict (shown kept.now.slots.items) i note.now.note.read
        (whole kept.now.slots.items note.now).touching verdict) }
{
    // All lower requests were settled when it was made.
    if i <= note.low && note.touching.is_empty() {
        return Ok(Verdict::Same);
    }
    let read = &note.note.read();
    let along = candidates_for(alloc, kept, note.low, i, read)?;
    if let Some(j) = blocker(kept, note.low, &along, i, read) {
        return Ok(Verdict::Blocked(j));
    }
    let slots = kept.slots.as_slice();
    let now = touching(alloc, slots, note.low, &along, i, read)?;
    if is_same_list(note.touching.as_slice(), now.as_slice()) {
        Ok(Verdict::Same)
    } else {
        Ok(Verdict::Changed)
    }
}

// Whether two touching lists are the same.
fn is_same_list(a: &[(usize, u64)], b: &[(usize, u64)]) -> bool
    ensures { IsTrue result ↔ (a.now ≡ b.now) }
{
    if a.len() != b.len() {
        return false;
    }
    for at in 0..a.len() {
        if !is_same_pair(&a[at], &b[at]) {
            return false;
        }
    }
    true
}

fn is_same_pair(x: &(usize, u64), y: &(usize, u64)) -> bool
    ensures { IsTrue result ↔ (x.now ≡ y.now) }
{
    x.0 == y.0 && x.1 == y.1
}
