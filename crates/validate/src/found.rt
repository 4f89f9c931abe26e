//! What a read comes to at a request.
ghost use Rattle.std.specs.Prelude.{◌≡◌, ◌≤◌, length, IfOk};
ghost use Rattle.reads.specs.Reads.{says};
ghost use Rattle.version_overlay.specs.Settled.{changed_by};
ghost use Rattle.validate.specs.Kept.{shown, Holds, IsFound};
ghost use Rattle.validate.specs.Lower.{Leads};
ghost use Rattle.validate.specs.Below.{view_at};

use crate::below::{blocker, changes_before, part_before, touching};
use crate::candidates::candidates_for;
use crate::kept::Kept;
use datasets::{Id, Read};
use delta::Delta;
use incarnations::Noted;
use reads::{Answered, IndexedView, Scanned};
use std::alloc::{AllocError, Global};
use version_overlay::{LeanNote, is_long};

/// What is found of a read: an estimate that blocks it, or the note of its answer, with that
/// answer.
#[derive(Drop)]
pub enum Found<'a> {
    /// The greatest lower request that is an estimate and whose delta covers the read.
    Blocked(usize),
    /// The note, and its answer.
    Noted(Noted<'a>, Answered),
}

/// Finds what a read says at request `i`, from what it says of the base.
pub fn look<'a>(
    alloc: Global,
    base: &'a IndexedView,
    scanned: &Scanned<'_>,
    kept: &Kept<'_>,
    i: usize,
) -> Result<Found<'a>, AllocError>
    requires base { scanned.now.dataset ≡ base.now }
    requires holds { Holds kept.now }
    requires within { i ≤ length kept.now.slots.items }
    requires above { kept.now.low ≤ i }
    ensures { IfOk result (λ found. IsFound scanned.now.dataset kept.now.slots.items kept.now.low i
        scanned.now.read found) }
{
    let (low, read) = (kept.low, scanned.read());
    let list = candidates_for(alloc, kept, low, i, read)?;
    if let Some(j) = blocker(kept, low, &list, i, read) {
        return Ok(Found::Blocked(j));
    }
    let (note, answer) = note_of(alloc, base, scanned, kept, &list, i)?;
    let touching = touching(alloc, kept.slots.as_slice(), low, &list, i, read)?;
    let noted = Noted {
        note,
        low,
        touching,
    };
    Ok(Found::Noted(noted, answer))
}

// The note of what a read says at request `i`, and the answer. An answer that the base alone gives
// is found again there, and a long one by the changes that it has too.
fn note_of<'a>(
    alloc: Global,
    base: &'a IndexedView,
    scanned: &Scanned<'_>,
    kept: &Kept<'_>,
    list: &[usize],
    i: usize,
) -> Result<(LeanNote<'a>, Answered), AllocError>
    requires base { scanned.now.dataset ≡ base.now }
    requires holds { Holds kept.now }
    requires within { i ≤ length kept.now.slots.items }
    requires leads { Leads (shown kept.now.slots.items) scanned.now.read kept.now.low list.now i }
    ensures note { IfOk result (λ found. found.0 ≡ record {
      read = scanned.now.read;
      answer = says scanned.now.read
          (view_at scanned.now.dataset (shown kept.now.slots.items) i);
    }) }
    ensures answer { IfOk result (λ found. found.1 ≡ says scanned.now.read
        (view_at scanned.now.dataset (shown kept.now.slots.items) i)) }
{
    let read = scanned.read();
    let Some(part) = part_before(alloc, scanned, kept, list, i)? else {
        return lean_and_told(alloc, base, read, scanned.answer(alloc)?, Vec::new(alloc));
    };
    let answer = part.answer(alloc, read);
    drop(part);
    let answer = answer?;
    if !is_long(&answer) {
        return kept_and_told(alloc, base, read, answer);
    }
    let changes = changes_before(alloc, scanned, kept, list, i)?;
    lean_and_told(alloc, base, read, answer, changes)
}

// The note of an answer that is kept, and the answer.
fn kept_and_told<'a>(
    alloc: Global,
    base: &'a IndexedView,
    read: &Read<Id>,
    answer: Answered,
) -> Result<(LeanNote<'a>, Answered), AllocError>
    ensures note { IfOk result (λ found. found.0 ≡ record { read = read.now; answer = answer }) }
    ensures answer { IfOk result (λ found. found.1 ≡ answer) }
{
    let told = answer.copied(alloc)?;
    let note = LeanNote::kept(alloc, base, read, answer)?;
    Ok((note, told))
}

// The note of an answer that is found again by these changes, and the answer.
fn lean_and_told<'a>(
    alloc: Global,
    base: &'a IndexedView,
    read: &Read<Id>,
    answer: Answered,
    changes: Vec<Delta>,
) -> Result<(LeanNote<'a>, Answered), AllocError>
    requires { answer ≡ says read.now (changed_by changes.items base.now) }
    ensures note { IfOk result (λ found. found.0 ≡ record { read = read.now; answer = answer }) }
    ensures answer { IfOk result (λ found. found.1 ≡ answer) }
{
    let told = answer.copied(alloc)?;
    let note = LeanNote::lean(alloc, base, read, answer, changes)?;
    Ok((note, told))
}
