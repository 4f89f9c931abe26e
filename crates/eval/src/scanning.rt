//! Scans through changes.
ghost use Rattle.std.specs.Prelude.{◌≡◌, ◌++◌, ◌∷◌, [], Bool, true, List, Some, IfOk, OnOk, OnErr, filter};
ghost use Rattle.datasets.specs.Id.{id_order};
ghost use Rattle.datasets.specs.Dataset.{matches};
ghost use Rattle.datasets.specs.declared.id.Id.{Id};
ghost use Rattle.datasets.specs.declared.quad.Quad.{Quad as QuadOf};
ghost use Rattle.datasets.specs.declared.read.Read.TheVariants.{Scan};
ghost use Rattle.reads.specs.Reads.{View, Read as Reading, applied, told_quads};
ghost use Rattle.reads.specs.Runs.{Agrees};
ghost use Rattle.asking.specs.Goes.{AreNoted, Goes, stop_of};
ghost use Rattle.eval.specs.Changes.{seen_through};

use crate::changes::quads_after;
use asking::ask;
use datasets::{Id, QuadPattern, Read};
use delta::Delta;
use quad_lists::QuadList;
use quad_sets::QuadSet;
use reads::{Answered, Note, Source, Stop};
use std::alloc::{AllocError, Global};

/// The quads of a pattern after the changes, from an answer that was told before them. An answer of
/// another kind counts as no quads.
pub(crate) fn told_after(
    alloc: Global,
    changes: &Delta,
    pattern: &QuadPattern<Id>,
    answer: &Answered,
) -> Result<QuadSet, AllocError>
    ensures { IfOk result (λ found. (quads : List (QuadOf Id))
        → told_quads answer.now ≡ Some quads
        → found ≡ seen_through changes.now pattern.now quads) }
{
    match answer.quads() {
        Some(quads) => quads_after(alloc, changes, pattern, quads),
        None => quads_after(alloc, changes, pattern, &QuadList::new(alloc)),
    }
}

/// The quads of a pattern, in each changed dataset that agrees with the notes. It asks for the
/// pattern's quads and nothing else, and notes them.
pub fn scan<S: Source>(
    alloc: Global,
    pattern: &QuadPattern<Id>,
    changes: &Delta,
    source: &mut S,
    notes: &mut Vec<Note>,
) -> Result<QuadSet, Stop>
    ensures goes { (allowed : Reading → Bool) → allowed (Scan pattern.now) ≡ true
        → Goes S.asks allowed source.old source.new notes.old.items notes.new.items
        (stop_of result) }
    ensures noted { OnOk result (AreNoted (Scan pattern.now ∷ []) notes.old.items
        notes.new.items) }
    ensures seen { IfOk result (λ quads. (d : View) → Agrees notes.new.items d
        → quads ≡ filter (matches id_order pattern.now) (applied changes.now d).quads) }
{
    let answer = ask(alloc, Read::Scan(*pattern), source, notes)?;
    let quads = told_after(alloc, changes, pattern, &answer)?;
    Ok(quads)
}
