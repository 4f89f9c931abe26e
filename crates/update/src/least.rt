//! What a change really changes.
ghost use Rattle.std.specs.Prelude.{◌≡◌, Bool, IfOk};
ghost use Rattle.reads.specs.Reads.{View, Read as Reading, applied, IsDataset};
ghost use Rattle.reads.specs.Runs.{Agrees};
ghost use Rattle.asking.specs.Goes.{AreAllowed, Goes, stop_of};
ghost use Rattle.update.specs.Asked.{IsWithin};
ghost use Rattle.update.specs.Changed.{difference, IsNewOf};
ghost use Rattle.update.specs.Known.{or_told, reads_for_untold, Knows};

use crate::known::{Known, known_of};
use crate::lot::new_at_once;
use crate::presence::{AT_ONCE, names_that, quads_that};
use datasets::Id;
use delta::Delta;
use eval::names_outside;
use quad_sets::{QuadSet, QuadSlice};
use reads::{Note, Source, Stop};
use std::alloc::Global;

// What isn't so yet of a change, with these quads and names as those that are not to be there, in
// each dataset that agrees with the notes. What isn't known from them is asked for in turn: quads
// in lots, and each name alone.
fn new_in_turn<S: Source>(
    alloc: Global,
    known: &Known,
    changes: &Delta,
    others: &QuadSlice<'_>,
    other_names: &[Id],
    source: &mut S,
    notes: &mut Vec<Note>,
) -> Result<Delta, Stop>
    requires { (d : View) → Agrees notes.old.items d → Knows known.now d }
    ensures goes { (allowed : Reading → Bool)
        → AreAllowed allowed (reads_for_untold known.now
        (record changes.now { absent = others.now; gone = other_names.now }))
        → Goes S.asks allowed source.old source.new notes.old.items notes.new.items
        (stop_of result) }
    ensures told { IfOk result (λ change. (d : View) → Agrees notes.new.items d
        → IsNewOf change (record changes.now { absent = others.now; gone = other_names.now }) d) }
{
    let present = quads_that(alloc, known, false, &changes.present(), source, notes)?;
    let absent = quads_that(alloc, known, true, others, source, notes)?;
    let there = names_that(alloc, known, false, changes.there(), source, notes)?;
    let gone = names_that(alloc, known, true, other_names, source, notes)?;
    let change = Delta::from_parts(alloc, present, absent, there, gone)?;
    Ok(change)
}

// How many quads and names a change speaks of, with these as those that are not to be there.
fn count_of(changes: &Delta, others: &QuadSlice<'_>, other_names: &[Id]) -> usize {
    changes
        .present()
        .len()
        .saturating_add(others.len())
        .saturating_add(changes.there().len())
        .saturating_add(other_names.len())
}

/// What a change really changes, in each dataset that agrees with the notes: each quad that it
/// speaks of is asked for, unless the notes tell of it, and each graph name, unless they tell those
/// of all graphs. Where it speaks of little, all are asked for at once.
pub fn least_of<S: Source>(
    alloc: Global,
    changes: &Delta,
    source: &mut S,
    notes: &mut Vec<Note>,
) -> Result<Delta, Stop>
    ensures goes { (allowed : Reading → Bool)
        → IsWithin (or_told allowed notes.old.items) changes.now
        → Goes S.asks allowed source.old source.new notes.old.items notes.new.items
        (stop_of result) }
    ensures least { IfOk result (λ change. (d : View) → IsDataset d → Agrees notes.new.items d
        → change ≡ difference d (applied changes.now d)) }
{
    let kept = QuadSet::without(alloc, &changes.absent(), &changes.present())?;
    let others = kept.as_slice();
    let other_names = names_outside(alloc, changes.gone(), changes.there())?;
    let known = known_of(alloc, notes.as_slice())?;
    if count_of(changes, &others, &other_names) <= AT_ONCE {
        new_at_once(alloc, &known, changes, &others, &other_names, source, notes)
    } else {
        new_in_turn(alloc, &known, changes, &others, &other_names, source, notes)
    }
}
