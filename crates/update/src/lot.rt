//! What a change speaks of, asked for all at once.
ghost use Rattle.std.specs.Prelude.{◌≡◌, ◌++◌, ◌∷◌, Bool, List, IfOk, OnOk, filter};
ghost use Rattle.sets.specs.Sets.{has};
ghost use Rattle.datasets.specs.Id.{id_order};
ghost use Rattle.datasets.specs.declared.id.Id.{Id as Number};
ghost use Rattle.reads.specs.Reads.{View, Read as Reading};
ghost use Rattle.reads.specs.Runs.{Agrees};
ghost use Rattle.reads.specs.Same.{bool_eq};
ghost use Rattle.asking.specs.Goes.{AreAllowed, Goes, stop_of};
ghost use Rattle.update.specs.Changed.{IsNewOf};
ghost use Rattle.update.specs.Known.{questions_for_untold, reads_for_untold, Knows, Tell};

use crate::known::Known;
use crate::presence::{ask_any, has_name, push_if, push_scans, push_those};
use datasets::{Id, Quad, Read};
use delta::Delta;
use quad_sets::QuadSlice;
use reads::same::same_bool;
use reads::{Note, Source, Stop};
use std::alloc::{AllocError, Global};

// Puts the questions for names at the end of the reads, unless the names of all graphs are known.
fn push_questions(known: &Known, names: &[Id], reads: &mut Vec<Read<Id>>) -> Result<(), AllocError>
    ensures { OnOk result (reads.new.items
        ≡ reads.old.items ++ questions_for_untold known.now names.now) }
{
    if known.has_graphs() {
        return Ok(());
    }
    for name in names {
        reads.push(Read::GraphIs(*name))?;
    }
    Ok(())
}

// The reads for quads and names that are to be there, and for others that are not, where it isn't
// known whether they are there: of all the quads first.
fn reads_for(
    alloc: Global,
    known: &Known,
    present: &[Quad<Id>],
    absent: &[Quad<Id>],
    there: &[Id],
    gone: &[Id],
) -> Result<Vec<Read<Id>>, AllocError>
    ensures { IfOk result (λ reads. reads.items ≡ reads_for_untold known.now
        (record { present = present.now; absent = absent.now; there = there.now; gone = gone.now })) }
{
    let mut reads = Vec::with_capacity(alloc, present.len())?;
    push_scans(known, present, &mut reads)?;
    push_scans(known, absent, &mut reads)?;
    push_questions(known, there, &mut reads)?;
    push_questions(known, gone, &mut reads)?;
    Ok(reads)
}

// Whether the first of some names is there, and the notes that tell of the others.
fn named_first<'n>(known: &Known, name: &Id, notes: &'n [Note]) -> (bool, &'n [Note])
    ensures { (d : View) (names : List Number) (later : List Reading)
        → Tell known.now (questions_for_untold known.now (name.now ∷ names) ++ later) notes.now d
        → (result.0 ≡ has id_order d.names name.now)
        × Tell known.now (questions_for_untold known.now names ++ later) result.1.now d }
{
    if known.has_graphs() {
        return (known.is_graph(name), notes);
    }
    match notes {
        [first, others @ ..] => (has_name(&first.answer), others),
        [] => (false, notes),
    }
}

// Puts those of the names that are there, or those that are not, at the end of what was found, by
// notes of which the first tell of the names. Gives the notes that are left.
fn push_those_names<'n>(
    known: &Known,
    are_there: bool,
    names: &[Id],
    notes: &'n [Note],
    found: &mut Vec<Id>,
) -> Result<&'n [Note], AllocError>
    ensures { IfOk result (λ left. (d : View) (later : List Reading)
        → Tell known.now (questions_for_untold known.now names.now ++ later) notes.now d
        → (found.new.items ≡ found.old.items
        ++ filter (λ g. bool_eq are_there (has id_order d.names g)) names.now)
        × Tell known.now later left.now d) }
{
    let mut left = notes;
    for name in names {
        let (is_there, others) = named_first(known, name, left);
        push_if(found, same_bool(are_there, is_there), *name)?;
        left = others;
    }
    Ok(left)
}

// Of quads and names that are to be there those that are not there yet, and of others that are not
// to be there those that still are, by the notes of the reads for them.
fn new_of(
    alloc: Global,
    known: &Known,
    present: &[Quad<Id>],
    absent: &[Quad<Id>],
    there: &[Id],
    gone: &[Id],
    notes: &[Note],
) -> Result<Delta, AllocError>
    ensures { IfOk result (λ change. (d : View)
        → Tell known.now (reads_for_untold known.now
        (record { present = present.now; absent = absent.now; there = there.now; gone = gone.now }))
        notes.now d
        → IsNewOf change
        (record { present = present.now; absent = absent.now; there = there.now; gone = gone.now })
        d) }
{
    let (mut come, mut lost) = (Vec::with_capacity(alloc, present.len())?, Vec::new(alloc));
    let (mut named, mut unnamed) = (Vec::new(alloc), Vec::new(alloc));
    let left = push_those(known, false, present, notes, &mut come)?;
    let left = push_those(known, true, absent, left, &mut lost)?;
    let left = push_those_names(known, false, there, left, &mut named)?;
    let _none = push_those_names(known, true, gone, left, &mut unnamed)?;
    Delta::from_parts(alloc, come, lost, named, unnamed)
}

/// What isn't so yet of a change, with these quads and names as those that are not to be there, in
/// each dataset that agrees with the notes. All that isn't known from them is asked for at once.
pub fn new_at_once<S: Source>(
    alloc: Global,
    known: &Known,
    changes: &Delta,
    others: &QuadSlice<'_>,
    other_names: &[Id],
    source: &mut S,
    notes: &mut Vec<Note>,
) -> Result<Delta, Stop>
    requires { (d : View) → Agrees notes.old.items d → Knows known.now d }
    ensures goes { (allowed : Reading → Bool)
        → AreAllowed allowed (reads_for_untold known.now
        (record changes.now { absent = others.now; gone = other_names.now }))
        → Goes S.asks allowed source.old source.new notes.old.items notes.new.items
        (stop_of result) }
    ensures told { IfOk result (λ change. (d : View) → Agrees notes.new.items d
        → IsNewOf change (record changes.now { absent = others.now; gone = other_names.now }) d) }
{
    let present = changes.present().quads(alloc)?;
    let absent = others.quads(alloc)?;
    let there = changes.there();
    let reads = reads_for(alloc, known, &present, &absent, there, other_names)?;
    let before = notes.len();
    ask_any(&reads, source, notes)?;
    let told = &notes[before..];
    let change = new_of(alloc, known, &present, &absent, there, other_names, told)?;
    Ok(change)
}
