//! Graph names through changes.
ghost use Rattle.std.specs.Prelude.{◌≡◌, ◌∷◌, [], Bool, true, List, Some, IfOk, OnOk};
ghost use Rattle.sets.specs.Sets.{has};
ghost use Rattle.datasets.specs.Id.{id_order};
ghost use Rattle.datasets.specs.declared.id.Id.{Id as Name};
ghost use Rattle.datasets.specs.declared.read.Read.TheVariants as reading;
ghost use Rattle.reads.specs.Reads.{View, Read as Reading, applied, told_is, told_names};
ghost use Rattle.reads.specs.Runs.{Agrees};
ghost use Rattle.asking.specs.Goes.{AreNoted, Goes, stop_of};

use crate::changes::{is_named_after, names_after};
use asking::ask;
use datasets::{Id, Read};
use delta::Delta;
use reads::{Answered, Note, Source, Stop};
use std::alloc::Global;

// Whether an answer tells that a name is there. An answer of another kind counts as no.
fn tells_name(answer: &Answered) -> bool
    ensures { (so : Bool) → told_is answer.now ≡ Some so → result ≡ so }
{
    match answer.is() {
        Some(so) => so,
        None => false,
    }
}

// The names of an answer. An answer of another kind counts as none.
fn names_of(answer: &Answered) -> &[Id]
    ensures { (names : List Name) → told_names answer.now ≡ Some names → result.now ≡ names }
{
    match answer.names() {
        Some(names) => names,
        None => &[],
    }
}

/// Whether there is a graph of this name, in each changed dataset that agrees with the notes. It
/// asks for the name and nothing else.
pub fn is_graph<S: Source>(
    alloc: Global,
    name: Id,
    changes: &Delta,
    source: &mut S,
    notes: &mut Vec<Note>,
) -> Result<bool, Stop>
    ensures goes { (allowed : Reading → Bool) → allowed (reading.GraphIs name) ≡ true
        → Goes S.asks allowed source.old source.new notes.old.items notes.new.items
        (stop_of result) }
    ensures seen { IfOk result (λ so. (d : View) → Agrees notes.new.items d
        → so ≡ has id_order (applied changes.now d).names name) }
{
    let answer = ask(alloc, Read::GraphIs(name), source, notes)?;
    let was_there = tells_name(&answer);
    Ok(is_named_after(changes, name, was_there))
}

/// The names of the graphs, in each changed dataset that agrees with the notes. It asks for the
/// names and nothing else, and notes them.
pub fn graphs<S: Source>(
    alloc: Global,
    changes: &Delta,
    source: &mut S,
    notes: &mut Vec<Note>,
) -> Result<Vec<Id>, Stop>
    ensures goes { (allowed : Reading → Bool) → allowed reading.Graphs ≡ true
        → Goes S.asks allowed source.old source.new notes.old.items notes.new.items
        (stop_of result) }
    ensures noted { OnOk result (AreNoted (reading.Graphs ∷ []) notes.old.items notes.new.items) }
    ensures seen { IfOk result (λ names. (d : View) → Agrees notes.new.items d
        → names.items ≡ (applied changes.now d).names) }
{
    let answer = ask(alloc, Read::Graphs, source, notes)?;
    let names = names_after(alloc, changes, names_of(&answer))?;
    Ok(names)
}
