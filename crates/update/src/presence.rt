//! Whether quads and graph names are there.
ghost use Rattle.std.specs.Prelude.{◌≡◌, ◌++◌, ◌∷◌, [], Bool, true, false, List, if◌then◌else◌, IfOk, OnOk, filter};
ghost use Rattle.sets.specs.Sets.{has};
ghost use Rattle.datasets.specs.Id.{id_order};
ghost use Rattle.datasets.specs.declared.id.Id.{Id as Number};
ghost use Rattle.datasets.specs.declared.quad.Quad.{Quad as TheQuad};
ghost use Rattle.datasets.specs.Dataset.{quad_order};
ghost use Rattle.reads.specs.Reads.{View, Read as Reading};
ghost use Rattle.reads.specs.Runs.{Agrees};
ghost use Rattle.reads.specs.Same.{bool_eq};
ghost use Rattle.asking.specs.Goes.{AreAllowed, AreNoted, Goes, stop_of};
ghost use Rattle.update.specs.Asked.{has_quads as the_has_quads, has_name as the_has_name};
ghost use Rattle.update.specs.Known.{scans_for_untold as the_scans_for_untold, questions_for_untold, Knows, Tell};

use crate::known::Known;
use asking::{ask, ask_all};
use datasets::{Id, Quad, Read};
use quad_sets::QuadSlice;
use reads::presence::scan_for;
use reads::same::same_bool;
use reads::{Answered, Note, Source, Stop};
use std::alloc::{AllocError, Global};

/// How many quads and names are asked for at once. The reads of so many take little memory beside
/// the notes of all.
pub const AT_ONCE: usize = 256;

// Whether an answer tells of some quad.
fn has_quads(answer: &Answered) -> bool
    ensures { result ≡ the_has_quads answer.now }
{
    match answer.quads() {
        Some(quads) => !quads.is_empty(),
        None => false,
    }
}

/// Whether an answer tells that a name is there.
pub fn has_name(answer: &Answered) -> bool
    ensures { result ≡ the_has_name answer.now }
{
    match answer.is() {
        Some(so) => so,
        None => false,
    }
}

// Whether a graph name is there, in each dataset that agrees with the notes and with what is known.
// It is asked for only where it isn't known.
fn is_named<S: Source>(
    alloc: Global,
    known: &Known,
    name: Id,
    source: &mut S,
    notes: &mut Vec<Note>,
) -> Result<bool, Stop>
    ensures goes { (allowed : Reading → Bool)
        → AreAllowed allowed (questions_for_untold known.now (name ∷ []))
        → Goes S.asks allowed source.old source.new notes.old.items notes.new.items
        (stop_of result) }
    ensures told { IfOk result (λ so. (d : View) → Knows known.now d → Agrees notes.new.items d
        → so ≡ has id_order d.names name) }
{
    if known.has_graphs() {
        return Ok(known.is_graph(&name));
    }
    let answer = ask(alloc, Read::GraphIs(name), source, notes)?;
    Ok(has_name(&answer))
}

/// One more at the end, if it is so.
pub fn push_if<T: Copy>(found: &mut Vec<T>, so: bool, item: T) -> Result<(), AllocError>
    ensures { OnOk result (found.new.items ≡ found.old.items ++ (if so then item ∷ [] else [])) }
{
    if so {
        found.push(item)?;
    }
    Ok(())
}

/// Puts the scans for those of the quads of which it isn't known whether they are there at the end
/// of the reads.
pub fn push_scans(
    known: &Known,
    quads: &[Quad<Id>],
    reads: &mut Vec<Read<Id>>,
) -> Result<(), AllocError>
    ensures { OnOk result (reads.new.items
        ≡ reads.old.items ++ the_scans_for_untold known.now quads.now) }
{
    for quad in quads {
        push_if(reads, known.tells(quad).is_none(), scan_for(*quad))?;
    }
    Ok(())
}

/// Asks at once for the reads, if there are any: for none the source isn't called.
pub fn ask_any<S: Source>(
    reads: &[Read<Id>],
    source: &mut S,
    notes: &mut Vec<Note>,
) -> Result<(), Stop>
    ensures goes { (allowed : Reading → Bool) → AreAllowed allowed reads.now
        → Goes S.asks allowed source.old source.new notes.old.items notes.new.items
        (stop_of result) }
    ensures noted { OnOk result (AreNoted reads.now notes.old.items notes.new.items) }
{
    if reads.is_empty() {
        return Ok(());
    }
    ask_all(reads, source, notes)
}

// Asks at once for those of the quads of which it isn't known whether they are there.
fn ask_for_untold<S: Source>(
    alloc: Global,
    known: &Known,
    quads: &[Quad<Id>],
    source: &mut S,
    notes: &mut Vec<Note>,
) -> Result<(), Stop>
    ensures goes { (allowed : Reading → Bool)
        → AreAllowed allowed (the_scans_for_untold known.now quads.now)
        → Goes S.asks allowed source.old source.new notes.old.items notes.new.items
        (stop_of result) }
    ensures noted { OnOk result (AreNoted (the_scans_for_untold known.now quads.now) notes.old.items
        notes.new.items) }
{
    let mut reads = Vec::with_capacity(alloc, quads.len())?;
    push_scans(known, quads, &mut reads)?;
    ask_any(&reads, source, notes)
}

// Whether the first of some quads is there, and the notes that tell of the others.
fn told_first<'n>(known: &Known, quad: &Quad<Id>, notes: &'n [Note]) -> (bool, &'n [Note])
    ensures { (d : View) (quads : List (TheQuad Number)) (later : List Reading)
        → Tell known.now (the_scans_for_untold known.now (quad.now ∷ quads) ++ later) notes.now d
        → (result.0 ≡ has (quad_order id_order) d.quads quad.now)
        × Tell known.now (the_scans_for_untold known.now quads ++ later) result.1.now d }
{
    match known.tells(quad) {
        Some(so) => (so, notes),
        None => match notes {
            [first, others @ ..] => (has_quads(&first.answer), others),
            [] => (false, notes),
        },
    }
}

/// Puts those of the quads that are there, or those that are not, at the end of what was found, by
/// notes of which the first tell of the quads. Gives the notes that are left.
pub fn push_those<'n>(
    known: &Known,
    are_there: bool,
    quads: &[Quad<Id>],
    notes: &'n [Note],
    found: &mut Vec<Quad<Id>>,
) -> Result<&'n [Note], AllocError>
    ensures { IfOk result (λ left. (d : View) (later : List Reading)
        → Tell known.now (the_scans_for_untold known.now quads.now ++ later) notes.now d
        → (found.new.items ≡ found.old.items
        ++ filter (λ q. bool_eq are_there (has (quad_order id_order) d.quads q)) quads.now)
        × Tell known.now later left.now d) }
{
    let mut left = notes;
    for quad in quads {
        let (is_there, others) = told_first(known, quad, left);
        push_if(found, same_bool(are_there, is_there), *quad)?;
        left = others;
    }
    Ok(left)
}

/// Of the quads those that are there, or those that are not, in each dataset that agrees with the
/// notes. Each that isn't known from them is asked for, many at once.
pub fn quads_that<S: Source>(
    alloc: Global,
    known: &Known,
    are_there: bool,
    quads: &QuadSlice<'_>,
    source: &mut S,
    notes: &mut Vec<Note>,
) -> Result<Vec<Quad<Id>>, Stop>
    requires { (d : View) → Agrees notes.old.items d → Knows known.now d }
    ensures goes { (allowed : Reading → Bool)
        → AreAllowed allowed (the_scans_for_untold known.now quads.now)
        → Goes S.asks allowed source.old source.new notes.old.items notes.new.items
        (stop_of result) }
    ensures told { IfOk result (λ found. (d : View) → Agrees notes.new.items d
        → found.items ≡ filter (λ q. bool_eq are_there (has (quad_order id_order) d.quads q))
        quads.now) }
{
    let mut found = Vec::with_capacity(alloc, quads.len().min(AT_ONCE))?;
    let mut place = 0;
    while place < quads.len() {
        let past = quads.len().min(place.saturating_add(AT_ONCE));
        let part = quads.part(alloc, place, past)?;
        let lot = part.as_slice();
        let before = notes.len();
        ask_for_untold(alloc, known, lot, source, notes)?;
        let _none = push_those(known, are_there, lot, &notes[before..], &mut found)?;
        place = past;
    }
    Ok(found)
}

/// Of the graph names those that are there, or those that are not, in each dataset that agrees with
/// the notes. Each that isn't known from them is asked for.
pub fn names_that<S: Source>(
    alloc: Global,
    known: &Known,
    are_there: bool,
    names: &[Id],
    source: &mut S,
    notes: &mut Vec<Note>,
) -> Result<Vec<Id>, Stop>
    requires { (d : View) → Agrees notes.old.items d → Knows known.now d }
    ensures goes { (allowed : Reading → Bool)
        → AreAllowed allowed (questions_for_untold known.now names.now)
        → Goes S.asks allowed source.old source.new notes.old.items notes.new.items
        (stop_of result) }
    ensures told { IfOk result (λ found. (d : View) → Agrees notes.new.items d
        → found.items ≡ filter (λ g. bool_eq are_there (has id_order d.names g)) names.now) }
{
    let mut found = Vec::new(alloc);
    for name in names {
        let is_there = is_named(alloc, known, *name, source, notes)?;
        push_if(&mut found, same_bool(are_there, is_there), *name)?;
    }
    Ok(found)
}
