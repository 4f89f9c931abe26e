//! What an answer counts as.
ghost use Rattle.std.specs.Prelude.{◌≡◌, ◌↔◌, Bool, IsTrue, IfOk, filter, unwrap_or, []};
ghost use Rattle.std.specs.List.{list_all};
ghost use Rattle.datasets.specs.Id.{id_order};
ghost use Rattle.dict.specs.Dictionary.{is_known as the_is_known};
ghost use Rattle.meaning_laws.specs.Renaming.{quad_known};
ghost use Rattle.quad_lists.specs.Known.{quad_of};
ghost use Rattle.quad_lists.specs.Part.{quads_of_part};
ghost use Rattle.reads.specs.Reads.{told_quads, told_names};
ghost use Rattle.recount.specs.Counted.{counts as the_counts, counted as the_counted, counted_note, counted_notes};

use datasets::{Id, Quad, QuadPattern, Read};
use dict::Dict;
use quad_lists::matching::matches;
use quad_lists::{KnownQuad, Part, QuadList};
use radix::is_set;
use reads::lists::copied_names;
use reads::{Answered, KeptAnswer, Note};
use sets::set_of;
use std::alloc::{AllocError, Global};

// Whether the dictionary has the term of this number, or a request made it.
fn is_known(dict: &Dict, id: Id) -> bool
    ensures { result ≡ the_is_known dict.now id }
{
    match id {
        Id::Known(place) => (place as usize) < dict.len(),
        Id::Made { .. } => true,
    }
}

// Whether all terms of a quad are known.
fn is_known_quad(dict: &Dict, quad: &Quad<Id>) -> bool
    ensures { result ≡ quad_known (the_is_known dict.now) quad.now }
{
    is_known(dict, quad.subject)
        && is_known(dict, quad.predicate)
        && is_known(dict, quad.object)
        && match quad.graph {
            Some(graph) => is_known(dict, graph),
            None => true,
        }
}

// Whether a quad counts in the answer to a scan.
fn counts(dict: &Dict, pattern: &QuadPattern<Id>, quad: &Quad<Id>) -> bool
    ensures { result ≡ the_counts (the_is_known dict.now) pattern.now quad.now }
{
    matches(pattern, quad) && is_known_quad(dict, quad)
}

// Whether all quads of known terms count.
fn all_known_count(dict: &Dict, pattern: &QuadPattern<Id>, known: &[KnownQuad]) -> bool
    ensures { result ≡ list_all
        (λ entry. the_counts (the_is_known dict.now) pattern.now (quad_of entry)) known.now }
{
    known
        .iter()
        .all(|entry| counts(dict, pattern, &entry.to_quad()))
}

// Whether all quads count.
fn all_count(dict: &Dict, pattern: &QuadPattern<Id>, quads: &Part<'_>) -> bool
    ensures { result ≡ list_all (the_counts (the_is_known dict.now) pattern.now)
        (quads_of_part quads.now) }
{
    match quads {
        Part::Narrow(known) => all_known_count(dict, pattern, known),
        Part::Wide(quads) => quads.iter().all(|quad| counts(dict, pattern, quad)),
    }
}

// Whether all names are known.
fn are_known(dict: &Dict, names: &[Id]) -> bool
    ensures { result ≡ list_all (the_is_known dict.now) names.now }
{
    names.iter().all(|name| is_known(dict, *name))
}

// Whether an answer counts as it came.
fn is_honest(dict: &Dict, note: &Note) -> bool
    ensures { IsTrue result ↔ (counted_note (the_is_known dict.now) note.now ≡ note.now) }
{
    match &note.read {
        Read::Scan(pattern) => match note.answer.quads() {
            Some(quads) => quads.is_set() && all_count(dict, pattern, &quads.lent()),
            None => false,
        },
        Read::GraphIs(_) => note.answer.is().is_some(),
        Read::Graphs => match note.answer.names() {
            Some(names) => is_set(names) && are_known(dict, names),
            None => false,
        },
    }
}

/// Whether the answers of all notes count as they came.
pub fn are_honest(dict: &Dict, notes: &[Note]) -> bool
    ensures { IsTrue result ↔ (counted_notes (the_is_known dict.now) notes.now ≡ notes.now) }
{
    for note in notes {
        if !is_honest(dict, note) {
            return false;
        }
    }
    true
}

// The quads of an answer: none, if it is of another kind.
fn quads_of(alloc: Global, answer: &Answered) -> Result<Vec<Quad<Id>>, AllocError>
    ensures { IfOk result (λ quads. quads.items ≡ unwrap_or (told_quads answer.now) []) }
{
    match answer.quads() {
        Some(quads) => quads.quads(alloc),
        None => Ok(Vec::new(alloc)),
    }
}

// The names of an answer: none, if it is of another kind.
fn names_of(alloc: Global, answer: &Answered) -> Result<Vec<Id>, AllocError>
    ensures { IfOk result (λ names. names.items ≡ unwrap_or (told_names answer.now) []) }
{
    match answer.names() {
        Some(names) => copied_names(alloc, names),
        None => Ok(Vec::new(alloc)),
    }
}

// Those of the quads that count.
fn those_that_count(
    dict: &Dict,
    pattern: &QuadPattern<Id>,
    mut quads: Vec<Quad<Id>>,
) -> Vec<Quad<Id>>
    ensures { result.items
        ≡ filter (the_counts (the_is_known dict.now) pattern.now) quads.items }
{
    quads.retain(|quad| counts(dict, pattern, quad));
    quads
}

// Those of the names that are known.
fn those_known(dict: &Dict, mut names: Vec<Id>) -> Vec<Id>
    ensures { result.items ≡ filter (the_is_known dict.now) names.items }
{
    names.retain(|name| is_known(dict, *name));
    names
}

/// What an answer to a read counts as. An error comes only where memory runs out.
pub fn counted(
    alloc: Global,
    dict: &Dict,
    read: &Read<Id>,
    answer: &Answered,
) -> Result<Answered, AllocError>
    ensures { IfOk result (λ it. it ≡ the_counted (the_is_known dict.now) read.now answer.now) }
{
    match read {
        Read::Scan(pattern) => {
            let quads = those_that_count(dict, pattern, quads_of(alloc, answer)?);
            Answered::new(alloc, KeptAnswer::Quads(QuadList::of_wide(set_of(quads))))
        }
        Read::GraphIs(_) => Answered::new(alloc, KeptAnswer::Is(answer.is().unwrap_or(false))),
        Read::Graphs => {
            let names = those_known(dict, names_of(alloc, answer)?);
            Answered::new(alloc, KeptAnswer::Names(set_of(names)))
        }
    }
}
