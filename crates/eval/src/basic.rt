//! The solutions of a basic graph pattern.
ghost use Rattle.std.specs.Prelude.{◌≡◌, ◌≤◌, ◌∷◌, ◌++◌, Bool, List, length, map, filter, IfOk, IfSome, OnOk};
ghost use Rattle.algebra.specs.Expressions.{expression_of};
ghost use Rattle.algebra.specs.declared.pattern.TriplePattern.{TriplePattern as ThePattern};
ghost use Rattle.datasets.specs.Dataset.{quads_in};
ghost use Rattle.datasets.specs.Id.{id_order};
ghost use Rattle.datasets.specs.declared.id.Id.{Id as Number};
ghost use Rattle.meaning.specs.Solutions.{solutions_among, basic_solutions, passes_all};
ghost use Rattle.reads.specs.Reads.{View, Read as Reading, applied};
ghost use Rattle.reads.specs.Runs.{Agrees};
ghost use Rattle.asking.specs.Goes.{AreNoted, Goes, stop_of};
ghost use Rattle.solution.specs.Limits.{up_to};
ghost use Rattle.eval.specs.Scans.{scan_of as the_scan_of, term_of as the_term_of, scans_of as the_scans_of, AskedPatterns, TellScans};

use crate::query::Query;
use crate::scanning::told_after;
use algebra::{Expression, Place, TriplePattern};
use asking::ask_all;
use datasets::{GraphPlace, Id, QuadPattern, Read};
use reads::{Note, Source, Stop};
use solution::{Filters, Solutions};
use std::alloc::{AllocError, Global};

// The term of a place, and nothing for a variable.
fn term_of(place: Place<Id>) -> Option<Id>
    ensures { result ≡ the_term_of place }
{
    match place {
        Place::Term(term) => Some(term),
        Place::Variable(_) => None,
    }
}

// The scan for the triples of a graph that may match a triple pattern.
fn scan_of(pattern: &TriplePattern<Id>, graph: Option<Id>) -> QuadPattern<Id>
    ensures { result ≡ the_scan_of pattern.now graph }
{
    QuadPattern {
        subject: term_of(pattern.subject),
        predicate: term_of(pattern.predicate),
        object: term_of(pattern.object),
        graph: GraphPlace::Only(graph),
    }
}

// The scans for triple patterns in a graph.
fn scans_of(
    alloc: Global,
    patterns: &[TriplePattern<Id>],
    graph: Option<Id>,
) -> Result<Vec<Read<Id>>, AllocError>
    ensures { IfOk result (λ scans. scans.items ≡ the_scans_of patterns.now graph) }
{
    let mut scans = Vec::with_capacity(alloc, patterns.len())?;
    for pattern in patterns {
        scans.push(Read::Scan(scan_of(pattern, graph)))?;
    }
    Ok(scans)
}

// Asks at once for the scans for triple patterns in a graph, and for nothing where there are none.
fn ask_for<S: Source>(
    alloc: Global,
    patterns: &[TriplePattern<Id>],
    graph: Option<Id>,
    source: &mut S,
    notes: &mut Vec<Note>,
) -> Result<(), Stop>
    ensures goes { (allowed : Reading → Bool) → AskedPatterns allowed graph patterns.now
        → Goes S.asks allowed source.old source.new notes.old.items notes.new.items
        (stop_of result) }
    ensures noted { OnOk result (AreNoted (the_scans_of patterns.now graph) notes.old.items
        notes.new.items) }
{
    if patterns.is_empty() {
        return Ok(());
    }
    let scans = scans_of(alloc, patterns, graph)?;
    ask_all(&scans, source, notes)
}

// The solutions of a triple pattern, from the first of some notes, and the other notes.
fn told_first<'n, F>(
    query: &Query<'_, F>,
    pattern: &TriplePattern<Id>,
    graph: Option<Id>,
    notes: &'n [Note],
) -> Result<(Solutions, &'n [Note]), AllocError>
    ensures { IfOk result (λ both. (d : View) (later : List (ThePattern Number))
        → TellScans (pattern.now ∷ later) graph notes.now d
        → (both.0 ≡ solutions_among id_order query.now.width pattern.now
        (quads_in id_order graph (applied query.now.changes.now d).quads))
        × TellScans later graph both.1.now d) }
{
    let [first, others @ ..] = notes else {
        return Ok((Solutions::none(query.alloc), notes));
    };
    let wanted = scan_of(pattern, graph);
    let quads = told_after(query.alloc, query.changes, &wanted, &first.answer)?;
    let found = Solutions::among(query.alloc, query.width, pattern, &quads.as_slice())?;
    Ok((found, others))
}

// The solutions of triple patterns, joined in order, from the first of some notes, and the other
// notes.
fn told_joined<'n, F>(
    query: &Query<'_, F>,
    patterns: &[TriplePattern<Id>],
    graph: Option<Id>,
    notes: &'n [Note],
) -> Result<(Solutions, &'n [Note]), AllocError>
    ensures { IfOk result (λ both. (d : View) (later : List (ThePattern Number))
        → TellScans (patterns.now ++ later) graph notes.now d
        → (both.0 ≡ basic_solutions id_order query.now.width patterns.now
        (quads_in id_order graph (applied query.now.changes.now d).quads))
        × TellScans later graph both.1.now d) }
{
    let mut found = Solutions::empty_mapping(query.alloc, query.width)?;
    let mut left = notes;
    for pattern in patterns {
        let (next, others) = told_first(query, pattern, graph, left)?;
        found = found.join(query.alloc, next)?;
        left = others;
    }
    Ok((found, left))
}

/// The solutions of a basic graph pattern in a graph of each changed dataset that agrees with the
/// notes. Each triple pattern is asked for by one scan, in order, and all at once.
pub fn solve_basic<S: Source, F>(
    query: &Query<'_, F>,
    patterns: &[TriplePattern<Id>],
    graph: Option<Id>,
    source: &mut S,
    notes: &mut Vec<Note>,
) -> Result<Solutions, Stop>
    ensures goes { (allowed : Reading → Bool) → AskedPatterns allowed graph patterns.now
        → Goes S.asks allowed source.old source.new notes.old.items notes.new.items
        (stop_of result) }
    ensures solved { IfOk result (λ found. (d : View) → Agrees notes.new.items d
        → found ≡ basic_solutions id_order query.now.width patterns.now
        (quads_in id_order graph (applied query.now.changes.now d).quads)) }
{
    let before = notes.len();
    ask_for(query.alloc, patterns, graph, source, notes)?;
    let (found, _) = told_joined(query, patterns, graph, &notes[before..])?;
    Ok(found)
}

/// The solutions of a basic graph pattern that pass each filter, unless there are more than the
/// limit. Its last join ends as soon as there are.
#[tactic(auto, using(crate::proofs::Few::few_of))]
pub fn solve_basic_up_to<S: Source, F: Filters>(
    query: &Query<'_, F>,
    patterns: &[TriplePattern<Id>],
    filters: &[Expression<Id>],
    graph: Option<Id>,
    limit: usize,
    source: &mut S,
    notes: &mut Vec<Note>,
) -> Result<Option<Solutions>, Stop>
    ensures goes { (allowed : Reading → Bool) → AskedPatterns allowed graph patterns.now
        → Goes S.asks allowed source.old source.new notes.old.items notes.new.items
        (stop_of result) }
    ensures solved { IfOk result (λ found. (d : View) → Agrees notes.new.items d
        → found ≡ up_to limit (filter (passes_all (F.passes query.now.filters.now)
        (map expression_of filters.now))
        (basic_solutions id_order query.now.width patterns.now
        (quads_in id_order graph (applied query.now.changes.now d).quads)))) }
    ensures few { IfOk result (λ found. IfSome found (λ few. length few ≤ limit)) }
{
    let [first @ .., last] = patterns else {
        let empty = Solutions::empty_mapping(query.alloc, query.width)?;
        let kept = empty.filter(query.alloc, filters, query.filters)?;
        return Ok(kept.up_to(limit));
    };
    let before = notes.len();
    ask_for(query.alloc, patterns, graph, source, notes)?;
    let (joined, left) = told_joined(query, first, graph, &notes[before..])?;
    let (next, _) = told_first(query, last, graph, left)?;
    let found = joined.join_up_to(query.alloc, next, filters, query.filters, limit)?;
    Ok(found)
}
