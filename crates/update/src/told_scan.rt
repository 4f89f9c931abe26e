//! What the answer to one scan tells of each quad that its pattern lets through.
ghost use Rattle.std.specs.Prelude.{◌≡◌, ◌≤◌, ◌||◌, false, length, drop, option_to_list, IsTrue, IfOk, IfSome, OnOk};
ghost use Rattle.std.specs.List.{list_any};
ghost use Rattle.std.specs.List.Sorted.{IsStrictlySortedBy};
ghost use Rattle.datasets.specs.Id.{id_order};
ghost use Rattle.datasets.specs.Dataset.{quad_order, matches, free_or, in_place};
ghost use Rattle.datasets.specs.declared.id.Id.{Id as Number};
ghost use Rattle.datasets.specs.declared.quad.Quad.{Quad as TheQuad};
ghost use Rattle.sets.specs.Sets.{has};
ghost use Rattle.asking.specs.Near.{is_free};
ghost use Rattle.reads.specs.Reads.{View, says};
ghost use Rattle.reads.specs.Runs.{Agrees};
ghost use Rattle.update.specs.Told.{quads_in as the_quads_in, told_by, first_told as the_first_told, is_of_all, IsTold, AreTold};
ghost use Rattle.update.specs.Known.{is_free_scan, has_free_scan};

use datasets::{GraphPlace, Id, Quad, QuadPattern, Read};
use quad_sets::QuadSlice;
use reads::{Answered, KeptAnswer, Note};
use std::alloc::{AllocError, Global};
use std::marker::Model;

/// A scan and its answer, which is shared and not copied where its quads rise, as they do unless a
/// source lies. Else it is a copy whose quads do.
#[derive(Drop)]
pub struct ToldScan {
    pattern: QuadPattern<Id>,
    answer: Answered,
}

impl Model for ToldScan {
    ghost use Rattle.std.specs.List.Sorted.{IsStrictlySortedBy};
    ghost use Rattle.datasets.specs.Id.{id_order};
    ghost use Rattle.datasets.specs.Dataset.{quad_order};
    ghost use Rattle.update.specs.Told.{quads_in, ToldScan as TheToldScan};

    ghost Value = { TheToldScan };

    ghost view = { λ s. record { pattern = s.pattern; quads = quads_in s.answer } };

    ghost invariant = { λ s. IsStrictlySortedBy (quad_order id_order) (quads_in s.answer) };
}

fn is_free_or(place: Option<Id>, term: Id) -> bool
    ensures { result ≡ free_or id_order place term }
{
    match place {
        None => true,
        Some(wanted) => term == wanted,
    }
}

fn is_in_place(place: GraphPlace<Id>, graph: Option<Id>) -> bool
    ensures { result ≡ in_place id_order place graph }
{
    match place {
        GraphPlace::Any => true,
        GraphPlace::Only(wanted) => graph == wanted,
    }
}

// Whether a pattern lets a quad through.
fn lets_through(pattern: &QuadPattern<Id>, quad: &Quad<Id>) -> bool
    ensures { result ≡ matches id_order pattern.now quad.now }
{
    is_free_or(pattern.subject, quad.subject)
        && is_free_or(pattern.predicate, quad.predicate)
        && is_free_or(pattern.object, quad.object)
        && is_in_place(pattern.graph, quad.graph)
}

// An answer that tells the same quads, as a set: itself, unless a source lies. An answer of another
// kind tells none.
fn told_as_set(alloc: Global, answer: &Answered) -> Result<Answered, AllocError>
    ensures set { IfOk result (λ told. IsStrictlySortedBy (quad_order id_order)
        (the_quads_in told)) }
    ensures same { IfOk result (λ told. (quad : TheQuad Number)
        → has (quad_order id_order) (the_quads_in told) quad
        ≡ has (quad_order id_order) (the_quads_in answer.now) quad) }
{
    match answer.quads() {
        Some(quads) => {
            if quads.is_set() {
                return answer.copied(alloc);
            }
            let copy = quads.copied(alloc)?;
            Answered::new(alloc, KeptAnswer::Quads(copy.into_set()))
        }
        None => answer.copied(alloc),
    }
}

// Whether a quad is one of those that an answer tells.
fn is_told_there(answer: &Answered, quad: &Quad<Id>) -> bool
    requires { IsStrictlySortedBy (quad_order id_order) (the_quads_in answer.now) }
    ensures { result ≡ has (quad_order id_order) (the_quads_in answer.now) quad.now }
{
    match answer.quads() {
        Some(quads) => QuadSlice::of_set(quads).contains(quad),
        None => false,
    }
}

// Whether a pattern lets one quad through at most.
fn is_of_one(pattern: &QuadPattern<Id>) -> bool
    ensures { IsTrue result → is_free pattern.now ≡ false }
{
    pattern.subject.is_some()
        && pattern.predicate.is_some()
        && pattern.object.is_some()
        && matches!(pattern.graph, GraphPlace::Only(_))
}

// The scan that a note tells of. One for a single quad is left out.
fn told_scan(alloc: Global, note: &Note) -> Result<Option<ToldScan>, AllocError>
    ensures told { IfOk result (λ told. IfSome told
        (λ scan. (d : View) → note.now.answer ≡ says note.now.read d → IsTold d scan)) }
    ensures free { IfOk result (λ told.
        list_any is_of_all (option_to_list told) ≡ is_free_scan note.now.read) }
{
    let Read::Scan(pattern) = &note.read else {
        return Ok(None);
    };
    if is_of_one(pattern) {
        return Ok(None);
    }
    let answer = told_as_set(alloc, &note.answer)?;
    Ok(Some(ToldScan {
        pattern: *pattern,
        answer,
    }))
}

// One more at the end, if the note tells of one.
fn push_told(alloc: Global, scans: &mut Vec<ToldScan>, note: &Note) -> Result<(), AllocError>
    ensures told { OnOk result ((d : View) → note.now.answer ≡ says note.now.read d
        → AreTold d scans.old.items → AreTold d scans.new.items) }
    ensures free { OnOk result (list_any is_of_all scans.new.items
        ≡ (list_any is_of_all scans.old.items || is_free_scan note.now.read)) }
{
    if let Some(scan) = told_scan(alloc, note)? {
        scans.push(scan)?;
    }
    Ok(())
}

/// So many scans are kept. To test a quad by a pattern takes a few nanoseconds, to ask for it some
/// microseconds, so all the tests that may be in vain are still much less than a question.
const MOST_SCANS: usize = 64;

/// The first scans that the notes tell of, and the place of the first note that was not looked at.
/// A scan of all quads is one of these, or of the notes from there on.
pub fn first_scans(alloc: Global, notes: &[Note]) -> Result<(Vec<ToldScan>, usize), AllocError>
    ensures told { IfOk result (λ first. (d : View) → Agrees notes.now d
        → AreTold d first.0.items) }
    ensures free { IfOk result (λ first.
        (list_any is_of_all first.0.items || has_free_scan (drop first.1 notes.now))
        ≡ has_free_scan notes.now) }
    ensures place { IfOk result (λ first. first.1 ≤ length notes.now) }
{
    let mut scans = Vec::new(alloc);
    for i in 0..notes.len() {
        if scans.len() == MOST_SCANS {
            return Ok((scans, i));
        }
        push_told(alloc, &mut scans, &notes[i])?;
    }
    Ok((scans, notes.len()))
}

impl ToldScan {
    // Whether the quad is there, where the pattern lets it through.
    fn tells(&self, quad: &Quad<Id>) -> Option<bool>
        ensures { result ≡ told_by self.now quad.now }
    {
        if lets_through(&self.pattern, quad) {
            Some(is_told_there(&self.answer, quad))
        } else {
            None
        }
    }
}

/// Whether the quad is there, as the first of the scans tells that lets it through.
pub fn first_told(scans: &[ToldScan], quad: &Quad<Id>) -> Option<bool>
    ensures { result ≡ the_first_told scans.now quad.now }
{
    for scan in scans {
        if let Some(so) = scan.tells(quad) {
            return Some(so);
        }
    }
    None
}
