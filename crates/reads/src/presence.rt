//! The question whether one quad is there.
ghost use Rattle.std.specs.Prelude.{◌≡◌, ◌∷◌, [], IsTrue, IfOk, IfSome};
ghost use Rattle.quad_lists.specs.Known.{quad_of};
ghost use Rattle.reads.specs.Presence.{scan_for as the_scan_for, presence};

use crate::answered::{Answered, KeptAnswer};
use datasets::{GraphPlace, Id, Quad, QuadPattern, Read};
use quad_lists::{KnownQuad, QuadList};
use std::alloc::{AllocError, Global};

/// The scan for one quad.
pub fn scan_for(quad: Quad<Id>) -> Read<Id>
    ensures { result ≡ the_scan_for quad }
{
    Read::Scan(QuadPattern {
        subject: Some(quad.subject),
        predicate: Some(quad.predicate),
        object: Some(quad.object),
        graph: GraphPlace::Only(quad.graph),
    })
}

/// The quad that a read asks for alone, if it asks for one, of known terms.
pub fn quad_scanned(read: &Read<Id>) -> Option<KnownQuad>
    ensures { IfSome result (λ known. the_scan_for (quad_of known) ≡ read.now) }
{
    match read {
        Read::Scan(pattern) => quad_of_pattern(pattern),
        _ => None,
    }
}

fn quad_of_pattern(pattern: &QuadPattern<Id>) -> Option<KnownQuad>
    ensures { IfSome result (λ known. the_scan_for (quad_of known) ≡ Read.Scan pattern.now) }
{
    match pattern.graph {
        GraphPlace::Only(graph) => KnownQuad::from_quad(&Quad {
            subject: pattern.subject?,
            predicate: pattern.predicate?,
            object: pattern.object?,
            graph,
        }),
        GraphPlace::Any => None,
    }
}

/// The answer to the scan for a quad: itself, where it is there, or nothing.
pub fn presence_answer(
    alloc: Global,
    known: &KnownQuad,
    there: bool,
) -> Result<Answered, AllocError>
    ensures { IfOk result (λ answer. answer ≡ presence (quad_of known.now) there) }
{
    let mut quads = Vec::new(alloc);
    if there {
        quads.push(*known)?;
    }
    Answered::new(alloc, KeptAnswer::Quads(QuadList::of_known(quads)))
}

// Whether a list is this quad alone.
fn is_alone(quads: &QuadList, quad: &Quad<Id>) -> bool
    ensures { IsTrue result → quads.now ≡ quad.now ∷ [] }
{
    if quads.len() != 1 {
        return false;
    }
    quads.get(0).cmp(quad).is_eq()
}

/// Whether the quad is there by an answer to the scan for it, if it is such an answer.
#[tactic(auto, using(crate::proofs::Alone::told_alone))]
pub fn is_present(known: &KnownQuad, answer: &Answered) -> Option<bool>
    ensures { IfSome result (λ there. presence (quad_of known.now) there ≡ answer.now) }
{
    let quads = answer.quads()?;
    if quads.is_empty() {
        return Some(false);
    }
    if is_alone(quads, &known.to_quad()) {
        Some(true)
    } else {
        None
    }
}
