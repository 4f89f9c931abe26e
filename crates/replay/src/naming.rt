//! Reads at numbers, with their terms.
ghost use Rattle.std.specs.Prelude.{◌≡◌, IfOk};
ghost use Rattle.std.specs.Option.{option_map};
ghost use Rattle.dict.specs.Dictionary.{term_of};
ghost use Rattle.replay.specs.Lines.{renamed_place, renamed_pattern, renamed_read};

use datasets::{GraphPlace, Id, QuadPattern, Read};
use dict::Dict;
use std::alloc::{AllocError, Global};
use terms::Term;

// The term of a number. One that the dictionary lacks stands for no term, and gives the made node
// of zeros.
fn name(alloc: Global, terms: &Dict, id: Id) -> Result<Term, AllocError>
    ensures { IfOk result (λ term. term ≡ term_of terms.now id) }
{
    match id {
        Id::Known(place) => match terms.terms().get(place as usize) {
            Some(term) => term.copied(alloc),
            None => Ok(made(0, 0, 0, 0)),
        },
        Id::Made {
            request,
            op,
            label,
            rank,
        } => Ok(made(request, op, label, rank)),
    }
}

fn made(request: u32, op: u32, label: u32, rank: u32) -> Term
    ensures { result ≡ Term.Made request op label rank }
{
    Term::Made {
        request,
        op,
        label,
        rank,
    }
}

fn name_optional(alloc: Global, terms: &Dict, id: Option<Id>) -> Result<Option<Term>, AllocError>
    ensures { IfOk result (λ term. term ≡ option_map (term_of terms.now) id) }
{
    match id {
        Some(id) => Ok(Some(name(alloc, terms, id)?)),
        None => Ok(None),
    }
}

fn name_place(
    alloc: Global,
    terms: &Dict,
    place: GraphPlace<Id>,
) -> Result<GraphPlace<Term>, AllocError>
    ensures { IfOk result (λ named. named ≡ renamed_place (term_of terms.now) place) }
{
    match place {
        GraphPlace::Any => Ok(GraphPlace::Any),
        GraphPlace::Only(graph) => Ok(GraphPlace::Only(name_optional(alloc, terms, graph)?)),
    }
}

fn name_pattern(
    alloc: Global,
    terms: &Dict,
    pattern: &QuadPattern<Id>,
) -> Result<QuadPattern<Term>, AllocError>
    ensures { IfOk result (λ named. named ≡ renamed_pattern (term_of terms.now) pattern.now) }
{
    let subject = name_optional(alloc, terms, pattern.subject)?;
    let predicate = name_optional(alloc, terms, pattern.predicate)?;
    let object = name_optional(alloc, terms, pattern.object)?;
    let graph = name_place(alloc, terms, pattern.graph)?;
    Ok(QuadPattern {
        subject,
        predicate,
        object,
        graph,
    })
}

/// A read with the terms of its numbers.
pub fn name_read(alloc: Global, terms: &Dict, read: &Read<Id>) -> Result<Read<Term>, AllocError>
    ensures { IfOk result (λ named. named ≡ renamed_read (term_of terms.now) read.now) }
{
    match read {
        Read::Scan(pattern) => Ok(Read::Scan(name_pattern(alloc, terms, pattern)?)),
        Read::GraphIs(graph) => Ok(Read::GraphIs(name(alloc, terms, *graph)?)),
        Read::Graphs => Ok(Read::Graphs),
    }
}
