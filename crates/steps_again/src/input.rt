//! The base, the block and the events.
ghost use Rattle.std.specs.Prelude.{◌≡◌, ◌<◌, Some, IfOk, IfSome, slice_get};
ghost use Rattle.update.specs.Asked.{IsShort};
ghost use Rattle.steps_again.specs.Runs.{KnowsAll};

use block_machine::Event;
use datasets::{Id, Quad};
use iris::Iri;
use meaning::Request;
use numbering::{Numbered, number};
use rules::split;
use std::alloc::{AllocError, Global};
use terms::{DataSet, Term};

// The IRIs of the base's quads.
const BASE: [[&str; 3]; 2] = [["x:a", "x:p", "x:b"], ["x:a", "x:p", "x:c"]];

// The second request reads what the first changes, and the third what the second puts in.
const BLOCK: &str = "\
    DELETE DATA { <x:a> <x:p> <x:b> } ; INSERT DATA { <x:d> <x:p> <x:b> }\n----\n\
    INSERT { ?y <x:q> ?x } WHERE { ?x <x:p> ?y }\n----\n\
    INSERT { GRAPH <x:g> { ?x <x:r> _:node } } WHERE { ?x <x:q> ?y }";

/// Who does what. To publish stands for a whole run of the request: its reads, and the publication if
/// it comes to its end. The second request runs before the first, and is aborted. What it has put in
/// blocks the third. Then they run in order.
pub const STEPS: [(u32, Event); 33] = [
    (1, Event::Take(1)),
    (1, Event::Publish(1, 0, None)),
    (0, Event::Take(0)),
    (1, Event::Begin(1, 0)),
    (0, Event::Publish(0, 0, None)),
    (1, Event::Check(1, 0)),
    (0, Event::Take(2)),
    (0, Event::Publish(2, 0, None)),
    (1, Event::GiveUp(2, 0)),
    (0, Event::GiveUp(2, 0)),
    (0, Event::Begin(0, 0)),
    (1, Event::Check(0, 0)),
    (0, Event::Check(0, 0)),
    (0, Event::Check(0, 0)),
    (0, Event::Commit(0)),
    (1, Event::Commit(0)),
    (0, Event::Take(1)),
    (0, Event::Publish(1, 0, None)),
    (0, Event::Publish(1, 1, None)),
    (1, Event::Begin(1, 1)),
    (0, Event::Check(1, 1)),
    (1, Event::Check(1, 1)),
    (0, Event::Check(1, 1)),
    (1, Event::Take(2)),
    (1, Event::Publish(2, 1, None)),
    (1, Event::Begin(2, 1)),
    (0, Event::Check(2, 1)),
    (1, Event::Check(2, 1)),
    (0, Event::Check(2, 1)),
    (1, Event::Check(2, 1)),
    (1, Event::Commit(2)),
    (1, Event::Commit(1)),
    (0, Event::Commit(2)),
];

// The term of an IRI.
fn iri(alloc: Global, text: &str) -> Result<Term, AllocError> {
    match Iri::check(alloc, text)? {
        Some(iri) => Ok(Term::Iri(iri)),
        None => Err(AllocError),
    }
}

// Puts a quad of these IRIs into the default graph.
fn add(alloc: Global, dataset: &mut DataSet, quad: &[&str; 3]) -> Result<(), AllocError> {
    let [subject, predicate, object] = quad;
    let quad = Quad {
        subject: iri(alloc, subject)?,
        predicate: iri(alloc, predicate)?,
        object: iri(alloc, object)?,
        graph: None,
    };
    dataset.add(quad)
}

// The base.
fn base(alloc: Global) -> Result<DataSet, AllocError> {
    let mut dataset = DataSet::new(alloc);
    for quad in &BASE {
        add(alloc, &mut dataset, quad)?;
    }
    Ok(dataset)
}

/// The base and the block at numbers of terms.
pub fn numbered(alloc: Global) -> Result<Numbered, AllocError>
    ensures { IfOk result (λ n. KnowsAll n) }
{
    let base = base(alloc)?;
    match split(alloc, BLOCK.as_bytes()) {
        Ok(block) => number(alloc, base, block),
        Err(_) => Err(AllocError),
    }
}

/// The request at one of the first thousand places, which has few operations.
pub fn request_at(block: &[Request<Id>], place: usize) -> Option<&Request<Id>>
    ensures is { IfSome result (λ request. slice_get block.now place ≡ Some request.now) }
    ensures low { IfSome result (λ request. place < 1000) }
    ensures short { IfSome result (λ request. IsShort request.now) }
{
    let request = block.get(place)?;
    let is_short = match request {
        Ok(operations) => operations.len() < 1000,
        Err(_) => true,
    };
    if place < 1000 && is_short {
        Some(request)
    } else {
        None
    }
}
