//! Bases and blocks that are written as texts, at numbers of terms; and quads at numbers as texts
//! again.
ghost use Rattle.std.specs.Prelude.{◌≡◌, ◌<◌, Some, IfSome, IfOk, slice_get};
ghost use Rattle.machine_tests.specs.Terms.{KnowsAll};
ghost use Rattle.update.specs.Asked.{IsShort};

use datasets::{Id, Quad};
use dict::Dict;
use meaning::Request;
use nquads::{BaseFault, read_bytes};
use numbering::{Numbered, number, number_by};
use reads::{CompactView, View};
use rules::{Block, split};
use std::alloc::{AllocError, Global};
use std::test::Fail;
use std::thread::Threads;
use terms::{DataSet, Term, canonical};

// A base and a block that is read at numbers.
fn numbered_over(alloc: Global, base: &str, block: Block) -> Result<Numbered, BaseFault>
    ensures { IfOk result (λ n. KnowsAll n) }
{
    let base = read_bytes(alloc, base.as_bytes())?;
    Ok(number(alloc, base, block)?)
}

/// A base and a block at numbers.
pub fn numbered(alloc: Global, base: &str, block: &str) -> Result<Numbered, Fail>
    ensures { IfOk result (λ n. KnowsAll n) }
{
    let block = split(alloc, block.as_bytes())?;
    Ok(numbered_over(alloc, base, block)?)
}

/// The request at one of the first thousand places, which has few operations.
pub fn request_at(block: &[Request<Id>], place: usize) -> Option<&Request<Id>>
    ensures is { IfSome result (λ request. slice_get block.now place ≡ Some request.now) }
    ensures low { IfSome result (λ request. place < 1000) }
    ensures short { IfSome result (λ request. IsShort request.now) }
{
    let request = block.get(place)?;
    let is_short = match request {
        Ok(operations) => operations.len() < 1000,
        Err(_) => true,
    };
    if place < 1000 && is_short {
        Some(request)
    } else {
        None
    }
}

// A space and the term of a number.
fn put(alloc: Global, terms: &Dict, id: Id, text: &mut Vec<u8>) -> Result<(), AllocError> {
    text.push(b' ')?;
    match id {
        Id::Known(place) => match terms.terms().get(place as usize) {
            Some(term) => canonical(alloc, term, 1, text),
            None => Ok(()),
        },
        Id::Made {
            request,
            op,
            label,
            rank,
        } => {
            let term = Term::Made {
                request,
                op,
                label,
                rank,
            };
            canonical(alloc, &term, 1, text)
        }
    }
}

/// A sign and some terms, as a line.
pub fn tell(
    alloc: Global,
    terms: &Dict,
    sign: u8,
    ids: &[Id],
    text: &mut Vec<u8>,
) -> Result<(), AllocError> {
    text.push(sign)?;
    for id in ids {
        put(alloc, terms, *id, text)?;
    }
    text.push(b'\n')?;
    Ok(())
}

/// A line for each quad: a sign and its terms.
pub fn tell_quads(
    alloc: Global,
    terms: &Dict,
    sign: u8,
    quads: &[Quad<Id>],
    text: &mut Vec<u8>,
) -> Result<(), AllocError> {
    for quad in quads {
        let Quad {
            subject,
            predicate,
            object,
            graph,
        } = *quad;
        match graph {
            None => tell(alloc, terms, sign, &[subject, predicate, object], text)?,
            Some(graph) => tell(
                alloc,
                terms,
                sign,
                &[subject, predicate, object, graph],
                text,
            )?,
        }
    }
    Ok(())
}

/// The quads of a dataset, each a line with a sign before it.
pub fn quads_of(alloc: Global, terms: &Dict, dataset: &CompactView) -> Result<Vec<u8>, AllocError> {
    let mut text = Vec::new(alloc);
    for piece in dataset.quads() {
        let list = piece.quads(alloc)?;
        tell_quads(alloc, terms, b'+', &list, &mut text)?;
    }
    Ok(text)
}

/// Whether these are the quads of a dataset, each a line with a sign before it.
pub fn has_quads(
    alloc: Global,
    terms: &Dict,
    dataset: &CompactView,
    quads: &str,
) -> Result<bool, AllocError> {
    let text = quads_of(alloc, terms, dataset)?;
    Ok(text.as_slice() == quads.as_bytes())
}

/// A text again and again, so many times, with the line that parts requests between them.
pub fn repeated(alloc: Global, request: &str, times: u32) -> Result<String, AllocError> {
    let mut text = String::from_str(alloc, request)?;
    for _ in 1..times {
        text.push_str("\n----\n")?;
        text.push_str(request)?;
    }
    Ok(text)
}

/// How many quads a dataset has.
pub fn count_quads(dataset: &CompactView) -> usize {
    let mut count = 0usize;
    for piece in dataset.quads() {
        count = count.saturating_add(piece.len());
    }
    count
}

// Lines of so many quads in two graphs, from the last subject to the first.
fn falling(alloc: Global, quads: u32) -> Result<Vec<u8>, AllocError> {
    let mut text = Vec::new(alloc);
    for number in 0..quads {
        let subject = quads.saturating_sub(number / 2);
        let graph = number % 2;
        let line = format!(in alloc; "<x:s{subject}> <x:p> \"{graph}\" <x:g{graph}> .\n")?;
        text.extend_from_slice(line.as_bytes())?;
    }
    Ok(text)
}

// The block at numbers, over a base that one thread puts in order.
fn by_one(alloc: Global, base: DataSet) -> Result<Numbered, Fail>
    ensures { IfOk result (λ n. KnowsAll n) }
{
    Ok(number(alloc, base, split(alloc, MOVED)?)?)
}

// A block at numbers, over a base that several threads put in order, by three threads where it has
// enough requests.
fn by_threads<T: Threads + Sync>(
    rt: &T,
    alloc: Global,
    base: DataSet,
    block: &[u8],
) -> Result<Numbered, Fail>
    ensures { IfOk result (λ n. KnowsAll n) }
{
    Ok(number_by(rt, alloc, base, split(alloc, block)?, 3)?)
}

/// A block over no base, at numbers that threads find.
pub fn numbered_by<T: Threads + Sync>(rt: &T, alloc: Global, block: &str) -> Result<Numbered, Fail>
    ensures { IfOk result (λ n. KnowsAll n) }
{
    by_threads(rt, alloc, falling_base(alloc, 0)?, block.as_bytes())
}

// Whether a dataset is the same at other numbers.
fn is_same_at(alloc: Global, dataset: &View, other: &Numbered) -> Result<bool, AllocError> {
    let second = other.base.dataset().copied(alloc)?;
    Ok(dataset.quads().is_same(&second.quads()) && dataset.names() == second.names())
}

// Whether the two have one dataset, of so many quads.
fn have_one_dataset(
    alloc: Global,
    one: &Numbered,
    other: &Numbered,
    quads: usize,
) -> Result<bool, AllocError> {
    let first = one.base.dataset().copied(alloc)?;
    Ok(first.quads().len() == quads && is_same_at(alloc, &first, other)?)
}

// Whether the two have that, and the same numbers of the same terms.
fn are_alike(
    alloc: Global,
    one: &Numbered,
    other: &Numbered,
    quads: usize,
) -> Result<bool, AllocError> {
    Ok(
        have_one_dataset(alloc, one, other, quads)?
            && one.base.terms().terms() == other.base.terms().terms()
            && one.base.tag() == other.base.tag(),
    )
}

// Whether several threads give the numbers of a base of so many quads that one gave.
fn is_numbered_alike<T: Threads + Sync>(
    rt: &T,
    alloc: Global,
    one: &Numbered,
    quads: u32,
) -> Result<bool, Fail> {
    let other = by_threads(rt, alloc, falling_base(alloc, quads)?, MOVED)?;
    let are_alike = are_alike(alloc, one, &other, quads as usize);
    drop(other);
    Ok(are_alike?)
}

// A base of so many quads.
fn falling_base(alloc: Global, quads: u32) -> Result<DataSet, BaseFault> {
    let text = falling(alloc, quads)?;
    read_bytes(alloc, text.as_slice())
}

const MOVED: &[u8] = b"INSERT { ?s <x:q> 7 } WHERE { GRAPH <x:g0> { ?s <x:p> ?o } }";

#[test]
fn numbered_by_threads(rt: HostRuntime) -> Result<(), Fail> {
    let one = by_one(rt.alloc(), falling_base(rt.alloc(), 12_000)?)?;
    let is_alike = is_numbered_alike(&rt, rt.alloc(), &one, 12_000);
    drop(one);
    assert!(rt; is_alike?);
    Ok(())
}
