//! Blocks whose requests are checked and numbered by several threads, beside the same blocks by one.

use crate::update_texts::TEXTS;
use algebra::{GraphOperation, Modify, Operation, QuadTemplate, Slot, Target, Transfer};
use datasets::Id;
use meaning::{Refusal, Request};
use nquads::{BaseFault, read_bytes};
use numbering::{Numbered, number, number_by};
use rules::{Block, BlockFault, Checked, split, split_by};
use std::alloc::{AllocError, Global};
use std::test::Fail;
use std::thread::Threads;
use terms::DataSet;

/// How many threads check a block.
const THREADS: [usize; 5] = [0, 1, 2, 3, 8];

/// A block of the texts of the table, so many times over.
fn block_of(alloc: Global, times: usize) -> Result<String, AllocError> {
    let mut block = String::new(alloc);
    for _ in 0..times {
        for (text, _) in &TEXTS {
            block.push_str("PREFIX ex: <http://e/> ")?;
            block.push_str(text)?;
            block.push_str("\n----\n")?;
        }
    }
    Ok(block)
}

/// How many operations a request has, or why it is refused.
fn outcome(request: &Checked) -> Result<usize, Refusal> {
    match request {
        Ok(operations) => Ok(operations.len()),
        Err(refusal) => Err(*refusal),
    }
}

/// Whether two blocks have the same verdicts and the same terms.
fn are_same(alloc: Global, one: &Block, other: &Block) -> Result<bool, AllocError> {
    let (terms, others) = (one.terms(alloc)?, other.terms(alloc)?);
    let mut requests = one.as_slice().iter().zip(other.as_slice().iter());
    let mut places = terms.iter().zip(others.iter());
    Ok(
        one.len() == other.len()
            && terms.len() == others.len()
            && requests.all(|pair| outcome(pair.0) == outcome(pair.1))
            && places.all(|pair| pair.0.get() == pair.1.get()),
    )
}

/// Whether so many threads check a block as one does.
fn is_split_alike<T: Threads + Sync>(
    rt: &T,
    alloc: Global,
    text: &str,
    by_one: &Block,
    threads: usize,
) -> Result<bool, BlockFault> {
    let by_threads = split_by(rt, alloc, text.as_bytes(), threads)?;
    let are_same = are_same(alloc, by_one, &by_threads);
    drop(by_threads);
    Ok(are_same?)
}

/// Whether a block that one thread checks has so many requests, and threads check it alike.
fn are_split_alike<T: Threads + Sync>(
    rt: &T,
    alloc: Global,
    text: &str,
    count: usize,
) -> Result<bool, BlockFault> {
    let by_one = split(alloc, text.as_bytes())?;
    let mut so = by_one.len() == count;
    for threads in &THREADS {
        so = so && is_split_alike(rt, alloc, text, &by_one, *threads)?;
    }
    Ok(so)
}

#[test]
fn blocks_by_threads(rt: HostRuntime) -> Result<(), BlockFault> {
    for (times, count) in [(0, 0), (1, TEXTS.len() + 1), (30, TEXTS.len() * 30 + 1)] {
        let text = block_of(rt.alloc(), times)?;
        assert!(rt;
            are_split_alike(&rt, rt.alloc(), text.as_str(), count)?,
            "{times}"
        );
    }
    Ok(())
}

/// A block of more requests than there may be.
fn too_many(alloc: Global) -> Result<String, AllocError> {
    let mut many = String::new(alloc);
    for _ in 0..4096 {
        many.push_str("----\n")?;
    }
    Ok(many)
}

#[test]
fn faults_by_threads(rt: HostRuntime) -> Result<(), BlockFault> {
    let many = too_many(rt.alloc())?;
    for threads in &THREADS {
        let outcome = split_by(&rt, rt.alloc(), &[255], *threads);
        assert!(rt; matches!(outcome, Err(BlockFault::BadUtf8)));
        let outcome = split_by(&rt, rt.alloc(), many.as_bytes(), *threads);
        assert!(rt; matches!(outcome, Err(BlockFault::TooManyRequests)));
    }
    Ok(())
}

fn is_same_slot(one: Slot<Id>, other: Slot<Id>) -> bool {
    match (one, other) {
        (Slot::Term(first), Slot::Term(second)) => first == second,
        (Slot::Variable(first), Slot::Variable(second)) => first == second,
        (Slot::Label(first), Slot::Label(second)) => first == second,
        _ => false,
    }
}

fn is_same_graph(one: Option<Slot<Id>>, other: Option<Slot<Id>>) -> bool {
    match (one, other) {
        (Some(first), Some(second)) => is_same_slot(first, second),
        (None, None) => true,
        _ => false,
    }
}

fn is_same_quad(one: &QuadTemplate<Id>, other: &QuadTemplate<Id>) -> bool {
    is_same_slot(one.subject, other.subject)
        && is_same_slot(one.predicate, other.predicate)
        && is_same_slot(one.object, other.object)
        && is_same_graph(one.graph, other.graph)
}

fn are_same_quads(one: &[QuadTemplate<Id>], other: &[QuadTemplate<Id>]) -> bool {
    let mut pairs = one.iter().zip(other.iter());
    one.len() == other.len() && pairs.all(|pair| is_same_quad(pair.0, pair.1))
}

fn is_same_modify(one: &Modify<Id>, other: &Modify<Id>) -> bool {
    one.width == other.width
        && one.active == other.active
        && are_same_quads(one.delete.as_slice(), other.delete.as_slice())
        && are_same_quads(one.insert.as_slice(), other.insert.as_slice())
}

fn is_same_target(one: &Target<Id>, other: &Target<Id>) -> bool {
    match (one, other) {
        (Target::Graph(first), Target::Graph(second)) => first == second,
        (Target::Default, Target::Default) => true,
        (Target::Named, Target::Named) => true,
        (Target::All, Target::All) => true,
        _ => false,
    }
}

/// The kind of a transfer, from where it is and to where.
fn transfer(operation: &GraphOperation<Id>) -> Option<(Transfer, Option<Id>, Option<Id>)> {
    match operation {
        GraphOperation::Transfer { how, from, to } => Some((*how, *from, *to)),
        _ => None,
    }
}

fn is_same_on_graphs(one: &GraphOperation<Id>, other: &GraphOperation<Id>) -> bool {
    match (one, other) {
        (GraphOperation::Create(first), GraphOperation::Create(second)) => first == second,
        (GraphOperation::Drop(first), GraphOperation::Drop(second)) => {
            is_same_target(first, second)
        }
        (GraphOperation::Clear(first), GraphOperation::Clear(second)) => {
            is_same_target(first, second)
        }
        _ => transfer(one).is_some() && transfer(one) == transfer(other),
    }
}

/// Whether two operations have the same templates, or do the same with the same graphs.
fn is_same_operation(one: &Operation<Id>, other: &Operation<Id>) -> bool {
    match (one, other) {
        (Operation::Modify(first), Operation::Modify(second)) => is_same_modify(first, second),
        (
            Operation::Graphs { silent, operation },
            Operation::Graphs {
                silent: is_silent,
                operation: second,
            },
        ) => silent == is_silent && is_same_on_graphs(operation, second),
        _ => false,
    }
}

fn are_same_operations(one: &[Operation<Id>], other: &[Operation<Id>]) -> bool {
    let mut pairs = one.iter().zip(other.iter());
    one.len() == other.len() && pairs.all(|pair| is_same_operation(pair.0, pair.1))
}

fn is_same_request(one: &Request<Id>, other: &Request<Id>) -> bool {
    match (one, other) {
        (Ok(first), Ok(second)) => are_same_operations(first.as_slice(), second.as_slice()),
        (Err(first), Err(second)) => first == second,
        _ => false,
    }
}

/// Whether two bases and blocks are at the same numbers of the same terms.
fn are_numbered_alike(one: &Numbered, other: &Numbered) -> bool {
    let mut pairs = one.block.iter().zip(other.block.iter());
    one.block.len() == other.block.len()
        && one.base.terms().terms() == other.base.terms().terms()
        && one
            .base
            .dataset()
            .quads()
            .is_same(&other.base.dataset().quads())
        && one.base.dataset().names() == other.base.dataset().names()
        && pairs.all(|pair| is_same_request(pair.0, pair.1))
}

fn base(alloc: Global) -> Result<DataSet, BaseFault> {
    read_bytes(
        alloc,
        b"<http://e/a> <http://e/p> <http://e/z> .\n<a:b> <x:p> _:b <http://e/g> .\n",
    )
}

/// Whether so many threads number a block as one does.
fn is_numbered_alike<T: Threads + Sync>(
    rt: &T,
    alloc: Global,
    text: &str,
    by_one: &Numbered,
    threads: usize,
) -> Result<bool, Fail> {
    let block = split(alloc, text.as_bytes())?;
    let by_threads = number_by(rt, alloc, base(alloc)?, block, threads)?;
    let are_alike = are_numbered_alike(by_one, &by_threads);
    drop(by_threads);
    Ok(are_alike)
}

/// A block at numbers that one thread finds.
fn numbered_by_one(alloc: Global, text: &str) -> Result<Numbered, Fail> {
    let block = split(alloc, text.as_bytes())?;
    Ok(number(alloc, base(alloc)?, block)?)
}

#[test]
fn blocks_numbered_by_threads(rt: HostRuntime) -> Result<(), Fail> {
    let text = block_of(rt.alloc(), 4)?;
    let by_one = numbered_by_one(rt.alloc(), text.as_str())?;
    assert!(rt; by_one.block.len() == TEXTS.len() * 4 + 1);
    for threads in &THREADS {
        let is_alike = is_numbered_alike(&rt, rt.alloc(), text.as_str(), &by_one, *threads)?;
        assert!(rt; is_alike, "{threads}");
    }
    Ok(())
}
