//! Terms and datasets for the tests.
use canonical_nquads::canonical_text;
use iris::Iri;
use nquads::{BaseFault, read_bytes};
use std::alloc::Global;
use std::test::Fail;
use terms::{DataSet, Term};

pub fn iri(alloc: Global, text: &str) -> Result<Term, Fail> {
    Ok(Term::Iri(Iri::check(alloc, text)?.ok_or("no IRI")?))
}

pub fn is_iri(term: &Term, text: &str) -> bool {
    matches!(term, Term::Iri(iri) if iri.as_str() == text)
}

/// The canonical text of two triples, one of them in a graph, and an empty graph.
pub const TWO_GRAPHS: &str = "#@graph <x:e>\n<x:a> <x:p> <x:c> <x:g> .\n<x:b> <x:p> <x:c> .\n";

pub fn two_graphs(alloc: Global) -> Result<DataSet, BaseFault> {
    read_bytes(alloc, TWO_GRAPHS.as_bytes())
}

/// Whether the canonical text of what a text spells is this one.
pub fn spells(alloc: Global, text: &[u8], canonical: &[u8]) -> Result<bool, BaseFault> {
    let dataset = read_bytes(alloc, text)?;
    let found = canonical_text(alloc, &dataset, 1);
    drop(dataset);
    Ok(found?.as_slice() == canonical)
}

/// What is wrong with a text by an outcome, if anything is. An `Err` where memory ran out.
pub fn fault_of(outcome: Result<DataSet, BaseFault>) -> Result<Option<BaseFault>, BaseFault> {
    match outcome {
        Err(BaseFault::OutOfMemory) => Err(BaseFault::OutOfMemory),
        Err(fault) => Ok(Some(fault)),
        Ok(_) => Ok(None),
    }
}
