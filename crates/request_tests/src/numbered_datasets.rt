//! A dataset of one quad, to numbers and back, and a request beside few terms and many.
use algebra::{Operation, Slot};
use canonical_nquads::canonical_text;
use datasets::{Id, Quad};
use meaning::Refusal;
use nquads::{BaseFault, read_bytes};
use numbering::{Numbered, named, number};
use reads::{CompactView, View};
use rules::{Block, split};
use std::alloc::{AllocError, Global};
use std::test::Fail;
use terms::{DataSet, Term};

const BASE: &str = "<x:c> <x:b> <x:a> <x:d> .\n";

/// 33 terms.
const MANY: &str = "\
<x:s10> <x:b> <x:o10> .\n\
<x:s11> <x:b> <x:o11> .\n\
<x:s12> <x:b> <x:o12> .\n\
<x:s13> <x:b> <x:o13> .\n\
<x:s14> <x:b> <x:o14> .\n\
<x:s15> <x:b> <x:o15> .\n\
<x:s16> <x:b> <x:o16> .\n\
<x:s17> <x:b> <x:o17> .\n\
<x:s18> <x:b> <x:o18> .\n\
<x:s19> <x:b> <x:o19> .\n\
<x:s20> <x:b> <x:o20> .\n\
<x:s21> <x:b> <x:o21> .\n\
<x:s22> <x:b> <x:o22> .\n\
<x:s23> <x:b> <x:o23> .\n\
<x:s24> <x:b> <x:o24> .\n\
<x:s25> <x:b> <x:o25> .\n\
";

/// Its terms are all of the first base, or one of the second.
const INSERTION: &[u8] = b"INSERT DATA { <x:a> <x:b> <x:c> }";

/// Whether a dataset at numbers has the base's quad and its name.
fn has_quad(dataset: &View) -> bool {
    let quad = Quad {
        subject: Id::Known(2),
        predicate: Id::Known(1),
        object: Id::Known(0),
        graph: Some(Id::Known(3)),
    };
    matches!(dataset.names(), [Id::Known(3)])
        && dataset.quads().len() == 1
        && dataset.quads().contains(&quad)
}

/// Whether the terms and the block are numbered, and a copy of the dataset has the base's quad.
fn is_numbered(alloc: Global, numbered: &Numbered) -> Result<bool, AllocError> {
    let copy = numbered.base.dataset().copied(alloc)?;
    Ok(
        numbered.base.terms().len() == 4
            && matches!(numbered.block.as_slice(), [Err(Refusal::Syntax)])
            && has_quad(&copy),
    )
}

fn compact_copy(alloc: Global, numbered: &Numbered) -> Result<CompactView, AllocError> {
    let copy = numbered.base.dataset().copied(alloc)?;
    CompactView::from_view(alloc, copy)
}

/// Whether the dataset is the same in little room as a copy of it.
fn is_compacted(alloc: Global, numbered: &Numbered) -> Result<bool, AllocError> {
    let (quads, names) = compact_copy(alloc, numbered)?.into_parts();
    let (others, same_names) = numbered.base.dataset().compact(alloc)?.into_parts();
    let are_same = match (quads.as_slice(), others.as_slice()) {
        ([quads], [others]) => quads.is_same(others),
        _ => false,
    };
    Ok(are_same && names == same_names)
}

fn base(alloc: Global) -> Result<DataSet, BaseFault> {
    read_bytes(alloc, BASE.as_bytes())
}

/// Whether the base comes to its numbers.
fn comes_to_numbers(alloc: Global, block: Block) -> Result<bool, BaseFault> {
    let dataset = base(alloc)?;
    let numbered = number(alloc, dataset, block)?;
    let is_numbered = is_numbered(alloc, &numbered);
    let is_compacted = is_compacted(alloc, &numbered);
    drop(numbered);
    Ok(is_numbered? && is_compacted?)
}

// To numbers and back.
fn back(alloc: Global, dataset: DataSet, block: Block) -> Result<DataSet, AllocError> {
    let _ = dataset.parts();
    let numbered = number(alloc, dataset, block)?;
    let dataset = numbered.base.dataset().compact(alloc)?;
    named(alloc, numbered.base.into_terms(), dataset)
}

fn text_back(alloc: Global, dataset: DataSet, block: Block) -> Result<Vec<u8>, AllocError> {
    let again = back(alloc, dataset, block)?;
    canonical_text(alloc, &again, 1)
}

/// Whether the base, to numbers and back, has its text again.
fn comes_back(alloc: Global, block: Block) -> Result<bool, BaseFault> {
    let dataset = base(alloc)?;
    Ok(text_back(alloc, dataset, block)?.as_slice() == BASE.as_bytes())
}

#[test]
fn to_numbers_and_back(rt: HostRuntime) -> Result<(), Fail> {
    assert!(rt; comes_to_numbers(rt.alloc(), split(rt.alloc(), b"INSERT")?)?);
    assert!(rt; comes_back(rt.alloc(), split(rt.alloc(), b"INSERT")?)?);
    Ok(())
}

/// The subject of the one triple that the block inserts.
fn inserted(numbered: &Numbered) -> Option<Id> {
    let [Ok(operations)] = numbered.block.as_slice() else {
        return None;
    };
    let [Operation::Modify(modify)] = operations.as_slice() else {
        return None;
    };
    match modify.insert.as_slice() {
        [only] => match only.subject {
            Slot::Term(subject) => Some(subject),
            _ => None,
        },
        _ => None,
    }
}

/// The insertion at numbers, over a base.
fn numbered_insertion(alloc: Global, base: &str) -> Result<Numbered, Fail> {
    let block = split(alloc, INSERTION)?;
    let dataset = read_bytes(alloc, base.as_bytes())?;
    Ok(number(alloc, dataset, block)?)
}

/// Whether the subject has its number, in a dictionary of so many terms.
fn has_number(alloc: Global, base: &str, count: usize) -> Result<bool, Fail> {
    let numbered = numbered_insertion(alloc, base)?;
    let terms = numbered.base.terms().terms();
    let Some(Id::Known(place)) = inserted(&numbered) else {
        return Ok(false);
    };
    let is_it = matches!(terms.get(place as usize), Some(Term::Iri(iri)) if iri.as_str() == "x:a");
    Ok(is_it && terms.len() == count)
}

#[test]
fn a_request_has_its_numbers_beside_few_terms_and_many(rt: HostRuntime) -> Result<(), Fail> {
    assert!(rt; has_number(rt.alloc(), "", 3)? && has_number(rt.alloc(), BASE, 4)?);
    assert!(rt; has_number(rt.alloc(), MANY, 35)?);
    Ok(())
}
