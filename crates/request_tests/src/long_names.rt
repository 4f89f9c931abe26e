//! Long names that are alike at both ends.
use algebra::{Operation, QuadTemplate, Slot};
use datasets::Id;
use nquads::read_bytes;
use numbering::{Numbered, number};
use rules::split;
use std::alloc::{AllocError, Global};
use std::test::Fail;
use terms::Term;

/// Bytes at each side of what tells one name from another.
const SIDE: usize = 1000;

fn push_side(text: &mut String) -> Result<(), AllocError> {
    for _ in 0..SIDE {
        text.push_str("a")?;
    }
    Ok(())
}

/// A name that has this between its sides.
fn long_name(alloc: Global, inside: &str) -> Result<String, AllocError> {
    let mut text = String::from_str(alloc, "x:")?;
    push_side(&mut text)?;
    text.push_str(inside)?;
    push_side(&mut text)?;
    Ok(text)
}

/// Two triples of these three names: the second has them turned around.
fn insertion(alloc: Global, names: &[String]) -> Result<String, AllocError> {
    let mut text = String::from_str(alloc, "INSERT DATA {")?;
    for name in names {
        push_name(&mut text, name)?;
    }
    text.push_str(" .")?;
    for name in names.iter().rev() {
        push_name(&mut text, name)?;
    }
    text.push_str(" }")?;
    Ok(text)
}

fn push_name(text: &mut String, name: &String) -> Result<(), AllocError> {
    text.push_str(" <")?;
    text.push_str(name.as_str())?;
    text.push_str(">")
}

/// Whether a place has the number of this name.
fn is_name(numbered: &Numbered, slot: &Slot<Id>, name: &String) -> bool {
    let Slot::Term(Id::Known(place)) = slot else {
        return false;
    };
    match numbered.base.terms().terms().get(*place as usize) {
        Some(Term::Iri(iri)) => iri.as_str() == name.as_str(),
        _ => false,
    }
}

fn is_triple(numbered: &Numbered, triple: &QuadTemplate<Id>, names: [&String; 3]) -> bool {
    let [subject, predicate, object] = names;
    is_name(numbered, &triple.subject, subject)
        && is_name(numbered, &triple.predicate, predicate)
        && is_name(numbered, &triple.object, object)
}

/// Whether the block inserts the triple of these names, and the one that has them turned around.
fn are_inserted(numbered: &Numbered, names: &[String]) -> bool {
    let ([Ok(operations)], [a, b, c]) = (numbered.block.as_slice(), names) else {
        return false;
    };
    let [Operation::Modify(modify)] = operations.as_slice() else {
        return false;
    };
    match modify.insert.as_slice() {
        [first, second] => {
            is_triple(numbered, first, [a, b, c]) && is_triple(numbered, second, [c, b, a])
        }
        _ => false,
    }
}

/// Whether names with these between their sides have numbers of their own.
fn have_numbers(alloc: Global, insides: [&str; 3]) -> Result<bool, Fail> {
    let mut names = Vec::new(alloc);
    for inside in insides {
        names.push(long_name(alloc, inside)?)?;
    }
    let text = insertion(alloc, names.as_slice())?;
    let numbered = number(
        alloc,
        read_bytes(alloc, b"")?,
        split(alloc, text.as_bytes())?,
    )?;
    Ok(are_inserted(&numbered, names.as_slice()))
}

#[test]
fn long_names_that_are_alike_at_both_ends_have_their_own_numbers(
    rt: HostRuntime,
) -> Result<(), Fail> {
    assert!(rt; have_numbers(rt.alloc(), ["x", "y", "z"])?);
    assert!(rt; have_numbers(rt.alloc(), ["x", "xx", "x"])?);
    Ok(())
}
