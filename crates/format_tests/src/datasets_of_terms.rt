//! Terms and datasets of terms.
use crate::fixtures::{iri, is_iri};
use datasets::Quad;
use iris::Iri;
use nquads::{BaseFault, read_bytes};
use std::alloc::{AllocError, Global};
use std::test::Fail;
use terms::{Blank, DataSet, Literal, Term, TermTable, canonical, term_text};

const MADE: Term = Term::Made {
    request: 1,
    op: 20,
    label: 0,
    rank: 4_294_967_295,
};

#[test]
fn iris_copied(rt: HostRuntime) -> Result<(), Fail> {
    let term = iri(rt.alloc(), "x:a")?;
    let copy = term.copied(rt.alloc())?;
    assert!(rt; is_iri(&copy, "x:a"));
    assert!(rt; copy == term);
    Ok(())
}

#[test]
fn made_nodes_copied(rt: HostRuntime) -> Result<(), Fail> {
    let copy = MADE.copied(rt.alloc())?;
    assert!(rt;
        matches!(
            copy,
            Term::Made {
                request: 1,
                op: 20,
                label: 0,
                rank: 4_294_967_295
            }
        )
    );
    Ok(())
}

/// Two terms as they are written, the first alone and the other behind it.
fn written(alloc: Global, first: &Term, second: &Term) -> Result<Vec<u8>, AllocError> {
    let mut text = term_text(alloc, first, 7)?;
    canonical(alloc, second, 7, &mut text)?;
    Ok(text)
}

#[test]
fn texts_of_terms(rt: HostRuntime) -> Result<(), Fail> {
    let term = iri(rt.alloc(), "x:a")?;
    let text = written(rt.alloc(), &MADE, &term)?;
    assert!(rt; text.as_slice() == b"_:m7r1o20l0s4294967295<x:a>".as_slice());
    Ok(())
}

/// A node that a request made for this label.
fn made(label: u32) -> Term {
    Term::Made {
        request: 0,
        op: 0,
        label,
        rank: 0,
    }
}

fn is_made(term: &Term, label: u32) -> bool {
    matches!(term, Term::Made { label: found, .. } if *found == label)
}

/// Puts in the triple of three nodes in this graph.
fn add(dataset: &mut DataSet, labels: [u32; 3], graph: Option<Term>) -> Result<(), AllocError> {
    let [subject, predicate, object] = labels;
    dataset.add(Quad {
        subject: made(subject),
        predicate: made(predicate),
        object: made(object),
        graph,
    })
}

/// Puts in a quad in a graph, the triple of this turned round in the default graph, and an empty
/// graph.
fn fill(dataset: &mut DataSet) -> Result<(), AllocError> {
    add(dataset, [6, 5, 4], Some(made(8)))?;
    add(dataset, [4, 5, 6], None)?;
    dataset.declare(made(7))
}

/// The quads of these by the places of their terms.
const TURNED: [Quad<u32>; 2] = [
    Quad {
        subject: 0,
        predicate: 1,
        object: 2,
        graph: Some(3),
    },
    Quad {
        subject: 2,
        predicate: 1,
        object: 0,
        graph: None,
    },
];

#[test]
fn quads_and_names(rt: HostRuntime) -> Result<(), AllocError> {
    let mut dataset = DataSet::new(rt.alloc());
    fill(&mut dataset)?;
    let parts = dataset.parts();
    assert!(rt; parts.quads == TURNED.as_slice());
    assert!(rt; matches!(parts.names, [3, 4]));
    assert!(rt;
        matches!(parts.terms, [first, second, third, named, empty]
            if is_made(first, 6) && is_made(second, 5) && is_made(third, 4)
                && is_made(named, 8) && is_made(empty, 7))
    );
    Ok(())
}

/// Names that are put into a table, and the place of each.
const PLACES: [(&str, u32); 4] = [("x:a", 0), ("x:b", 1), ("x:a", 0), ("x:b", 1)];

fn place_in(alloc: Global, table: &mut TermTable, name: &str) -> Result<u32, Fail> {
    let term = iri(alloc, name)?;
    Ok(table.place_of(term)?)
}

#[test]
fn terms_have_one_place(rt: HostRuntime) -> Result<(), Fail> {
    let mut table = TermTable::new(rt.alloc());
    for (name, place) in &PLACES {
        let found = place_in(rt.alloc(), &mut table, name)?;
        assert!(rt; found == *place, "{name}");
    }
    assert!(rt; matches!(table.as_slice(), [first, _] if is_iri(first, "x:a")));
    Ok(())
}

const LANG_STRING: &str = "http://www.w3.org/1999/02/22-rdf-syntax-ns#langString";

/// Datatypes, tags, and whether there is a literal with these.
const LITERALS: [(&str, Option<&str>, bool); 16] = [
    ("http://www.w3.org/2001/XMLSchema#string", None, true),
    ("x:d", None, true),
    ("x:d", Some("en"), false),
    (LANG_STRING, None, false),
    (LANG_STRING, Some("en"), true),
    (LANG_STRING, Some("en-gb-1a"), true),
    (LANG_STRING, Some("a-1"), true),
    (LANG_STRING, Some(""), false),
    (LANG_STRING, Some("EN"), false),
    (LANG_STRING, Some("en-GB"), false),
    (LANG_STRING, Some("1"), false),
    (LANG_STRING, Some("e1"), false),
    (LANG_STRING, Some("en-"), false),
    (LANG_STRING, Some("-en"), false),
    (LANG_STRING, Some("en--a"), false),
    (LANG_STRING, Some("en_a"), false),
];

fn tag_of(alloc: Global, tag: Option<&str>) -> Result<Option<String>, AllocError> {
    match tag {
        None => Ok(None),
        Some(tag) => Ok(Some(String::from_str(alloc, tag)?)),
    }
}

/// The literal of a line end with this datatype and this tag.
fn literal(alloc: Global, datatype: &str, tag: Option<&str>) -> Result<Option<Literal>, Fail> {
    let datatype = Iri::check(alloc, datatype)?.ok_or("no IRI")?;
    let tag = tag_of(alloc, tag)?;
    let lexical = String::from_str(alloc, "é\n")?;
    Ok(Literal::new(alloc, lexical, datatype, tag)?)
}

/// Whether a copy of the literal of a line end with this datatype and this tag has them, if there
/// is one.
fn has_parts(alloc: Global, datatype: &str, tag: Option<&str>) -> Result<Option<bool>, Fail> {
    let Some(literal) = literal(alloc, datatype, tag)? else {
        return Ok(None);
    };
    let copy = literal.copied(alloc)?;
    Ok(Some(copy.lexical() == "é\n" && copy.datatype().as_str() == datatype && copy.tag() == tag))
}

#[test]
fn literals_of_parts(rt: HostRuntime) -> Result<(), Fail> {
    for (datatype, tag, is_one) in &LITERALS {
        let found = has_parts(rt.alloc(), datatype, *tag)?;
        let tag = tag.unwrap_or("no tag");
        assert!(rt; found == is_one.then_some(true), "{datatype:?} {tag:?}");
    }
    Ok(())
}

/// Texts, and whether each is a label.
const LABELS: [(&str, bool); 8] = [
    ("a", true),
    ("_9Z", true),
    ("0", true),
    ("", false),
    ("a-b", false),
    ("a.", false),
    ("a b", false),
    ("é", false),
];

/// Whether a copy of the blank node of this label has it, if it is a label.
fn has_label(alloc: Global, text: &str) -> Result<Option<bool>, AllocError> {
    let Some(blank) = Blank::check(alloc, text)? else {
        return Ok(None);
    };
    Ok(Some(blank.copied()?.as_str() == text))
}

#[test]
fn labels(rt: HostRuntime) -> Result<(), AllocError> {
    for (text, is_one) in &LABELS {
        let found = has_label(rt.alloc(), text)?;
        assert!(rt; found == is_one.then_some(true), "{text:?}");
    }
    Ok(())
}

/// Objects in rising order.
const RISING: [&str; 10] = [
    "<x:A>",
    "<x:a>",
    "<x:b>",
    "\"\"^^<x:d>",
    "\"a\"^^<x:d>",
    "\"a\"^^<x:e>",
    "\"b\"@e",
    "\"b\"@en",
    "_:A",
    "_:a",
];

const FIRST: Term = Term::Made {
    request: 0,
    op: 20,
    label: 3,
    rank: 4,
};

/// The object of the first statement of a dataset.
fn first_object(alloc: Global, dataset: &DataSet) -> Result<Term, Fail> {
    let parts = dataset.parts();
    let quad = parts.quads.first().ok_or("no statement")?;
    let term = parts.terms.get(quad.object as usize).ok_or("no object")?;
    Ok(term.copied(alloc)?)
}

/// A dataset of one statement with this object.
fn stated(alloc: Global, object: &str) -> Result<DataSet, BaseFault> {
    let text = format!(in alloc; "<x:b> <x:p> {object} .")?;
    let dataset = read_bytes(alloc, text.as_bytes());
    drop(text);
    dataset
}

/// The object that a statement of this spelling has.
fn object_of(alloc: Global, object: &str) -> Result<Term, Fail> {
    let dataset = stated(alloc, object)?;
    let object = first_object(alloc, &dataset);
    drop(dataset);
    object
}

/// Whether an object stands before another.
fn rises(alloc: Global, lower: &str, higher: &str) -> Result<bool, Fail> {
    let lower = object_of(alloc, lower)?;
    let higher = object_of(alloc, higher)?;
    Ok(lower < higher)
}

#[test]
fn order(rt: HostRuntime) -> Result<(), Fail> {
    for at in 1..RISING.len() {
        let [lower, higher] = [RISING[at - 1], RISING[at]];
        assert!(rt; rises(rt.alloc(), lower, higher)?, "{lower} {higher}");
    }
    let blank = object_of(rt.alloc(), "_:a")?;
    assert!(rt; blank < FIRST);
    assert!(rt; FIRST < MADE);
    Ok(())
}
