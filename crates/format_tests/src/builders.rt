//! Terms that a text lends, and datasets that are built of them.
ghost use Rattle.std.specs.Prelude.{◌≡◌, true};
ghost use Rattle.std.specs.List.{list_all};
ghost use Rattle.iris.specs.Iri.{is_iri_byte};

use crate::fixtures::{iri, is_iri};
use canonical_nquads::canonical_text;
use dataset_builder::DatasetBuilder;
use datasets::Quad;
use iris::IriCow;
use std::alloc::{AllocError, Global};
use std::test::Fail;
use terms::{DataSet, Term, TermCow};

/// A node that a request made for this label.
fn made(label: u32) -> Term {
    Term::Made {
        request: 1,
        op: 0,
        label,
        rank: 0,
    }
}

fn is_owned(alloc: Global, cow: IriCow<'_>, text: &str) -> Result<bool, AllocError> {
    let iri = cow.into_iri(alloc)?;
    Ok(iri.as_str() == text)
}

#[test]
fn iris_of_a_text(rt: HostRuntime) -> Result<(), Fail> {
    assert!(rt; IriCow::check("x").is_none() && IriCow::check(":a").is_none());
    let cow = IriCow::check("x:a").ok_or("no IRI")?;
    assert!(rt; cow.borrowed() == Some("x:a"));
    assert!(rt; is_owned(rt.alloc(), cow, "x:a")?);
    Ok(())
}

#[test]
fn terms_of_a_text(rt: HostRuntime) -> Result<(), Fail> {
    let cow = IriCow::check("x:a").ok_or("no IRI")?;
    let term = TermCow::iri(cow).into_term(rt.alloc())?;
    assert!(rt; is_iri(&term, "x:a"));
    let cow = TermCow::owned(rt.alloc(), made(5))?;
    assert!(rt; cow.borrowed_iri().is_none());
    assert!(rt; matches!(cow.into_term(rt.alloc())?, Term::Made { label: 5, .. }));
    Ok(())
}

/// A term that a text lends, or one of its own where it is no IRI.
fn lent<'a>(alloc: Global, text: &'a str) -> Result<TermCow<'a>, AllocError>
    requires { list_all is_iri_byte text.now ≡ true }
{
    match IriCow::check(text) {
        Some(iri) => Ok(TermCow::iri(iri)),
        None => TermCow::owned(alloc, made(0)),
    }
}

/// Puts in a quad with the node of this label.
fn add_lent(builder: &mut DatasetBuilder<'_>, alloc: Global, label: u32) -> Result<(), AllocError> {
    let quad = Quad {
        subject: lent(alloc, "x:a")?,
        predicate: lent(alloc, "x:p")?,
        object: TermCow::owned(alloc, made(label))?,
        graph: Some(lent(alloc, "x:a")?),
    };
    builder.add(quad)
}

/// Puts in the same quad.
fn add(dataset: &mut DataSet, alloc: Global, label: u32) -> Result<(), Fail> {
    let quad = Quad {
        subject: iri(alloc, "x:a")?,
        predicate: iri(alloc, "x:p")?,
        object: made(label),
        graph: Some(iri(alloc, "x:a")?),
    };
    Ok(dataset.add(quad)?)
}

/// Puts in so many quads, of which the first comes twice, and an empty graph.
fn fill(builder: &mut DatasetBuilder<'_>, alloc: Global, count: u32) -> Result<(), AllocError> {
    for label in 0..count {
        add_lent(builder, alloc, label)?;
    }
    builder.declare(lent(alloc, "x:e")?)?;
    add_lent(builder, alloc, 0)
}

/// A dataset that is built of these.
fn built(alloc: Global, count: u32) -> Result<DataSet, AllocError> {
    let mut builder = DatasetBuilder::new(alloc);
    match fill(&mut builder, alloc, count) {
        Ok(()) => builder.into_dataset(),
        Err(error) => {
            drop(builder);
            Err(error)
        }
    }
}

/// The same dataset, put in quad after quad.
fn put_in(alloc: Global, count: u32) -> Result<DataSet, Fail> {
    let mut dataset = DataSet::new(alloc);
    for label in 0..count {
        add(&mut dataset, alloc, label)?;
    }
    dataset.declare(iri(alloc, "x:e")?)?;
    Ok(dataset)
}

/// How many terms a dataset has, and its canonical text.
fn told(alloc: Global, dataset: &DataSet) -> Result<(usize, Vec<u8>), AllocError> {
    let text = canonical_text(alloc, dataset, 1)?;
    Ok((dataset.parts().terms.len(), text))
}

/// The same of the dataset that is built.
fn told_built(alloc: Global, count: u32) -> Result<(usize, Vec<u8>), AllocError> {
    let dataset = built(alloc, count)?;
    let told = told(alloc, &dataset);
    drop(dataset);
    told
}

/// The same of the dataset that is put in quad after quad.
fn told_put_in(alloc: Global, count: u32) -> Result<(usize, Vec<u8>), Fail> {
    let dataset = put_in(alloc, count)?;
    let told = told(alloc, &dataset);
    drop(dataset);
    Ok(told?)
}

#[test]
fn more_quads_than_are_placed_together(rt: HostRuntime) -> Result<(), Fail> {
    for count in [1, 63, 64, 70] {
        let (terms, text) = told_built(rt.alloc(), count)?;
        let (wanted_terms, wanted) = told_put_in(rt.alloc(), count)?;
        assert!(rt; terms == wanted_terms);
        assert!(rt; text.as_slice() == wanted.as_slice(), "{count}");
    }
    Ok(())
}
