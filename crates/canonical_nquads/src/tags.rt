//! The tag of a dataset.
ghost use Rattle.std.specs.Prelude.{◌≡◌, ◌≤◌, ◌<◌, ◌||◌, ◌^◌, ℕ, List, length, IsTrue, false, IfOk, OnOk};
ghost use Rattle.std.specs.List.{list_any, prefix_len};
ghost use Rattle.std.specs.HashSet.{contains};
ghost use Rattle.std.specs.Ordering.{eq_by_cmp};
ghost use Rattle.terms.specs.Term.{text_cmp};
ghost use Rattle.terms.specs.Placed.{term_at, quad_at};
ghost use Rattle.canonical_nquads.specs.Tag.{mark_of, has_mark, is_taken, IsTagOf};
ghost use Rattle.canonical_nquads.specs.Beginning.{is_not_r, beginning, begins_as, is_begun_in};

use crate::text_line::TextLine;
use datasets::Quad;
use std::alloc::{AllocError, Global};
use std::collections::HashSet;
use terms::laws::sets_pass_alike;
use terms::{DataSet, Term};

/// How the label of a made node begins, where this is the dataset's tag.
pub fn mark_of(alloc: Global, tag: u32) -> Result<Vec<u8>, AllocError>
    ensures { IfOk result (λ mark. mark.items ≡ mark_of tag) }
{
    let digits = tag.to_string(alloc)?;
    let mut mark = Vec::new(alloc);
    mark.extend_from_slice(b"m")?;
    mark.extend_from_slice(digits.as_bytes())?;
    mark.extend_from_slice(b"r")?;
    Ok(mark)
}

fn mark_line(alloc: Global, tag: u32) -> Result<TextLine, AllocError>
    ensures { IfOk result (λ mark. mark ≡ mark_of tag) }
{
    Ok(TextLine::new(mark_of(alloc, tag)?))
}

fn is_not_r(byte: u8) -> bool
    ensures { result ≡ is_not_r byte }
{
    byte != b'r'
}

fn len_before_r(label: &[u8]) -> usize
    ensures within { result ≤ length label.now }
    ensures run { result ≡ prefix_len is_not_r label.now }
{
    label.iter().take_while(|byte| is_not_r(**byte)).count()
}

/// The beginning of a label up to its first `r`. That of a made node's label has its tag.
fn beginning(alloc: Global, label: &[u8]) -> Result<TextLine, AllocError>
    ensures { IfOk result (λ text. text ≡ beginning label.now) }
{
    let len = len_before_r(label);
    let mut text = Vec::new(alloc);
    if len < label.len() {
        text.extend_from_slice(&label[..len + 1])?;
    } else {
        text.extend_from_slice(label)?;
    }
    Ok(TextLine::new(text))
}

/// Puts in the beginning of a label.
fn add_label(
    alloc: Global,
    beginnings: &mut HashSet<TextLine>,
    label: &[u8],
) -> Result<(), AllocError>
    ensures { OnOk result ((text : List ℕ) → contains (eq_by_cmp text_cmp) beginnings.new text
        ≡ (eq_by_cmp text_cmp text (beginning label.now)
        || contains (eq_by_cmp text_cmp) beginnings.old text)) }
{
    let text = beginning(alloc, label)?;
    beginnings.insert(text)?;
    Ok(())
}

/// The same of a term's label, where it is a blank node.
fn add_term(
    alloc: Global,
    beginnings: &mut HashSet<TextLine>,
    term: &Term,
) -> Result<(), AllocError>
    ensures { OnOk result ((text : List ℕ) → contains (eq_by_cmp text_cmp) beginnings.new text
        ≡ (begins_as text term.now || contains (eq_by_cmp text_cmp) beginnings.old text)) }
{
    match term {
        Term::Blank(blank) => add_label(alloc, beginnings, blank.as_str().as_bytes()),
        _ => Ok(()),
    }
}

/// The same of the term at a place.
fn add_term_at(
    alloc: Global,
    beginnings: &mut HashSet<TextLine>,
    terms: &[Term],
    place: u32,
) -> Result<(), AllocError>
    ensures { OnOk result ((text : List ℕ) → contains (eq_by_cmp text_cmp) beginnings.new text
        ≡ (begins_as text (term_at terms.now place)
        || contains (eq_by_cmp text_cmp) beginnings.old text)) }
{
    match terms.get(place as usize) {
        Some(term) => add_term(alloc, beginnings, term),
        None => Ok(()),
    }
}

/// The same of a quad's subject and object.
fn add_quad(
    alloc: Global,
    beginnings: &mut HashSet<TextLine>,
    terms: &[Term],
    quad: &Quad<u32>,
) -> Result<(), AllocError>
    ensures { OnOk result ((text : List ℕ) → contains (eq_by_cmp text_cmp) beginnings.new text
        ≡ (is_begun_in text (quad_at terms.now quad.now)
        || contains (eq_by_cmp text_cmp) beginnings.old text)) }
{
    add_term_at(alloc, beginnings, terms, quad.object)?;
    add_term_at(alloc, beginnings, terms, quad.subject)
}

/// The beginnings of the labels of the blank nodes in quads.
fn beginnings_of(
    alloc: Global,
    terms: &[Term],
    quads: &[Quad<u32>],
) -> Result<HashSet<TextLine>, AllocError>
    ensures { IfOk result (λ beginnings. (text : List ℕ)
        → contains (eq_by_cmp text_cmp) beginnings text
        ≡ list_any (λ q. is_begun_in text (quad_at terms.now q)) quads.now) }
{
    let mut beginnings = HashSet::new(alloc);
    for quad in quads {
        add_quad(alloc, &mut beginnings, terms, quad)?;
    }
    Ok(beginnings)
}

/// The beginnings that are taken for the labels of made nodes.
fn taken_marks(alloc: Global, dataset: &DataSet) -> Result<HashSet<TextLine>, AllocError>
    ensures { IfOk result (λ taken. (tag : ℕ) → tag < 2 ^ 32
        → contains (eq_by_cmp text_cmp) taken (mark_of tag) ≡ is_taken dataset.now.quads tag) }
{
    sets_pass_alike();
    let parts = dataset.parts();
    let taken = beginnings_of(alloc, parts.terms, parts.quads)?;
    Ok(taken)
}

/// Whether a term is a blank node whose label begins so.
fn has_mark(term: &Term, mark: &[u8]) -> bool
    ensures { result ≡ has_mark mark.now term.now }
{
    match term {
        Term::Blank(blank) => blank.as_str().as_bytes().starts_with(mark),
        _ => false,
    }
}

/// Whether one of these terms is such a blank node.
fn is_marked(terms: &[Term], mark: &[u8]) -> bool
    ensures { result ≡ list_any (has_mark mark.now) terms.now }
{
    terms.iter().any(|term| has_mark(term, mark))
}

/// Whether none of the dataset's terms is a blank node whose label begins as that of a made node
/// where the tag is 1.
fn is_unmarked(alloc: Global, dataset: &DataSet) -> Result<bool, AllocError>
    ensures { IfOk result (λ free. IsTrue free → is_taken dataset.now.quads 1 ≡ false) }
{
    sets_pass_alike();
    let mark = mark_of(alloc, 1)?;
    let parts = dataset.parts();
    Ok(!is_marked(parts.terms, mark.as_slice()))
}

/// The least number from 1 with which no blank label of the dataset begins as a made node's does.
/// It fails where memory runs out, or where 2^32 - 2 numbers are taken.
pub fn tag(alloc: Global, dataset: &DataSet) -> Result<u32, AllocError>
    ensures { IfOk result (λ tag. IsTagOf dataset.now tag) }
{
    // Most bases have no such label, and then no quad is looked at.
    if is_unmarked(alloc, dataset)? {
        return Ok(1);
    }
    let taken = taken_marks(alloc, dataset)?;
    for tag in 1..u32::MAX {
        let mark = mark_line(alloc, tag)?;
        if !taken.contains(&mark) {
            return Ok(tag);
        }
    }
    Err(AllocError)
}
