//! The canonical text of a term.
ghost use Rattle.std.specs.Prelude.{◌≡◌, ◌++◌, ◌∷◌, [], codes, IfOk, OnOk, OnErr, ℕ, string_bytes};
ghost use Rattle.std.specs.Prelude.{nat_eq};
ghost use Rattle.std.specs.Cmp.Lexicographic.{pointwise};
ghost use Rattle.std.specs.Fmt.{decimal};
ghost use Rattle.std.specs.List.{flat_map};
ghost use Rattle.terms.specs.Vocabulary.{xsd_string};
ghost use Rattle.terms.specs.Canonical.{escape, iri_text, suffix, literal_text, made_label, term_text};

use crate::literal::Literal;
use crate::term::Term;
use crate::vocabulary::XSD_STRING;
use iris::Iri;
use std::alloc::{AllocError, Global};

/// Adds a character of a literal, escaped where it must be.
fn push_escaped(text: &mut Vec<u8>, byte: u8) -> Result<(), AllocError>
    ensures { OnOk result (text.new.items ≡ text.old.items ++ escape byte) }
{
    match byte {
        b'"' => text.extend_from_slice(b"\\\""),
        b'\\' => text.extend_from_slice(b"\\\\"),
        b'\n' => text.extend_from_slice(b"\\n"),
        b'\r' => text.extend_from_slice(b"\\r"),
        _ => text.extend_from_slice(&[byte]),
    }
}

fn escaped(alloc: Global, lexical: &[u8]) -> Result<Vec<u8>, AllocError>
    ensures { IfOk result (λ text. text.items ≡ flat_map escape lexical.now) }
{
    let mut text = Vec::with_capacity(alloc, lexical.len())?;
    for byte in lexical {
        push_escaped(&mut text, *byte)?;
    }
    Ok(text)
}

fn push_iri(text: &mut Vec<u8>, iri: &Iri) -> Result<(), AllocError>
    ensures { OnOk result (text.new.items ≡ text.old.items ++ iri_text iri.now) }
{
    text.extend_from_slice(b"<")?;
    text.extend_from_slice(iri.as_str().as_bytes())?;
    text.extend_from_slice(b">")
}

fn is_xsd_string(datatype: &Iri) -> bool
    ensures { result ≡ pointwise nat_eq datatype.now xsd_string }
{
    datatype.as_str() == XSD_STRING
}

fn push_suffix(text: &mut Vec<u8>, literal: &Literal) -> Result<(), AllocError>
    ensures { OnOk result (text.new.items ≡ text.old.items
        ++ suffix literal.now.datatype literal.now.tag) }
{
    match literal.tag() {
        Some(tag) => {
            text.extend_from_slice(b"@")?;
            text.extend_from_slice(tag.as_bytes())
        }
        None if is_xsd_string(literal.datatype()) => Ok(()),
        None => {
            text.extend_from_slice(b"^^")?;
            push_iri(text, literal.datatype())
        }
    }
}

fn literal_text(alloc: Global, literal: &Literal) -> Result<Vec<u8>, AllocError>
    ensures { IfOk result (λ text. text.items ≡ literal_text literal.now) }
{
    let mut text = Vec::new(alloc);
    text.extend_from_slice(b"\"")?;
    text.extend_from_slice(escaped(alloc, literal.lexical().as_bytes())?.as_slice())?;
    text.extend_from_slice(b"\"")?;
    push_suffix(&mut text, literal)?;
    Ok(text)
}

fn push_number(text: &mut Vec<u8>, letter: u8, number: u32) -> Result<(), AllocError>
    ensures { OnOk result (text.new.items ≡ text.old.items ++ letter ∷ decimal number) }
{
    let digits = number.to_string(*text.allocator())?;
    text.extend_from_slice(&[letter])?;
    text.extend_from_slice(digits.as_bytes())
}

// How long the text of an IRI or a blank node is. Other texts are made without its help.
fn likely_len(term: &Term) -> usize {
    match term {
        Term::Iri(iri) => iri.as_str().len().saturating_add(2),
        Term::Blank(blank) => blank.as_str().len().saturating_add(2),
        Term::Literal(_) => 0,
        Term::Made { .. } => 0,
    }
}

/// The text of a term, where `tag` is the one of the dataset.
pub fn term_text(alloc: Global, term: &Term, tag: u32) -> Result<Vec<u8>, AllocError>
    ensures { IfOk result (λ text. text.items ≡ term_text tag term.now) }
{
    let mut text = Vec::with_capacity(alloc, likely_len(term))?;
    match term {
        Term::Iri(iri) => push_iri(&mut text, iri)?,
        Term::Literal(literal) => return literal_text(alloc, literal),
        Term::Blank(blank) => {
            text.extend_from_slice(b"_:")?;
            text.extend_from_slice(blank.as_str().as_bytes())?;
        }
        Term::Made {
            request,
            op,
            label,
            rank,
        } => {
            text.extend_from_slice(b"_:")?;
            push_number(&mut text, b'm', tag)?;
            push_number(&mut text, b'r', *request)?;
            push_number(&mut text, b'o', *op)?;
            push_number(&mut text, b'l', *label)?;
            push_number(&mut text, b's', *rank)?;
        }
    }
    Ok(text)
}

/// Adds the canonical text of a term, with the dataset's tag in the labels of made nodes. An `Err`,
/// which comes only where memory runs out, leaves the text as it was.
pub fn canonical(alloc: Global, term: &Term, tag: u32, text: &mut Vec<u8>) -> Result<(), AllocError>
    ensures ok { OnOk result (text.new.items ≡ text.old.items ++ term_text tag term.now) }
    ensures err { OnErr result (text.new.items ≡ text.old.items) }
{
    text.extend_from_slice(term_text(alloc, term, tag)?.as_slice())
}
