//! Functions of one value (SPARQL 1.1 Query, 17.4.2 and 17.4.3).
ghost use Rattle.std.specs.Prelude.{◌≡◌, IfOk, Some, option_and_then, not, ◌||◌, pos};
ghost use Rattle.std.specs.Option.{option_map};
ghost use Rattle.terms.specs.Term.{is_iri, is_literal};
ghost use Rattle.values.specs.Values.{integer, characters, text_length, text_of, language_of, datatype_of, one_value, tag_or_empty};
ghost use Rattle.values.specs.Readings.{read_as};
ghost use Rattle.expr.specs.Outcomes.{seen, reading_of};

use crate::logic::{effective, negated, outcome_of};
use crate::outcome::Outcome;
use crate::parts::{parts_of, truth_text};
use crate::reading::{Reading, read};
use crate::texts::characters;
use algebra::OneOperator;
use std::alloc::{AllocError, Global};
use terms::vocabulary::{XSD_BOOLEAN, XSD_INTEGER, XSD_STRING};
use terms::{Literal, Term};

fn is_iri(value: &Outcome<'_>) -> Option<bool>
    ensures { result ≡ option_map is_iri (seen value.entry.now) }
{
    Some(parts_of(value)?.is_iri())
}

fn is_literal(value: &Outcome<'_>) -> Option<bool>
    ensures { result ≡ option_map is_literal (seen value.entry.now) }
{
    Some(parts_of(value)?.is_literal())
}

fn is_blank(value: &Outcome<'_>) -> Option<bool>
    ensures { result ≡ option_map (λ t. not (is_iri t || is_literal t)) (seen value.entry.now) }
{
    let parts = parts_of(value)?;
    Some(!(parts.is_iri() || parts.is_literal()))
}

fn term_text<'a>(term: &'a Term) -> Outcome<'a>
    ensures { seen result ≡ text_of term.entry.now }
{
    match term {
        Term::Iri(iri) => Outcome::Text(iri.as_str()),
        Term::Literal(literal) => Outcome::Text(literal.lexical()),
        Term::Blank(_) => Outcome::Error,
        Term::Made { .. } => Outcome::Error,
    }
}

/// STR.
fn text<'a>(alloc: Global, value: Outcome<'a>) -> Result<Outcome<'a>, AllocError>
    ensures { IfOk result (λ v. seen v ≡ option_and_then text_of (seen value.entry)) }
{
    match value {
        Outcome::Known(term) => Ok(term_text(term)),
        Outcome::Truth(so) => Ok(Outcome::Text(truth_text(so))),
        Outcome::Integer(number) => Ok(Outcome::OwnText(number.to_string(alloc)?)),
        Outcome::Text(text) => Ok(Outcome::Text(text)),
        Outcome::OwnText(text) => Ok(Outcome::OwnText(text)),
        Outcome::Iri(text) => Ok(Outcome::Text(text)),
        Outcome::Error => Ok(Outcome::Error),
        Outcome::Made { .. } => Ok(Outcome::Error),
    }
}

fn tag_or_empty<'a>(literal: &'a Literal) -> &'a str
    ensures { result.now ≡ tag_or_empty literal.entry.now.tag }
{
    match literal.tag() {
        Some(tag) => tag,
        None => "",
    }
}

fn term_language<'a>(term: &'a Term) -> Outcome<'a>
    ensures { seen result ≡ language_of term.entry.now }
{
    match term {
        Term::Literal(literal) => Outcome::Text(tag_or_empty(literal)),
        Term::Iri(_) | Term::Blank(_) | Term::Made { .. } => Outcome::Error,
    }
}

/// LANG.
fn language<'a>(value: Outcome<'a>) -> Outcome<'a>
    ensures { seen result ≡ option_and_then language_of (seen value.entry) }
{
    match value {
        Outcome::Known(term) => term_language(term),
        Outcome::Truth(_) => Outcome::Text(""),
        Outcome::Integer(_) => Outcome::Text(""),
        Outcome::Text(_) => Outcome::Text(""),
        Outcome::OwnText(_) => Outcome::Text(""),
        Outcome::Iri(_) => Outcome::Error,
        Outcome::Error => Outcome::Error,
        Outcome::Made { .. } => Outcome::Error,
    }
}

fn term_datatype<'a>(term: &'a Term) -> Outcome<'a>
    ensures { seen result ≡ datatype_of term.entry.now }
{
    match term {
        Term::Literal(literal) => Outcome::Iri(literal.datatype().as_str()),
        Term::Iri(_) | Term::Blank(_) | Term::Made { .. } => Outcome::Error,
    }
}

/// DATATYPE.
fn datatype<'a>(value: Outcome<'a>) -> Outcome<'a>
    ensures { seen result ≡ option_and_then datatype_of (seen value.entry) }
{
    match value {
        Outcome::Known(term) => term_datatype(term),
        Outcome::Truth(_) => Outcome::Iri(XSD_BOOLEAN),
        Outcome::Integer(_) => Outcome::Iri(XSD_INTEGER),
        Outcome::Text(_) => Outcome::Iri(XSD_STRING),
        Outcome::OwnText(_) => Outcome::Iri(XSD_STRING),
        Outcome::Iri(_) => Outcome::Error,
        Outcome::Error => Outcome::Error,
        Outcome::Made { .. } => Outcome::Error,
    }
}

fn counted<'r>(text: &str) -> Result<Outcome<'r>, AllocError>
    ensures { IfOk result (λ v. seen v ≡ Some (integer (pos (characters text.now)))) }
{
    // No memory holds a text of 2^63 characters.
    match i64::try_from(characters(text)) {
        Ok(length) => Ok(Outcome::Integer(length)),
        Err(_) => Err(AllocError),
    }
}

fn reading_length<'r>(reading: Reading<'_>) -> Result<Outcome<'r>, AllocError>
    ensures { IfOk result (λ v. seen v ≡ text_length (reading_of reading.entry)) }
{
    match reading {
        Reading::Text(text) => counted(text),
        Reading::Tagged(text, _) => counted(text),
        _ => Ok(Outcome::Error),
    }
}

/// STRLEN.
#[tactic(auto, using(crate::proofs::OutcomeLaws::length_some, crate::proofs::OutcomeLaws::length_none))]
fn length<'r>(value: &Outcome<'_>) -> Result<Outcome<'r>, AllocError>
    ensures { IfOk result (λ v. seen v ≡ option_and_then (λ t. text_length (read_as t))
        (seen value.entry.now)) }
{
    match read(value) {
        Some(reading) => reading_length(reading),
        None => Ok(Outcome::Error),
    }
}

/// A function of a value.
pub fn one_value<'a>(
    alloc: Global,
    operator: OneOperator,
    value: Outcome<'a>,
) -> Result<Outcome<'a>, AllocError>
    ensures { IfOk result (λ v. seen v ≡ option_and_then (one_value operator) (seen value.entry)) }
{
    match operator {
        OneOperator::Not => Ok(outcome_of(negated(effective(&value)))),
        OneOperator::IsIri => Ok(outcome_of(is_iri(&value))),
        OneOperator::IsBlank => Ok(outcome_of(is_blank(&value))),
        OneOperator::IsLiteral => Ok(outcome_of(is_literal(&value))),
        OneOperator::Str => text(alloc, value),
        OneOperator::Lang => Ok(language(value)),
        OneOperator::Datatype => Ok(datatype(value)),
        OneOperator::StrLen => length(&value),
    }
}
