//! What a value is read as where an operator asks for it.
ghost use Rattle.std.specs.Prelude.{◌≡◌};
ghost use Rattle.std.specs.Option.{option_map};
ghost use Rattle.std.specs.List.{list_all};
ghost use Rattle.values.specs.Readings.{is_text, is_digit, integer_read, boolean_read, typed_read, literal_read, read_as};
ghost use Rattle.expr.specs.Outcomes.{seen, reading_of};
ghost use Rattle.expr.specs.Numerals.{without_sign, is_numeral};

use crate::outcome::Outcome;
use terms::vocabulary::{XSD_BOOLEAN, XSD_INTEGER, XSD_STRING};
use terms::{Literal, Term};

/// What a value is read as (SPARQL 1.1 Query, 17.1 and 17.2).
#[derive(Clone, Copy, Drop)]
pub enum Reading<'a> {
    Number(i64),
    /// An integer's form that doesn't fit 64 signed bits.
    TooLarge,
    Text(&'a str),
    /// A text and its language tag.
    Tagged(&'a str, &'a str),
    Truth(bool),
    IllFormed,
    Other,
}

/// Whether two texts are the same.
#[tactic(auto, using(crate::proofs::NumeralLaws::is_text_by_bytes))]
pub fn is_text(a: &str, b: &str) -> bool
    ensures { result ≡ is_text a.now b.now }
{
    a == b
}

fn without_sign(text: &[u8]) -> &[u8]
    ensures { result.now ≡ without_sign text.now }
{
    match text {
        [b'+' | b'-', digits @ ..] => digits,
        _ => text,
    }
}

fn is_digit(byte: u8) -> bool
    ensures { result ≡ is_digit byte }
{
    byte.is_ascii_digit()
}

fn are_digits(bytes: &[u8]) -> bool
    ensures { result ≡ list_all is_digit bytes.now }
{
    bytes.iter().all(|byte| is_digit(*byte))
}

fn is_numeral(bytes: &[u8]) -> bool
    ensures { result ≡ is_numeral bytes.now }
{
    !bytes.is_empty() && are_digits(bytes)
}

/// A lexical form of xsd:integer.
#[tactic(auto, using(crate::proofs::NumeralLaws::no_numeral, crate::proofs::NumeralLaws::numeral_parsed))]
fn integer_read<'a>(text: &str) -> Reading<'a>
    ensures { reading_of result ≡ integer_read text.now }
{
    if !is_numeral(without_sign(text.as_bytes())) {
        return Reading::IllFormed;
    }
    match text.parse::<i64>() {
        Ok(number) => Reading::Number(number),
        Err(_) => Reading::TooLarge,
    }
}

/// A lexical form of xsd:boolean.
fn boolean_read<'a>(text: &str) -> Reading<'a>
    ensures { reading_of result ≡ boolean_read text.now }
{
    if is_text(text, "true") || is_text(text, "1") {
        return Reading::Truth(true);
    }
    if is_text(text, "false") || is_text(text, "0") {
        return Reading::Truth(false);
    }
    Reading::IllFormed
}

/// A lexical form of a datatype.
fn typed_read<'a>(lexical: &'a str, datatype: &str) -> Reading<'a>
    ensures { reading_of result ≡ typed_read lexical.entry.now datatype.now }
{
    if is_text(datatype, XSD_STRING) {
        return Reading::Text(lexical);
    }
    if is_text(datatype, XSD_INTEGER) {
        return integer_read(lexical);
    }
    if is_text(datatype, XSD_BOOLEAN) {
        return boolean_read(lexical);
    }
    Reading::Other
}

fn literal_read(literal: &Literal) -> Reading<'_>
    ensures { reading_of result ≡ literal_read literal.now }
{
    match literal.tag() {
        Some(tag) => Reading::Tagged(literal.lexical(), tag),
        None => typed_read(literal.lexical(), literal.datatype().as_str()),
    }
}

fn term_read(term: &Term) -> Reading<'_>
    ensures { reading_of result ≡ read_as term.now }
{
    match term {
        Term::Literal(literal) => literal_read(literal),
        Term::Iri(_) | Term::Blank(_) | Term::Made { .. } => Reading::Other,
    }
}

/// What a value is read as, and nothing where it is an error.
#[tactic(auto, using(crate::proofs::NumeralLaws::integer_read_of))]
pub fn read<'v>(value: &'v Outcome<'_>) -> Option<Reading<'v>>
    ensures { option_map reading_of result ≡ option_map read_as (seen value.entry.now) }
{
    match value {
        Outcome::Error => None,
        Outcome::Known(term) => Some(term_read(term)),
        Outcome::Truth(so) => Some(Reading::Truth(*so)),
        Outcome::Integer(number) => Some(Reading::Number(*number)),
        Outcome::Text(text) => Some(Reading::Text(text)),
        Outcome::OwnText(text) => Some(Reading::Text(text.as_str())),
        Outcome::Iri(_) => Some(Reading::Other),
        Outcome::Made { .. } => Some(Reading::Other),
    }
}
