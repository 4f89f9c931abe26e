//! Values as terms: their kinds, and whether two are one term.
ghost use Rattle.std.specs.Prelude.{◌≡◌, IfOk};
ghost use Rattle.std.specs.Option.{option_map, option_cmp, option_copied};
ghost use Rattle.terms.specs.Term.{is_iri, is_literal, text_cmp};
ghost use Rattle.terms.specs.declared.term.Term.TheVariants.{Literal as OfLiteral, Made as MadeOf};
ghost use Rattle.values.specs.Values.{is_same_term, plain, truth, integer};
ghost use Rattle.expr.specs.Outcomes.{seen};
ghost use Rattle.expr.specs.Parts.{literal_of, whole, integer_literal, truth_text};

use crate::outcome::Outcome;
use std::alloc::{AllocError, Global};
use std::cmp::Ordering;
use terms::vocabulary::{XSD_BOOLEAN, XSD_INTEGER, XSD_STRING};
use terms::{Literal, Term};

/// The parts of a literal, wherever they lie.
#[derive(Clone, Copy, Drop)]
pub struct LiteralParts<'a> {
    lexical: &'a str,
    datatype: &'a str,
    tag: Option<&'a str>,
}

/// A term, wherever its texts lie.
#[derive(Clone, Copy, Drop)]
pub enum Parts<'a> {
    Iri(&'a str),
    Literal(LiteralParts<'a>),
    /// A literal of xsd:integer, in its shortest form.
    Integer(i64),
    Blank(&'a str),
    Made {
        request: u32,
        op: u32,
        label: u32,
        rank: u32,
    },
}

fn literal_parts(literal: &Literal) -> LiteralParts<'_>
    ensures { literal_of result ≡ literal.now }
{
    LiteralParts {
        lexical: literal.lexical(),
        datatype: literal.datatype().as_str(),
        tag: literal.tag(),
    }
}

fn term_parts(term: &Term) -> Parts<'_>
    ensures { whole result ≡ term.now }
{
    match term {
        Term::Iri(iri) => Parts::Iri(iri.as_str()),
        Term::Literal(literal) => Parts::Literal(literal_parts(literal)),
        Term::Blank(blank) => Parts::Blank(blank.as_str()),
        Term::Made {
            request,
            op,
            label,
            rank,
        } => Parts::Made {
            request: *request,
            op: *op,
            label: *label,
            rank: *rank,
        },
    }
}

fn plain(text: &str) -> Parts<'_>
    ensures { whole result ≡ plain text.entry.now }
{
    Parts::Literal(LiteralParts {
        lexical: text,
        datatype: XSD_STRING,
        tag: None,
    })
}

/// The text of a truth value.
pub fn truth_text<'a>(so: bool) -> &'a str
    ensures { result.now ≡ truth_text so }
{
    if so { "true" } else { "false" }
}

fn truth<'a>(so: bool) -> Parts<'a>
    ensures { whole result ≡ truth so }
{
    Parts::Literal(LiteralParts {
        lexical: truth_text(so),
        datatype: XSD_BOOLEAN,
        tag: None,
    })
}

fn integer_parts(digits: &str) -> LiteralParts<'_>
    ensures { literal_of result ≡ integer_literal digits.entry.now }
{
    LiteralParts {
        lexical: digits,
        datatype: XSD_INTEGER,
        tag: None,
    }
}

/// The term of a value, and nothing where it is an error.
pub fn parts_of<'v>(value: &'v Outcome<'_>) -> Option<Parts<'v>>
    ensures { option_map whole result ≡ seen value.entry.now }
{
    match value {
        Outcome::Error => None,
        Outcome::Known(term) => Some(term_parts(term)),
        Outcome::Made {
            request,
            op,
            label,
            rank,
        } => Some(Parts::Made {
            request: *request,
            op: *op,
            label: *label,
            rank: *rank,
        }),
        Outcome::Truth(so) => Some(truth(*so)),
        Outcome::Integer(number) => Some(Parts::Integer(*number)),
        Outcome::Text(text) => Some(plain(text)),
        Outcome::OwnText(text) => Some(plain(text.as_str())),
        Outcome::Iri(text) => Some(Parts::Iri(text)),
    }
}

impl Parts<'_> {
    /// Whether it is an IRI.
    pub fn is_iri(self) -> bool
        ensures { result ≡ is_iri (whole self.entry) }
    {
        matches!(self, Parts::Iri(_))
    }

    /// Whether it is a literal.
    pub fn is_literal(self) -> bool
        ensures { result ≡ is_literal (whole self.entry) }
    {
        matches!(self, Parts::Literal(_) | Parts::Integer(_))
    }
}

fn tag_cmp(a: Option<&str>, b: Option<&str>) -> Ordering
    ensures { result ≡ option_cmp text_cmp (option_copied a.entry) (option_copied b.entry) }
{
    match (a, b) {
        (None, None) => Ordering::Equal,
        (None, Some(_)) => Ordering::Less,
        (Some(_), None) => Ordering::Greater,
        (Some(a), Some(b)) => a.cmp(b),
    }
}

fn is_same_literal(a: LiteralParts<'_>, b: LiteralParts<'_>) -> bool
    ensures { result ≡ is_same_term (OfLiteral (literal_of a.entry))
        (OfLiteral (literal_of b.entry)) }
{
    a.lexical
        .cmp(b.lexical)
        .then(a.datatype.cmp(b.datatype))
        .then(tag_cmp(a.tag, b.tag))
        .is_eq()
}

/// Whether a literal is the shortest form of an integer.
fn is_integer_literal(
    alloc: Global,
    number: i64,
    literal: LiteralParts<'_>,
) -> Result<bool, AllocError>
    ensures { IfOk result (λ so. so ≡ is_same_term (integer number)
        (OfLiteral (literal_of literal.entry))) }
{
    let digits = number.to_string(alloc)?;
    Ok(is_same_literal(integer_parts(digits.as_str()), literal))
}

fn is_literal_integer(
    alloc: Global,
    literal: LiteralParts<'_>,
    number: i64,
) -> Result<bool, AllocError>
    ensures { IfOk result (λ so. so ≡ is_same_term (OfLiteral (literal_of literal.entry))
        (integer number)) }
{
    let digits = number.to_string(alloc)?;
    Ok(is_same_literal(literal, integer_parts(digits.as_str())))
}

fn is_same_node(a: (u32, u32, u32, u32), b: (u32, u32, u32, u32)) -> bool
    ensures { result ≡ is_same_term (MadeOf a.0 a.1 a.2 a.3) (MadeOf b.0 b.1 b.2 b.3) }
{
    a.0.cmp(&b.0)
        .then(a.1.cmp(&b.1))
        .then(a.2.cmp(&b.2))
        .then(a.3.cmp(&b.3))
        .is_eq()
}

#[tactic(auto, using(crate::proofs::PartsLaws::integers_same))]
fn is_same_integer(a: i64, b: i64) -> bool
    ensures { result ≡ is_same_term (integer a) (integer b) }
{
    a.cmp(&b).is_eq()
}

/// Whether two terms are one (SPARQL 1.1 Query, 17.4.1.8). It takes memory only where a literal is
/// compared with a computed integer.
pub fn is_same_term(alloc: Global, a: Parts<'_>, b: Parts<'_>) -> Result<bool, AllocError>
    ensures { IfOk result (λ so. so ≡ is_same_term (whole a.entry) (whole b.entry)) }
{
    match (a, b) {
        (Parts::Iri(a), Parts::Iri(b)) => Ok(a.cmp(b).is_eq()),
        (Parts::Literal(a), Parts::Literal(b)) => Ok(is_same_literal(a, b)),
        (Parts::Integer(a), Parts::Integer(b)) => Ok(is_same_integer(a, b)),
        (Parts::Integer(a), Parts::Literal(b)) => is_integer_literal(alloc, a, b),
        (Parts::Literal(a), Parts::Integer(b)) => is_literal_integer(alloc, a, b),
        (Parts::Blank(a), Parts::Blank(b)) => Ok(a.cmp(b).is_eq()),
        (
            Parts::Made {
                request,
                op,
                label,
                rank,
            },
            Parts::Made {
                request: other_request,
                op: other_op,
                label: other_label,
                rank: other_rank,
            },
        ) => Ok(is_same_node(
            (request, op, label, rank),
            (other_request, other_op, other_label, other_rank),
        )),
        _ => Ok(false),
    }
}
