//! The terms of a statement (RDF 1.1 N-Quads, productions 3 to 7).
ghost use Rattle.std.specs.Prelude.{◌≡◌, ◌≤◌, length, map, true, Some, None, IfOk, IsErrOf, string_bytes};
ghost use Rattle.std.specs.Char.{to_ascii_lowercase};
ghost use Rattle.std.specs.List.{list_all, prefix_len};
ghost use Rattle.iris.specs.Iri.{IsIri};
ghost use Rattle.iris.specs.Forms.{is_label_byte};
ghost use Rattle.iris.specs.Runs.{run_of, rest_of};
ghost use Rattle.terms.specs.Vocabulary.{xsd_string, lang_string};
ghost use Rattle.nquads_lines.specs.Forms.{is_tag_byte, literal};
ghost use Rattle.nquads_lines.specs.ReadTerms.{begins_with, label_of, blank_at, tagged, typed, suffix_at, literal_at, subject_at, object_at};
ghost use Rattle.nquads_lines.specs.Reading.{Gives};

use crate::escapes::{Quote, after};
use crate::quoted::{iri_at, quoted_at};
use crate::stop::Stop;
use crate::tags::is_tag;
use iris::Iri;
use iris::laws::{run_by_length, runs_are_longest};
use std::alloc::{AllocError, Global};
use terms::vocabulary::{RDF_LANG_STRING, XSD_STRING};
use terms::{Blank, Literal, Term, TermCow};

fn is_label_byte(b: u8) -> bool
    ensures { result ≡ is_label_byte b }
{
    b.is_ascii_alphanumeric() || b == b'_'
}

fn label_len(text: &[u8]) -> usize
    ensures within { result ≤ length text.now }
    ensures run { result ≡ prefix_len is_label_byte text.now }
{
    text.iter().take_while(|b| is_label_byte(**b)).count()
}

/// The letters, digits and `_` at the front of a text, and what follows them.
#[tactic(auto, using(crate::proofs::CutLaws::label_cut))]
fn label_run(text: &str) -> (&str, &str)
    ensures front { result.0.now ≡ run_of is_label_byte text.now }
    ensures rest { result.1.now ≡ rest_of is_label_byte text.now }
{
    run_by_length();
    text.split_at(label_len(text.as_bytes()))
}

/// The label of letters, digits and `_`. Where there are none it takes no memory.
fn label_of(alloc: Global, label: &str) -> Result<Blank, Stop>
    requires { list_all is_label_byte label.now ≡ true }
    ensures label { Gives (λ blank. blank) result (label_of label.now) }
    ensures bad { label_of label.now ≡ None → IsErrOf result Stop.Bad }
{
    if label.is_empty() {
        return Err(Stop::Bad);
    }
    match Blank::check(alloc, label)? {
        Some(blank) => Ok(blank),
        None => Err(Stop::Bad),
    }
}

/// The label of a blank node behind `_:`, and what follows it. Where none is there it takes no
/// memory.
#[tactic(auto, unfolding(crate::specs::ReadTerms::blank_at))]
fn blank_at(alloc: Global, text: &str) -> Result<(Blank, &str), Stop>
    ensures label { Gives (λ x. (x.0, x.1.now)) result (blank_at text.now) }
    ensures bad { blank_at text.now ≡ None → IsErrOf result Stop.Bad }
{
    runs_are_longest();
    let Some(text) = after(text, b'_') else {
        return Err(Stop::Bad);
    };
    let Some(text) = after(text, b':') else {
        return Err(Stop::Bad);
    };
    let (label, rest) = label_run(text);
    Ok((label_of(alloc, label)?, rest))
}

fn is_tag_byte(b: u8) -> bool
    ensures { result ≡ is_tag_byte b }
{
    b.is_ascii_alphanumeric() || b == b'-'
}

fn tag_len(text: &[u8]) -> usize
    ensures within { result ≤ length text.now }
    ensures run { result ≡ prefix_len is_tag_byte text.now }
{
    text.iter().take_while(|b| is_tag_byte(**b)).count()
}

/// The letters, digits and `-` at the front of a text, and what follows them.
#[tactic(auto, using(crate::proofs::CutLaws::tag_cut))]
fn tag_run(text: &str) -> (&str, &str)
    ensures front { result.0.now ≡ run_of is_tag_byte text.now }
    ensures rest { result.1.now ≡ rest_of is_tag_byte text.now }
{
    run_by_length();
    text.split_at(tag_len(text.as_bytes()))
}

/// A tag in lower case.
fn lowered(alloc: Global, tag: &str) -> Result<String, AllocError>
    ensures { IfOk result (λ lower. string_bytes lower ≡ map to_ascii_lowercase tag.now) }
{
    let mut tag = String::from_str(alloc, tag)?;
    tag.make_ascii_lowercase();
    Ok(tag)
}

fn xsd_string(alloc: Global) -> Result<Iri, AllocError>
    ensures { IfOk result (λ iri. iri ≡ xsd_string) }
{
    match Iri::check(alloc, XSD_STRING)? {
        Some(iri) => Ok(iri),
        None => unreachable!(),
    }
}

fn lang_string(alloc: Global) -> Result<Iri, AllocError>
    ensures text { IfOk result (λ iri. iri ≡ lang_string) }
    ensures form { IfOk result (λ _. IsIri lang_string) }
{
    match Iri::check(alloc, RDF_LANG_STRING)? {
        Some(iri) => Ok(iri),
        None => unreachable!(),
    }
}

/// A string alone.
fn simple(alloc: Global, lexical: String) -> Result<Term, Stop>
    ensures { Gives (λ x. x) result (Some (literal (string_bytes lexical) xsd_string None)) }
{
    match Literal::new(alloc, lexical, xsd_string(alloc)?, None)? {
        Some(literal) => Ok(Term::Literal(literal)),
        None => Err(Stop::Bad),
    }
}

/// A string with this tag. Where it is no tag it takes no memory.
fn tagged(alloc: Global, lexical: String, tag: &str) -> Result<Term, Stop>
    ensures term { Gives (λ x. x) result (tagged (string_bytes lexical)
        (map to_ascii_lowercase tag.now)) }
    ensures bad { tagged (string_bytes lexical) (map to_ascii_lowercase tag.now) ≡ None
        → IsErrOf result Stop.Bad }
{
    if !is_tag(tag.as_bytes()) {
        return Err(Stop::Bad);
    }
    let datatype = lang_string(alloc)?;
    let lower = lowered(alloc, tag)?;
    match Literal::new(alloc, lexical, datatype, Some(lower))? {
        Some(literal) => Ok(Term::Literal(literal)),
        None => Err(Stop::Bad),
    }
}

/// A string with this datatype. Where it is rdf:langString it takes no memory.
fn typed(alloc: Global, lexical: String, datatype: Iri) -> Result<Term, Stop>
    ensures term { Gives (λ x. x) result (typed (string_bytes lexical) datatype) }
    ensures bad { typed (string_bytes lexical) datatype ≡ None → IsErrOf result Stop.Bad }
{
    if datatype.as_str() == RDF_LANG_STRING {
        return Err(Stop::Bad);
    }
    match Literal::new(alloc, lexical, datatype, None)? {
        Some(literal) => Ok(Term::Literal(literal)),
        None => Err(Stop::Bad),
    }
}

/// The literal of a string, by what follows it, and what follows that.
#[tactic(auto, unfolding(crate::specs::ReadTerms::suffix_at))]
fn suffix_at(alloc: Global, lexical: String, text: &str) -> Result<(Term, &str), Stop>
    ensures { Gives (λ x. (x.0, x.1.now)) result (suffix_at (string_bytes lexical) text.now) }
{
    if let Some(text) = after(text, b'@') {
        let (tag, rest) = tag_run(text);
        return Ok((tagged(alloc, lexical, tag)?, rest));
    }
    if let Some(text) = after(text, b'^') {
        let Some(text) = after(text, b'^') else {
            return Err(Stop::Bad);
        };
        let (datatype, rest) = iri_at(alloc, text)?;
        return Ok((typed(alloc, lexical, datatype.into_iri(alloc)?)?, rest));
    }
    Ok((simple(alloc, lexical)?, text))
}

/// The literal at the front of a text, and what follows it.
#[tactic(auto, unfolding(crate::specs::ReadTerms::literal_at))]
fn literal_at(alloc: Global, text: &str) -> Result<(Term, &str), Stop>
    ensures { Gives (λ x. (x.0, x.1.now)) result (literal_at text.now) }
{
    let Some(text) = after(text, b'"') else {
        return Err(Stop::Bad);
    };
    let (lexical, rest) = quoted_at(alloc, Quote::String, text)?;
    suffix_at(alloc, lexical, rest)
}

/// Whether a text begins with this byte.
pub fn begins_with(text: &str, byte: u8) -> bool
    ensures { result ≡ begins_with byte text.now }
{
    match text.as_bytes() {
        [] => false,
        [first, ..] => *first == byte,
    }
}

/// The subject at the front of a text, and what follows it.
#[tactic(auto, unfolding(crate::specs::ReadTerms::subject_at))]
pub fn subject_at(alloc: Global, text: &str) -> Result<(TermCow<'_>, &str), Stop>
    ensures { Gives (λ x. (x.0, x.1.now)) result (subject_at text.now) }
{
    if begins_with(text, b'<') {
        let (iri, rest) = iri_at(alloc, text)?;
        return Ok((TermCow::iri(iri), rest));
    }
    let (blank, rest) = blank_at(alloc, text)?;
    Ok((TermCow::owned(alloc, Term::Blank(blank))?, rest))
}

/// The object at the front of a text, and what follows it.
#[tactic(auto, unfolding(crate::specs::ReadTerms::object_at))]
pub fn object_cow_at(alloc: Global, text: &str) -> Result<(TermCow<'_>, &str), Stop>
    ensures { Gives (λ x. (x.0, x.1.now)) result (object_at text.now) }
{
    if begins_with(text, b'"') {
        let (literal, rest) = literal_at(alloc, text)?;
        return Ok((TermCow::owned(alloc, literal)?, rest));
    }
    subject_at(alloc, text)
}

/// The object at the front of a text, and what follows it (RDF 1.1 N-Quads, production 5). `Bad`
/// where none stands there, `Memory` where memory runs out.
pub fn object_at(alloc: Global, text: &str) -> Result<(Term, &str), Stop>
    ensures { Gives (λ x. (x.0, x.1.now)) result (object_at text.now) }
{
    let (object, rest) = object_cow_at(alloc, text)?;
    Ok((object.into_term(alloc)?, rest))
}
