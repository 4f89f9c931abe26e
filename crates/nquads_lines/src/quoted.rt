//! What stands between quotes and between angle brackets, with its escapes undone (RDF 1.1 N-Quads,
//! productions 8 and 9).
ghost use Rattle.std.specs.Prelude.{◌≡◌, ◌+◌, ◌≤◌, length, true, IfOk, IfSome, IsErrOf, None, string_bytes};
ghost use Rattle.std.specs.List.{list_all, prefix_len};
ghost use Rattle.iris.specs.Iri.{is_iri_byte};
ghost use Rattle.iris.specs.Runs.{run_of, rest_of};
ghost use Rattle.iris.specs.Bracketed.{iri_of};
ghost use Rattle.nquads_lines.specs.Escapes.{is_plain};
ghost use Rattle.nquads_lines.specs.Undone.{Finds, after, closing, is_open, quoted_at, iri_at};
ghost use Rattle.nquads_lines.specs.Reading.{Gives};

use crate::escapes::{Quote, after, escape_at};
use crate::stop::Stop;
use iris::laws::{run_by_length, runs_are_longest};
use iris::{Iri, IriCow, is_iri};
use std::alloc::Global;

fn is_plain(b: u8) -> bool
    ensures { result ≡ is_plain b }
{
    !matches!(b, b'"' | b'\\' | b'\n' | b'\r')
}

fn is_iri_byte(b: u8) -> bool
    ensures { result ≡ is_iri_byte b }
{
    b > b' '
        && !matches!(
            b,
            b'<' | b'>' | b'"' | b'{' | b'}' | b'|' | b'^' | b'`' | b'\\'
        )
}

fn plain_len(text: &[u8]) -> usize
    ensures within { result ≤ length text.now }
    ensures run { result ≡ prefix_len is_plain text.now }
{
    text.iter().take_while(|b| is_plain(**b)).count()
}

fn iri_len(text: &[u8]) -> usize
    ensures within { result ≤ length text.now }
    ensures run { result ≡ prefix_len is_iri_byte text.now }
{
    text.iter().take_while(|b| is_iri_byte(**b)).count()
}

/// How many bytes at the front may stand as they are.
fn open_len(quote: Quote, text: &[u8]) -> usize
    ensures within { result ≤ length text.now }
    ensures run { result ≡ prefix_len (is_open quote) text.now }
{
    match quote {
        Quote::String => plain_len(text),
        Quote::Iri => iri_len(text),
    }
}

/// The bytes at the front that may stand as they are, and what follows them.
#[tactic(auto, using(crate::proofs::CutLaws::open_cut))]
fn open_run(quote: Quote, text: &str) -> (&str, &str)
    ensures front { result.0.now ≡ run_of (is_open quote) text.now }
    ensures rest { result.1.now ≡ rest_of (is_open quote) text.now }
    ensures shorter { length result.1.now ≤ length text.now }
{
    run_by_length();
    text.split_at(open_len(quote, text.as_bytes()))
}

/// What follows the byte that ends what is quoted.
fn close_at(quote: Quote, text: &str) -> Option<&str>
    ensures { Finds (λ rest. rest.now) result (after (closing quote) text.now) }
{
    match quote {
        Quote::String => after(text, b'"'),
        Quote::Iri => after(text, b'>'),
    }
}

fn kept(text: &str) -> &str
    ensures { result.now ≡ text.now }
{
    text
}

/// What is quoted up to its closing byte, with its escapes undone, and what follows.
pub fn quoted_at(alloc: Global, quote: Quote, text: &str) -> Result<(String, &str), Stop>
    ensures { Gives (λ x. (string_bytes x.0, x.1.now)) result (quoted_at quote text.now) }
{
    runs_are_longest();
    let (run, rest) = open_run(quote, text);
    let mut value = String::from_str(alloc, run)?;
    let mut rest = kept(rest);
    while let Some(text) = after(rest, b'\\') {
        let Some((found, text)) = escape_at(quote, text) else {
            return Err(Stop::Bad);
        };
        value.push(found)?;
        let (run, text) = open_run(quote, text);
        value.push_str(run)?;
        rest = kept(text);
    }
    match close_at(quote, rest) {
        Some(rest) => Ok((value, rest)),
        None => Err(Stop::Bad),
    }
}

/// The IRI of a text of bytes that an IRI may hold, if it is one.
#[tactic(auto, using(iris::proofs::TextLaws::text_laws), unfolding(iris::specs::Bracketed::iri_of))]
fn iri_of(text: &str) -> Result<IriCow<'_>, Stop>
    requires { list_all is_iri_byte text.now ≡ true }
    ensures { Gives (λ iri. iri) result (iri_of text.now) }
{
    match IriCow::check(text) {
        Some(iri) => Ok(iri),
        None => Err(Stop::Bad),
    }
}

/// The IRI of any text, if it is one, in memory of its own. Of a text that is none it takes no
/// memory.
#[tactic(auto, using(iris::proofs::TextLaws::text_laws), unfolding(iris::specs::Bracketed::iri_of))]
fn owned_iri_of<'a>(alloc: Global, text: &str) -> Result<IriCow<'a>, Stop>
    ensures iri { Gives (λ iri. iri) result (iri_of text.now) }
    ensures bad { iri_of text.now ≡ None → IsErrOf result Stop.Bad }
{
    if !is_iri(text.as_bytes()) {
        return Err(Stop::Bad);
    }
    match Iri::check(alloc, text)? {
        Some(iri) => Ok(IriCow::owned(iri)),
        None => Err(Stop::Bad),
    }
}

/// The IRI in angle brackets at the front of a text, and what follows it.
#[tactic(auto, using(crate::proofs::QuotedLaws::plain_iri), unfolding(crate::specs::Undone::iri_at))]
pub fn iri_at(alloc: Global, text: &str) -> Result<(IriCow<'_>, &str), Stop>
    ensures { Gives (λ x. (x.0, x.1.now)) result (iri_at text.now) }
{
    runs_are_longest();
    let Some(text) = after(text, b'<') else {
        return Err(Stop::Bad);
    };
    let (run, rest) = open_run(Quote::Iri, text);
    if let Some(rest) = after(rest, b'>') {
        return Ok((iri_of(run)?, rest));
    }
    let (value, rest) = quoted_at(alloc, Quote::Iri, text)?;
    Ok((owned_iri_of(alloc, value.as_str())?, rest))
}
