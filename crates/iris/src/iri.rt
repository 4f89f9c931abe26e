ghost use Rattle.std.specs.Prelude.{◌≡◌, ◌↔◌, IsTrue, true, false, List, ℕ, IfOk, IfSome, IfNone, MatchOption};
ghost use Rattle.std.specs.List.{list_all};
ghost use Rattle.iris.specs.Iri.{is_letter, is_digit, is_scheme_byte, is_iri_byte, after_first, is_iri, IsIri};

use std::alloc::{AllocError, Global};
use std::marker::Model;
use std::sync::ArcStr;

/// An absolute IRI. Contracts see its UTF-8 bytes. Copies of it share them.
#[derive(Drop)]
pub struct Iri {
    text: ArcStr,
}

impl Model for Iri {
    ghost use Rattle.std.specs.Prelude.{List, ℕ};
    ghost use Rattle.std.specs.Arc.{arc_str_bytes};
    ghost use Rattle.iris.specs.Iri.{IsIri};

    ghost Value = { List ℕ };

    ghost view = { λ i. arc_str_bytes i.text };

    ghost invariant = { λ i. IsIri (arc_str_bytes i.text) };
}

/// Whether a scheme may hold this byte after its first (RFC 3986, 3.1).
pub(crate) fn is_scheme_byte(b: u8) -> bool
    ensures { result ≡ is_scheme_byte b }
{
    b.is_ascii_alphanumeric() || matches!(b, b'+' | b'-' | b'.')
}

/// Whether an IRI may hold this byte after its scheme (RDF 1.1 N-Quads, production 8, without its
/// escapes).
pub fn is_iri_byte(b: u8) -> bool
    ensures { result ≡ is_iri_byte b }
{
    b > b' '
        && !matches!(
            b,
            b'<' | b'>' | b'"' | b'{' | b'}' | b'|' | b'^' | b'`' | b'\\'
        )
}

fn are_iri_bytes(bytes: &[u8]) -> bool
    ensures { result ≡ list_all is_iri_byte bytes.now }
{
    bytes.iter().all(|b| is_iri_byte(*b))
}

fn is_after_first(bytes: &[u8]) -> bool
    ensures { result ≡ after_first bytes.now }
{
    let mut rest = bytes;
    while let [first, tail @ ..] = rest {
        if *first == b':' {
            return are_iri_bytes(tail);
        }
        if !is_scheme_byte(*first) {
            return false;
        }
        rest = tail;
    }
    false
}

/// Whether a text is an absolute IRI.
pub fn is_iri(text: &[u8]) -> bool
    ensures { result ≡ is_iri text.now }
{
    match text {
        [] => false,
        [first, rest @ ..] => first.is_ascii_alphabetic() && is_after_first(rest),
    }
}

impl Iri {
    /// The IRI of a text, if it is one.
    pub fn check(alloc: Global, text: &str) -> Result<Option<Iri>, AllocError>
        ensures { IfOk result (λ found. MatchOption found (is_iri text.now ≡ false)
            (λ iri. (iri ≡ text.now) × IsIri text.now)) }
    {
        if !is_iri(text.as_bytes()) {
            return Ok(None);
        }
        Ok(Some(Iri::from_checked(alloc, text)?))
    }

    /// The IRI of a text that is one.
    pub(crate) fn from_checked(alloc: Global, text: &str) -> Result<Iri, AllocError>
        requires { IsIri text.now }
        ensures { IfOk result (λ iri. iri ≡ text.now) }
    {
        let text = ArcStr::from_str(alloc, text)?;
        Ok(Iri { text })
    }

    /// The same IRI again, in the same memory. An `Err` comes only where more copies would be held
    /// at once than can be counted.
    pub fn copied(&self, _alloc: Global) -> Result<Iri, AllocError>
        ensures { IfOk result (λ copy. copy ≡ self.now) }
    {
        let text = self.text.clone()?;
        Ok(Iri { text })
    }

    pub fn as_str(&self) -> &str
        ensures text { result.now ≡ self.now }
        ensures form { IsIri self.now }
    {
        self.text.as_str()
    }
}
