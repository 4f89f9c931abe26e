//! IRIs that lie in a text, or in memory of their own.
ghost use Rattle.std.specs.Prelude.{◌≡◌, true, false, IfOk, IfSome, MatchOption};
ghost use Rattle.std.specs.List.{list_all};
ghost use Rattle.iris.specs.Iri.{is_iri_byte, after_first, is_iri, IsIri};

use crate::iri::{Iri, is_scheme_byte};
use std::alloc::{AllocError, Global};
use std::marker::Model;

/// An absolute IRI, borrowed from a text or owned. Contracts see its UTF-8 bytes.
#[derive(Drop)]
pub struct IriCow<'a> {
    form: IriForm<'a>,
}

#[derive(Drop)]
pub(crate) enum IriForm<'a> {
    Borrowed(&'a str),
    Owned(Iri),
}

impl<'a> Model for IriCow<'a> {
    ghost use Rattle.std.specs.Prelude.{List, ℕ};
    ghost use Rattle.iris.specs.Iri.{IsIri};
    ghost use Rattle.iris.specs.IriCow.{bytes_in};

    ghost Value = { List ℕ };

    ghost view = { λ i. bytes_in i.form };

    ghost invariant = { λ i. IsIri (bytes_in i.form) };
}

/// Whether these bytes go on with a scheme to its colon.
fn ends_scheme(bytes: &[u8]) -> bool
    requires { list_all is_iri_byte bytes.now ≡ true }
    ensures { result ≡ after_first bytes.now }
{
    let mut rest = bytes;
    while let [first, tail @ ..] = rest {
        if *first == b':' {
            return true;
        }
        if !is_scheme_byte(*first) {
            return false;
        }
        rest = tail;
    }
    false
}

/// Whether bytes that an IRI may hold are one: they begin with a scheme.
fn has_scheme(bytes: &[u8]) -> bool
    requires { list_all is_iri_byte bytes.now ≡ true }
    ensures { result ≡ is_iri bytes.now }
{
    match bytes {
        [] => false,
        [first, rest @ ..] => first.is_ascii_alphabetic() && ends_scheme(rest),
    }
}

impl<'a> IriCow<'a> {
    /// The IRI of a text of bytes that an IRI may hold, if it is one. It takes no memory.
    pub fn check(text: &'a str) -> Option<IriCow<'a>>
        requires { list_all is_iri_byte text.now ≡ true }
        ensures { MatchOption result (is_iri text.now ≡ false)
            (λ iri. (iri ≡ text.now) × IsIri text.now) }
    {
        if !has_scheme(text.as_bytes()) {
            return None;
        }
        Some(IriCow {
            form: IriForm::Borrowed(text),
        })
    }

    /// An IRI that has memory of its own.
    pub fn owned(iri: Iri) -> IriCow<'a>
        ensures { result ≡ iri }
    {
        IriCow {
            form: IriForm::Owned(iri),
        }
    }

    /// Its text, where it is borrowed.
    pub fn borrowed(&self) -> Option<&'a str>
        ensures text { IfSome result (λ text. text.now ≡ self.now) }
        ensures form { IsIri self.now }
    {
        match &self.form {
            IriForm::Borrowed(text) => Some(*text),
            IriForm::Owned(_) => None,
        }
    }

    /// The IRI, in memory of its own. An `Err` comes only where memory runs out.
    pub fn into_iri(self, alloc: Global) -> Result<Iri, AllocError>
        ensures { IfOk result (λ iri. iri ≡ self.entry) }
    {
        match self.form {
            IriForm::Borrowed(text) => Iri::from_checked(alloc, text),
            IriForm::Owned(iri) => Ok(iri),
        }
    }
}
