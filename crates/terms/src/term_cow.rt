//! Terms whose IRIs may lie in a text.
ghost use Rattle.std.specs.Prelude.{◌≡◌, IfOk, IfSome};
ghost use Rattle.terms.specs.declared.term.Term.TheVariants as the_term;
ghost use Rattle.terms.specs.TermCow.{term_in};

use crate::term::Term;
use iris::IriCow;
use std::alloc::{AllocError, Global};
use std::marker::Model;

/// A term that may be borrowed from a text, where it is an IRI, or is owned. Contracts see the
/// term.
#[derive(Drop)]
pub struct TermCow<'a> {
    form: TermForm<'a>,
}

/// What such a term lies in memory as.
#[derive(Drop)]
pub enum TermForm<'a> {
    Iri(IriCow<'a>),
    Other(Box<Term>),
}

impl<'a> Model for TermCow<'a> {
    ghost use Rattle.terms.specs.declared.term.Term.{Term};
    ghost use Rattle.terms.specs.TermCow.{term_in};

    ghost Value = { Term };

    ghost view = { λ t. term_in t.form };
}

impl<'a> TermCow<'a> {
    /// An IRI.
    pub fn iri(iri: IriCow<'a>) -> TermCow<'a>
        ensures { result ≡ the_term.Iri iri.entry }
    {
        TermCow {
            form: TermForm::Iri(iri),
        }
    }

    /// Any term. An `Err` comes only where memory runs out.
    pub fn owned(alloc: Global, term: Term) -> Result<TermCow<'a>, AllocError>
        ensures { IfOk result (λ cow. cow ≡ term) }
    {
        Ok(TermCow {
            form: TermForm::Other(Box::new(alloc, term)?),
        })
    }

    /// Its text, where it is an IRI that is borrowed.
    pub fn borrowed_iri(&self) -> Option<&'a str>
        ensures { IfSome result (λ text. self.now ≡ the_term.Iri text.now) }
    {
        match &self.form {
            TermForm::Iri(iri) => iri.borrowed(),
            TermForm::Other(_) => None,
        }
    }

    /// What it lies in memory as.
    pub fn into_form(self) -> TermForm<'a>
        ensures { term_in result ≡ self.entry }
    {
        self.form
    }

    /// The term, in memory of its own. An `Err` comes only where memory runs out.
    pub fn into_term(self, alloc: Global) -> Result<Term, AllocError>
        ensures { IfOk result (λ term. term ≡ self.entry) }
    {
        match self.form {
            TermForm::Iri(iri) => Ok(Term::Iri(iri.into_iri(alloc)?)),
            TermForm::Other(term) => Ok(Box::into_inner(term)),
        }
    }
}
