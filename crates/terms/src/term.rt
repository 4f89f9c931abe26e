//! Terms. Contracts see the text parts as bytes, so `≡` of two terms says that they are the same
//! term.
ghost use Rattle.std.specs.Prelude.{◌≡◌, IfOk};

use crate::literal::{Blank, Literal};
use iris::Iri;
use std::alloc::{AllocError, Global};

/// An RDF term (RDF 1.1 Concepts, section 3).
#[derive(Drop)]
pub enum Term {
    Iri(Iri),
    Literal(Literal),
    /// A blank node as it was written, by its label.
    Blank(Blank),
    /// A blank node that a request made: which request, which operation of it, which label of its
    /// template, and which solution, by rank.
    Made {
        request: u32,
        op: u32,
        label: u32,
        rank: u32,
    },
}

impl Term {
    /// The same term again.
    pub fn copied(&self, alloc: Global) -> Result<Term, AllocError>
        ensures { IfOk result (λ copy. copy ≡ self.now) }
    {
        match self {
            Term::Iri(iri) => Ok(Term::Iri(iri.copied(alloc)?)),
            Term::Literal(literal) => Ok(Term::Literal(literal.copied(alloc)?)),
            Term::Blank(blank) => Ok(Term::Blank(blank.copied()?)),
            Term::Made {
                request,
                op,
                label,
                rank,
            } => Ok(Term::Made {
                request: *request,
                op: *op,
                label: *label,
                rank: *rank,
            }),
        }
    }
}

impl From<Iri> for Term {
    ghost use Rattle.terms.specs.declared.term.Term.TheVariants as term;

    ghost from_gives = { λ iri made. made ≡ term.Iri iri };

    fn from(iri: Iri) -> Term {
        Term::Iri(iri)
    }
}
