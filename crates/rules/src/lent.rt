//! Terms of requests, where they lie.
ghost use Rattle.std.specs.Prelude.{◌≡◌};

use std::marker::Model;
use terms::Term;

/// A term that lies elsewhere. Contracts see the term.
#[derive(Drop)]
pub struct TermRef<'a> {
    term: &'a Term,
}

impl<'a> Model for TermRef<'a> {
    ghost use Rattle.terms.specs.declared.term.Term.{Term};

    ghost Value = { Term };

    ghost view = { λ t. t.term.now };
}

impl<'a> TermRef<'a> {
    /// The term there. It takes no memory.
    pub fn new(term: &'a Term) -> TermRef<'a>
        ensures { result ≡ term.entry.now }
    {
        TermRef { term }
    }

    /// The term.
    pub fn get(&self) -> &'a Term
        ensures { result.now ≡ self.now }
    {
        self.term
    }
}
