//! A frozen dictionary.
ghost use Rattle.std.specs.Prelude.{◌≡◌, ◌<◌, ◌≤◌, ◌++◌, true, false, OnErr, length, map, filter, IfOk, IfSome, IfNone};
ghost use Rattle.std.specs.List.{list_all};
ghost use Rattle.sets.specs.Sets.{set_of as the_set_of, has};
ghost use Rattle.terms.specs.Term.{term_order};
ghost use Rattle.terms.specs.Placed.{AreApart};
ghost use Rattle.dict.specs.Dictionary.{IsDictionary, is_written, is_known, term_of as the_term_of, numbers};

use crate::ranks::{in_order, in_order_by, numbered};
use datasets::Id;
use sets::{place_of, set_of};
use std::alloc::{AllocError, Global};
use std::marker::Model;
use std::thread::Threads;
use terms::Term;

/// Terms, each once and in their order. The number of a term is its place, counted from 0. A node
/// that a request makes is in no dictionary: its number is the node itself. Contracts see the list
/// of the terms.
#[derive(Drop)]
pub struct Dict {
    terms: Vec<Term>,
}

impl Model for Dict {
    ghost use Rattle.std.specs.Prelude.{List, length, ◌≤◌};
    ghost use Rattle.terms.specs.declared.term.Term.{Term};
    ghost use Rattle.dict.specs.Dictionary.{IsDictionary};

    ghost Value = { List Term };

    ghost view = { λ d. d.terms.items };

    ghost invariant = { λ d. IsDictionary d.terms.items × (length d.terms.items ≤ 4294967296) };
}

impl Dict {
    /// The dictionary that is this list. 2^32 terms and more are out of memory, since a number has
    /// 32 bits.
    fn of(terms: Vec<Term>) -> Result<Dict, AllocError>
        requires { IsDictionary terms.items }
        ensures ok { IfOk result (λ dict. dict ≡ terms.items) }
        ensures err { OnErr result (4294967296 ≤ length terms.items) }
    {
        if terms.len() >= 0x1_0000_0000 {
            return Err(AllocError);
        }
        Ok(Dict { terms })
    }

    /// The dictionary of these terms, in any order and with doubles. Made nodes are left out. An
    /// error comes only where 2^32 terms and more are left, since a number has 32 bits.
    pub fn freeze(mut terms: Vec<Term>) -> Result<Dict, AllocError>
        ensures terms { IfOk result (λ dict. dict
            ≡ the_set_of term_order (filter is_written terms.items)) }
        ensures form { IfOk result (λ dict. IsDictionary dict) }
        ensures err { OnErr result (4294967296
            ≤ length (the_set_of term_order (filter is_written terms.items))) }
    {
        terms.retain(|term| is_written(term));
        Dict::of(set_of(terms))
    }

    /// The dictionary of these terms and of more, in any order and with doubles, and the numbers of
    /// the first list's terms, each at its term's place. Made nodes are left out of the dictionary.
    /// Terms are compared only to put them in order, and none is copied. An error comes only where
    /// memory runs out.
    pub fn numbered(
        alloc: Global,
        terms: Vec<Term>,
        more: Vec<Term>,
    ) -> Result<(Dict, Vec<Id>), AllocError>
        ensures terms { IfOk result (λ r. r.0 ≡ the_set_of term_order
            (filter is_written (terms.items ++ more.items))) }
        ensures form { IfOk result (λ r. IsDictionary r.0) }
        ensures renamed { IfOk result (λ r. map (the_term_of r.0) r.1.items ≡ terms.items) }
        ensures known { IfOk result (λ r. list_all (is_known r.0) r.1.items ≡ true) }
    {
        let count = terms.len();
        let ordered = in_order(alloc, terms, more)?;
        let length = ordered.placed.len();
        let (found, mut ids) = numbered(alloc, ordered, length)?;
        let dict = Dict::of(found)?;
        ids.truncate(count);
        Ok((dict, ids))
    }

    /// The same, where several threads put the terms in order.
    pub fn numbered_by<T: Threads + Sync>(
        rt: &T,
        alloc: Global,
        terms: Vec<Term>,
        more: Vec<Term>,
    ) -> Result<(Dict, Vec<Id>), AllocError>
        ensures terms { IfOk result (λ r. r.0 ≡ the_set_of term_order
            (filter is_written (terms.items ++ more.items))) }
        ensures form { IfOk result (λ r. IsDictionary r.0) }
        ensures renamed { IfOk result (λ r. map (the_term_of r.0) r.1.items ≡ terms.items) }
        ensures known { IfOk result (λ r. list_all (is_known r.0) r.1.items ≡ true) }
    {
        let count = terms.len();
        let ordered = in_order_by(rt, alloc, terms, more)?;
        let length = ordered.placed.len();
        let (found, mut ids) = numbered(alloc, ordered, length)?;
        let dict = Dict::of(found)?;
        ids.truncate(count);
        Ok((dict, ids))
    }

    /// How many terms it has.
    pub fn len(&self) -> usize
        ensures number { result ≡ length self.now }
        ensures form { IsDictionary self.now }
    {
        self.terms.len()
    }

    /// Its terms, each once and in their order: the number of a term is its place here.
    #[tactic(auto, using(crate::proofs::Apart::dictionary_apart))]
    pub fn terms(&self) -> &[Term]
        ensures terms { result.now ≡ self.now }
        ensures form { IsDictionary self.now }
        ensures apart { AreApart self.now }
    {
        self.terms.as_slice()
    }

    /// Its terms, each once and in their order, taken out of it.
    #[tactic(auto, using(crate::proofs::Apart::dictionary_apart))]
    pub fn into_terms(self) -> Vec<Term>
        ensures terms { result.items ≡ self }
        ensures form { IsDictionary self }
        ensures apart { AreApart self }
    {
        let Dict { terms } = self;
        terms
    }

    /// The number of a term, or nothing where the dictionary lacks it. It takes no memory.
    pub fn id_of(&self, term: &Term) -> Option<Id>
        ensures known { IfSome result (λ id. is_known self.now id ≡ true) }
        ensures found { IfSome result (λ id. the_term_of self.now id ≡ term.now) }
        ensures written { IfNone result (is_written term.now ≡ true) }
        ensures none { IfNone result (has term_order self.now term.now ≡ false) }
    {
        match term {
            Term::Made {
                request,
                op,
                label,
                rank,
            } => Some(Id::Made {
                request: *request,
                op: *op,
                label: *label,
                rank: *rank,
            }),
            _ => match place_of(self.terms.as_slice(), term) {
                Some(place) => Some(Id::Known(number_of(place))),
                None => None,
            },
        }
    }

    /// The term of a number.
    pub fn term_of(&self, alloc: Global, id: Id) -> Result<Term, AllocError>
        requires { is_known self.now id ≡ true }
        ensures { IfOk result (λ term. term ≡ the_term_of self.now id) }
    {
        match id {
            Id::Known(place) => self.terms[place as usize].copied(alloc),
            Id::Made {
                request,
                op,
                label,
                rank,
            } => Ok(Term::Made {
                request,
                op,
                label,
                rank,
            }),
        }
    }

    /// Whether the term of a number is an IRI.
    pub fn is_iri(&self, id: Id) -> bool
        ensures { result ≡ (numbers self.now).is_iri id }
    {
        match id {
            Id::Known(place) => matches!(self.terms.get(place as usize), Some(Term::Iri(_))),
            Id::Made { .. } => false,
        }
    }

    /// Whether the term of a number is a literal.
    pub fn is_literal(&self, id: Id) -> bool
        ensures { result ≡ (numbers self.now).is_literal id }
    {
        match id {
            Id::Known(place) => matches!(self.terms.get(place as usize), Some(Term::Literal(_))),
            Id::Made { .. } => false,
        }
    }
}

/// A place below 2^32 as a number.
fn number_of(place: usize) -> u32
    requires { place < 4294967296 }
    ensures { result ≡ place }
{
    match u32::try_from(place) {
        Ok(number) => number,
        Err(_) => unreachable!(),
    }
}

/// Whether a term was written, and not made by a request.
fn is_written(term: &Term) -> bool
    ensures { result ≡ is_written term.now }
{
    !matches!(term, Term::Made { .. })
}
