//! Terms by their places.
ghost use Rattle.std.specs.Prelude.{◌≡◌, true, [], IfOk, IfSome, slice_index_or};
ghost use Rattle.std.specs.List.{AllZip};
ghost use Rattle.terms.specs.Placed.{term_at, is_within, AreApart, AreAt, GoesOn, IsAt, IsFoundAt};

use crate::term::Term;
use indexmap::IndexSet;
use rayon::prelude::*;
use std::alloc::{AllocError, Global};
use std::marker::Model;
use std::thread::{Threads, spawn};

/// Terms, each once and in the order in which they came, so that a place stands for a term.
/// Contracts see the list of the terms.
#[derive(Drop)]
pub struct TermTable {
    terms: TableForm,
}

/// Terms that are found again by their hashes, or that are only listed, until one is looked for.
#[derive(Drop)]
pub(crate) enum TableForm {
    Hashed(IndexSet<Term>),
    Listed(Vec<Term>),
}

impl Model for TermTable {
    ghost use Rattle.std.specs.Prelude.{List};
    ghost use Rattle.terms.specs.declared.term.Term.{Term};
    ghost use Rattle.terms.specs.Table.{listed, IsApart};

    ghost Value = { List Term };

    ghost view = { λ t. listed t.terms };

    ghost invariant = { λ t. IsApart t.terms };
}

impl TermTable {
    /// No term. It takes no memory.
    pub fn new(alloc: Global) -> TermTable
        ensures { result ≡ [] }
    {
        TermTable {
            terms: TableForm::Hashed(IndexSet::new(alloc)),
        }
    }

    /// These terms, in this order. It takes no memory, and looks for no term.
    pub fn from_list(terms: Vec<Term>) -> TermTable
        requires { AreApart terms.items }
        ensures { result ≡ terms.items }
    {
        TermTable {
            terms: TableForm::Listed(terms),
        }
    }

    /// The terms in the order in which they came: the place of a term is its place here.
    pub fn as_slice(&self) -> &[Term]
        ensures terms { result.now ≡ self.now }
        ensures once { AreApart self.now }
    {
        match &self.terms {
            TableForm::Hashed(set) => set.as_slice(),
            TableForm::Listed(list) => list.as_slice(),
        }
    }

    /// The place of a term, counted from 0, which comes last where it is new. It fails where memory
    /// runs out; whatever comes, no term changes its place.
    pub fn place_of(&mut self, term: Term) -> Result<u32, AllocError>
        ensures term { IfOk result (λ place. term_at self.new place ≡ term) }
        ensures within { IfOk result (λ place. is_within self.new place ≡ true) }
        ensures kept { GoesOn self.old self.new }
    {
        match &mut self.terms {
            TableForm::Hashed(set) => put(set, term),
            TableForm::Listed(list) => {
                let mut set = hashed(*list.allocator(), list.as_slice())?;
                let place = put(&mut set, term)?;
                self.terms = TableForm::Hashed(set);
                Ok(place)
            }
        }
    }

    /// The places of another table's terms, in their order there: those that are new come last. It
    /// fails where memory runs out; whatever comes, no term changes its place.
    pub fn places_of(&mut self, alloc: Global, others: TermTable) -> Result<Vec<u32>, AllocError>
        ensures places { IfOk result (λ places. AreAt self.new places.items others) }
        ensures kept { GoesOn self.old self.new }
    {
        let mut places = Vec::new(alloc);
        for term in others.into_list(alloc)? {
            let place = self.place_of(term)?;
            places.push(place)?;
        }
        Ok(places)
    }

    /// The place of a term, if it is found. A table that only lists its terms finds none.
    fn find(&self, term: &Term) -> Option<u32>
        ensures { IfSome result (IsAt self.now term.now) }
    {
        match &self.terms {
            TableForm::Hashed(set) => found_in(set, term),
            TableForm::Listed(_) => None,
        }
    }

    /// The places of these terms, of those that are found, by several threads.
    fn find_all<T: Threads + Sync>(
        &self,
        rt: &T,
        alloc: Global,
        terms: &[Term],
    ) -> Result<Vec<Option<u32>>, AllocError>
        ensures { IfOk result (λ found. AllZip (IsFoundAt self.now) terms.now found.items) }
    {
        terms
            .par_iter()
            .map(
                |term: &Term| -> Option<u32>
                    ensures { IsFoundAt self.entry.now term.now result }
                { self.find(term) },
            )
            .collect(rt, alloc)
    }

    /// The place of a term, which is the one where it was found, if it was.
    fn place_found(
        &mut self,
        alloc: Global,
        term: &Term,
        found: Option<u32>,
    ) -> Result<u32, AllocError>
        requires { IsFoundAt self.old term.now found }
        ensures term { IfOk result (λ place. term_at self.new place ≡ term.now) }
        ensures within { IfOk result (λ place. is_within self.new place ≡ true) }
        ensures kept { GoesOn self.old self.new }
    {
        match found {
            Some(place) => Ok(place),
            None => self.place_of(term.copied(alloc)?),
        }
    }

    /// The places of these terms. Those that were found nowhere come last where they are new. It
    /// fails where memory runs out; whatever comes, no term changes its place.
    fn places_found(
        &mut self,
        alloc: Global,
        terms: &[Term],
        found: &[Option<u32>],
    ) -> Result<Vec<u32>, AllocError>
        requires { AllZip (IsFoundAt self.old) terms.now found.now }
        ensures places { IfOk result (λ places. AreAt self.new places.items terms.now) }
        ensures kept { GoesOn self.old self.new }
    {
        let mut places = Vec::new(alloc);
        places.reserve(terms.len())?;
        for term in terms {
            let place = self.place_found(alloc, term, known_at(found, places.len()))?;
            places.push(place)?;
        }
        Ok(places)
    }

    /// The same as `places_of`, where several threads look for the terms that are not new.
    pub fn places_of_by<T: Threads + Sync>(
        &mut self,
        rt: &T,
        alloc: Global,
        others: TermTable,
    ) -> Result<Vec<u32>, AllocError>
        ensures places { IfOk result (λ places. AreAt self.new places.items others) }
        ensures kept { GoesOn self.old self.new }
    {
        let found = self.find_all(rt, alloc, others.as_slice())?;
        let places = self.places_found(alloc, others.as_slice(), found.as_slice());
        // Nobody waits until what is left is let go.
        let _ = spawn(rt, move || drop(others));
        places
    }

    /// The terms in the order in which they came. It fails where memory runs out.
    pub(crate) fn into_list(self, alloc: Global) -> Result<Vec<Term>, AllocError>
        ensures { IfOk result (λ list. list.items ≡ self) }
    {
        match self.terms {
            TableForm::Hashed(set) => Vec::from_iter(alloc, set),
            TableForm::Listed(list) => Ok(list),
        }
    }
}

/// The place of a term in a set, where it comes last if it is new.
fn put(set: &mut IndexSet<Term>, term: Term) -> Result<u32, AllocError>
    ensures term { IfOk result (λ place. term_at set.new.keys place ≡ term) }
    ensures within { IfOk result (λ place. is_within set.new.keys place ≡ true) }
    ensures kept { GoesOn set.old.keys set.new.keys }
{
    let (place, _) = set.insert_full(term)?;
    let place = narrowed(place)?;
    Ok(place)
}

/// The place of a term in a set, if it is there.
fn found_in(set: &IndexSet<Term>, term: &Term) -> Option<u32>
    ensures { IfSome result (IsAt set.now.keys term.now) }
{
    let place = set.get_index_of(term)?;
    narrowed(place).ok()
}

/// Where a term was found, if it was.
fn known_at(found: &[Option<u32>], place: usize) -> Option<u32>
    ensures { result ≡ slice_index_or found.now place None }
{
    match found.get(place) {
        Some(known) => *known,
        None => None,
    }
}

/// The set of these terms, in their order.
fn hashed(alloc: Global, terms: &[Term]) -> Result<IndexSet<Term>, AllocError>
    requires { AreApart terms.now }
    ensures { IfOk result (λ set. set.keys ≡ terms.now) }
{
    let mut set = IndexSet::new(alloc);
    for term in terms {
        set.insert(term.copied(alloc)?)?;
    }
    Ok(set)
}

/// A place as 32 bits. More terms than that do not fit into memory.
fn narrowed(place: usize) -> Result<u32, AllocError>
    ensures { IfOk result (λ narrow. narrow ≡ place) }
{
    match u32::try_from(place) {
        Ok(place) => Ok(place),
        Err(_) => Err(AllocError),
    }
}
