//! The numbers of a dictionary's terms, found by the terms' hashes.
ghost use Rattle.std.specs.Prelude.{◌≡◌, true, IfSome};
ghost use Rattle.datasets.specs.declared.id.Id.TheVariants.{Known as AtNumber};
ghost use Rattle.dict.specs.Dictionary.{term_of, is_known};
ghost use Rattle.store.specs.Held.{is_held};

use crate::ends::{EMPTY, hash_of, slot_at};
use dict::{Dict, Id};
use std::alloc::{AllocError, Global};
use std::marker::Model;
use store::number_term;
use terms::Term;

/// How many slots a term may stand in.
const REACH: usize = 16;

/// A dictionary, and slots that lead to its terms by their hashes. Contracts see the dictionary
/// alone: the term that a slot leads to is compared, so nothing has to be known of the slots. One
/// that they do not lead to is searched for.
#[derive(Drop)]
pub(crate) struct Numbers<'a> {
    dict: &'a Dict,
    slots: &'a [u32],
}

impl<'a> Model for Numbers<'a> {
    ghost use Rattle.std.specs.Prelude.{List};
    ghost use Rattle.terms.specs.declared.term.Term.{Term};

    ghost Value = { List Term };

    ghost view = { λ n. n.dict.now };
}

// Leads a hash to a term's place, if one of the slots within reach is free.
fn put_slot(slots: &mut [u32], hash: usize, place: u32) {
    for step in 0..REACH {
        let at = slot_at(slots, hash, step);
        if let Some(slot) = slots.get_mut(at) {
            if *slot == EMPTY {
                *slot = place;
                return;
            }
        }
    }
}

/// Slots that lead to the terms that will be asked for, each of which is given with its number. An
/// error comes only where memory runs out.
pub(crate) fn slots_for(
    alloc: Global,
    asked: &[Term],
    numbers: &[Id],
) -> Result<Vec<u32>, AllocError> {
    let mut slots = vec![in alloc; EMPTY; asked.len().saturating_mul(2)]?;
    for (term, number) in asked.iter().zip(numbers.iter()) {
        if let Id::Known(place) = number {
            put_slot(slots.as_mut_slice(), hash_of(term), *place);
        }
    }
    Ok(slots)
}

impl<'a> Numbers<'a> {
    /// The numbers of this dictionary's terms, found by these slots.
    pub(crate) fn new(dict: &'a Dict, slots: &'a [u32]) -> Numbers<'a>
        ensures { result ≡ dict.entry.now }
    {
        Numbers { dict, slots }
    }

    // The place of a term, if the slots lead to it.
    #[tactic(auto, using(terms::specs::Hashed::equal_terms))]
    fn place_of(&self, term: &Term) -> Option<u32>
        ensures term { IfSome result (λ place. term_of self.now (AtNumber place) ≡ term.now) }
        ensures known { IfSome result (λ place. is_known self.now (AtNumber place) ≡ true) }
    {
        let terms = self.dict.terms();
        let hash = hash_of(term);
        for step in 0..REACH {
            let place = *self.slots.get(slot_at(self.slots, hash, step))?;
            let found = terms.get(place as usize)?;
            if found == term {
                return Some(place);
            }
        }
        None
    }

    /// The number of a term that the dictionary holds.
    pub(crate) fn number_of(&self, term: &Term) -> Id
        requires { is_held self.now term.now ≡ true }
        ensures renamed { term_of self.now result ≡ term.now }
        ensures known { is_known self.now result ≡ true }
    {
        match self.place_of(term) {
            Some(place) => Id::Known(place),
            None => number_term(self.dict, term),
        }
    }
}
