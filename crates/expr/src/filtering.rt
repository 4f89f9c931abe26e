//! Filters over mappings of numbers.
ghost use Rattle.std.specs.Prelude.{◌≡◌};

use crate::evaluate::value;
use crate::logic::effective;
use algebra::Expression;
use dict::{Dict, Id};
use solution::{Filters, Mapping};
use std::alloc::{AllocError, Global};
use std::marker::Model;

/// Decides filters at numbers of terms, by the dictionary of the terms. Contracts see the list of
/// the terms.
#[derive(Drop)]
pub struct Filtering<'a> {
    dict: &'a Dict,
}

impl<'a> Model for Filtering<'a> {
    ghost use Rattle.std.specs.Prelude.{List};
    ghost use Rattle.terms.specs.declared.term.Term.{Term};

    ghost Value = { List Term };

    ghost view = { λ f. f.dict.now };
}

impl<'a> Filtering<'a> {
    /// What decides filters by this dictionary.
    pub fn new(dict: &'a Dict) -> Filtering<'a>
        ensures { result ≡ dict.entry.now }
    {
        Filtering { dict }
    }
}

impl<'a> Filters for Filtering<'a> {
    ghost use Rattle.dict.specs.Dictionary.{numbers};

    ghost passes = { λ terms. (numbers terms).passes };

    fn is_passed(
        &self,
        alloc: Global,
        filter: &Expression<Id>,
        mapping: &Mapping,
    ) -> Result<bool, AllocError> {
        let value = value(alloc, self.dict, filter, mapping)?;
        Ok(effective(&value).unwrap_or(false))
    }
}
