//! Solution mappings.
ghost use Rattle.std.specs.Prelude.{◌≡◌, length, IfOk};
ghost use Rattle.datasets.specs.Id.{id_order};
ghost use Rattle.meaning.specs.Mapping.{empty_mapping, term_for, fitted, agree, compatible, shares, merge};
ghost use Rattle.solution.specs.Sharing.{binds_none as the_binds_none};

use algebra::Place;
use datasets::Id;
use sets::Exact;
use smallvec::SmallVec;
use std::alloc::{AllocError, Global};
use std::cmp::Ordering;
use std::marker::Model;

/// A solution mapping (SPARQL 1.1 Query, 18.1.8), as a row: for each variable of the pattern its
/// term or nothing. Mappings are ordered by each variable in turn, unbound first.
#[derive(Drop)]
pub struct Mapping {
    places: SmallVec<Option<Id>, 4>,
}

impl Model for Mapping {
    ghost use Rattle.std.specs.Prelude.{List, Option};
    ghost use Rattle.datasets.specs.declared.id.Id.{Id};

    ghost Value = { List (Option Id) };

    ghost view = { λ m. m.places.items };
}

impl PartialEq for Mapping {
    ghost use Rattle.std.specs.Cmp.{eq_by_cmp_equiv, partial_equiv_from_equiv};
    ghost use Rattle.std.specs.Ordering.{eq_by_cmp};
    ghost use Rattle.datasets.specs.Id.{id_order};
    ghost use Rattle.meaning.specs.Mapping.{mapping_cmp};
    ghost use Rattle.solution.specs.MappingOrder.{mapping_total};

    ghost eq = { eq_by_cmp (mapping_cmp id_order) };

    ghost laws = { partial_equiv_from_equiv (eq_by_cmp_equiv mapping_total) };

    fn eq(&self, other: &Mapping) -> bool {
        self.cmp(other) == Ordering::Equal
    }
}

impl Eq for Mapping {
    ghost use Rattle.std.specs.Cmp.{eq_by_cmp_equiv};
    ghost use Rattle.solution.specs.MappingOrder.{mapping_total};

    ghost laws = { eq_by_cmp_equiv mapping_total };
}

impl PartialOrd for Mapping {
    ghost use Rattle.std.specs.Cmp.{po};
    ghost use Rattle.std.specs.Prelude.{Some, refl};
    ghost use Rattle.datasets.specs.Id.{id_order};
    ghost use Rattle.meaning.specs.Mapping.{mapping_cmp};
    ghost use Rattle.solution.specs.MappingOrder.{mapping_total};

    ghost partial_cmp = { λ a b. Some (mapping_cmp id_order a b) };

    ghost laws = { po mapping_total (λ a b. refl) };

    fn partial_cmp(&self, other: &Mapping) -> Option<Ordering> {
        Some(self.cmp(other))
    }
}

impl Ord for Mapping {
    ghost use Rattle.std.specs.Prelude.{refl};
    ghost use Rattle.datasets.specs.Id.{id_order};
    ghost use Rattle.meaning.specs.Mapping.{mapping_cmp};
    ghost use Rattle.solution.specs.MappingOrder.{mapping_total};

    ghost cmp = { mapping_cmp id_order };

    ghost total = { mapping_total };

    ghost matches_partial_cmp = { λ a b. refl };

    ghost matches_eq = { λ a b. refl };

    fn cmp(&self, other: &Mapping) -> Ordering {
        self.places.as_slice().cmp(other.places.as_slice())
    }
}

impl Exact for Mapping {
    ghost use Rattle.solution.specs.MappingOrder.{mapping_exact};

    ghost exact = { mapping_exact };
}

// Whether two places agree: one is unbound, or both have one term.
fn agrees(a: Option<Id>, b: Option<Id>) -> bool
    ensures { result ≡ agree id_order a b }
{
    match (a, b) {
        (Some(x), Some(y)) => x == y,
        _ => true,
    }
}

impl Mapping {
    /// The empty mapping, where a pattern has this many variables.
    pub fn empty(alloc: Global, width: u32) -> Result<Mapping, AllocError>
        ensures { IfOk result (λ mapping. mapping ≡ empty_mapping width) }
    {
        let mut places = SmallVec::new(alloc);
        for _ in 0..width {
            places.push(None)?;
        }
        Ok(Mapping { places })
    }

    /// The term that the mapping has for a variable.
    pub fn at(&self, variable: u32) -> Option<Id>
        ensures { result ≡ term_for self.now variable }
    {
        self.place(variable as usize)
    }

    // The same, where the variable is an index.
    pub(crate) fn place(&self, variable: usize) -> Option<Id>
        ensures { result ≡ term_for self.now variable }
    {
        self.places.get(variable).copied().flatten()
    }

    // How many variables there are.
    pub(crate) fn width(&self) -> usize
        ensures { result ≡ length self.now }
    {
        self.places.len()
    }

    // Whether no variable is bound.
    pub(crate) fn binds_none(&self) -> bool
        ensures { result ≡ the_binds_none self.now }
    {
        self.places.as_slice().iter().all(|place| place.is_none())
    }

    /// The mapping under which a place of a pattern is this term, if there is one: a variable that
    /// is unbound comes to be bound to it.
    pub fn fit(mut self, place: Place<Id>, term: Id) -> Option<Mapping>
        ensures { result ≡ fitted id_order place term self }
    {
        match place {
            Place::Term(wanted) => { if term == wanted { Some(self) } else { None } }
            Place::Variable(variable) => match self.at(variable) {
                Some(bound) => { if term == bound { Some(self) } else { None } }
                None => {
                    let index = variable as usize;
                    let places = self.places.as_mut_slice();
                    if index < places.len() {
                        places[index] = Some(term);
                    }
                    Some(self)
                }
            },
        }
    }

    /// Whether the two agree on each variable that is bound in both (SPARQL 1.1 Query, 18.3).
    pub fn is_compatible(&self, other: &Mapping) -> bool
        ensures { result ≡ compatible id_order self.now other.now }
    {
        let left = self.places.as_slice();
        let right = other.places.as_slice();
        left.iter().zip(right).all(|(x, y)| agrees(*x, *y))
    }

    /// Whether a variable is bound in both.
    pub(crate) fn shares(&self, other: &Mapping) -> bool
        ensures { result ≡ shares self.now other.now }
    {
        let left = self.places.as_slice();
        let right = other.places.as_slice();
        left.iter()
            .zip(right)
            .any(|(x, y)| x.is_some() && y.is_some())
    }

    /// The union of two mappings (SPARQL 1.1 Query, 18.3), where this one's term counts if both have
    /// one. An error comes only where memory runs out.
    pub fn merge(&self, other: &Mapping) -> Result<Mapping, AllocError>
        ensures { IfOk result (λ mapping. mapping ≡ merge self.now other.now) }
    {
        let left = self.places.as_slice();
        let right = other.places.as_slice();
        let mut places = SmallVec::new(*self.places.allocator());
        for (x, y) in left.iter().zip(right) {
            places.push(x.or(*y))?;
        }
        Ok(Mapping { places })
    }
}
