//! Lists of quads, in little memory where that is possible.
ghost use Rattle.std.specs.Prelude.{◌≡◌, ◌<◌, ◌++◌, ◌∷◌, ◌↔◌, [], IsTrue, IfOk, OnOk, OnErr, filter, length, map};
ghost use Rattle.std.proofs.Common.{get_or};
ghost use Rattle.std.specs.List.Sorted.{IsStrictlySortedBy};
ghost use Rattle.datasets.specs.Id.{id_order};
ghost use Rattle.datasets.specs.Dataset.{quad_order, matches};
ghost use Rattle.sets.specs.Sets.{set_of as the_set_of};
ghost use Rattle.quad_lists.specs.Known.{quad_of};
ghost use Rattle.quad_lists.specs.Part.{quads_of_part};
ghost use Rattle.quad_lists.specs.QuadList.{quads_in};

use crate::known::{KnownQuad, known_set, widened_quads};
use crate::part::Part;
use datasets::{Id, Quad, QuadPattern};
use sets::set_of;
use std::alloc::{AllocError, Global};
use std::marker::Model;

/// Quads one after another, in little memory where all are of known terms. Contracts see their
/// list.
#[derive(Drop)]
pub struct QuadList {
    entries: Entries,
}

/// Quads one after another: all of known terms, or any.
#[derive(Drop)]
pub enum Entries {
    Narrow(Vec<KnownQuad>),
    Wide(Vec<Quad<Id>>),
}

impl Model for QuadList {
    ghost use Rattle.std.specs.Prelude.{List};
    ghost use Rattle.datasets.specs.declared.id.Id.{Id};
    ghost use Rattle.datasets.specs.declared.quad.Quad.{Quad};
    ghost use Rattle.quad_lists.specs.QuadList.{quads_in};

    ghost Value = { List (Quad Id) };

    ghost view = { λ l. quads_in l.entries };
}

impl Entries {
    /// The same, lent.
    pub fn lent(&self) -> Part<'_>
        ensures { quads_of_part result ≡ quads_in self.now }
    {
        match self {
            Entries::Narrow(known) => Part::Narrow(known),
            Entries::Wide(quads) => Part::Wide(quads),
        }
    }

    /// How many there are.
    pub fn len(&self) -> usize
        ensures { result ≡ length (quads_in self.now) }
    {
        match self {
            Entries::Narrow(known) => known.len(),
            Entries::Wide(quads) => quads.len(),
        }
    }

    /// The same again.
    pub fn copied(&self, alloc: Global) -> Result<Entries, AllocError>
        ensures { IfOk result (λ copy. quads_in copy ≡ quads_in self.now) }
    {
        match self {
            Entries::Narrow(known) => Ok(Entries::Narrow(Vec::from_slice(alloc, known)?)),
            Entries::Wide(quads) => Ok(Entries::Wide(Vec::from_slice(alloc, quads)?)),
        }
    }

    /// These quads.
    pub fn quads(&self, alloc: Global) -> Result<Vec<Quad<Id>>, AllocError>
        ensures { IfOk result (λ quads. quads.items ≡ quads_in self.now) }
    {
        match self {
            Entries::Narrow(known) => widened_quads(alloc, known),
            Entries::Wide(quads) => Vec::from_slice(alloc, quads),
        }
    }
}

impl QuadList {
    /// No quads, and room for so many in little memory.
    pub fn with_room(alloc: Global, count: usize) -> Result<QuadList, AllocError>
        ensures { IfOk result (λ list. list ≡ []) }
    {
        let mut known = Vec::new(alloc);
        known.reserve(count)?;
        Ok(QuadList {
            entries: Entries::Narrow(known),
        })
    }

    /// No quads. It takes no memory.
    pub fn new(alloc: Global) -> QuadList
        ensures { result ≡ [] }
    {
        QuadList {
            entries: Entries::Narrow(Vec::new(alloc)),
        }
    }

    /// These quads of known terms.
    pub fn of_known(known: Vec<KnownQuad>) -> QuadList
        ensures { result ≡ map quad_of known.items }
    {
        QuadList::of_entries(Entries::Narrow(known))
    }

    /// These quads, in as much memory as they take.
    pub fn of_wide(quads: Vec<Quad<Id>>) -> QuadList
        ensures { result ≡ quads.items }
    {
        QuadList::of_entries(Entries::Wide(quads))
    }

    /// These quads as they are kept.
    pub fn of_entries(entries: Entries) -> QuadList
        ensures { result ≡ quads_in entries }
    {
        QuadList { entries }
    }

    /// Its quads as they are kept.
    pub fn into_entries(self) -> Entries
        ensures { quads_in result ≡ self }
    {
        self.entries
    }

    /// Its quads, lent.
    pub fn lent(&self) -> Part<'_>
        ensures { quads_of_part result ≡ self.now }
    {
        self.entries.lent()
    }

    /// How many quads it has.
    pub fn len(&self) -> usize
        ensures { result ≡ length self.now }
    {
        self.lent().len()
    }

    /// Whether it has none.
    pub fn is_empty(&self) -> bool
        ensures { IsTrue result ↔ (self.now ≡ []) }
    {
        self.len() == 0
    }

    /// The quad at a place, counted from 0.
    pub fn get(&self, place: usize) -> Quad<Id>
        requires { place < length self.now }
        ensures { result ≡ get_or self.now place result }
    {
        self.lent().get(place)
    }

    /// Whether another list has the same quads, in the same places.
    pub fn is_same(&self, other: &QuadList) -> bool
        ensures { IsTrue result ↔ (self.now ≡ other.now) }
    {
        self.lent().is_same(&other.lent())
    }

    /// Whether its quads are a set: each is below the next, by subject, predicate, object and
    /// graph.
    pub fn is_set(&self) -> bool
        ensures { IsTrue result ↔ IsStrictlySortedBy (quad_order id_order) self.now }
    {
        self.lent().is_set()
    }

    /// The same list again.
    pub fn copied(&self, alloc: Global) -> Result<QuadList, AllocError>
        ensures { IfOk result (λ copy. copy ≡ self.now) }
    {
        self.lent().copied(alloc)
    }

    /// Its quads that match, in their order.
    pub fn matching(&self, alloc: Global, pattern: &QuadPattern<Id>) -> Result<QuadList, AllocError>
        ensures { IfOk result (λ found. found ≡ filter (matches id_order pattern.now) self.now) }
    {
        self.lent().matching(alloc, pattern)
    }

    /// Its quads, each in as much memory as any quad.
    pub fn quads(&self, alloc: Global) -> Result<Vec<Quad<Id>>, AllocError>
        ensures { IfOk result (λ quads. quads.items ≡ self.now) }
    {
        self.entries.quads(alloc)
    }

    /// The set of its quads.
    pub fn into_set(self) -> QuadList
        ensures { result ≡ the_set_of (quad_order id_order) self }
    {
        match self.entries {
            Entries::Narrow(known) => QuadList::of_known(known_set(known)),
            Entries::Wide(quads) => QuadList::of_wide(set_of(quads)),
        }
    }

    /// One more at the end. An error comes only where a growth was refused, and leaves the list as
    /// it is.
    pub fn push(&mut self, alloc: Global, quad: &Quad<Id>) -> Result<(), AllocError>
        ensures ok { OnOk result (self.new ≡ self.old ++ quad.now ∷ []) }
        ensures err { OnErr result (self.new ≡ self.old) }
    {
        match &mut self.entries {
            Entries::Narrow(known) => {
                if let Some(entry) = KnownQuad::from_quad(quad) {
                    known.push(entry)?;
                    return Ok(());
                }
            }
            Entries::Wide(quads) => {
                quads.push(*quad)?;
                return Ok(());
            }
        }
        let mut quads = self.entries.quads(alloc)?;
        quads.push(*quad)?;
        self.entries = Entries::Wide(quads);
        Ok(())
    }
}
