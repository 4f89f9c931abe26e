//! Datasets at numbers of terms, and what a read says of one.
ghost use Rattle.std.specs.Prelude.{◌≡◌, IfOk, [], ◌∷◌, filter, if◌then◌else◌};
ghost use Rattle.sets.specs.Sets.{has, set_of as the_set_of};
ghost use Rattle.datasets.specs.Id.{id_order};
ghost use Rattle.datasets.specs.Dataset.{quad_order, matches, Quads, Is, Names};
ghost use Rattle.change_laws.specs.Laws.{IsRising};
ghost use Rattle.reads.specs.Reads.{says, IsDataset};

use crate::answered::{Answered, KeptAnswer};
use crate::lists::{copied_names, name_if};
use datasets::{Id, QuadPattern, Read};
use quad_lists::QuadList;
use quad_sets::{QuadSet, QuadSlice};
use sets::{is_member, set_of};
use std::alloc::{AllocError, Global};
use std::marker::Model;

/// A dataset, or what changes made of one: a set of quads, in little memory where all are of known
/// terms, and a set of graph names. A quad's graph need not be named.
#[derive(Drop)]
pub struct View {
    quads: QuadSet,
    names: Vec<Id>,
}

impl Model for View {
    ghost use Rattle.datasets.specs.Dataset.{Dataset};
    ghost use Rattle.datasets.specs.declared.id.Id.{Id};
    ghost use Rattle.datasets.specs.Id.{id_order};
    ghost use Rattle.change_laws.specs.Laws.{IsRising};

    ghost Value = { Dataset Id };

    ghost view = { λ d. record { quads = d.quads; names = d.names.items } };

    ghost invariant = { λ d. IsRising id_order (record { quads = d.quads; names = d.names.items }) };
}

impl View {
    /// The dataset with nothing in it. It takes no memory.
    pub fn new(alloc: Global) -> Self
        ensures nothing { result ≡ record { quads = []; names = [] } }
        ensures dataset { IsDataset result }
    {
        View {
            quads: QuadSet::new(alloc),
            names: Vec::new(alloc),
        }
    }

    /// The sets of these quads and of these graph names, in any order and with repeats. It takes no
    /// memory.
    pub fn from_parts(quads: QuadList, names: Vec<Id>) -> View
        ensures quads { result.quads ≡ the_set_of (quad_order id_order) quads }
        ensures names { result.names ≡ the_set_of id_order names.items }
    {
        View {
            quads: QuadSet::of_list(quads.into_set()),
            names: set_of(names),
        }
    }

    /// These sets of quads and of graph names. It takes no memory.
    pub fn from_sets(quads: QuadSet, names: Vec<Id>) -> View
        requires { IsRising id_order (record { quads = quads; names = names.items }) }
        ensures { result ≡ record { quads = quads; names = names.items } }
    {
        View { quads, names }
    }

    /// Its quads and its graph names, by themselves.
    pub fn into_parts(self) -> (QuadSet, Vec<Id>)
        ensures quads { result.0 ≡ self.quads }
        ensures names { result.1.items ≡ self.names }
    {
        (self.quads, self.names)
    }

    /// Its quads.
    pub fn quads(&self) -> QuadSlice<'_>
        ensures { result ≡ self.now.quads }
    {
        self.quads.as_slice()
    }

    /// Its graph names.
    pub fn names(&self) -> &[Id]
        ensures { result.now ≡ self.now.names }
    {
        self.names.as_slice()
    }

    /// The same dataset again.
    pub fn copied(&self, alloc: Global) -> Result<View, AllocError>
        ensures { IfOk result (λ copy. copy ≡ self.now) }
    {
        let quads = self.quads.copied(alloc)?;
        let names = copied_names(alloc, &self.names)?;
        Ok(View { quads, names })
    }

    /// Its quads and its names are sets.
    pub fn rises(&self)
        ensures { IsRising id_order self.now }
    {
        let _ = &self.quads;
    }

    // The quads that match.
    fn matching_part(&self, alloc: Global, pattern: &QuadPattern<Id>) -> Result<View, AllocError>
        ensures { IfOk result (λ part. part ≡ record
            { quads = filter (matches id_order pattern.now) self.now.quads; names = [] }) }
    {
        self.rises();
        let quads = self.quads().matching(alloc, pattern)?;
        Ok(View {
            quads,
            names: Vec::new(alloc),
        })
    }

    // The name alone, if it is there.
    fn name_part(&self, alloc: Global, name: &Id) -> Result<View, AllocError>
        ensures { IfOk result (λ part. part ≡ record {
          quads = [];
          names = if has id_order self.now.names name.now then name.now ∷ []
              else [];
        }) }
    {
        let is_there = is_member(&self.names, name);
        let names = name_if(alloc, is_there, name)?;
        Ok(View {
            quads: QuadSet::new(alloc),
            names,
        })
    }

    // The names.
    fn names_part(&self, alloc: Global) -> Result<View, AllocError>
        ensures { IfOk result (λ part. part ≡ record { quads = []; names = self.now.names }) }
    {
        let names = copied_names(alloc, &self.names)?;
        Ok(View {
            quads: QuadSet::new(alloc),
            names,
        })
    }

    /// The part of the dataset that the read asks for: what it says of the part is what it says of
    /// the whole.
    pub fn asked(&self, alloc: Global, read: &Read<Id>) -> Result<View, AllocError>
        ensures { IfOk result (λ part. says read.now part ≡ says read.now self.now) }
    {
        match read {
            Read::Scan(pattern) => self.matching_part(alloc, pattern),
            Read::GraphIs(name) => self.name_part(alloc, name),
            Read::Graphs => self.names_part(alloc),
        }
    }

    /// What the read says of the dataset.
    #[tactic(auto, unfolding(crate::specs::Reads::says))]
    pub fn answer(&self, alloc: Global, read: &Read<Id>) -> Result<Answered, AllocError>
        ensures { IfOk result (λ answer. answer ≡ says read.now self.now) }
    {
        let answer = match read {
            Read::Scan(pattern) => {
                KeptAnswer::Quads(self.quads().matching(alloc, pattern)?.into_list())
            }
            Read::GraphIs(name) => KeptAnswer::Is(is_member(&self.names, name)),
            Read::Graphs => KeptAnswer::Names(copied_names(alloc, &self.names)?),
        };
        Answered::new(alloc, answer)
    }
}
