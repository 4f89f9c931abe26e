//! Datasets whose quads are kept in several orders.
ghost use Rattle.std.specs.Prelude.{◌≡◌, IsOk, IfOk, [], filter};
ghost use Rattle.datasets.specs.Id.{id_order};
ghost use Rattle.datasets.specs.Dataset.{matches, quad_order};
ghost use Rattle.sets.specs.Sets.{set_of};
ghost use Rattle.change_laws.specs.Laws.{IsRising};
ghost use Rattle.reads.specs.Reads.{says};
ghost use Rattle.reads.specs.Tells.{IsForName};

use crate::answered::{Answered, KeptAnswer};
use crate::compact::CompactView;
use crate::lists::copied_names;
use crate::view::View;
use datasets::{Id, QuadPattern, Read};
use quad_index::Index;
use quad_lists::{Arrangement, QuadList};
use quad_sets::{QuadSet, QuadSlice};
use sets::is_member;
use std::alloc::{AllocError, Global};
use std::marker::Model;
use std::thread::Threads;

/// A dataset that stays as it is: a set of quads, found by binary search whatever a pattern binds,
/// and a set of graph names.
#[derive(Drop)]
pub struct IndexedView {
    quads: Index,
    // The graph names alone.
    named: View,
}

impl Model for IndexedView {
    ghost use Rattle.datasets.specs.Dataset.{Dataset};
    ghost use Rattle.datasets.specs.declared.id.Id.{Id};

    ghost Value = { Dataset Id };

    ghost view = { λ d. record { quads = d.quads.quads; names = d.named.names } };
}

impl IndexedView {
    /// This dataset, its quads in these orders beside SPOG. An error comes only where memory runs
    /// out.
    pub fn new(
        alloc: Global,
        dataset: View,
        orders: &[Arrangement],
    ) -> Result<IndexedView, AllocError>
        ensures { IfOk result (λ indexed. indexed ≡ dataset) }
    {
        dataset.rises();
        let (quads, names) = dataset.into_parts();
        let quads = Index::of_quads(alloc, quads.into_list(), orders)?;
        let named = View::from_sets(QuadSet::new(alloc), names);
        Ok(IndexedView { quads, named })
    }

    /// The dataset of these quads and graph names, in any order and with doubles, its quads in
    /// these orders beside SPOG. An error comes only where memory runs out.
    pub fn of_parts(
        alloc: Global,
        quads: QuadList,
        names: Vec<Id>,
        orders: &[Arrangement],
    ) -> Result<IndexedView, AllocError>
        ensures quads { IfOk result (λ indexed. indexed.quads
            ≡ set_of (quad_order id_order) quads) }
        ensures names { IfOk result (λ indexed. indexed.names ≡ set_of id_order names.items) }
    {
        let quads = Index::of_quads(alloc, quads, orders)?;
        let named = View::from_parts(QuadList::new(alloc), names);
        Ok(IndexedView { quads, named })
    }

    /// The same, its quads put in order by several threads.
    pub fn of_parts_by<T: Threads + Sync>(
        rt: &T,
        alloc: Global,
        quads: QuadList,
        names: Vec<Id>,
        orders: &[Arrangement],
    ) -> Result<IndexedView, AllocError>
        ensures quads { IfOk result (λ indexed. indexed.quads
            ≡ set_of (quad_order id_order) quads) }
        ensures names { IfOk result (λ indexed. indexed.names ≡ set_of id_order names.items) }
    {
        let quads = Index::of_quads_by(rt, alloc, quads, orders)?;
        let graphs = View::from_parts(QuadList::new(alloc), names);
        Ok(IndexedView {
            quads,
            named: graphs,
        })
    }

    /// Its quads, lent.
    pub fn quads(&self) -> QuadSlice<'_>
        ensures { result ≡ self.now.quads }
    {
        QuadSlice::of_index(&self.quads)
    }

    /// Its graph names.
    pub fn names(&self) -> &[Id]
        ensures { result.now ≡ self.now.names }
    {
        self.named.names()
    }

    /// The orders in which its quads are kept, beside SPOG. How long a read takes depends on them,
    /// and not what it says: no contract sees them.
    pub fn orders(&self, alloc: Global) -> Result<Vec<Arrangement>, AllocError> {
        self.quads.orders(alloc)
    }

    /// The same dataset, its quads in SPOG alone.
    pub fn copied(&self, alloc: Global) -> Result<View, AllocError>
        ensures { IfOk result (λ copy. copy ≡ self.now) }
    {
        self.rises();
        let quads = QuadSet::of_index(alloc, &self.quads)?;
        let names = copied_names(alloc, self.names())?;
        Ok(View::from_sets(quads, names))
    }

    /// The same dataset, in little memory. An error comes only where memory runs out.
    pub fn compact(&self, alloc: Global) -> Result<CompactView, AllocError>
        ensures { IfOk result (λ copy. copy ≡ self.now) }
    {
        self.rises();
        let quads = QuadSet::of_index(alloc, &self.quads)?;
        let names = copied_names(alloc, self.names())?;
        CompactView::from_sets(alloc, quads, names)
    }

    /// Its quads and its names are sets.
    pub fn rises(&self)
        ensures { IsRising id_order self.now }
    {
        self.quads.rises();
        self.named.rises();
    }

    // The quads that match.
    fn matching_part(&self, alloc: Global, pattern: &QuadPattern<Id>) -> Result<View, AllocError>
        ensures { IfOk result (λ part. part ≡ record
            { quads = filter (matches id_order pattern.now) self.now.quads; names = [] }) }
    {
        self.rises();
        let quads = self.quads.scan(alloc, pattern)?;
        Ok(View::from_sets(QuadSet::of_list(quads), Vec::new(alloc)))
    }

    /// The part of the dataset that the read asks for: what it says of the part is what it says of
    /// the whole.
    pub fn asked(&self, alloc: Global, read: &Read<Id>) -> Result<View, AllocError>
        ensures { IfOk result (λ part. says read.now part ≡ says read.now self.now) }
    {
        match read {
            Read::Scan(pattern) => self.matching_part(alloc, pattern),
            Read::GraphIs(_) => self.named.asked(alloc, read),
            Read::Graphs => self.named.asked(alloc, read),
        }
    }

    /// What the read says of the dataset. To say whether a name is there takes no memory.
    pub fn answer(&self, alloc: Global, read: &Read<Id>) -> Result<Answered, AllocError>
        ensures same { IfOk result (λ answer. answer ≡ says read.now self.now) }
        ensures name { IsForName read.now → IsOk result }
    {
        match read {
            Read::Scan(pattern) => {
                let quads = self.quads.scan(alloc, pattern)?;
                Answered::new(alloc, KeptAnswer::Quads(quads))
            }
            Read::GraphIs(name) => {
                self.rises();
                let is_there = is_member(self.names(), name);
                Answered::new(alloc, KeptAnswer::Is(is_there))
            }
            Read::Graphs => self.named.answer(alloc, read),
        }
    }
}
