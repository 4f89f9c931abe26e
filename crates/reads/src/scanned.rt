//! What a read says of a dataset, made ahead of the step that needs it.
ghost use Rattle.std.specs.Prelude.{◌≡◌, IfOk, [], ◌∷◌, filter, if◌then◌else◌};
ghost use Rattle.sets.specs.Sets.{has};
ghost use Rattle.datasets.specs.Id.{id_order};
ghost use Rattle.datasets.specs.Dataset.{matches};
ghost use Rattle.change_laws.specs.Laws.{IsRising};
ghost use Rattle.reads.specs.Reads.{says};

use crate::answered::Answered;
use crate::indexed::IndexedView;
use crate::lists::{copied_names, name_if};
use crate::view::View;
use datasets::{Id, QuadPattern, Read};
use quad_lists::QuadList;
use quad_sets::QuadSet;
use std::alloc::{AllocError, Global};
use std::marker::Model;

/// A read and what it says of a dataset. It is made where nobody waits for it. To a contract it is
/// the dataset and the read.
#[derive(Drop)]
pub struct Scanned<'a> {
    dataset: &'a IndexedView,
    read: Read<Id>,
    answer: Answered,
}

impl<'a> Model for Scanned<'a> {
    ghost use Rattle.std.specs.Prelude.{◌≡◌};
    ghost use Rattle.reads.specs.Reads.{says};
    ghost use Rattle.reads.specs.Questions.{Question};

    ghost Value = { Question };

    ghost view = { λ s. record { dataset = s.dataset.now; read = s.read } };

    ghost invariant = { λ s. s.answer ≡ says s.read s.dataset.now };
}

impl<'a> Scanned<'a> {
    /// What this read says of this dataset. An error comes only where memory runs out.
    pub fn new(
        alloc: Global,
        dataset: &'a IndexedView,
        read: &Read<Id>,
    ) -> Result<Scanned<'a>, AllocError>
        ensures { IfOk result (λ scanned. scanned
            ≡ record { dataset = dataset.now; read = read.now }) }
    {
        let answer = dataset.answer(alloc, read)?;
        Ok(Scanned {
            dataset,
            read: *read,
            answer,
        })
    }

    /// The read.
    pub fn read(&self) -> &Read<Id>
        ensures { result.now ≡ self.now.read }
    {
        &self.read
    }

    /// The quads and the names of the dataset are sets.
    pub fn rises(&self)
        ensures { IsRising id_order self.now.dataset }
    {
        self.dataset.rises();
    }

    /// What the read says of it, shared and not copied. It fails only where there are too many
    /// owners.
    pub fn answer(&self, alloc: Global) -> Result<Answered, AllocError>
        ensures { IfOk result (λ answer. answer ≡ says self.now.read self.now.dataset) }
    {
        self.answer.copied(alloc)
    }

    // The quads that match, where it is a scan.
    fn quads(&self, alloc: Global, pattern: &QuadPattern<Id>) -> Result<QuadList, AllocError>
        requires { self.now.read ≡ Read.Scan pattern.now }
        ensures { IfOk result (λ quads. quads
            ≡ filter (matches id_order pattern.now) self.now.dataset.quads) }
    {
        let _ = pattern;
        match self.answer.quads() {
            Some(quads) => quads.copied(alloc),
            None => Ok(QuadList::new(alloc)),
        }
    }

    // The names, where it asks for all.
    fn names(&self) -> &[Id]
        requires { self.now.read ≡ Read.Graphs }
        ensures { result.now ≡ self.now.dataset.names }
    {
        match self.answer.names() {
            Some(names) => names,
            None => &[],
        }
    }

    // Whether the name is there, where it asks for one.
    fn has(&self, name: &Id) -> bool
        requires { self.now.read ≡ Read.GraphIs name.now }
        ensures { result ≡ has id_order self.now.dataset.names name.now }
    {
        let _ = name;
        match self.answer.is() {
            Some(so) => so,
            None => false,
        }
    }

    fn matching_part(&self, alloc: Global, pattern: &QuadPattern<Id>) -> Result<View, AllocError>
        requires { self.now.read ≡ Read.Scan pattern.now }
        ensures { IfOk result (λ part. part ≡ record
            { quads = filter (matches id_order pattern.now) self.now.dataset.quads; names = [] }) }
    {
        self.rises();
        let quads = self.quads(alloc, pattern)?;
        Ok(View::from_sets(QuadSet::of_list(quads), Vec::new(alloc)))
    }

    fn name_part(&self, alloc: Global, name: &Id) -> Result<View, AllocError>
        requires { self.now.read ≡ Read.GraphIs name.now }
        ensures { IfOk result (λ part. part ≡ record {
          quads = [];
          names = if has id_order self.now.dataset.names name.now then name.now ∷ []
              else [];
        }) }
    {
        let names = name_if(alloc, self.has(name), name)?;
        Ok(View::from_sets(QuadSet::new(alloc), names))
    }

    fn names_part(&self, alloc: Global) -> Result<View, AllocError>
        requires { self.now.read ≡ Read.Graphs }
        ensures { IfOk result (λ part. part ≡ record
            { quads = []; names = self.now.dataset.names }) }
    {
        self.rises();
        let names = copied_names(alloc, self.names())?;
        Ok(View::from_sets(QuadSet::new(alloc), names))
    }

    /// The part of the dataset that the read asks for: what it says of the part is what it says of
    /// the whole. An error comes only where memory runs out.
    pub fn part(&self, alloc: Global) -> Result<View, AllocError>
        ensures { IfOk result (λ part. says self.now.read part
            ≡ says self.now.read self.now.dataset) }
    {
        match &self.read {
            Read::Scan(pattern) => self.matching_part(alloc, pattern),
            Read::GraphIs(name) => self.name_part(alloc, name),
            Read::Graphs => self.names_part(alloc),
        }
    }
}
