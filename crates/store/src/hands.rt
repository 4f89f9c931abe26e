//! Who puts the terms and the quads of a base in order.
ghost use Rattle.std.specs.Prelude.{◌≡◌, true, map, filter, IfOk};
ghost use Rattle.std.specs.List.{list_all};
ghost use Rattle.sets.specs.Sets.{set_of};
ghost use Rattle.datasets.specs.Id.{id_order};
ghost use Rattle.datasets.specs.Dataset.{quad_order};
ghost use Rattle.terms.specs.Term.{term_order};
ghost use Rattle.dict.specs.Dictionary.{IsDictionary, is_written, is_known, term_of};

use crate::numbers::{quad_numbers, quad_numbers_by, room_for};
use datasets::{Id, Quad};
use dict::Dict;
use quad_lists::{Arrangement, KnownQuad, QuadList};
use reads::IndexedView;
use std::alloc::{AllocError, Global};
use std::thread::{Threads, join, spawn};
use terms::Term;

/// One thread or several, that put terms and quads in order.
pub trait Hands {
    ghost use Rattle.std.specs.Prelude.{◌≡◌, true, map, filter, IfOk};
    ghost use Rattle.std.specs.List.{list_all};
    ghost use Rattle.sets.specs.Sets.{set_of};
    ghost use Rattle.datasets.specs.Id.{id_order};
    ghost use Rattle.datasets.specs.Dataset.{quad_order};
    ghost use Rattle.terms.specs.Term.{term_order};
    ghost use Rattle.dict.specs.Dictionary.{IsDictionary, is_written, is_known, term_of};
    ghost use Rattle.terms.specs.Placed.{is_quad_within};
    ghost use Rattle.store.specs.Tables.{numbers_at};

    // What it takes of its types.
    ghost Ready: { Type 0 };

    /// The dictionary of these terms, and their numbers, and room for so many quads, if it takes it
    /// now.
    fn numbered(
        &self,
        alloc: Global,
        terms: Vec<Term>,
        count: usize,
    ) -> Result<(Dict, Vec<Id>, Vec<KnownQuad>), AllocError>
        requires { Ready }
        ensures terms { IfOk result (λ r. r.0 ≡ set_of term_order (filter is_written terms.items)) }
        ensures form { IfOk result (λ r. IsDictionary r.0) }
        ensures renamed { IfOk result (λ r. map (term_of r.0) r.1.items ≡ terms.items) }
        ensures known { IfOk result (λ r. list_all (is_known r.0) r.1.items ≡ true) };

    /// Quads by places, at the numbers that stand there, in the room that was made for so many.
    fn placed(
        &self,
        alloc: Global,
        ids: &[Id],
        quads: &[Quad<u32>],
        room: Vec<KnownQuad>,
    ) -> Result<QuadList, AllocError>
        requires ready { Ready }
        requires within { list_all (is_quad_within ids.now) quads.now ≡ true }
        ensures { IfOk result (λ list. list ≡ map (numbers_at ids.now) quads.now) };

    /// Lets quads go that are not needed any more.
    fn let_go(&self, quads: Vec<Quad<u32>>)
        requires { Ready };

    /// The dataset of these quads and graph names, its quads in these orders beside SPOG.
    fn indexed(
        &self,
        alloc: Global,
        quads: QuadList,
        names: Vec<Id>,
        orders: &[Arrangement],
    ) -> Result<IndexedView, AllocError>
        requires { Ready }
        ensures quads { IfOk result (λ dataset. dataset.quads
            ≡ set_of (quad_order id_order) quads) }
        ensures names { IfOk result (λ dataset. dataset.names ≡ set_of id_order names.items) };
}

/// The thread that calls.
#[derive(Drop)]
pub struct Alone;

impl Hands for Alone {
    ghost Ready = { Unit {0} };

    fn numbered(
        &self,
        alloc: Global,
        terms: Vec<Term>,
        count: usize,
    ) -> Result<(Dict, Vec<Id>, Vec<KnownQuad>), AllocError> {
        let _ = count;
        let (dict, ids) = Dict::numbered(alloc, terms, Vec::new(alloc))?;
        Ok((dict, ids, Vec::new(alloc)))
    }

    fn placed(
        &self,
        alloc: Global,
        ids: &[Id],
        quads: &[Quad<u32>],
        room: Vec<KnownQuad>,
    ) -> Result<QuadList, AllocError> {
        drop(room);
        quad_numbers(alloc, ids, quads)
    }

    fn let_go(&self, quads: Vec<Quad<u32>>) {
        drop(quads);
    }

    fn indexed(
        &self,
        alloc: Global,
        quads: QuadList,
        names: Vec<Id>,
        orders: &[Arrangement],
    ) -> Result<IndexedView, AllocError> {
        IndexedView::of_parts(alloc, quads, names, orders)
    }
}

/// As many threads as there are processors.
#[derive(Drop)]
pub struct Together<'r, T: Threads + Sync> {
    rt: &'r T,
}

impl<'r, T: Threads + Sync> Together<'r, T> {
    /// Threads of this runtime.
    pub fn new(rt: &'r T) -> Together<'r, T> {
        Together { rt }
    }
}

impl<'r, T: Threads + Sync> Hands for Together<'r, T> {
    ghost use Rattle.std.specs.Thread.{IsSync};

    ghost Ready = { IsSync T.row };

    // The room is made meanwhile: a page of it that is touched first takes as long as some hundred
    // quads.
    fn numbered(
        &self,
        alloc: Global,
        terms: Vec<Term>,
        count: usize,
    ) -> Result<(Dict, Vec<Id>, Vec<KnownQuad>), AllocError> {
        let rt = self.rt;
        let (room, numbered) = join(
            rt,
            move || room_for(alloc, count),
            move || -> Result<(Dict, Vec<Id>), AllocError>
                requires { IsSync T.row }
                ensures { IfOk result (λ r.
                    ((r.0 ≡ set_of term_order (filter is_written terms.items)) × IsDictionary r.0)
                    × ((map (term_of r.0) r.1.items ≡ terms.items)
                    × (list_all (is_known r.0) r.1.items ≡ true))) }
            { Dict::numbered_by(rt, alloc, terms, Vec::new(alloc)) },
        );
        let (dict, ids) = numbered?;
        Ok((dict, ids, room?))
    }

    fn placed(
        &self,
        alloc: Global,
        ids: &[Id],
        quads: &[Quad<u32>],
        room: Vec<KnownQuad>,
    ) -> Result<QuadList, AllocError> {
        quad_numbers_by(self.rt, alloc, ids, quads, room)
    }

    // Nobody waits for it.
    fn let_go(&self, quads: Vec<Quad<u32>>) {
        let _ = spawn(self.rt, move || drop(quads));
    }

    fn indexed(
        &self,
        alloc: Global,
        quads: QuadList,
        names: Vec<Id>,
        orders: &[Arrangement],
    ) -> Result<IndexedView, AllocError> {
        IndexedView::of_parts_by(self.rt, alloc, quads, names, orders)
    }
}
