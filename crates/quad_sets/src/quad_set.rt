//! Sets of quads, in little memory where that is possible.
ghost use Rattle.std.specs.Prelude.{◌≡◌, [], IfOk, IfSome};
ghost use Rattle.std.specs.List.Sorted.{IsStrictlySortedBy};
ghost use Rattle.sets.specs.Sets.{set_of as the_set_of, union, without};
ghost use Rattle.datasets.specs.Id.{id_order};
ghost use Rattle.datasets.specs.Dataset.{quad_order};
ghost use Rattle.quad_lists.specs.QuadList.{quads_in};
ghost use Rattle.quad_sets.specs.Pieces.{quads_in_pieces};

use crate::lists::merged;
use crate::narrow::{known_changed, known_changed_in_runs};
use crate::pieces::{as_piece, changed_in_pieces};
use crate::quad_slice::QuadSlice;
use datasets::{Id, Quad};
use quad_index::Index;
use quad_lists::{Entries, Part, QuadList, known_quads, known_set, widened_quads};
use sets::set_of;
use std::alloc::{AllocError, Global};
use std::marker::Model;
use std::thread::Threads;

/// A set of quads, a quarter as long where all are of known terms. Contracts see its list, by
/// subject, predicate, object and graph.
#[derive(Drop)]
pub struct QuadSet {
    entries: Entries,
}

impl Model for QuadSet {
    ghost use Rattle.std.specs.Prelude.{List};
    ghost use Rattle.std.specs.List.Sorted.{IsStrictlySortedBy};
    ghost use Rattle.datasets.specs.declared.id.Id.{Id};
    ghost use Rattle.datasets.specs.declared.quad.Quad.{Quad};
    ghost use Rattle.datasets.specs.Id.{id_order};
    ghost use Rattle.datasets.specs.Dataset.{quad_order};
    ghost use Rattle.quad_lists.specs.QuadList.{quads_in};

    ghost Value = { List (Quad Id) };

    ghost view = { λ s. quads_in s.entries };

    ghost invariant = { λ s. IsStrictlySortedBy (quad_order id_order) (quads_in s.entries) };
}

/// A set of fewer members is sorted with what comes.
const MANY: usize = 32;

/// Changes of a set of fewer members are made by one thread.
const WORTH_THREADS: usize = 16384;

// The same items, with room for more behind them.
fn with_room<T: Copy>(alloc: Global, items: &[T], more: usize) -> Result<Vec<T>, AllocError>
    ensures { IfOk result (λ copy. copy.items ≡ items.now) }
{
    let mut copy = Vec::new(alloc);
    copy.reserve_exact(items.len().saturating_add(more))?;
    copy.extend_from_slice(items)?;
    Ok(copy)
}

// The quads of a set, with room for more behind them.
fn listed_with_room(
    alloc: Global,
    quads: &QuadSlice<'_>,
    more: usize,
) -> Result<QuadList, AllocError>
    ensures { IfOk result (λ list. list ≡ quads.now) }
{
    match quads.entries() {
        Part::Narrow(known) => Ok(QuadList::of_known(with_room(alloc, known, more)?)),
        Part::Wide(quads) => Ok(QuadList::of_wide(with_room(alloc, quads, more)?)),
    }
}

// The set of these quads.
fn merged_set(quads: Vec<Quad<Id>>) -> Result<Vec<Quad<Id>>, AllocError>
    ensures value { IfOk result (λ set. set.items
        ≡ the_set_of (quad_order id_order) quads.items) }
    ensures set { IfOk result (λ set. IsStrictlySortedBy (quad_order id_order) set.items) }
{
    merged(quads)
}

// The quads that are none of a set's, and more, as a set in which not all are of known terms.
fn wide_changed(
    alloc: Global,
    entries: Entries,
    gone: &QuadSlice<'_>,
    more: &QuadSlice<'_>,
) -> Result<Vec<Quad<Id>>, AllocError>
    ensures value { IfOk result (λ after. after.items ≡ union (quad_order id_order)
        (without (quad_order id_order) (quads_in entries) gone.now) more.now) }
    ensures set { IfOk result (λ after. IsStrictlySortedBy (quad_order id_order) after.items) }
{
    let quads = match entries {
        Entries::Narrow(known) => widened_quads(alloc, &known)?,
        Entries::Wide(quads) => quads,
    };
    let mut after = gone.lacked(quads);
    more.push_all(&mut after)?;
    merged_set(after)
}

impl QuadSet {
    /// No quads. It takes no memory.
    pub fn new(alloc: Global) -> QuadSet
        ensures { result ≡ [] }
    {
        QuadSet {
            entries: Entries::Narrow(Vec::new(alloc)),
        }
    }

    /// This set of quads.
    pub fn from_set(alloc: Global, quads: Vec<Quad<Id>>) -> Result<QuadSet, AllocError>
        requires { IsStrictlySortedBy (quad_order id_order) quads.items }
        ensures { IfOk result (λ set. set ≡ quads.items) }
    {
        let entries = match known_quads(alloc, &quads)? {
            Some(known) => Entries::Narrow(known),
            None => Entries::Wide(quads),
        };
        Ok(QuadSet { entries })
    }

    /// The set of these quads, in any order and with repeats.
    pub fn of_quads(alloc: Global, quads: Vec<Quad<Id>>) -> Result<QuadSet, AllocError>
        ensures { IfOk result (λ set. set ≡ the_set_of (quad_order id_order) quads.items) }
    {
        let entries = match known_quads(alloc, &quads)? {
            Some(known) => Entries::Narrow(known_set(known)),
            None => Entries::Wide(set_of(quads)),
        };
        Ok(QuadSet { entries })
    }

    /// The quads of a list that is a set. It takes no memory.
    pub fn of_list(list: QuadList) -> QuadSet
        requires { IsStrictlySortedBy (quad_order id_order) list }
        ensures { result ≡ list }
    {
        QuadSet {
            entries: list.into_entries(),
        }
    }

    /// The same set again.
    pub fn copied(&self, alloc: Global) -> Result<QuadSet, AllocError>
        ensures { IfOk result (λ copy. copy ≡ self.now) }
    {
        self.as_slice().rises();
        Ok(QuadSet::of_list(self.entries.lent().copied(alloc)?))
    }

    /// Its quads, as a list. It takes no memory.
    pub fn into_list(self) -> QuadList
        ensures { result ≡ self }
    {
        QuadList::of_entries(self.entries)
    }

    /// The set of the quads of a list that are none of a set's, and of more: as `changed`, in the
    /// list's own memory, where all are of known terms.
    pub fn of_changed(
        alloc: Global,
        list: QuadList,
        gone: &QuadSlice<'_>,
        more: &QuadSlice<'_>,
    ) -> Result<QuadSet, AllocError>
        ensures { IfOk result (λ set. set ≡ union (quad_order id_order)
            (without (quad_order id_order) list gone.now) more.now) }
    {
        match (list.into_entries(), gone.entries(), more.entries()) {
            (Entries::Narrow(known), Part::Narrow(going), Part::Narrow(coming)) => {
                let after = known_changed(known, going, coming)?;
                Ok(QuadSet {
                    entries: Entries::Narrow(after),
                })
            }
            (entries, _, _) => {
                let after = wide_changed(alloc, entries, gone, more)?;
                Ok(QuadSet {
                    entries: Entries::Wide(after),
                })
            }
        }
    }

    // The same as `changed`, if the set is of many quads and all are of known terms: what lies
    // between changes is taken over as it lies.
    fn changed_in_runs(
        alloc: Global,
        quads: &QuadSlice<'_>,
        gone: &QuadSlice<'_>,
        more: &QuadSlice<'_>,
    ) -> Result<Option<QuadSet>, AllocError>
        ensures { IfOk result (λ found. IfSome found (λ set. set ≡ union (quad_order id_order)
            (without (quad_order id_order) quads.now gone.now) more.now)) }
    {
        if quads.len() < MANY {
            return Ok(None);
        }
        match (quads.entries(), gone.entries(), more.entries()) {
            (Part::Narrow(known), Part::Narrow(going), Part::Narrow(coming)) => {
                let after = known_changed_in_runs(alloc, known, going, coming)?;
                Ok(Some(QuadSet {
                    entries: Entries::Narrow(after),
                }))
            }
            _ => Ok(None),
        }
    }

    /// The set of the quads that are none of a set's, and of more. It is fastest where both are of
    /// known terms.
    pub fn changed(
        alloc: Global,
        quads: &QuadSlice<'_>,
        gone: &QuadSlice<'_>,
        more: &QuadSlice<'_>,
    ) -> Result<QuadSet, AllocError>
        ensures { IfOk result (λ set. set ≡ union (quad_order id_order)
            (without (quad_order id_order) quads.now gone.now) more.now) }
    {
        if let Some(set) = QuadSet::changed_in_runs(alloc, quads, gone, more)? {
            return Ok(set);
        }
        let list = listed_with_room(alloc, quads, more.len())?;
        QuadSet::of_changed(alloc, list, gone, more)
    }

    /// The same set as that which is `changed`, as pieces that stand one behind another. Of many
    /// quads of known terms so many threads make one each.
    pub fn changed_in_pieces<T: Threads + Sync>(
        rt: &T,
        alloc: Global,
        quads: &QuadSlice<'_>,
        gone: &QuadSlice<'_>,
        more: &QuadSlice<'_>,
        threads: usize,
    ) -> Result<Vec<QuadList>, AllocError>
        ensures { IfOk result (λ pieces. quads_in_pieces pieces.items
            ≡ union (quad_order id_order)
            (without (quad_order id_order) quads.now gone.now) more.now) }
    {
        match (quads.entries(), gone.entries(), more.entries()) {
            (Part::Narrow(known), Part::Narrow(going), Part::Narrow(coming))
                if WORTH_THREADS <= known.len() => {
                changed_in_pieces(rt, alloc, known, going, coming, threads)
            }
            _ => {
                let set = QuadSet::changed(alloc, quads, gone, more)?;
                as_piece(alloc, set.into_list())
            }
        }
    }

    /// The quads of either set.
    pub fn union(
        alloc: Global,
        quads: &QuadSlice<'_>,
        more: &QuadSlice<'_>,
    ) -> Result<QuadSet, AllocError>
        ensures { IfOk result (λ set. set ≡ union (quad_order id_order) quads.now more.now) }
    {
        QuadSet::changed(alloc, quads, &QuadSlice::new(), more)
    }

    /// The quads of a set that are none of another's.
    pub fn without(
        alloc: Global,
        quads: &QuadSlice<'_>,
        gone: &QuadSlice<'_>,
    ) -> Result<QuadSet, AllocError>
        ensures { IfOk result (λ set. set ≡ without (quad_order id_order) quads.now gone.now) }
    {
        quads.rises();
        QuadSet::changed(alloc, quads, gone, &QuadSlice::new())
    }

    /// The quads of an index.
    pub fn of_index(alloc: Global, index: &Index) -> Result<QuadSet, AllocError>
        ensures { IfOk result (λ set. set ≡ index.now.quads) }
    {
        index.rises();
        let entries = index.entries(alloc)?;
        Ok(QuadSet { entries })
    }

    /// Its quads, lent.
    pub fn as_slice(&self) -> QuadSlice<'_>
        ensures value { result ≡ self.now }
        ensures set { IsStrictlySortedBy (quad_order id_order) result }
    {
        QuadSlice::of_entries(self.entries.lent())
    }
}
