//! Changes that a request made and that are not published.
ghost use Rattle.std.specs.Prelude.{◌≡◌, ◌&&◌, ◌||◌, not, IfOk};
ghost use Rattle.sets.specs.Sets.{has, union, without};
ghost use Rattle.datasets.specs.Dataset.{quad_order, names_of as the_names_of};
ghost use Rattle.datasets.specs.Id.{id_order};
ghost use Rattle.eval.specs.Changes.{seen_through, replaced_change, with_replaced};
ghost use Rattle.reads.specs.Reads.{View, applied};

use crate::lacking::names_outside;
use datasets::{Id, Quad, QuadPattern};
use delta::Delta;
use quad_lists::QuadList;
use quad_sets::QuadSet;
use reads::lists::{copied_names, names_union};
use sets::is_member;
use std::alloc::{AllocError, Global};

/// The quads of a pattern after the changes, from those that were told before them. What doesn't
/// match is left out, and so are doubles.
pub fn quads_after(
    alloc: Global,
    changes: &Delta,
    pattern: &QuadPattern<Id>,
    told: &QuadList,
) -> Result<QuadSet, AllocError>
    ensures { IfOk result (λ quads. quads ≡ seen_through changes.now pattern.now told.now) }
{
    let matched = told.matching(alloc, pattern)?;
    let added = changes.present().matching(alloc, pattern)?;
    QuadSet::of_changed(alloc, matched, &changes.absent(), &added.as_slice())
}

/// The graph names after the changes, from those that were told before them.
pub fn names_after(alloc: Global, changes: &Delta, told: &[Id]) -> Result<Vec<Id>, AllocError>
    ensures { IfOk result (λ names. names.items
        ≡ union id_order (without id_order told.now changes.now.gone) changes.now.there) }
{
    let kept = names_outside(alloc, told, changes.gone())?;
    let added = copied_names(alloc, changes.there())?;
    names_union(kept, added)
}

/// Whether a graph name is there after the changes, from whether it was there before them.
pub fn is_named_after(changes: &Delta, name: Id, was_there: bool) -> bool
    ensures { result ≡ ((was_there && not (has id_order changes.now.gone name))
        || has id_order changes.now.there name) }
{
    (was_there && !is_member(changes.gone(), &name)) || is_member(changes.there(), &name)
}

// The names of the quads' graphs.
fn names_of(alloc: Global, quads: &[Quad<Id>]) -> Result<Vec<Id>, AllocError>
    ensures { IfOk result (λ names. names.items ≡ the_names_of quads.now) }
{
    quads.iter().filter_map(|quad| quad.graph).collect(alloc)
}

// The quads of a change, present and absent, with some deleted and then others inserted.
fn quads_replaced(
    alloc: Global,
    changes: &Delta,
    deleted: Vec<Quad<Id>>,
    inserted: Vec<Quad<Id>>,
) -> Result<(QuadSet, QuadSet), AllocError>
    ensures present { IfOk result (λ both. both.0 ≡ union (quad_order id_order)
        (without (quad_order id_order) changes.now.present deleted.items) inserted.items) }
    ensures absent { IfOk result (λ both. both.1 ≡ union (quad_order id_order) changes.now.absent
        deleted.items) }
{
    let gone = QuadSet::of_quads(alloc, deleted)?;
    let come = QuadSet::of_quads(alloc, inserted)?;
    let present = QuadSet::changed(
        alloc,
        &changes.present(),
        &gone.as_slice(),
        &come.as_slice(),
    )?;
    let absent = QuadSet::union(alloc, &changes.absent(), &gone.as_slice())?;
    Ok((present, absent))
}

/// The change that goes on with quads deleted and then others inserted, whose graphs come to be
/// there.
pub fn replaced(
    alloc: Global,
    changes: &Delta,
    deleted: Vec<Quad<Id>>,
    inserted: Vec<Quad<Id>>,
) -> Result<Delta, AllocError>
    ensures change { IfOk result (λ change. change
        ≡ replaced_change changes.now deleted.items inserted.items) }
    ensures effect { IfOk result (λ change. (d : View)
        → applied change d ≡ with_replaced (applied changes.now d) deleted.items inserted.items) }
{
    let names = names_of(alloc, &inserted)?;
    let there = names_union(copied_names(alloc, changes.there())?, names)?;
    let gone = copied_names(alloc, changes.gone())?;
    let (present, absent) = quads_replaced(alloc, changes, deleted, inserted)?;
    let change = Delta::from_sets(alloc, present, absent, there, gone)?;
    Ok(change)
}
