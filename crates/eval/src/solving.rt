//! The solutions of a pattern.
ghost use Rattle.std.specs.Prelude.{◌≡◌, ℕ, ◌<◌, ◌^◌, true, Option, Some, IfOk, map};
ghost use Rattle.sets.specs.Sets.{set_of as the_set_of};
ghost use Rattle.algebra.specs.Plans.{plan_of, parts_of, nothing, linked_all, united, InGraph};
ghost use Rattle.algebra.specs.declared.template.Slot.{Slot};
ghost use Rattle.algebra.specs.declared.template.Slot.TheVariants as slot;
ghost use Rattle.datasets.specs.Id.{id_order};
ghost use Rattle.datasets.specs.declared.id.Id.{Id as Number};
ghost use Rattle.datasets.specs.declared.read.GraphPlace.TheVariants as graph_place;
ghost use Rattle.meaning.specs.Mapping.{mapping_cmp};
ghost use Rattle.asking.specs.Near.{is_for_plan, is_graph_written};
ghost use Rattle.meaning.specs.Solutions.{solutions};
ghost use Rattle.reads.specs.Reads.{View, applied};
ghost use Rattle.reads.specs.Runs.{Agrees};
ghost use Rattle.asking.specs.Goes.{Goes, stop_of};
ghost use Rattle.eval.specs.Groups.{combined as the_combined, in_graphs};

use crate::basic::solve_basic;
use crate::naming::{graphs, is_graph};
use crate::query::Query;
use algebra::{Link, Place, Plan};
use datasets::Id;
use reads::{Note, Source, Stop};
use solution::{Filters, Solutions};
use std::alloc::AllocError;

// These solutions, and then those of the pattern that a group goes on with.
fn combined<F: Filters>(
    query: &Query<'_, F>,
    before: Solutions,
    link: &Link<Id>,
    found: Solutions,
) -> Result<Solutions, AllocError>
    ensures { IfOk result (λ both. both ≡ the_combined (F.passes query.now.filters.now) link.now
        before found) }
{
    match link {
        Link::Join => before.join(query.alloc, found),
        Link::LeftJoin(filters) => before.left_join(query.alloc, found, filters, query.filters),
        Link::Minus => before.minus(query.alloc, found),
    }
}

/// The solutions of a pattern, with this graph as the active one, in each changed dataset that
/// agrees with the notes.
#[cycle(solve)]
#[tactic(auto, using(asking::proofs::Notes::goes_on, asking::proofs::Notes::goes_short, asking::proofs::Notes::goes_as))]
pub fn solve<S: Source, F: Filters>(
    query: &Query<'_, F>,
    plan: &Plan<Id>,
    active: Option<Id>,
    source: &mut S,
    notes: &mut Vec<Note>,
) -> Result<Solutions, Stop>
    ensures goes { (written : Option (Slot Number))
        → is_graph_written id_order written (graph_place.Only active) ≡ true
        → Goes S.asks (is_for_plan id_order written (plan_of plan.now)) source.old source.new
        notes.old.items notes.new.items (stop_of result) }
    ensures solved { IfOk result (λ found. (d : View) → Agrees notes.new.items d
        → found ≡ solutions id_order (F.passes query.now.filters.now) query.now.width
        (plan_of plan.now) (applied query.now.changes.now d) active) }
{
    match plan {
        Plan::Basic(patterns) => solve_basic(query, patterns.as_slice(), active, source, notes),
        Plan::Group(parts, filters) => {
            let found = solve_parts(query, parts, active, source, notes)?;
            let kept = found.filter(query.alloc, filters, query.filters)?;
            Ok(kept)
        }
        Plan::Union(plans) => solve_union(query, plans, active, source, notes),
        Plan::InGraph(place, inner) => solve_in(query, *place, inner, source, notes),
    }
}

/// The solutions of a group's patterns, each as the group goes on with it.
#[cycle(solve)]
#[tactic(auto, using(asking::proofs::Notes::goes_on, asking::proofs::Notes::goes_short, asking::proofs::Notes::goes_as))]
pub(crate) fn solve_parts<S: Source, F: Filters>(
    query: &Query<'_, F>,
    parts: &[(Link<Id>, Plan<Id>)],
    active: Option<Id>,
    source: &mut S,
    notes: &mut Vec<Note>,
) -> Result<Solutions, Stop>
    ensures goes { (written : Option (Slot Number))
        → is_graph_written id_order written (graph_place.Only active) ≡ true
        → Goes S.asks (is_for_plan id_order written (linked_all nothing (parts_of parts.now)))
        source.old source.new notes.old.items notes.new.items (stop_of result) }
    ensures solved { IfOk result (λ found. (d : View) → Agrees notes.new.items d
        → found ≡ solutions id_order (F.passes query.now.filters.now) query.now.width
        (linked_all nothing (parts_of parts.now)) (applied query.now.changes.now d) active) }
{
    let mut found = Solutions::empty_mapping(query.alloc, query.width)?;
    for (link, plan) in parts {
        let next = solve(query, plan, active, source, notes)?;
        found = combined(query, found, link, next)?;
    }
    Ok(found)
}

// The solutions of any of these patterns; of none, the empty mapping.
#[cycle(solve)]
#[tactic(auto, using(asking::proofs::Notes::goes_on, asking::proofs::Notes::goes_short, asking::proofs::Notes::goes_as))]
fn solve_union<S: Source, F: Filters>(
    query: &Query<'_, F>,
    plans: &[Plan<Id>],
    active: Option<Id>,
    source: &mut S,
    notes: &mut Vec<Note>,
) -> Result<Solutions, Stop>
    ensures goes { (written : Option (Slot Number))
        → is_graph_written id_order written (graph_place.Only active) ≡ true
        → Goes S.asks (is_for_plan id_order written (united (map plan_of plans.now))) source.old
        source.new notes.old.items notes.new.items (stop_of result) }
    ensures solved { IfOk result (λ found. (d : View) → Agrees notes.new.items d
        → found ≡ solutions id_order (F.passes query.now.filters.now) query.now.width
        (united (map plan_of plans.now)) (applied query.now.changes.now d) active) }
{
    let [first, rest @ ..] = plans else {
        return Ok(Solutions::empty_mapping(query.alloc, query.width)?);
    };
    let mut found = solve(query, first, active, source, notes)?;
    for plan in rest {
        let next = solve(query, plan, active, source, notes)?;
        found = found.union(next)?;
    }
    Ok(found)
}

/// The solutions of a pattern in the graph of this name, or in each. A name is asked for first, and
/// where it is absent nothing within; for a variable all names are asked for.
#[cycle(solve)]
#[tactic(auto, using(asking::proofs::Notes::goes_on, asking::proofs::Notes::goes_short, asking::proofs::Notes::goes_as))]
pub(crate) fn solve_in<S: Source, F: Filters>(
    query: &Query<'_, F>,
    place: Place<Id>,
    plan: &Plan<Id>,
    source: &mut S,
    notes: &mut Vec<Note>,
) -> Result<Solutions, Stop>
    ensures goes { (written : Option (Slot Number))
        → Goes S.asks (is_for_plan id_order written (InGraph place (plan_of plan.now))) source.old
        source.new notes.old.items notes.new.items (stop_of result) }
    ensures solved { IfOk result (λ found. (d : View) (active : Option Number)
        → Agrees notes.new.items d → found
        ≡ solutions id_order (F.passes query.now.filters.now) query.now.width
        (InGraph place (plan_of plan.now)) (applied query.now.changes.now d) active) }
{
    match place {
        Place::Term(name) => {
            if is_graph(query.alloc, name, query.changes, source, notes)? {
                solve(query, plan, Some(name), source, notes)
            } else {
                Ok(Solutions::none(query.alloc))
            }
        }
        Place::Variable(variable) => {
            let names = graphs(query.alloc, query.changes, source, notes)?;
            solve_graphs(query, variable, plan, &names, source, notes)
        }
    }
}

// The solutions of a pattern in each of these graphs, with a variable bound to the graph's name.
#[cycle(solve)]
#[tactic(auto, using(asking::proofs::Notes::goes_on, asking::proofs::Notes::goes_short, asking::proofs::Notes::goes_as))]
fn solve_graphs<S: Source, F: Filters>(
    query: &Query<'_, F>,
    variable: u32,
    plan: &Plan<Id>,
    names: &[Id],
    source: &mut S,
    notes: &mut Vec<Note>,
) -> Result<Solutions, Stop>
    ensures goes { Goes S.asks (is_for_plan id_order (Some (slot.Variable variable))
        (plan_of plan.now)) source.old source.new notes.old.items notes.new.items (stop_of result) }
    ensures solved { IfOk result (λ found. (d : View) → Agrees notes.new.items d
        → found ≡ the_set_of (mapping_cmp id_order)
        (in_graphs (F.passes query.now.filters.now) query.now.width variable (plan_of plan.now)
        (applied query.now.changes.now d) names.now)) }
{
    let mut found = Vec::new(query.alloc);
    for name in names {
        let next = solve(query, plan, Some(*name), source, notes)?;
        next.push_fitted(Place::Variable(variable), *name, &mut found)?;
    }
    Ok(Solutions::from_mappings(found))
}
