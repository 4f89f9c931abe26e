//! The solutions of a pattern, unless there are more than a limit.
ghost use Rattle.std.specs.Prelude.{◌≡◌, ◌≤◌, true, length, Option, map, filter, IfOk, IfSome};
ghost use Rattle.algebra.specs.Expressions.{expression_of};
ghost use Rattle.algebra.specs.Plans.{plan_of, parts_of, nothing, linked_all, InGraph};
ghost use Rattle.algebra.specs.declared.plan.Link.TheVariants as links;
ghost use Rattle.algebra.specs.declared.template.Slot.{Slot};
ghost use Rattle.datasets.specs.Id.{id_order};
ghost use Rattle.datasets.specs.declared.id.Id.{Id as Number};
ghost use Rattle.datasets.specs.declared.read.GraphPlace.TheVariants as graph_place;
ghost use Rattle.asking.specs.Near.{is_for_plan, is_graph_written};
ghost use Rattle.meaning.specs.Solutions.{passes_all, solutions};
ghost use Rattle.reads.specs.Reads.{View, applied};
ghost use Rattle.reads.specs.Runs.{Agrees};
ghost use Rattle.asking.specs.Goes.{Goes, stop_of};
ghost use Rattle.solution.specs.Limits.{up_to};
ghost use Rattle.eval.specs.Groups.{combined as the_combined};

use crate::basic::solve_basic_up_to;
use crate::naming::is_graph;
use crate::query::Query;
use crate::solving::{solve, solve_in, solve_parts};
use algebra::{Expression, Link, Place, Plan};
use datasets::Id;
use reads::{Note, Source, Stop};
use solution::{Filters, Solutions};
use std::alloc::AllocError;

// Those that pass each filter, unless there are more than the limit.
#[tactic(auto, using(crate::proofs::Few::few_of))]
fn kept_up_to<F: Filters>(
    query: &Query<'_, F>,
    all: Solutions,
    filters: &[Expression<Id>],
    limit: usize,
) -> Result<Option<Solutions>, AllocError>
    ensures value { IfOk result (λ found. found ≡ up_to limit
        (filter (passes_all (F.passes query.now.filters.now) (map expression_of filters.now))
        all)) }
    ensures few { IfOk result (λ found. IfSome found (λ few. length few ≤ limit)) }
{
    let kept = all.filter(query.alloc, filters, query.filters)?;
    Ok(kept.up_to(limit))
}

// What a group comes to that goes on with a pattern, where it passes each filter, unless there are
// more than the limit. A join ends as soon as there are, and so does an OPTIONAL that no filters
// stand over.
#[tactic(auto, using(crate::proofs::Few::few_of))]
fn combined_up_to<F: Filters>(
    query: &Query<'_, F>,
    before: Solutions,
    link: &Link<Id>,
    next: Solutions,
    filters: &[Expression<Id>],
    limit: usize,
) -> Result<Option<Solutions>, AllocError>
    ensures value { IfOk result (λ found. found ≡ up_to limit
        (filter (passes_all (F.passes query.now.filters.now) (map expression_of filters.now))
        (the_combined (F.passes query.now.filters.now) link.now before next))) }
    ensures few { IfOk result (λ found. IfSome found (λ few. length few ≤ limit)) }
{
    match link {
        Link::Join => before.join_up_to(query.alloc, next, filters, query.filters, limit),
        Link::LeftJoin(tests) => {
            if filters.is_empty() {
                before.left_join_up_to(query.alloc, next, tests, query.filters, limit)
            } else {
                let all = before.left_join(query.alloc, next, tests, query.filters)?;
                kept_up_to(query, all, filters, limit)
            }
        }
        Link::Minus => {
            let all = before.minus(query.alloc, next)?;
            kept_up_to(query, all, filters, limit)
        }
    }
}

// The solutions of a pattern that pass each filter, unless there are more than the limit. All are
// made first.
fn solve_whole_up_to<S: Source, F: Filters>(
    query: &Query<'_, F>,
    plan: &Plan<Id>,
    filters: &[Expression<Id>],
    active: Option<Id>,
    limit: usize,
    source: &mut S,
    notes: &mut Vec<Note>,
) -> Result<Option<Solutions>, Stop>
    ensures goes { (written : Option (Slot Number))
        → is_graph_written id_order written (graph_place.Only active) ≡ true
        → Goes S.asks (is_for_plan id_order written (plan_of plan.now)) source.old source.new
        notes.old.items notes.new.items (stop_of result) }
    ensures solved { IfOk result (λ found. (d : View) → Agrees notes.new.items d
        → found ≡ up_to limit (filter (passes_all (F.passes query.now.filters.now)
        (map expression_of filters.now))
        (solutions id_order (F.passes query.now.filters.now) query.now.width (plan_of plan.now)
        (applied query.now.changes.now d) active))) }
    ensures few { IfOk result (λ found. IfSome found (λ few. length few ≤ limit)) }
{
    let all = solve(query, plan, active, source, notes)?;
    let kept = kept_up_to(query, all, filters, limit)?;
    Ok(kept)
}

/// The solutions of a pattern that pass each filter, with this graph as the active one, in each
/// changed dataset that agrees with the notes, unless there are more than the limit. The last join
/// of the pattern ends as soon as there are, and so does its last OPTIONAL where no filters stand
/// over it.
#[cycle(solve_up_to)]
#[tactic(auto, using(asking::proofs::Notes::goes_on, asking::proofs::Notes::goes_short, asking::proofs::Notes::goes_as))]
pub fn solve_up_to<S: Source, F: Filters>(
    query: &Query<'_, F>,
    plan: &Plan<Id>,
    filters: &[Expression<Id>],
    active: Option<Id>,
    limit: usize,
    source: &mut S,
    notes: &mut Vec<Note>,
) -> Result<Option<Solutions>, Stop>
    ensures goes { (written : Option (Slot Number))
        → is_graph_written id_order written (graph_place.Only active) ≡ true
        → Goes S.asks (is_for_plan id_order written (plan_of plan.now)) source.old source.new
        notes.old.items notes.new.items (stop_of result) }
    ensures solved { IfOk result (λ found. (d : View) → Agrees notes.new.items d
        → found ≡ up_to limit (filter (passes_all (F.passes query.now.filters.now)
        (map expression_of filters.now))
        (solutions id_order (F.passes query.now.filters.now) query.now.width (plan_of plan.now)
        (applied query.now.changes.now d) active))) }
    ensures few { IfOk result (λ found. IfSome found (λ few. length few ≤ limit)) }
{
    match plan {
        Plan::Basic(patterns) => {
            let patterns = patterns.as_slice();
            solve_basic_up_to(query, patterns, filters, active, limit, source, notes)
        }
        Plan::Group(parts, own) => {
            if filters.is_empty() {
                solve_parts_up_to(query, parts, own, active, limit, source, notes)
            } else {
                solve_whole_up_to(query, plan, filters, active, limit, source, notes)
            }
        }
        Plan::Union(_) => solve_whole_up_to(query, plan, filters, active, limit, source, notes),
        Plan::InGraph(place, inner) => {
            solve_in_up_to(query, *place, inner, filters, limit, source, notes)
        }
    }
}

// Whether a group goes on by a join.
fn is_join(link: &Link<Id>) -> bool
    ensures { result ≡ true → link.now ≡ links.Join }
{
    match link {
        Link::Join => true,
        _ => false,
    }
}

// The same for the patterns of a group. A group of one pattern is that pattern.
#[cycle(solve_up_to)]
#[tactic(auto, using(asking::proofs::Notes::goes_on, asking::proofs::Notes::goes_short, asking::proofs::Notes::goes_as))]
fn solve_parts_up_to<S: Source, F: Filters>(
    query: &Query<'_, F>,
    parts: &[(Link<Id>, Plan<Id>)],
    filters: &[Expression<Id>],
    active: Option<Id>,
    limit: usize,
    source: &mut S,
    notes: &mut Vec<Note>,
) -> Result<Option<Solutions>, Stop>
    ensures goes { (written : Option (Slot Number))
        → is_graph_written id_order written (graph_place.Only active) ≡ true
        → Goes S.asks (is_for_plan id_order written (linked_all nothing (parts_of parts.now)))
        source.old source.new notes.old.items notes.new.items (stop_of result) }
    ensures solved { IfOk result (λ found. (d : View) → Agrees notes.new.items d
        → found ≡ up_to limit (filter (passes_all (F.passes query.now.filters.now)
        (map expression_of filters.now))
        (solutions id_order (F.passes query.now.filters.now) query.now.width
        (linked_all nothing (parts_of parts.now)) (applied query.now.changes.now d) active))) }
    ensures few { IfOk result (λ found. IfSome found (λ few. length few ≤ limit)) }
{
    let [first @ .., (link, plan)] = parts else {
        let empty = Solutions::empty_mapping(query.alloc, query.width)?;
        let kept = kept_up_to(query, empty, filters, limit)?;
        return Ok(kept);
    };
    if first.is_empty() && is_join(link) {
        return solve_up_to(query, plan, filters, active, limit, source, notes);
    }
    let before = solve_parts(query, first, active, source, notes)?;
    let next = solve(query, plan, active, source, notes)?;
    let found = combined_up_to(query, before, link, next, filters, limit)?;
    Ok(found)
}

// The same for a pattern in the graph of this name, or in each. A name is asked for first, and
// where it is absent nothing within.
#[cycle(solve_up_to)]
#[tactic(auto, using(asking::proofs::Notes::goes_on, asking::proofs::Notes::goes_short, asking::proofs::Notes::goes_as))]
fn solve_in_up_to<S: Source, F: Filters>(
    query: &Query<'_, F>,
    place: Place<Id>,
    plan: &Plan<Id>,
    filters: &[Expression<Id>],
    limit: usize,
    source: &mut S,
    notes: &mut Vec<Note>,
) -> Result<Option<Solutions>, Stop>
    ensures goes { (written : Option (Slot Number))
        → Goes S.asks (is_for_plan id_order written (InGraph place (plan_of plan.now))) source.old
        source.new notes.old.items notes.new.items (stop_of result) }
    ensures solved { IfOk result (λ found. (d : View) (active : Option Number)
        → Agrees notes.new.items d → found
        ≡ up_to limit (filter (passes_all (F.passes query.now.filters.now)
        (map expression_of filters.now))
        (solutions id_order (F.passes query.now.filters.now) query.now.width
        (InGraph place (plan_of plan.now)) (applied query.now.changes.now d) active))) }
    ensures few { IfOk result (λ found. IfSome found (λ few. length few ≤ limit)) }
{
    match place {
        Place::Term(name) => {
            if is_graph(query.alloc, name, query.changes, source, notes)? {
                solve_up_to(query, plan, filters, Some(name), limit, source, notes)
            } else {
                Ok(Some(Solutions::none(query.alloc)))
            }
        }
        Place::Variable(_) => {
            let all = solve_in(query, place, plan, source, notes)?;
            let kept = kept_up_to(query, all, filters, limit)?;
            Ok(kept)
        }
    }
}
