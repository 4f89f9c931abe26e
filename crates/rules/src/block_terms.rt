//! The terms of requests.
ghost use Rattle.std.specs.Prelude.{◌≡◌, ◌++◌, OnOk, IsErr, IsOk, map};
ghost use Rattle.std.specs.List.{flat_map};
ghost use Rattle.std.specs.Option.{option_to_list};
ghost use Rattle.algebra.specs.Expressions.{expression_of};
ghost use Rattle.algebra.specs.Plans.{parts_of, plan_of};
ghost use Rattle.rules.specs.Parts.{terms_of_link, terms_of_part};
ghost use Rattle.rules.specs.Terms.{terms_of_slot, terms_of_graph, terms_of_quad, terms_of_place, terms_of_pattern, terms_of_expression, terms_of_plan, terms_of_target, terms_of_graphs, terms_of_operation, terms_of_request, terms_of};

use crate::lent::TermRef;
use crate::request::Checked;
use algebra::{
    Expression, GraphOperation, Link, Modify, Operation, Place, Plan, QuadTemplate, Slot, Target,
    TriplePattern,
};
use std::alloc::AllocError;
use terms::Term;

fn add_slot<'t>(found: &mut Vec<TermRef<'t>>, slot: &'t Slot<Term>) -> Result<(), AllocError>
    ensures { OnOk result (found.new.items ≡ found.old.items ++ terms_of_slot slot.now) }
{
    if let Slot::Term(term) = slot {
        found.push(TermRef::new(term))?;
    }
    Ok(())
}

fn add_graph<'t>(
    found: &mut Vec<TermRef<'t>>,
    graph: &'t Option<Slot<Term>>,
) -> Result<(), AllocError>
    ensures { OnOk result (found.new.items ≡ found.old.items ++ terms_of_graph graph.now) }
{
    match graph {
        Some(slot) => add_slot(found, slot),
        None => Ok(()),
    }
}

fn add_quad<'t>(
    found: &mut Vec<TermRef<'t>>,
    quad: &'t QuadTemplate<Term>,
) -> Result<(), AllocError>
    ensures { OnOk result (found.new.items ≡ found.old.items ++ terms_of_quad quad.now) }
{
    add_slot(found, &quad.subject)?;
    add_slot(found, &quad.predicate)?;
    add_slot(found, &quad.object)?;
    add_graph(found, &quad.graph)
}

fn add_quads<'t>(
    found: &mut Vec<TermRef<'t>>,
    quads: &'t [QuadTemplate<Term>],
) -> Result<(), AllocError>
    ensures { OnOk result (found.new.items ≡ found.old.items ++ flat_map terms_of_quad quads.now) }
{
    for quad in quads {
        add_quad(found, quad)?;
    }
    Ok(())
}

fn add_place<'t>(found: &mut Vec<TermRef<'t>>, place: &'t Place<Term>) -> Result<(), AllocError>
    ensures { OnOk result (found.new.items ≡ found.old.items ++ terms_of_place place.now) }
{
    if let Place::Term(term) = place {
        found.push(TermRef::new(term))?;
    }
    Ok(())
}

fn add_pattern<'t>(
    found: &mut Vec<TermRef<'t>>,
    pattern: &'t TriplePattern<Term>,
) -> Result<(), AllocError>
    ensures { OnOk result (found.new.items ≡ found.old.items ++ terms_of_pattern pattern.now) }
{
    add_place(found, &pattern.subject)?;
    add_place(found, &pattern.predicate)?;
    add_place(found, &pattern.object)
}

/// Adds the terms of an expression.
#[tactic(auto, using(crate::proofs::TermLaws::folded))]
fn add_expression<'t>(
    found: &mut Vec<TermRef<'t>>,
    expression: &'t Expression<Term>,
) -> Result<(), AllocError>
    ensures { OnOk result (found.new.items ≡ found.old.items
        ++ terms_of_expression (expression_of expression.now)) }
{
    match expression {
        Expression::Constant(term) => {
            found.push(TermRef::new(term))?;
            Ok(())
        }
        Expression::Variable(_) | Expression::Bound(_) => Ok(()),
        Expression::One(_, inner) => add_expression(found, inner),
        Expression::Two(_, left, right) => {
            add_expression(found, left)?;
            add_expression(found, right)
        }
        Expression::Chain(first, steps) => {
            add_expression(found, first)?;
            for step in steps {
                add_expression(found, &step.1)?;
            }
            Ok(())
        }
    }
}

fn add_expressions<'t>(
    found: &mut Vec<TermRef<'t>>,
    expressions: &'t [Expression<Term>],
) -> Result<(), AllocError>
    ensures { OnOk result (found.new.items ≡ found.old.items
        ++ flat_map terms_of_expression (map expression_of expressions.now)) }
{
    for expression in expressions {
        add_expression(found, expression)?;
    }
    Ok(())
}

fn add_patterns<'t>(
    found: &mut Vec<TermRef<'t>>,
    patterns: &'t [TriplePattern<Term>],
) -> Result<(), AllocError>
    ensures { OnOk result (found.new.items ≡ found.old.items
        ++ flat_map terms_of_pattern patterns.now) }
{
    for pattern in patterns {
        add_pattern(found, pattern)?;
    }
    Ok(())
}

fn add_link<'t>(found: &mut Vec<TermRef<'t>>, link: &'t Link<Term>) -> Result<(), AllocError>
    ensures { OnOk result (found.new.items ≡ found.old.items ++ terms_of_link link.now) }
{
    match link {
        Link::LeftJoin(condition) => add_expressions(found, condition.as_slice()),
        Link::Join | Link::Minus => Ok(()),
    }
}

#[cycle(plans)]
fn add_parts<'t>(
    found: &mut Vec<TermRef<'t>>,
    parts: &'t [(Link<Term>, Plan<Term>)],
) -> Result<(), AllocError>
    ensures { OnOk result (found.new.items ≡ found.old.items
        ++ flat_map terms_of_part (parts_of parts.now)) }
{
    for part in parts {
        add_plan(found, &part.1)?;
        add_link(found, &part.0)?;
    }
    Ok(())
}

#[cycle(plans)]
fn add_plans<'t>(found: &mut Vec<TermRef<'t>>, plans: &'t [Plan<Term>]) -> Result<(), AllocError>
    ensures { OnOk result (found.new.items ≡ found.old.items
        ++ flat_map terms_of_plan (map plan_of plans.now)) }
{
    for plan in plans {
        add_plan(found, plan)?;
    }
    Ok(())
}

/// Adds the terms of a pattern.
#[cycle(plans)]
#[tactic(auto, using(crate::proofs::TermLaws::folded))]
fn add_plan<'t>(found: &mut Vec<TermRef<'t>>, plan: &'t Plan<Term>) -> Result<(), AllocError>
    ensures { OnOk result (found.new.items ≡ found.old.items ++ terms_of_plan (plan_of plan.now)) }
{
    match plan {
        Plan::Basic(patterns) => add_patterns(found, patterns.as_slice()),
        Plan::Group(parts, filters) => {
            add_parts(found, parts.as_slice())?;
            add_expressions(found, filters.as_slice())
        }
        Plan::Union(plans) => add_plans(found, plans.as_slice()),
        Plan::InGraph(graph, inner) => {
            add_place(found, graph)?;
            add_plan(found, inner)
        }
    }
}

fn add_name<'t>(found: &mut Vec<TermRef<'t>>, graph: &'t Option<Term>) -> Result<(), AllocError>
    ensures { OnOk result (found.new.items ≡ found.old.items ++ option_to_list graph.now) }
{
    if let Some(graph) = graph {
        found.push(TermRef::new(graph))?;
    }
    Ok(())
}

fn add_modify<'t>(found: &mut Vec<TermRef<'t>>, modify: &'t Modify<Term>) -> Result<(), AllocError>
    ensures { OnOk result (found.new.items ≡ found.old.items
        ++ terms_of_operation (Operation.Modify modify.now)) }
{
    add_name(found, &modify.active)?;
    add_plan(found, modify.pattern.plan())?;
    add_quads(found, modify.delete.as_slice())?;
    add_quads(found, modify.insert.as_slice())
}

fn add_target<'t>(found: &mut Vec<TermRef<'t>>, target: &'t Target<Term>) -> Result<(), AllocError>
    ensures { OnOk result (found.new.items ≡ found.old.items ++ terms_of_target target.now) }
{
    if let Target::Graph(graph) = target {
        found.push(TermRef::new(graph))?;
    }
    Ok(())
}

fn add_graphs<'t>(
    found: &mut Vec<TermRef<'t>>,
    operation: &'t GraphOperation<Term>,
) -> Result<(), AllocError>
    ensures { OnOk result (found.new.items ≡ found.old.items ++ terms_of_graphs operation.now) }
{
    match operation {
        GraphOperation::Create(graph) => {
            found.push(TermRef::new(graph))?;
            Ok(())
        }
        GraphOperation::Drop(target) => add_target(found, target),
        GraphOperation::Clear(target) => add_target(found, target),
        GraphOperation::Transfer { from, to, .. } => {
            add_name(found, from)?;
            add_name(found, to)
        }
    }
}

fn add_operation<'t>(
    found: &mut Vec<TermRef<'t>>,
    operation: &'t Operation<Term>,
) -> Result<(), AllocError>
    ensures { OnOk result (found.new.items ≡ found.old.items ++ terms_of_operation operation.now) }
{
    match operation {
        Operation::Modify(modify) => add_modify(found, modify),
        Operation::Graphs { operation, .. } => add_graphs(found, operation),
    }
}

fn add_operations<'t>(
    found: &mut Vec<TermRef<'t>>,
    operations: &'t [Operation<Term>],
) -> Result<(), AllocError>
    ensures { OnOk result (found.new.items ≡ found.old.items
        ++ flat_map terms_of_operation operations.now) }
{
    for operation in operations {
        add_operation(found, operation)?;
    }
    Ok(())
}

/// Adds the terms of a request. A refused one has none, and takes no memory.
fn add_request<'t>(found: &mut Vec<TermRef<'t>>, request: &'t Checked) -> Result<(), AllocError>
    ensures ok { OnOk result (found.new.items ≡ found.old.items ++ terms_of_request request.now) }
    ensures refused { IsErr request.now → IsOk result }
{
    match request {
        Ok(operations) => add_operations(found, operations.as_slice()),
        Err(_) => Ok(()),
    }
}

/// Adds the terms of requests.
pub fn add_requests<'t>(
    found: &mut Vec<TermRef<'t>>,
    requests: &'t [Checked],
) -> Result<(), AllocError>
    ensures { OnOk result (found.new.items ≡ found.old.items ++ terms_of requests.now) }
{
    for request in requests {
        add_request(found, request)?;
    }
    Ok(())
}
