//! Patterns and filters at numbers of terms.
ghost use Rattle.std.specs.Prelude.{◌≡◌, true, map, IfOk};
ghost use Rattle.std.specs.List.{list_all};
ghost use Rattle.algebra.specs.Expressions.{chained, expression_of, steps_of, Expression as Tree};
ghost use Rattle.algebra.specs.Plans.{linked, linked_all, parts_of, plan_of, Plan as PlanTree};
ghost use Rattle.datasets.specs.declared.id.Id.{Id as Number};
ghost use Rattle.dict.specs.Dictionary.{term_of, is_known};
ghost use Rattle.meaning_laws.specs.Renaming.{renamed_place, renamed_pattern, renamed_expression, renamed_plan, place_known, pattern_known, expression_known, plan_known};
ghost use Rattle.store.specs.Held.{is_held};
ghost use Rattle.numbering.specs.Parts.{link_known, part_known};

use crate::lookup::Numbers;
use algebra::{Expression, Link, Place, Plan, TriplePattern, TwoOperator};
use dict::Id;
use sets::Items;
use std::alloc::{AllocError, Global};
use terms::Term;

fn number_place(numbers: &Numbers<'_>, place: &Place<Term>) -> Place<Id>
    requires { place_known (is_held numbers.now) place.now ≡ true }
    ensures renamed { renamed_place (term_of numbers.now) result ≡ place.now }
    ensures known { place_known (is_known numbers.now) result ≡ true }
{
    match place {
        Place::Term(term) => Place::Term(numbers.number_of(term)),
        Place::Variable(variable) => Place::Variable(*variable),
    }
}

fn number_pattern(numbers: &Numbers<'_>, pattern: &TriplePattern<Term>) -> TriplePattern<Id>
    requires { pattern_known (is_held numbers.now) pattern.now ≡ true }
    ensures renamed { renamed_pattern (term_of numbers.now) result ≡ pattern.now }
    ensures known { pattern_known (is_known numbers.now) result ≡ true }
{
    TriplePattern {
        subject: number_place(numbers, &pattern.subject),
        predicate: number_place(numbers, &pattern.predicate),
        object: number_place(numbers, &pattern.object),
    }
}

fn number_patterns(
    alloc: Global,
    numbers: &Numbers<'_>,
    patterns: &[TriplePattern<Term>],
) -> Result<Vec<TriplePattern<Id>>, AllocError>
    requires { list_all (pattern_known (is_held numbers.now)) patterns.now ≡ true }
    ensures renamed { IfOk result (λ list. map (renamed_pattern (term_of numbers.now)) list.items
        ≡ patterns.now) }
    ensures known { IfOk result (λ list. list_all (pattern_known (is_known numbers.now)) list.items
        ≡ true) }
{
    let mut list = Vec::new(alloc);
    for pattern in patterns {
        list.push(number_pattern(numbers, pattern))?;
    }
    Ok(list)
}

#[cycle(expressions)]
fn number_steps(
    alloc: Global,
    numbers: &Numbers<'_>,
    steps: &[(TwoOperator, Expression<Term>)],
) -> Result<Vec<(TwoOperator, Expression<Id>)>, AllocError>
    requires { list_all (λ s. expression_known (is_held numbers.now) s.1) (steps_of steps.now) ≡ true }
    ensures renamed { (first : Tree Number) → IfOk result
        (λ list. renamed_expression (term_of numbers.now) (chained first (steps_of list.items))
        ≡ chained (renamed_expression (term_of numbers.now) first) (steps_of steps.now)) }
    ensures known { IfOk result (λ list. list_all (λ s. expression_known (is_known numbers.now) s.1)
        (steps_of list.items) ≡ true) }
{
    let mut list = Vec::new(alloc);
    for step in steps {
        list.push((step.0, number_expression(alloc, numbers, &step.1)?))?;
    }
    Ok(list)
}

/// The numbers of an expression whose terms the dictionary holds.
#[cycle(expressions)]
#[tactic(auto, using(crate::proofs::PlanLaws::folded))]
fn number_expression(
    alloc: Global,
    numbers: &Numbers<'_>,
    expression: &Expression<Term>,
) -> Result<Expression<Id>, AllocError>
    requires { expression_known (is_held numbers.now) (expression_of expression.now) ≡ true }
    ensures renamed { IfOk result (λ e. renamed_expression (term_of numbers.now) (expression_of e)
        ≡ expression_of expression.now) }
    ensures known { IfOk result (λ e. expression_known (is_known numbers.now) (expression_of e)
        ≡ true) }
{
    match expression {
        Expression::Constant(term) => Ok(Expression::Constant(numbers.number_of(term))),
        Expression::Variable(variable) => Ok(Expression::Variable(*variable)),
        Expression::Bound(variable) => Ok(Expression::Bound(*variable)),
        Expression::One(operator, inner) => {
            let inner = number_expression(alloc, numbers, inner)?;
            Ok(Expression::One(*operator, Box::new(alloc, inner)?))
        }
        Expression::Two(operator, left, right) => {
            let left = Box::new(alloc, number_expression(alloc, numbers, left)?)?;
            let right = Box::new(alloc, number_expression(alloc, numbers, right)?)?;
            Ok(Expression::Two(*operator, left, right))
        }
        Expression::Chain(first, steps) => {
            let first = Box::new(alloc, number_expression(alloc, numbers, first)?)?;
            let steps = number_steps(alloc, numbers, steps.as_slice())?;
            Ok(Expression::Chain(first, steps))
        }
    }
}

fn number_expressions(
    alloc: Global,
    numbers: &Numbers<'_>,
    expressions: &[Expression<Term>],
) -> Result<Vec<Expression<Id>>, AllocError>
    requires { list_all (expression_known (is_held numbers.now)) (map expression_of expressions.now)
        ≡ true }
    ensures renamed { IfOk result (λ list. map (renamed_expression (term_of numbers.now))
        (map expression_of list.items) ≡ map expression_of expressions.now) }
    ensures known { IfOk result (λ list. list_all (expression_known (is_known numbers.now))
        (map expression_of list.items) ≡ true) }
{
    let mut list = Vec::new(alloc);
    for expression in expressions {
        list.push(number_expression(alloc, numbers, expression)?)?;
    }
    Ok(list)
}

fn number_link(
    alloc: Global,
    numbers: &Numbers<'_>,
    link: &Link<Term>,
) -> Result<Link<Id>, AllocError>
    requires { link_known (is_held numbers.now) link.now ≡ true }
    ensures renamed { (before : PlanTree Number) (p : PlanTree Number)
        → IfOk result (λ l. renamed_plan (term_of numbers.now) (linked before l p)
        ≡ linked (renamed_plan (term_of numbers.now) before) link.now
        (renamed_plan (term_of numbers.now) p)) }
    ensures known { IfOk result (λ l. link_known (is_known numbers.now) l ≡ true) }
{
    match link {
        Link::Join => Ok(Link::Join),
        Link::LeftJoin(condition) => {
            let condition = number_expressions(alloc, numbers, condition.as_slice())?;
            Ok(Link::LeftJoin(condition))
        }
        Link::Minus => Ok(Link::Minus),
    }
}

#[cycle(plans)]
fn number_parts(
    alloc: Global,
    numbers: &Numbers<'_>,
    parts: &[(Link<Term>, Plan<Term>)],
) -> Result<Vec<(Link<Id>, Plan<Id>)>, AllocError>
    requires { list_all (part_known (is_held numbers.now)) (parts_of parts.now) ≡ true }
    ensures renamed { (before : PlanTree Number) → IfOk result
        (λ list. renamed_plan (term_of numbers.now) (linked_all before (parts_of list.items))
        ≡ linked_all (renamed_plan (term_of numbers.now) before) (parts_of parts.now)) }
    ensures known { IfOk result (λ list. list_all (part_known (is_known numbers.now))
        (parts_of list.items) ≡ true) }
{
    let mut list = Vec::new(alloc);
    for part in parts {
        let link = number_link(alloc, numbers, &part.0)?;
        list.push((link, number_plan(alloc, numbers, &part.1)?))?;
    }
    Ok(list)
}

#[cycle(plans)]
fn number_plans(
    alloc: Global,
    numbers: &Numbers<'_>,
    plans: &[Plan<Term>],
) -> Result<Vec<Plan<Id>>, AllocError>
    requires { list_all (plan_known (is_held numbers.now)) (map plan_of plans.now) ≡ true }
    ensures renamed { IfOk result (λ list. map (renamed_plan (term_of numbers.now))
        (map plan_of list.items) ≡ map plan_of plans.now) }
    ensures known { IfOk result (λ list. list_all (plan_known (is_known numbers.now))
        (map plan_of list.items) ≡ true) }
{
    let mut list = Vec::new(alloc);
    for plan in plans {
        list.push(number_plan(alloc, numbers, plan)?)?;
    }
    Ok(list)
}

/// The numbers of a pattern whose terms the dictionary holds.
#[cycle(plans)]
#[tactic(auto, using(crate::proofs::PlanLaws::folded))]
pub(crate) fn number_plan(
    alloc: Global,
    numbers: &Numbers<'_>,
    plan: &Plan<Term>,
) -> Result<Plan<Id>, AllocError>
    requires { plan_known (is_held numbers.now) (plan_of plan.now) ≡ true }
    ensures renamed { IfOk result (λ p. renamed_plan (term_of numbers.now) (plan_of p)
        ≡ plan_of plan.now) }
    ensures known { IfOk result (λ p. plan_known (is_known numbers.now) (plan_of p) ≡ true) }
{
    match plan {
        Plan::Basic(patterns) => {
            let patterns = number_patterns(alloc, numbers, patterns.as_slice())?;
            Ok(Plan::Basic(Items::from_vec(patterns)))
        }
        Plan::Group(parts, filters) => {
            let parts = number_parts(alloc, numbers, parts.as_slice())?;
            let filters = number_expressions(alloc, numbers, filters.as_slice())?;
            Ok(Plan::Group(parts, filters))
        }
        Plan::Union(plans) => Ok(Plan::Union(number_plans(alloc, numbers, plans.as_slice())?)),
        Plan::InGraph(graph, inner) => {
            let graph = number_place(numbers, graph);
            let inner = number_plan(alloc, numbers, inner)?;
            Ok(Plan::InGraph(graph, Box::new(alloc, inner)?))
        }
    }
}
