//! The translation of groups to the algebra.
ghost use Rattle.std.specs.Prelude.{◌≡◌, ◌++◌, map, IfOk, OnOk};
ghost use Rattle.algebra.specs.Expressions as made;
ghost use Rattle.algebra.specs.Expressions.{chained, expression_of, steps_of};
ghost use Rattle.algebra.specs.Plans as plans;
ghost use Rattle.algebra.specs.Plans.{linked_all, nothing, parts_of as linked_parts, plan_of};
ghost use Rattle.group_translation.specs.Triples.{place_of, patterns_of};
ghost use Rattle.syntax_trees.specs.Expressions.{tree_of};
ghost use Rattle.syntax_trees.specs.Groups.{part_of, parts_of, group};
ghost use Rattle.group_translation.specs.Groups.{operator_of, function_of, function_of_two, value_of, translated_tree, filter_of, filters_of, with_part, with_parts, translated_group, block_in, quads_pattern};
ghost use Rattle.group_translation.specs.Chains.{stacked};

use crate::scope::Scope;
use crate::triples::patterns_of;
use algebra::{Expression as Made, Link, OneOperator, Plan, TwoOperator};
use std::alloc::{AllocError, Global};
use syntax_trees::{Block, Element, Expression, Node, One, Operator, SameSubject, Two};
use terms::Term;

fn operator_of(operator: Operator) -> TwoOperator
    ensures { result ≡ operator_of operator }
{
    match operator {
        Operator::Or => TwoOperator::Or,
        Operator::And => TwoOperator::And,
        Operator::Equal => TwoOperator::Equal,
        Operator::NotEqual => TwoOperator::NotEqual,
        Operator::Less => TwoOperator::Less,
        Operator::Greater => TwoOperator::Greater,
        Operator::LessEqual => TwoOperator::LessEqual,
        Operator::GreaterEqual => TwoOperator::GreaterEqual,
        Operator::Plus => TwoOperator::Plus,
        Operator::Minus => TwoOperator::Minus,
        Operator::Times => TwoOperator::Times,
    }
}

fn function_of(function: One) -> OneOperator
    ensures { result ≡ function_of function }
{
    match function {
        One::IsIri => OneOperator::IsIri,
        One::IsBlank => OneOperator::IsBlank,
        One::IsLiteral => OneOperator::IsLiteral,
        One::Str => OneOperator::Str,
        One::Lang => OneOperator::Lang,
        One::Datatype => OneOperator::Datatype,
        One::StrLen => OneOperator::StrLen,
    }
}

fn function_of_two(function: Two) -> TwoOperator
    ensures { result ≡ function_of_two function }
{
    match function {
        Two::SameTerm => TwoOperator::SameTerm,
        Two::StrStarts => TwoOperator::StrStarts,
        Two::StrEnds => TwoOperator::StrEnds,
        Two::Contains => TwoOperator::Contains,
    }
}

fn value_of<'a>(
    alloc: Global,
    scope: &Scope<'_, 'a>,
    node: &Node<'a>,
) -> Result<Made<Term>, AllocError>
    ensures { IfOk result (λ m. expression_of m
        ≡ value_of scope.now.prefixes.now scope.now.variables.now node.now) }
{
    match node {
        Node::Variable(name) => Ok(Made::Variable(scope.variables.number(name))),
        Node::Name(_) | Node::Type | Node::Blank(_) | Node::Literal(_) => {
            Ok(Made::Constant(scope.prefixes.term_of(alloc, node)?))
        }
    }
}

/// A function of one value, of an expression.
fn one_of(alloc: Global, operator: OneOperator, inner: Made<Term>) -> Result<Made<Term>, AllocError>
    ensures { IfOk result (λ m. expression_of m ≡ made.One operator (expression_of inner)) }
{
    Ok(Made::One(operator, Box::new(alloc, inner)?))
}

/// A function of two values, of two expressions.
fn two_of(
    alloc: Global,
    operator: TwoOperator,
    left: Made<Term>,
    right: Made<Term>,
) -> Result<Made<Term>, AllocError>
    ensures { IfOk result (λ m. expression_of m
        ≡ made.Two operator (expression_of left) (expression_of right)) }
{
    let left = Box::new(alloc, left)?;
    Ok(Made::Two(operator, left, Box::new(alloc, right)?))
}

/// An expression under operators with their right operands, the outermost first.
#[tactic(auto, using(crate::proofs::PlanLaws::reversed_chain, crate::proofs::PlanLaws::folded))]
fn chained(
    alloc: Global,
    first: Made<Term>,
    mut steps: Vec<(TwoOperator, Made<Term>)>,
) -> Result<Made<Term>, AllocError>
    ensures { IfOk result (λ m. expression_of m
        ≡ stacked (expression_of first) (steps_of steps.items)) }
{
    if steps.is_empty() {
        return Ok(first);
    }
    steps.reverse();
    Ok(Made::Chain(Box::new(alloc, first)?, steps))
}

/// The translation of an expression. Left operands lie as deep as a text is long: it goes down them
/// by a loop.
#[tactic(auto, using(std::proofs::lemmas::List::map_push, crate::proofs::PlanLaws::stacked_push))]
fn translated_tree<'a>(
    alloc: Global,
    scope: &Scope<'_, 'a>,
    expression: &Expression<'a>,
) -> Result<Made<Term>, AllocError>
    ensures { IfOk result (λ m. expression_of m
        ≡ translated_tree scope.now.prefixes.now scope.now.variables.now (tree_of expression.now)) }
{
    let mut steps = Vec::new(alloc);
    let mut rest = expression;
    let first = loop {
        match rest {
            Expression::Binary(operator, left, right) => {
                let right = translated_tree(alloc, scope, right)?;
                steps.push((operator_of(*operator), right))?;
                rest = left;
            }
            Expression::Not(inner) => {
                let inner = translated_tree(alloc, scope, inner)?;
                break one_of(alloc, OneOperator::Not, inner)?;
            }
            Expression::Value(node) => break value_of(alloc, scope, node)?,
            Expression::Bound(name) => break Made::Bound(scope.variables.number(name)),
            Expression::One(function, inner) => {
                let inner = translated_tree(alloc, scope, inner)?;
                break one_of(alloc, function_of(*function), inner)?;
            }
            Expression::Two(function, left, right) => {
                let left = translated_tree(alloc, scope, left)?;
                let right = translated_tree(alloc, scope, right)?;
                break two_of(alloc, function_of_two(*function), left, right)?;
            }
        }
    };
    chained(alloc, first, steps)
}

/// Adds the filter that an element is, if it is one.
#[tactic(auto, using(nodes::proofs::GroupLaws::union_lists, std::proofs::lemmas::List::map_push))]
fn add_filter<'a>(
    alloc: Global,
    scope: &Scope<'_, 'a>,
    found: &mut Vec<Made<Term>>,
    element: &Element<'a>,
) -> Result<(), AllocError>
    ensures { OnOk result (map expression_of found.new.items
        ≡ map expression_of found.old.items
        ++ filter_of scope.now.prefixes.now scope.now.variables.now (part_of element.now)) }
{
    match element {
        Element::Filter(expression) => {
            found.push(translated_tree(alloc, scope, expression)?)?;
            Ok(())
        }
        Element::Triples(_)
        | Element::Union(_)
        | Element::Optional(_)
        | Element::Minus(_)
        | Element::Graph(_, _) => Ok(()),
    }
}

/// The filters written directly in a group.
fn filters_of<'a>(
    alloc: Global,
    scope: &Scope<'_, 'a>,
    elements: &[Element<'a>],
) -> Result<Vec<Made<Term>>, AllocError>
    ensures { IfOk result (λ found. map expression_of found.items
        ≡ filters_of scope.now.prefixes.now scope.now.variables.now
        (group (parts_of elements.now))) }
{
    let mut found = Vec::new(alloc);
    for element in elements {
        add_filter(alloc, scope, &mut found, element)?;
    }
    Ok(found)
}

// ---- plans of plans

fn in_graph<'a>(
    alloc: Global,
    scope: &Scope<'_, 'a>,
    graph: &Node<'a>,
    plan: Plan<Term>,
) -> Result<Plan<Term>, AllocError>
    ensures { IfOk result (λ made. plan_of made
        ≡ plans.InGraph (place_of scope.now.prefixes.now scope.now.variables.now graph.now)
        (plan_of plan)) }
{
    let place = scope.place(alloc, graph)?;
    Ok(Plan::InGraph(place, Box::new(alloc, plan)?))
}

// ---- groups

/// What a group is joined with where an element is so joined.
type Part = (Link<Term>, Plan<Term>);

/// Goes on with a pattern.
#[tactic(auto, using(crate::proofs::PlanLaws::linked_push))]
fn link(parts: &mut Vec<Part>, link: Link<Term>, plan: Plan<Term>) -> Result<(), AllocError>
    ensures { OnOk result (linked_all nothing (linked_parts parts.new.items)
        ≡ plans.linked (linked_all nothing (linked_parts parts.old.items)) link (plan_of plan)) }
{
    parts.push((link, plan))?;
    Ok(())
}

/// Goes on with triples.
fn link_triples<'a>(
    alloc: Global,
    scope: &Scope<'_, 'a>,
    parts: &mut Vec<Part>,
    triples: &[SameSubject<'a>],
) -> Result<(), AllocError>
    ensures { OnOk result (linked_all nothing (linked_parts parts.new.items)
        ≡ plans.Join (linked_all nothing (linked_parts parts.old.items))
        (plans.Basic (patterns_of scope.now.prefixes.now scope.now.variables.now triples.now))) }
{
    let patterns = patterns_of(alloc, scope, triples)?;
    link(parts, Link::Join, Plan::Basic(patterns))
}

/// Goes on with the parts of an OPTIONAL group, whose filters are the condition.
#[tactic(auto, using(crate::proofs::PlanLaws::folded))]
fn link_optional<'a>(
    alloc: Global,
    scope: &Scope<'_, 'a>,
    parts: &mut Vec<Part>,
    elements: &[Element<'a>],
    inner: Vec<Part>,
) -> Result<(), AllocError>
    ensures { OnOk result (linked_all nothing (linked_parts parts.new.items)
        ≡ plans.LeftJoin (linked_all nothing (linked_parts parts.old.items))
        (linked_all nothing (linked_parts inner.items))
        (filters_of scope.now.prefixes.now scope.now.variables.now
        (group (parts_of elements.now)))) }
{
    let filters = filters_of(alloc, scope, elements)?;
    let right = Plan::Group(inner, Vec::new(alloc));
    link(parts, Link::LeftJoin(filters), right)
}

/// Goes on with the pattern of a GRAPH group.
fn link_graph<'a>(
    alloc: Global,
    scope: &Scope<'_, 'a>,
    parts: &mut Vec<Part>,
    graph: &Node<'a>,
    inner: Plan<Term>,
) -> Result<(), AllocError>
    ensures { OnOk result (linked_all nothing (linked_parts parts.new.items)
        ≡ plans.Join (linked_all nothing (linked_parts parts.old.items))
        (plans.InGraph (place_of scope.now.prefixes.now scope.now.variables.now graph.now)
        (plan_of inner))) }
{
    let right = in_graph(alloc, scope, graph, inner)?;
    link(parts, Link::Join, right)
}

/// The parts of a group under its filters.
#[tactic(auto, using(crate::proofs::PlanLaws::folded))]
fn with_filters<'a>(
    alloc: Global,
    scope: &Scope<'_, 'a>,
    elements: &[Element<'a>],
    parts: Vec<Part>,
) -> Result<Plan<Term>, AllocError>
    ensures { IfOk result (λ plan. plan_of plan
        ≡ plans.filtered (filters_of scope.now.prefixes.now scope.now.variables.now
        (group (parts_of elements.now))) (linked_all nothing (linked_parts parts.items))) }
{
    let filters = filters_of(alloc, scope, elements)?;
    Ok(Plan::Group(parts, filters))
}

/// The patterns of a group's parts in order.
#[cycle(groups)]
fn parts_of<'a>(
    alloc: Global,
    scope: &Scope<'_, 'a>,
    elements: &[Element<'a>],
) -> Result<Vec<Part>, AllocError>
    ensures { IfOk result (λ parts. linked_all nothing (linked_parts parts.items)
        ≡ with_parts scope.now.prefixes.now scope.now.variables.now nothing
        (group (parts_of elements.now))) }
{
    let mut parts = Vec::new(alloc);
    for element in elements {
        add_part(alloc, scope, element, &mut parts)?;
    }
    Ok(parts)
}

/// Goes on with an element of a group.
#[cycle(groups)]
#[tactic(auto, using(nodes::proofs::GroupLaws::union_lists, crate::proofs::PlanLaws::folded, std::proofs::lemmas::List::map_push))]
fn add_part<'a>(
    alloc: Global,
    scope: &Scope<'_, 'a>,
    element: &Element<'a>,
    parts: &mut Vec<Part>,
) -> Result<(), AllocError>
    ensures { OnOk result (linked_all nothing (linked_parts parts.new.items)
        ≡ with_part scope.now.prefixes.now scope.now.variables.now
        (linked_all nothing (linked_parts parts.old.items)) (part_of element.now)) }
{
    match element {
        Element::Triples(triples) => link_triples(alloc, scope, parts, triples.as_slice()),
        Element::Union(members) => {
            let mut plans = Vec::new(alloc);
            for elements in members {
                plans.push(translate(alloc, scope, elements.as_slice())?)?;
            }
            link(parts, Link::Join, Plan::Union(plans))
        }
        Element::Optional(elements) => {
            let inner = parts_of(alloc, scope, elements.as_slice())?;
            link_optional(alloc, scope, parts, elements.as_slice(), inner)
        }
        Element::Minus(elements) => {
            let right = translate(alloc, scope, elements.as_slice())?;
            link(parts, Link::Minus, right)
        }
        Element::Graph(graph, elements) => {
            let inner = translate(alloc, scope, elements.as_slice())?;
            link_graph(alloc, scope, parts, graph, inner)
        }
        Element::Filter(_) => Ok(()),
    }
}

/// The pattern of a group graph pattern (SPARQL 1.1 Query, 18.2.2): its parts joined in order from
/// the empty group on, where OPTIONAL has the filters of its group as condition, and then its own
/// filters over all of it. A name whose prefix isn't declared, a literal with rdf:langString as its
/// written datatype and a blank node stand for a term that no request may have: such a request is
/// refused. An error comes only where a growth was refused.
#[cycle(groups)]
#[tactic(auto, using(crate::proofs::PlanLaws::folded))]
pub fn translate<'a>(
    alloc: Global,
    scope: &Scope<'_, 'a>,
    elements: &[Element<'a>],
) -> Result<Plan<Term>, AllocError>
    ensures { IfOk result (λ plan. plan_of plan
        ≡ translated_group scope.now.prefixes.now scope.now.variables.now
        (group (parts_of elements.now))) }
{
    let parts = parts_of(alloc, scope, elements)?;
    with_filters(alloc, scope, elements, parts)
}

// ---- quads as a pattern

/// The pattern of a block: its triples, in the graph of its GRAPH block.
fn block_pattern<'a>(
    alloc: Global,
    scope: &Scope<'_, 'a>,
    block: &Block<'a>,
) -> Result<Plan<Term>, AllocError>
    ensures { IfOk result (λ plan. plan_of plan
        ≡ block_in scope.now.prefixes.now scope.now.variables.now block.now.graph
        (plans.Basic (patterns_of scope.now.prefixes.now scope.now.variables.now
        block.now.triples))) }
{
    let plan = Plan::Basic(patterns_of(alloc, scope, block.triples.as_slice())?);
    match &block.graph {
        Some(graph) => in_graph(alloc, scope, graph, plan),
        None => Ok(plan),
    }
}

/// The pattern of quads, as DELETE WHERE has them (SPARQL 1.1 Update, 3.1.3.3): their blocks, each
/// in the graph of its GRAPH, joined in order. An error comes only where a growth was refused.
#[tactic(auto, using(crate::proofs::PlanLaws::folded))]
pub fn quads_pattern<'a>(
    alloc: Global,
    scope: &Scope<'_, 'a>,
    blocks: &[Block<'a>],
) -> Result<Plan<Term>, AllocError>
    ensures { IfOk result (λ plan. plan_of plan
        ≡ quads_pattern scope.now.prefixes.now scope.now.variables.now blocks.now) }
{
    let mut parts = Vec::new(alloc);
    for block in blocks {
        let right = block_pattern(alloc, scope, block)?;
        link(&mut parts, Link::Join, right)?;
    }
    Ok(Plan::Group(parts, Vec::new(alloc)))
}
