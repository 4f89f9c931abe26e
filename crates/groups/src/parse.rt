//! The productions of groups, each by one function.
ghost use Rattle.std.specs.Prelude.{◌≡◌};
ghost use Rattle.productions.specs.Steps.{Gives};
ghost use Rattle.productions.specs.Many.{many};
ghost use Rattle.syntax_trees.specs.Expressions.{tree_of};
ghost use Rattle.syntax_trees.specs.Groups.{part_of, parts_of, lists_of};
ghost use Rattle.syntax_trees.specs.Groups as parts;
ghost use Rattle.groups.specs.Reading.{union_link, graph_with, filter_at, part_with, parts_with, group_at};

use crate::laws::readings_shrink;
use crate::made::{graph_of, minus_of, optional_of, push_group, union_of};
use crate::patterns::{push_front, push_item};
use expressions::constraint_at;
use lexer::{Sign, Stop, Token};
use productions::{after_keyword, after_sign, kept};
use std::alloc::Global;
use syntax_trees::{Element, Expression};
use triples::graph_name_at;

/// Whether the word `UNION` leads to a next group, and what follows it.
fn union_link<'t, 'a>(tokens: &'t [Token<'a>]) -> (bool, &'t [Token<'a>])
    ensures { (result.0, result.1.now) ≡ union_link tokens.now }
{
    match after_keyword(b"UNION", tokens) {
        Some(rest) => (true, rest),
        None => (false, tokens),
    }
}

fn filter_of<'a>(condition: Expression<'a>) -> Element<'a>
    ensures { part_of result ≡ parts.Filter (tree_of condition.entry) }
{
    Element::Filter(condition)
}

/// `'(' Expr ')' | Call`, behind FILTER.
#[tactic(auto, unfolding(crate::specs::Reading::filter_at))]
fn filter_at<'t, 'a>(
    alloc: Global,
    depth: usize,
    tokens: &'t [Token<'a>],
) -> Result<(Element<'a>, &'t [Token<'a>]), Stop>
    ensures { Gives (λ x. (part_of x.0, x.1.now)) result (filter_at depth tokens.now) }
{
    let (condition, rest) = constraint_at(alloc, depth, tokens)?;
    Ok((filter_of(condition), rest))
}

/// The group at the front of the tokens (SPARQL 1.1 Query, 19.8, production 53), and what follows
/// it. Braces and parentheses nest at most `depth` deep in it, its own included. `NoReading` comes
/// only where no such group is there, and `Memory` only where a growth was refused.
#[cycle(groups)]
#[tactic(auto, unfolding(crate::specs::Reading::group_at, crate::specs::Reading::braces_with))]
pub fn group_at<'t, 'a>(
    alloc: Global,
    depth: usize,
    tokens: &'t [Token<'a>],
) -> Result<(Vec<Element<'a>>, &'t [Token<'a>]), Stop>
    ensures { Gives (λ x. (parts_of x.0.items, x.1.now)) result (group_at depth tokens.now) }
{
    if depth == 0 {
        return Err(Stop::NoReading);
    }
    match after_sign(Sign::OpenBrace, tokens) {
        Some(inside) => parts_at(alloc, depth - 1, inside),
        None => Err(Stop::NoReading),
    }
}

/// `Group { 'UNION' Group }`
#[cycle(groups)]
fn groups_at<'t, 'a>(
    alloc: Global,
    depth: usize,
    tokens: &'t [Token<'a>],
) -> Result<(Vec<Vec<Element<'a>>>, &'t [Token<'a>]), Stop>
    ensures { Gives (λ x. (lists_of x.0.items, x.1.now)) result
        (many (group_at depth) union_link tokens.now) }
{
    readings_shrink();
    let mut found = Vec::new(alloc);
    let mut rest = tokens;
    let mut goes_on = true;
    while goes_on {
        let read = group_at(alloc, depth, rest);
        let (next, after) = union_link(push_group(&mut found, read)?);
        goes_on = next;
        rest = kept(after);
    }
    Ok((found, rest))
}

/// `VarIri Group`, behind GRAPH.
#[cycle(groups)]
#[tactic(auto, unfolding(crate::specs::Reading::graph_with))]
fn graph_at<'t, 'a>(
    alloc: Global,
    depth: usize,
    tokens: &'t [Token<'a>],
) -> Result<(Element<'a>, &'t [Token<'a>]), Stop>
    ensures { Gives (λ x. (part_of x.0, x.1.now)) result (graph_with (group_at depth) tokens.now) }
{
    let (name, rest) = graph_name_at(tokens)?;
    graph_of(name, group_at(alloc, depth, rest))
}

/// `Group { 'UNION' Group } | 'OPTIONAL' Group | 'MINUS' Group | 'GRAPH' VarIri Group | 'FILTER' (
/// '(' Expr ')' | Call )`
#[cycle(groups)]
#[tactic(auto, unfolding(crate::specs::Reading::part_with))]
fn part_at<'t, 'a>(
    alloc: Global,
    depth: usize,
    tokens: &'t [Token<'a>],
) -> Result<(Element<'a>, &'t [Token<'a>]), Stop>
    ensures { Gives (λ x. (part_of x.0, x.1.now)) result
        (part_with depth (group_at depth) tokens.now) }
{
    if let Some(rest) = after_keyword(b"OPTIONAL", tokens) {
        return optional_of(group_at(alloc, depth, rest));
    }
    if let Some(rest) = after_keyword(b"MINUS", tokens) {
        return minus_of(group_at(alloc, depth, rest));
    }
    if let Some(rest) = after_keyword(b"GRAPH", tokens) {
        return graph_at(alloc, depth, rest);
    }
    if let Some(rest) = after_keyword(b"FILTER", tokens) {
        return filter_at(alloc, depth, rest);
    }
    union_of(groups_at(alloc, depth, tokens))
}

/// `[Triples] { Part ['.'] [Triples] } '}'`
#[cycle(groups)]
fn parts_at<'t, 'a>(
    alloc: Global,
    depth: usize,
    tokens: &'t [Token<'a>],
) -> Result<(Vec<Element<'a>>, &'t [Token<'a>]), Stop>
    ensures { Gives (λ x. (parts_of x.0.items, x.1.now)) result
        (parts_with depth (group_at depth) tokens.now) }
{
    readings_shrink();
    let mut found = Vec::new(alloc);
    let mut rest = push_front(alloc, &mut found, tokens)?;
    while after_sign(Sign::CloseBrace, rest).is_none() {
        let read = part_at(alloc, depth, rest);
        rest = push_item(alloc, &mut found, read)?;
    }
    match after_sign(Sign::CloseBrace, rest) {
        Some(rest) => Ok((found, rest)),
        None => Err(Stop::NoReading),
    }
}
