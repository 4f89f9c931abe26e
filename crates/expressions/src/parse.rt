//! The productions of expressions, each by one function.
ghost use Rattle.std.specs.Prelude.{◌≡◌};
ghost use Rattle.syntax_trees.specs.Expressions.{tree_of};
ghost use Rattle.productions.specs.Steps.{Gives};
ghost use Rattle.expressions.specs.Reading.{bound_at, two_with, arguments_with, primary_with, not_with, operand_with, level_with, expression_at, call_at, constraint_at};

use crate::build::{call_of, call_of_two, closed, joined, negated};
use crate::calls::{Called, called_at};
use crate::operators::operator_at;
use crate::values::value_at;
use lexer::{Sign, Stop, Token};
use productions::{after_sign, kept, variable_at};
use std::alloc::Global;
use syntax_trees::{Expression, Level, Two};

/// `variable ')'`, behind BOUND and its `(`.
#[tactic(auto, unfolding(crate::specs::Reading::bound_at))]
fn bound_at<'t, 'a>(
    depth: usize,
    tokens: &'t [Token<'a>],
) -> Result<(Expression<'a>, &'t [Token<'a>]), Stop>
    ensures { Gives (λ x. (tree_of x.0, x.1.now)) result (bound_at depth tokens.now) }
{
    if depth == 0 {
        return Err(Stop::NoReading);
    }
    let (variable, rest) = variable_at(tokens)?;
    let Some(rest) = after_sign(Sign::CloseParen, rest) else {
        return Err(Stop::NoReading);
    };
    Ok((Expression::Bound(variable), rest))
}

/// `Expr = Or`, in parentheses that nest at most `depth` deep, those round it included.
#[cycle(expressions)]
#[tactic(auto, unfolding(crate::specs::Reading::expression_at))]
fn expression_at<'t, 'a>(
    alloc: Global,
    depth: usize,
    tokens: &'t [Token<'a>],
) -> Result<(Expression<'a>, &'t [Token<'a>]), Stop>
    ensures { Gives (λ x. (tree_of x.0, x.1.now)) result (expression_at depth tokens.now) }
{
    if depth == 0 {
        return Err(Stop::NoReading);
    }
    level_at(alloc, depth - 1, Level::Or, tokens)
}

/// `Expr ',' Expr ')'`, behind a function's name and its `(`.
#[cycle(expressions)]
#[tactic(auto, unfolding(crate::specs::Reading::two_with))]
fn two_at<'t, 'a>(
    alloc: Global,
    depth: usize,
    function: Two,
    tokens: &'t [Token<'a>],
) -> Result<(Expression<'a>, &'t [Token<'a>]), Stop>
    ensures { Gives (λ x. (tree_of x.0, x.1.now)) result
        (two_with (expression_at depth) function tokens.now) }
{
    let (first, rest) = expression_at(alloc, depth, tokens)?;
    match after_sign(Sign::Comma, rest) {
        Some(rest) => call_of_two(alloc, function, first, expression_at(alloc, depth, rest)),
        None => Err(Stop::NoReading),
    }
}

/// The arguments of a call, in their parentheses.
#[cycle(expressions)]
#[tactic(auto, unfolding(crate::specs::Reading::arguments_with))]
fn arguments_at<'t, 'a>(
    alloc: Global,
    depth: usize,
    called: Called,
    tokens: &'t [Token<'a>],
) -> Result<(Expression<'a>, &'t [Token<'a>]), Stop>
    ensures { Gives (λ x. (tree_of x.0, x.1.now)) result
        (arguments_with depth (expression_at depth) called tokens.now) }
{
    let Some(inside) = after_sign(Sign::OpenParen, tokens) else {
        return Err(Stop::NoReading);
    };
    match called {
        Called::Bound => bound_at(depth, inside),
        Called::One(function) => call_of(alloc, function, expression_at(alloc, depth, inside)),
        Called::Two(function) => two_at(alloc, depth, function, inside),
    }
}

/// `Primary = '(' Expr ')' | Call | Iri | Literal | variable`
#[cycle(expressions)]
#[tactic(auto, unfolding(crate::specs::Reading::primary_with))]
fn primary_at<'t, 'a>(
    alloc: Global,
    depth: usize,
    tokens: &'t [Token<'a>],
) -> Result<(Expression<'a>, &'t [Token<'a>]), Stop>
    ensures { Gives (λ x. (tree_of x.0, x.1.now)) result
        (primary_with depth (expression_at depth) tokens.now) }
{
    if let Some(inside) = after_sign(Sign::OpenParen, tokens) {
        return closed(expression_at(alloc, depth, inside));
    }
    match called_at(tokens) {
        Some((called, rest)) => arguments_at(alloc, depth, called, rest),
        None => value_at(tokens),
    }
}

/// `Not = ['!'] Primary`
#[cycle(expressions)]
#[tactic(auto, unfolding(crate::specs::Reading::not_with))]
fn not_at<'t, 'a>(
    alloc: Global,
    depth: usize,
    tokens: &'t [Token<'a>],
) -> Result<(Expression<'a>, &'t [Token<'a>]), Stop>
    ensures { Gives (λ x. (tree_of x.0, x.1.now)) result
        (not_with depth (expression_at depth) tokens.now) }
{
    match after_sign(Sign::Bang, tokens) {
        Some(rest) => negated(alloc, primary_at(alloc, depth, rest)),
        None => primary_at(alloc, depth, tokens),
    }
}

/// `Rel = Sum [ ('=' | '!=' | '<' | '>' | '<=' | '>=') Sum ]`
#[cycle(expressions)]
#[tactic(auto, unfolding(crate::specs::Reading::once_with))]
fn relation_at<'t, 'a>(
    alloc: Global,
    depth: usize,
    tokens: &'t [Token<'a>],
) -> Result<(Expression<'a>, &'t [Token<'a>]), Stop>
    ensures { Gives (λ x. (tree_of x.0, x.1.now)) result
        (operand_with depth (expression_at depth) Level.And tokens.now) }
{
    let (left, rest) = level_at(alloc, depth, Level::Sum, tokens)?;
    match operator_at(Level::Relation, rest) {
        Some((operator, rest)) => {
            let read = level_at(alloc, depth, Level::Sum, rest);
            joined(alloc, operator, left, read)
        }
        None => Ok((left, rest)),
    }
}

/// What stands between the operators of a level.
#[cycle(expressions)]
fn operand_at<'t, 'a>(
    alloc: Global,
    depth: usize,
    level: Level,
    tokens: &'t [Token<'a>],
) -> Result<(Expression<'a>, &'t [Token<'a>]), Stop>
    ensures { Gives (λ x. (tree_of x.0, x.1.now)) result
        (operand_with depth (expression_at depth) level tokens.now) }
{
    match level {
        Level::Or => level_at(alloc, depth, Level::And, tokens),
        Level::And => relation_at(alloc, depth, tokens),
        Level::Relation => level_at(alloc, depth, Level::Sum, tokens),
        Level::Sum => level_at(alloc, depth, Level::Product, tokens),
        Level::Product => not_at(alloc, depth, tokens),
    }
}

/// `Item { operator Item }`, from left to right: `Or`, `And`, `Sum` and `Product`.
#[cycle(expressions)]
#[tactic(auto, unfolding(crate::specs::Reading::chain_with))]
fn level_at<'t, 'a>(
    alloc: Global,
    depth: usize,
    level: Level,
    tokens: &'t [Token<'a>],
) -> Result<(Expression<'a>, &'t [Token<'a>]), Stop>
    ensures { Gives (λ x. (tree_of x.0, x.1.now)) result
        (level_with depth (expression_at depth) level tokens.now) }
{
    let (first, after) = operand_at(alloc, depth, level, tokens)?;
    let mut left = first;
    let mut rest = kept(after);
    while let Some((operator, after)) = operator_at(level, rest) {
        let read = operand_at(alloc, depth, level, after);
        let (made, after) = joined(alloc, operator, left, read)?;
        left = made;
        rest = kept(after);
    }
    Ok((left, rest))
}

#[tactic(auto, unfolding(crate::specs::Reading::call_at))]
fn call_at<'t, 'a>(
    alloc: Global,
    depth: usize,
    tokens: &'t [Token<'a>],
) -> Result<(Expression<'a>, &'t [Token<'a>]), Stop>
    ensures { Gives (λ x. (tree_of x.0, x.1.now)) result (call_at depth tokens.now) }
{
    match called_at(tokens) {
        Some((called, rest)) => arguments_at(alloc, depth, called, rest),
        None => Err(Stop::NoReading),
    }
}

/// What may follow FILTER (SPARQL 1.1 Query, 19.8, production 69), an expression in parentheses or
/// a call, at the front of the tokens, and what follows it. Its parentheses nest at most `depth`
/// deep, the first included. `NoReading` where none is there.
#[tactic(auto, unfolding(crate::specs::Reading::constraint_at))]
pub fn constraint_at<'t, 'a>(
    alloc: Global,
    depth: usize,
    tokens: &'t [Token<'a>],
) -> Result<(Expression<'a>, &'t [Token<'a>]), Stop>
    ensures { Gives (λ x. (tree_of x.0, x.1.now)) result (constraint_at depth tokens.now) }
{
    match after_sign(Sign::OpenParen, tokens) {
        Some(inside) => closed(expression_at(alloc, depth, inside)),
        None => call_at(alloc, depth, tokens),
    }
}
