//! Expressions made of what was read.
ghost use Rattle.std.specs.Prelude.{◌≡◌, List, Option, Some, IfOk, option_and_then};
ghost use Rattle.lexer.specs.declared.token.Token.{Token};
ghost use Rattle.syntax_trees.specs.Expressions as tree;
ghost use Rattle.syntax_trees.specs.Expressions.{Tree, tree_of};
ghost use Rattle.productions.specs.Steps.{Reader, Gives};
ghost use Rattle.expressions.specs.Reading.{closed_with, one_with};

use lexer::{Sign, Stop, Token};
use productions::after_sign;
use std::alloc::{AllocError, Global};
use syntax_trees::{Expression, One, Operator, Two};

/// What was read, with a `)` behind it.
#[tactic(auto, unfolding(crate::specs::Reading::closed_with))]
pub fn closed<'t, 'a>(
    read: Result<(Expression<'a>, &'t [Token<'a>]), Stop>,
) -> Result<(Expression<'a>, &'t [Token<'a>]), Stop>
    ensures { (inner : Reader Tree) (ts : List Token)
        → Gives (λ x. (tree_of x.0, x.1.now)) read.entry (inner ts)
        → Gives (λ x. (tree_of x.0, x.1.now)) result (closed_with inner ts) }
{
    let (inner, rest) = read?;
    match after_sign(Sign::CloseParen, rest) {
        Some(rest) => Ok((inner, rest)),
        None => Err(Stop::NoReading),
    }
}

/// The negation of what was read.
pub fn negated<'t, 'a>(
    alloc: Global,
    read: Result<(Expression<'a>, &'t [Token<'a>]), Stop>,
) -> Result<(Expression<'a>, &'t [Token<'a>]), Stop>
    ensures { (given : Option (Tree × List Token))
        → Gives (λ x. (tree_of x.0, x.1.now)) read.entry given
        → Gives {Y = Tree × List Token} (λ x. (tree_of x.0, x.1.now)) result
        (option_and_then (λ x. Some (tree.Not x.0, x.1)) given) }
{
    let (inner, rest) = read?;
    Ok((Expression::Not(Box::new(alloc, inner)?), rest))
}

/// A function of one value, what was read in its parentheses.
#[tactic(auto, unfolding(crate::specs::Reading::one_with))]
pub fn call_of<'t, 'a>(
    alloc: Global,
    function: One,
    read: Result<(Expression<'a>, &'t [Token<'a>]), Stop>,
) -> Result<(Expression<'a>, &'t [Token<'a>]), Stop>
    ensures { (inner : Reader Tree) (ts : List Token)
        → Gives (λ x. (tree_of x.0, x.1.now)) read.entry (inner ts)
        → Gives (λ x. (tree_of x.0, x.1.now)) result (one_with inner function ts) }
{
    let (argument, rest) = closed(read)?;
    Ok((Expression::One(function, Box::new(alloc, argument)?), rest))
}

/// A function of two values, the second of them what was read before a `)`.
pub fn call_of_two<'t, 'a>(
    alloc: Global,
    function: Two,
    first: Expression<'a>,
    read: Result<(Expression<'a>, &'t [Token<'a>]), Stop>,
) -> Result<(Expression<'a>, &'t [Token<'a>]), Stop>
    ensures { (inner : Reader Tree) (ts : List Token)
        → Gives (λ x. (tree_of x.0, x.1.now)) read.entry (inner ts)
        → Gives {Y = Tree × List Token} (λ x. (tree_of x.0, x.1.now)) result (option_and_then
        (λ x. Some (tree.CallTwo function (tree_of first.entry) x.0, x.1))
        (closed_with inner ts)) }
{
    let (second, rest) = closed(read)?;
    Ok((two(alloc, function, first, second)?, rest))
}

/// An operator between its operands, the right one of them what was read.
pub fn joined<'t, 'a>(
    alloc: Global,
    operator: Operator,
    left: Expression<'a>,
    read: Result<(Expression<'a>, &'t [Token<'a>]), Stop>,
) -> Result<(Expression<'a>, &'t [Token<'a>]), Stop>
    ensures { (given : Option (Tree × List Token))
        → Gives (λ x. (tree_of x.0, x.1.now)) read.entry given
        → Gives {Y = Tree × List Token} (λ x. (tree_of x.0, x.1.now)) result (option_and_then
        (λ x. Some (tree.Binary operator (tree_of left.entry) x.0, x.1)) given) }
{
    let (right, rest) = read?;
    Ok((binary(alloc, operator, left, right)?, rest))
}

/// An operator between its operands.
fn binary<'a>(
    alloc: Global,
    operator: Operator,
    left: Expression<'a>,
    right: Expression<'a>,
) -> Result<Expression<'a>, AllocError>
    ensures { IfOk result (λ e. tree_of e ≡ tree.Binary operator (tree_of left.entry)
        (tree_of right.entry)) }
{
    Ok(Expression::Binary(operator, Box::new(alloc, left)?, Box::new(alloc, right)?))
}

/// A function of two values.
fn two<'a>(
    alloc: Global,
    function: Two,
    first: Expression<'a>,
    second: Expression<'a>,
) -> Result<Expression<'a>, AllocError>
    ensures { IfOk result (λ e. tree_of e ≡ tree.CallTwo function (tree_of first.entry)
        (tree_of second.entry)) }
{
    Ok(Expression::Two(function, Box::new(alloc, first)?, Box::new(alloc, second)?))
}
