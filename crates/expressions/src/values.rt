//! Variables, names and literals as expressions.
ghost use Rattle.std.specs.Prelude.{◌≡◌};
ghost use Rattle.syntax_trees.specs.Expressions.{tree_of};
ghost use Rattle.productions.specs.Steps.{Gives};
ghost use Rattle.expressions.specs.Reading.{named_at, quoted_at, value_at};

use lexer::{Stop, Token};
use productions::{literal_at, name_at};
use syntax_trees::{Expression, Node};

#[tactic(auto, unfolding(crate::specs::Reading::named_at))]
fn named_at<'t, 'a>(tokens: &'t [Token<'a>]) -> Result<(Expression<'a>, &'t [Token<'a>]), Stop>
    ensures { Gives (λ x. (tree_of x.0, x.1.now)) result (named_at tokens.now) }
{
    let (name, rest) = name_at(tokens)?;
    Ok((Expression::Value(Node::Name(name)), rest))
}

#[tactic(auto, unfolding(crate::specs::Reading::quoted_at))]
fn quoted_at<'t, 'a>(tokens: &'t [Token<'a>]) -> Result<(Expression<'a>, &'t [Token<'a>]), Stop>
    ensures { Gives (λ x. (tree_of x.0, x.1.now)) result (quoted_at tokens.now) }
{
    let (literal, rest) = literal_at(tokens)?;
    Ok((Expression::Value(Node::Literal(literal)), rest))
}

/// A variable, name or literal at the front of the tokens, and what follows it.
pub fn value_at<'t, 'a>(tokens: &'t [Token<'a>]) -> Result<(Expression<'a>, &'t [Token<'a>]), Stop>
    ensures { Gives (λ x. (tree_of x.0, x.1.now)) result (value_at tokens.now) }
{
    let [first, rest @ ..] = tokens else {
        return Err(Stop::NoReading);
    };
    match first {
        Token::Variable(variable) => {
            Ok((Expression::Value(Node::Variable(variable.again())), rest))
        }
        Token::Iri(_) | Token::Name { .. } => named_at(tokens),
        _ => quoted_at(tokens),
    }
}
