//! The operators that signs are.
ghost use Rattle.std.specs.Prelude.{◌≡◌, MatchOption, Some, None};
ghost use Rattle.syntax_trees.specs.Operators.{rank};
ghost use Rattle.expressions.specs.Operators.{operator_of, operator_at};

use lexer::{Sign, Token};
use syntax_trees::{Level, Operator};

fn operator_of(token: &Token<'_>) -> Option<Operator>
    ensures { result ≡ operator_of token.now }
{
    match token {
        Token::Sign(Sign::Bars) => Some(Operator::Or),
        Token::Sign(Sign::Ampersands) => Some(Operator::And),
        Token::Sign(Sign::Equal) => Some(Operator::Equal),
        Token::Sign(Sign::NotEqual) => Some(Operator::NotEqual),
        Token::Sign(Sign::Less) => Some(Operator::Less),
        Token::Sign(Sign::Greater) => Some(Operator::Greater),
        Token::Sign(Sign::LessEqual) => Some(Operator::LessEqual),
        Token::Sign(Sign::GreaterEqual) => Some(Operator::GreaterEqual),
        Token::Sign(Sign::Plus) => Some(Operator::Plus),
        Token::Sign(Sign::Minus) => Some(Operator::Minus),
        Token::Sign(Sign::Star) => Some(Operator::Times),
        _ => None,
    }
}

/// An operator of a level at the front of the tokens, and what follows it.
pub fn operator_at<'t, 'a>(
    level: Level,
    tokens: &'t [Token<'a>],
) -> Option<(Operator, &'t [Token<'a>])>
    ensures { MatchOption result (operator_at (rank level) tokens.now ≡ None)
        (λ x. operator_at (rank level) tokens.now ≡ Some (x.0, x.1.now)) }
{
    let [first, rest @ ..] = tokens else {
        return None;
    };
    let operator = operator_of(first)?;
    if operator.level().rank() == level.rank() {
        Some((operator, rest))
    } else {
        None
    }
}
