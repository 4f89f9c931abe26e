//! Literals.
ghost use Rattle.std.specs.Prelude.{◌≡◌};
ghost use Rattle.productions.specs.Steps.{Gives};
ghost use Rattle.productions.specs.Reading.{typed_at, text_at, literal_at};

use crate::keywords::is_keyword;
use crate::names::name_at;
use lexer::{Quoted, Sign, Stop, Token};
use syntax_trees::Literal;

/// A datatype, behind a string and `^^`.
#[tactic(auto, unfolding(crate::specs::Reading::typed_at))]
fn typed_at<'t, 'a>(
    string: &Quoted<'a>,
    tokens: &'t [Token<'a>],
) -> Result<(Literal<'a>, &'t [Token<'a>]), Stop>
    ensures { Gives (λ x. (x.0, x.1.now)) result (typed_at string.now tokens.now) }
{
    let (datatype, rest) = name_at(tokens)?;
    Ok((Literal::Typed(string.again(), datatype), rest))
}

/// `[ tag | '^^' Name ]`, behind a string.
#[tactic(auto, unfolding(crate::specs::Reading::text_at))]
fn text_at<'t, 'a>(
    string: &Quoted<'a>,
    tokens: &'t [Token<'a>],
) -> Result<(Literal<'a>, &'t [Token<'a>]), Stop>
    ensures { Gives (λ x. (x.0, x.1.now)) result (text_at string.now tokens.now) }
{
    let [first, rest @ ..] = tokens else {
        return Ok((Literal::Plain(string.again()), tokens));
    };
    match first {
        Token::Tag(tag) => Ok((Literal::Tagged(string.again(), tag.again()), rest)),
        Token::Sign(Sign::Carets) => typed_at(string, rest),
        _ => Ok((Literal::Plain(string.again()), tokens)),
    }
}

/// The literal at the front of the tokens (SPARQL 1.1 Query, 19.8, productions 129, 130 and 134),
/// and what follows it. `NoReading` where no literal is there.
pub fn literal_at<'t, 'a>(tokens: &'t [Token<'a>]) -> Result<(Literal<'a>, &'t [Token<'a>]), Stop>
    ensures { Gives (λ x. (x.0, x.1.now)) result (literal_at tokens.now) }
{
    let [first, rest @ ..] = tokens else {
        return Err(Stop::NoReading);
    };
    match first {
        Token::Text(string) => text_at(string, rest),
        Token::Integer(digits) => Ok((Literal::Integer(digits.again()), rest)),
        Token::Word(word) if is_keyword(word, b"true") => Ok((Literal::Boolean(true), rest)),
        Token::Word(word) if is_keyword(word, b"false") => Ok((Literal::Boolean(false), rest)),
        _ => Err(Stop::NoReading),
    }
}
