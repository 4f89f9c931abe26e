//! What leads from an object, a property or a subject to the next.
ghost use Rattle.std.specs.Prelude.{◌≡◌};
ghost use Rattle.triples.specs.Reading.{object_link, skip_semicolons, property_link, triple_link};

use crate::nodes::{begins_node, begins_verb};
use lexer::{Sign, Token};

/// Whether a comma leads to a next object, and what follows it.
pub fn object_link<'t, 'a>(tokens: &'t [Token<'a>]) -> (bool, &'t [Token<'a>])
    ensures { (result.0, result.1.now) ≡ object_link tokens.now }
{
    let [first, rest @ ..] = tokens else {
        return (false, tokens);
    };
    match first {
        Token::Sign(Sign::Comma) => (true, rest),
        _ => (false, tokens),
    }
}

fn skip_semicolons<'t, 'a>(tokens: &'t [Token<'a>]) -> &'t [Token<'a>]
    ensures { result.now ≡ skip_semicolons tokens.now }
{
    let mut rest = tokens;
    while let [first, after @ ..] = rest {
        match first {
            Token::Sign(Sign::Semicolon) => rest = after,
            _ => return rest,
        }
    }
    rest
}

/// Whether semicolons lead to a next verb, and what follows them.
pub fn property_link<'t, 'a>(tokens: &'t [Token<'a>]) -> (bool, &'t [Token<'a>])
    ensures { (result.0, result.1.now) ≡ property_link tokens.now }
{
    let [first, rest @ ..] = tokens else {
        return (false, tokens);
    };
    match first {
        Token::Sign(Sign::Semicolon) => {
            let rest = skip_semicolons(rest);
            (begins_verb(rest), rest)
        }
        _ => (false, tokens),
    }
}

/// Whether a dot leads to a next subject, and what follows the dot.
pub fn triple_link<'t, 'a>(tokens: &'t [Token<'a>]) -> (bool, &'t [Token<'a>])
    ensures { (result.0, result.1.now) ≡ triple_link tokens.now }
{
    let [first, rest @ ..] = tokens else {
        return (false, tokens);
    };
    match first {
        Token::Sign(Sign::Dot) => (begins_node(rest), rest),
        _ => (false, tokens),
    }
}
