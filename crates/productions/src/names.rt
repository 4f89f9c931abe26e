//! Variables and names.
ghost use Rattle.std.specs.Prelude.{◌≡◌};
ghost use Rattle.productions.specs.Steps.{Gives};
ghost use Rattle.productions.specs.Reading.{variable_at, name_at};

use lexer::{Piece, Stop, Token};
use syntax_trees::Name;

/// The variable at the front of the tokens, and what follows it. `NoReading` where they begin with
/// anything else.
pub fn variable_at<'t, 'a>(tokens: &'t [Token<'a>]) -> Result<(Piece<'a>, &'t [Token<'a>]), Stop>
    ensures { Gives (λ x. (x.0, x.1.now)) result (variable_at tokens.now) }
{
    let [first, rest @ ..] = tokens else {
        return Err(Stop::NoReading);
    };
    match first {
        Token::Variable(variable) => Ok((variable.again(), rest)),
        _ => Err(Stop::NoReading),
    }
}

/// The IRI or prefixed name at the front of the tokens (SPARQL 1.1 Query, 19.8, production 136),
/// and what follows it. `NoReading` where they begin with anything else.
pub fn name_at<'t, 'a>(tokens: &'t [Token<'a>]) -> Result<(Name<'a>, &'t [Token<'a>]), Stop>
    ensures { Gives (λ x. (x.0, x.1.now)) result (name_at tokens.now) }
{
    let [first, rest @ ..] = tokens else {
        return Err(Stop::NoReading);
    };
    match first {
        Token::Iri(iri) => Ok((Name::Iri(iri.again()), rest)),
        Token::Name { prefix, local } => {
            let name = Name::Prefixed {
                prefix: prefix.again(),
                local: local.again(),
            };
            Ok((name, rest))
        }
        _ => Err(Stop::NoReading),
    }
}
