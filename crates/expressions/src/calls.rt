//! The functions that words name.
ghost use Rattle.std.specs.Prelude.{◌≡◌, MatchOption, Some, None};
ghost use Rattle.expressions.specs.Calls.{called_of, called_at};

use lexer::{Piece, Token};
use productions::is_keyword;
use syntax_trees::{One, Two};

/// What a word names, before its arguments.
#[derive(Clone, Copy, Debug, Drop)]
pub enum Called {
    Bound,
    One(One),
    Two(Two),
}

fn called_of(word: &Piece<'_>) -> Option<Called>
    ensures { result ≡ called_of word.now }
{
    match word {
        _ if is_keyword(word, b"BOUND") => Some(Called::Bound),
        _ if is_keyword(word, b"isIRI") => Some(Called::One(One::IsIri)),
        _ if is_keyword(word, b"isBlank") => Some(Called::One(One::IsBlank)),
        _ if is_keyword(word, b"isLiteral") => Some(Called::One(One::IsLiteral)),
        _ if is_keyword(word, b"STR") => Some(Called::One(One::Str)),
        _ if is_keyword(word, b"LANG") => Some(Called::One(One::Lang)),
        _ if is_keyword(word, b"DATATYPE") => Some(Called::One(One::Datatype)),
        _ if is_keyword(word, b"STRLEN") => Some(Called::One(One::StrLen)),
        _ if is_keyword(word, b"sameTerm") => Some(Called::Two(Two::SameTerm)),
        _ if is_keyword(word, b"STRSTARTS") => Some(Called::Two(Two::StrStarts)),
        _ if is_keyword(word, b"STRENDS") => Some(Called::Two(Two::StrEnds)),
        _ if is_keyword(word, b"CONTAINS") => Some(Called::Two(Two::Contains)),
        _ => None,
    }
}

/// What the word at the front of the tokens names, and what follows it.
pub fn called_at<'t, 'a>(tokens: &'t [Token<'a>]) -> Option<(Called, &'t [Token<'a>])>
    ensures { MatchOption result (called_at tokens.now ≡ None)
        (λ x. called_at tokens.now ≡ Some (x.0, x.1.now)) }
{
    let [first, rest @ ..] = tokens else {
        return None;
    };
    match first {
        Token::Word(word) => Some((called_of(word)?, rest)),
        _ => None,
    }
}
