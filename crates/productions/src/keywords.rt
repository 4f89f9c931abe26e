//! Keywords.
ghost use Rattle.std.specs.Prelude.{◌≡◌, MatchOption, Some, None};
ghost use Rattle.productions.specs.Keywords.{is_keyword, keyword_at};

use lexer::{Piece, Token};

/// Whether a word is a keyword, in any case (SPARQL 1.1 Query, 19.8, note 1).
#[tactic(auto, using(crate::proofs::KeywordLaws::keywords))]
pub fn is_keyword(word: &Piece<'_>, keyword: &[u8]) -> bool
    ensures { result ≡ is_keyword word.now keyword.now }
{
    word.as_bytes().eq_ignore_ascii_case(keyword)
}

/// What follows a keyword at the front of the tokens, in any case. `None` where they begin with
/// anything else.
pub fn after_keyword<'t, 'a>(keyword: &[u8], tokens: &'t [Token<'a>]) -> Option<&'t [Token<'a>]>
    ensures { MatchOption result (keyword_at keyword.now tokens.now ≡ None)
        (λ rest. keyword_at keyword.now tokens.now ≡ Some rest.now) }
{
    let [first, rest @ ..] = tokens else {
        return None;
    };
    match first {
        Token::Word(word) if is_keyword(word, keyword) => Some(rest),
        _ => None,
    }
}
