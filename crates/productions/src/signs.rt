//! What follows a sign.
ghost use Rattle.std.specs.Prelude.{◌≡◌, MatchOption, Some, None};
ghost use Rattle.productions.specs.Signs.{is_sign, sign_at};

use lexer::{Sign, Token};

fn is_sign(sign: Sign, token: &Token<'_>) -> bool
    ensures { result ≡ is_sign sign token.now }
{
    match token {
        Token::Sign(found) => *found as u8 == sign as u8,
        _ => false,
    }
}

/// What follows a sign at the front of the tokens. `None` where they begin with anything else.
pub fn after_sign<'t, 'a>(sign: Sign, tokens: &'t [Token<'a>]) -> Option<&'t [Token<'a>]>
    ensures { MatchOption result (sign_at sign tokens.now ≡ None)
        (λ rest. sign_at sign tokens.now ≡ Some rest.now) }
{
    let [first, rest @ ..] = tokens else {
        return None;
    };
    if is_sign(sign, first) {
        Some(rest)
    } else {
        None
    }
}
