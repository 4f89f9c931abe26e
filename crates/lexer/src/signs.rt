//! Signs of one byte and of two.
ghost use Rattle.std.specs.Prelude.{◌≡◌, MatchOption, Some, None};
ghost use Rattle.lexer.specs.Reading.{one_of, two_of, sign_at};

use crate::token::{Sign, Token};

fn two_of(first: u8, second: u8) -> Option<Sign>
    ensures { result ≡ two_of first second }
{
    match (first, second) {
        (b'^', b'^') => Some(Sign::Carets),
        (b'!', b'=') => Some(Sign::NotEqual),
        (b'<', b'=') => Some(Sign::LessEqual),
        (b'>', b'=') => Some(Sign::GreaterEqual),
        (b'&', b'&') => Some(Sign::Ampersands),
        (b'|', b'|') => Some(Sign::Bars),
        _ => None,
    }
}

fn one_of(first: u8) -> Option<Sign>
    ensures { result ≡ one_of first }
{
    match first {
        b'{' => Some(Sign::OpenBrace),
        b'}' => Some(Sign::CloseBrace),
        b'(' => Some(Sign::OpenParen),
        b')' => Some(Sign::CloseParen),
        b'.' => Some(Sign::Dot),
        b';' => Some(Sign::Semicolon),
        b',' => Some(Sign::Comma),
        b'=' => Some(Sign::Equal),
        b'<' => Some(Sign::Less),
        b'>' => Some(Sign::Greater),
        b'!' => Some(Sign::Bang),
        b'+' => Some(Sign::Plus),
        b'-' => Some(Sign::Minus),
        b'*' => Some(Sign::Star),
        _ => None,
    }
}

/// The sign that begins with this byte, the longer where two do, and what follows it.
#[tactic(auto, unfolding(crate::specs::Reading::sign_at))]
pub fn sign_at(first: u8, after: &[u8]) -> Option<(Token<'_>, &[u8])>
    ensures { MatchOption result (sign_at first after.now ≡ None)
        (λ x. sign_at first after.now ≡ Some (x.0, x.1.now)) }
{
    if let [second, rest @ ..] = after {
        if let Some(sign) = two_of(first, *second) {
            return Some((Token::Sign(sign), rest));
        }
    }
    Some((Token::Sign(one_of(first)?), after))
}
