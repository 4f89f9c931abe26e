//! Language tags.
ghost use Rattle.std.specs.Prelude.{◌≡◌, ◌≤◌, length, MatchOption, Some, None, false};
ghost use Rattle.lexer.specs.Reading.{begins_group, tag_of, tag_end, tag_at};

use crate::pieces::Tag;
use crate::runs::names_text;
use crate::token::Token;

fn begins_group(text: &[u8]) -> bool
    ensures { result ≡ begins_group text.now }
{
    match text {
        [first, ..] => first.is_ascii_alphanumeric(),
        [] => false,
    }
}

/// What follows the tag at the front of a text.
fn tag_end(text: &[u8]) -> &[u8]
    ensures within { length result.now ≤ length text.now }
    ensures rest { result.now ≡ tag_end false text.now }
{
    let mut later = false;
    let mut rest = text;
    while let [first, tail @ ..] = rest {
        match *first {
            b'A'..=b'Z' | b'a'..=b'z' => {}
            b'0'..=b'9' if later => {}
            b'-' if begins_group(tail) => later = true,
            _ => return rest,
        }
        rest = tail;
    }
    rest
}

/// The tag at the front of a text, and what follows it.
fn cut_tag(text: &[u8]) -> (&str, &[u8])
    ensures front { result.0.now ≡ tag_of false text.now }
    ensures rest { result.1.now ≡ tag_end false text.now }
{
    let (tag, rest) = text.split_at(text.len() - tag_end(text).len());
    (names_text(tag), rest)
}

/// The tag whose `@` stands before a text, and what follows it.
#[tactic(auto, unfolding(crate::specs::Reading::tag_at))]
pub fn tag_at(text: &[u8]) -> Option<(Token<'_>, &[u8])>
    ensures { MatchOption result (tag_at text.now ≡ None)
        (λ x. tag_at text.now ≡ Some (x.0, x.1.now)) }
{
    match text {
        [first, ..] if first.is_ascii_alphabetic() => {
            let (tag, rest) = cut_tag(text);
            Some((Token::Tag(Tag::new(tag)), rest))
        }
        _ => None,
    }
}
