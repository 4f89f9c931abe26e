//! Strings between two quotes, and what they spell.
ghost use Rattle.std.specs.Prelude.{◌≡◌, ◌<◌, length, MatchOption, IfSome, IfOk, Some, None, true, false, string_bytes};
ghost use Rattle.iris.specs.Forms.{short_escape};
ghost use Rattle.lexer.specs.Strings.{IsEscaped, is_quote, ends_plain, unescaped, unescaped_after};
ghost use Rattle.lexer.specs.Reading.{begins_with_two, string_end, string_at};

use crate::pieces::Quoted;
use crate::token::Token;
use iris::text_of;
use std::alloc::{AllocError, Global};

/// The byte that an escape stands for, by the byte after its backslash.
fn short_escape(b: u8) -> Option<u8>
    ensures { result ≡ short_escape b }
{
    match b {
        b't' => Some(b'\t'),
        b'b' => Some(8),
        b'n' => Some(b'\n'),
        b'r' => Some(b'\r'),
        b'f' => Some(12),
        b'"' => Some(b'"'),
        b'\'' => Some(b'\''),
        b'\\' => Some(b'\\'),
        _ => None,
    }
}

/// What follows the closing quote of a string whose opening quote stands before a text.
fn string_end(quote: u8, text: &[u8]) -> Option<&[u8]>
    ensures within { IfSome result (λ r. length r.now < length text.now) }
    ensures rest { MatchOption result (string_end quote false text.now ≡ None)
        (λ r. string_end quote false text.now ≡ Some r.now) }
{
    let mut escaped = false;
    let mut rest = text;
    while let [first, tail @ ..] = rest {
        if escaped {
            if short_escape(*first).is_none() {
                return None;
            }
            escaped = false;
        } else if *first == b'\\' {
            escaped = true;
        } else if *first == quote {
            return Some(tail);
        } else if matches!(*first, b'\n' | b'\r') {
            return None;
        }
        rest = tail;
    }
    None
}

fn begins_with_two(quote: u8, text: &[u8]) -> bool
    ensures { result ≡ begins_with_two quote text.now }
{
    match text {
        [first, second, ..] => *first == quote && *second == quote,
        _ => false,
    }
}

/// The string whose opening quote stands before a text, and what follows it.
#[tactic(auto, unfolding(crate::specs::Reading::string_at))]
pub fn string_at(quote: u8, text: &[u8]) -> Option<(Token<'_>, &[u8])>
    requires { is_quote quote ≡ true }
    ensures { MatchOption result (string_at quote text.now ≡ None)
        (λ x. string_at quote text.now ≡ Some (x.0, x.1.now)) }
{
    if begins_with_two(quote, text) {
        return None;
    }
    let rest = string_end(quote, text)?;
    let (written, _) = text.split_at(text.len() - (rest.len() + 1));
    let written = text_of(written)?;
    Some((Token::Text(Quoted::new(written)), rest))
}

/// What an escape stands for, by the byte after its backslash; a quote and a backslash stand for
/// themselves.
fn spelled(escape: &str) -> &str
    requires { length escape.now ≡ 1 }
    ensures { result.now ≡ unescaped_after true escape.entry.now }
{
    match escape {
        "t" => "\t",
        "b" => "\u{8}",
        "n" => "\n",
        "r" => "\r",
        "f" => "\u{c}",
        same => same,
    }
}

/// What a string spells, with its escapes undone.
pub fn unescaped(alloc: Global, written: &str) -> Result<String, AllocError>
    requires { IsEscaped written.now }
    ensures { IfOk result (λ t. string_bytes t ≡ unescaped written.now) }
{
    let mut value = String::with_capacity(alloc, written.len())?;
    let mut rest = written;
    while let Some((before, after)) = rest.split_once('\\') {
        value.push_str(before)?;
        let (escape, tail) = after.split_at(1);
        value.push_str(spelled(escape))?;
        rest = tail;
    }
    value.push_str(rest)?;
    Ok(value)
}
