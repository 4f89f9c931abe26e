//! One token.
ghost use Rattle.std.specs.Prelude.{◌≡◌, MatchOption, Some, None, true, false};
ghost use Rattle.iris.specs.Iri.{is_letter};
ghost use Rattle.iris.specs.Runs.{run_of, rest_of};
ghost use Rattle.lexer.specs.declared.token.Token.{Token};
ghost use Rattle.lexer.specs.declared.token.Token.TheVariants as token;
ghost use Rattle.lexer.specs.Names.{is_local_start, is_variable_start};
ghost use Rattle.lexer.specs.Form.{begins_with_digit, continues_integer};
ghost use Rattle.lexer.specs.Reading.{begins_with_colon, NoneAhead, skip_from, local_at, name_after, name_or_word, variable_at, label_at, blank_at, integer_at, angle_at, plain_at, token_at};

use crate::pieces::{Digits, IriText, Label, LocalPart, Piece};
use crate::runs::{cut_digits, cut_iri, cut_name, cut_variable, cut_word, is_variable_byte};
use crate::signs::sign_at;
use crate::strings::string_at;
use crate::tags::tag_at;
use crate::token::Token;
use iris::laws::runs_are_longest;
use iris::{is_iri, text_of};

/// What follows white space and comments.
pub fn skip(text: &[u8]) -> &[u8]
    ensures { result.now ≡ skip_from false text.now }
{
    let mut inside = false;
    let mut rest = text;
    while let [first, tail @ ..] = rest {
        match *first {
            b'\r' | b'\n' => inside = false,
            _ if inside => {}
            b' ' | b'\t' => {}
            b'#' => inside = true,
            _ => return rest,
        }
        rest = tail;
    }
    rest
}

fn is_local_start(b: u8) -> bool
    ensures { result ≡ is_local_start b }
{
    b.is_ascii_alphanumeric() || b == b'_'
}

/// The local part at the front of a text, and what follows it.
#[tactic(auto, unfolding(crate::specs::Reading::local_at))]
fn local_at(text: &[u8]) -> (&str, &[u8])
    ensures local { result.0.now ≡ (local_at text.now).0 }
    ensures rest { result.1.now ≡ (local_at text.now).1 }
{
    match text {
        [first, ..] if is_local_start(*first) => cut_name(text),
        _ => ("", text),
    }
}

/// The prefixed name of this prefix, where a colon follows it.
#[tactic(auto, unfolding(crate::specs::Reading::name_after))]
fn name_after<'a>(prefix: &'a str, text: &'a [u8]) -> Option<(Token<'a>, &'a [u8])>
    ensures { MatchOption result (name_after prefix.now text.now ≡ None)
        (λ x. name_after prefix.now text.now ≡ Some (x.0, x.1.now)) }
{
    let [b':', text @ ..] = text else {
        return None;
    };
    let (local, rest) = local_at(text);
    runs_are_longest();
    let name = Token::Name {
        prefix: Piece::new(prefix),
        local: LocalPart::new(local),
    };
    Some((name, rest))
}

fn begins_with_colon(text: &[u8]) -> bool
    ensures { result ≡ begins_with_colon text.now }
{
    matches!(text, [b':', ..])
}

/// So many bytes at a text's end, before which no run of name bytes is a prefix. No run without a
/// colon is looked through twice.
pub fn edge_at(text: &[u8], edge: usize) -> usize
    requires { NoneAhead text.now edge }
    ensures { NoneAhead text.now result }
{
    match text {
        [first, ..] if text.len() <= edge && first.is_ascii_alphabetic() => {
            let (_, rest) = cut_name(text);
            if begins_with_colon(rest) {
                edge
            } else {
                rest.len()
            }
        }
        _ => edge,
    }
}

fn word_at(text: &[u8]) -> (Token<'_>, &[u8])
    ensures word { result.0 ≡ token.Word (run_of is_letter text.now) }
    ensures rest { result.1.now ≡ rest_of is_letter text.now }
{
    let (word, rest) = cut_word(text);
    (Token::Word(Piece::new(word)), rest)
}

/// A prefixed name or a word, at a text that begins with a letter.
#[tactic(auto, unfolding(crate::specs::Reading::name_or_word))]
fn name_or_word(text: &[u8], edge: usize) -> (Token<'_>, &[u8])
    requires { NoneAhead text.now edge }
    ensures { (result.0, result.1.now) ≡ name_or_word text.now }
{
    if text.len() > edge {
        return word_at(text);
    }
    let (prefix, rest) = cut_name(text);
    match name_after(prefix, rest) {
        Some(found) => found,
        None => word_at(text),
    }
}

fn is_variable_start(b: u8) -> bool
    ensures { result ≡ is_variable_start b }
{
    b.is_ascii_alphabetic() || b == b'_'
}

/// The variable whose mark stands before a text, and what follows it.
#[tactic(auto, unfolding(crate::specs::Reading::variable_at))]
fn variable_at(text: &[u8]) -> Option<(Token<'_>, &[u8])>
    ensures { MatchOption result (variable_at text.now ≡ None)
        (λ x. variable_at text.now ≡ Some (x.0, x.1.now)) }
{
    match text {
        [first, ..] if is_variable_start(*first) => {
            let (name, rest) = cut_variable(text);
            Some((Token::Variable(Piece::new(name)), rest))
        }
        _ => None,
    }
}

/// The label whose `_:` stands before a text, and what follows it.
#[tactic(auto, unfolding(crate::specs::Reading::label_at))]
fn label_at(text: &[u8]) -> Option<(Token<'_>, &[u8])>
    ensures { MatchOption result (label_at text.now ≡ None)
        (λ x. label_at text.now ≡ Some (x.0, x.1.now)) }
{
    match text {
        [first, ..] if is_variable_byte(*first) => {
            let (label, rest) = cut_variable(text);
            runs_are_longest();
            Some((Token::Blank(Label::new(label)), rest))
        }
        _ => None,
    }
}

/// The blank node label whose `_` stands before a text, and what follows it.
#[tactic(auto, unfolding(crate::specs::Reading::blank_at))]
fn blank_at(text: &[u8]) -> Option<(Token<'_>, &[u8])>
    ensures { MatchOption result (blank_at text.now ≡ None)
        (λ x. blank_at text.now ≡ Some (x.0, x.1.now)) }
{
    match text {
        [b':', after @ ..] => label_at(after),
        _ => None,
    }
}

fn begins_with_digit(text: &[u8]) -> bool
    ensures { result ≡ begins_with_digit text.now }
{
    match text {
        [first, ..] => first.is_ascii_digit(),
        [] => false,
    }
}

/// Whether what follows some digits keeps them from being an integer.
fn continues_integer(text: &[u8]) -> bool
    ensures { result ≡ continues_integer text.now }
{
    match text {
        [] => false,
        [first, rest @ ..] => is_variable_byte(*first)
            || (*first == b'.' && begins_with_digit(rest)),
    }
}

/// The integer at a text that begins with a digit, and what follows it.
#[tactic(auto, unfolding(crate::specs::Reading::integer_at))]
fn integer_at(text: &[u8]) -> Option<(Token<'_>, &[u8])>
    requires { begins_with_digit text.now ≡ true }
    ensures { MatchOption result (integer_at text.now ≡ None)
        (λ x. integer_at text.now ≡ Some (x.0, x.1.now)) }
{
    let (digits, rest) = cut_digits(text);
    if continues_integer(rest) {
        return None;
    }
    runs_are_longest();
    Some((Token::Integer(Digits::new(digits)), rest))
}

/// The IRI or the sign whose `<` stands before a text, and what follows it.
#[tactic(auto, unfolding(crate::specs::Reading::angle_at))]
fn angle_at(text: &[u8]) -> Option<(Token<'_>, &[u8])>
    ensures { MatchOption result (angle_at text.now ≡ None)
        (λ x. angle_at text.now ≡ Some (x.0, x.1.now)) }
{
    let (iri, rest) = cut_iri(text);
    match rest {
        [b'>', ..] if !is_iri(iri) => None,
        [b'>', after @ ..] => match text_of(iri) {
            Some(iri) => Some((Token::Iri(IriText::new(iri)), after)),
            None => sign_at(b'<', text),
        },
        _ => sign_at(b'<', text),
    }
}

/// The token at the front of a text that begins with neither a quote nor `<`, and what follows it.
#[tactic(auto, unfolding(crate::specs::Reading::plain_at))]
fn plain_at(text: &[u8], edge: usize) -> Option<(Token<'_>, &[u8])>
    requires { NoneAhead text.now edge }
    ensures { MatchOption result (plain_at text.now ≡ None)
        (λ x. plain_at text.now ≡ Some (x.0, x.1.now)) }
{
    let [first, after @ ..] = text else {
        return None;
    };
    match *first {
        b'A'..=b'Z' | b'a'..=b'z' => Some(name_or_word(text, edge)),
        b'0'..=b'9' => integer_at(text),
        b':' => name_after("", text),
        b'?' | b'$' => variable_at(after),
        b'_' => blank_at(after),
        b'@' => tag_at(after),
        b => sign_at(b, after),
    }
}

/// The token at the front of a text, and what follows it.
#[tactic(auto, unfolding(crate::specs::Reading::token_at))]
pub fn token_at(text: &[u8], edge: usize) -> Option<(Token<'_>, &[u8])>
    requires { NoneAhead text.now edge }
    ensures { MatchOption result (token_at text.now ≡ None)
        (λ x. token_at text.now ≡ Some (x.0, x.1.now)) }
{
    let [first, after @ ..] = text else {
        return None;
    };
    match *first {
        b'"' | b'\'' => string_at(*first, after),
        b'<' => angle_at(after),
        _ => plain_at(text, edge),
    }
}
