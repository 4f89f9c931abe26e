//! Runs of bytes at the front of a text.
ghost use Rattle.std.specs.Prelude.{◌≡◌, ◌≤◌, length, true};
ghost use Rattle.std.specs.List.{list_all, prefix_len};
ghost use Rattle.iris.specs.Iri.{is_letter, is_digit, is_iri_byte};
ghost use Rattle.iris.specs.Runs.{run_of, rest_of};
ghost use Rattle.lexer.specs.Names.{is_name_byte, is_variable_byte};

use iris::laws::run_by_length;
use iris::{is_iri_byte, text_of};

fn is_name_byte(b: u8) -> bool
    ensures { result ≡ is_name_byte b }
{
    b.is_ascii_alphanumeric() || b == b'_' || b == b'-'
}

/// The text that name bytes are.
#[tactic(auto, using(crate::proofs::IriLaws::names_told))]
pub fn names_text(run: &[u8]) -> &str
    requires { list_all is_name_byte run.now ≡ true }
    ensures { result.now ≡ run.entry.now }
{
    match text_of(run) {
        Some(text) => text,
        None => unreachable!(),
    }
}

fn name_len(text: &[u8]) -> usize
    ensures within { result ≤ length text.now }
    ensures run { result ≡ prefix_len is_name_byte text.now }
{
    text.iter().take_while(|b| is_name_byte(**b)).count()
}

/// The name bytes at the front of a text, and the rest.
#[tactic(auto, using(crate::proofs::IriLaws::run_of_names))]
pub fn cut_name(text: &[u8]) -> (&str, &[u8])
    ensures front { result.0.now ≡ run_of is_name_byte text.now }
    ensures rest { result.1.now ≡ rest_of is_name_byte text.now }
{
    run_by_length();
    let (run, rest) = text.split_at(name_len(text));
    (names_text(run), rest)
}

fn letter_len(text: &[u8]) -> usize
    ensures within { result ≤ length text.now }
    ensures run { result ≡ prefix_len is_letter text.now }
{
    text.iter().take_while(|b| b.is_ascii_alphabetic()).count()
}

/// The letters at the front of a text, and the rest.
#[tactic(auto, using(crate::proofs::IriLaws::run_of_letters))]
pub fn cut_word(text: &[u8]) -> (&str, &[u8])
    ensures front { result.0.now ≡ run_of is_letter text.now }
    ensures rest { result.1.now ≡ rest_of is_letter text.now }
{
    run_by_length();
    let (run, rest) = text.split_at(letter_len(text));
    (names_text(run), rest)
}

pub fn is_variable_byte(b: u8) -> bool
    ensures { result ≡ is_variable_byte b }
{
    b.is_ascii_alphanumeric() || b == b'_'
}

fn variable_len(text: &[u8]) -> usize
    ensures within { result ≤ length text.now }
    ensures run { result ≡ prefix_len is_variable_byte text.now }
{
    text.iter().take_while(|b| is_variable_byte(**b)).count()
}

/// The bytes of a variable or a label at the front of a text, and the rest.
#[tactic(auto, using(crate::proofs::IriLaws::run_of_variables))]
pub fn cut_variable(text: &[u8]) -> (&str, &[u8])
    ensures front { result.0.now ≡ run_of is_variable_byte text.now }
    ensures rest { result.1.now ≡ rest_of is_variable_byte text.now }
{
    run_by_length();
    let (run, rest) = text.split_at(variable_len(text));
    (names_text(run), rest)
}

fn digit_len(text: &[u8]) -> usize
    ensures within { result ≤ length text.now }
    ensures run { result ≡ prefix_len is_digit text.now }
{
    text.iter().take_while(|b| b.is_ascii_digit()).count()
}

/// The digits at the front of a text, and the rest.
#[tactic(auto, using(crate::proofs::IriLaws::run_of_digits))]
pub fn cut_digits(text: &[u8]) -> (&str, &[u8])
    ensures front { result.0.now ≡ run_of is_digit text.now }
    ensures rest { result.1.now ≡ rest_of is_digit text.now }
{
    run_by_length();
    let (run, rest) = text.split_at(digit_len(text));
    (names_text(run), rest)
}

fn iri_len(text: &[u8]) -> usize
    ensures within { result ≤ length text.now }
    ensures run { result ≡ prefix_len is_iri_byte text.now }
{
    text.iter().take_while(|b| is_iri_byte(**b)).count()
}

/// The bytes at the front of a text that an IRI may hold, and the rest.
pub fn cut_iri(text: &[u8]) -> (&[u8], &[u8])
    ensures front { result.0.now ≡ run_of is_iri_byte text.now }
    ensures rest { result.1.now ≡ rest_of is_iri_byte text.now }
{
    run_by_length();
    text.split_at(iri_len(text))
}
