//! Functions on texts (SPARQL 1.1 Query, 17.4.3).
ghost use Rattle.std.specs.Prelude.{◌≡◌, nat_eq};
ghost use Rattle.std.specs.Option.{option_map};
ghost use Rattle.std.specs.List.{starts_with, ends_with};
ghost use Rattle.values.specs.Values.{text_pair, occurs_in, characters, two_value};
ghost use Rattle.algebra.specs.declared.expression.TwoOperator.TheVariants as two;
ghost use Rattle.expr.specs.Outcomes.{seen, reading_of, of_readings};
ghost use Rattle.expr.specs.Texts.{pair_of, is_first};

use crate::outcome::Outcome;
use crate::reading::{Reading, is_text, read};
use std::alloc::AllocError;

/// The texts of two values, where they may be compared (SPARQL 1.1 Query, 17.4.3.1.2).
fn text_pair<'v>(a: Reading<'v>, b: Reading<'v>) -> Option<(&'v str, &'v str)>
    ensures { option_map pair_of result ≡ text_pair (reading_of a.entry) (reading_of b.entry) }
{
    match (a, b) {
        (Reading::Text(a), Reading::Text(b)) => Some((a, b)),
        (Reading::Tagged(a, _), Reading::Text(b)) => Some((a, b)),
        (Reading::Tagged(a, tag), Reading::Tagged(b, other)) => {
            if is_text(tag, other) {
                Some((a, b))
            } else {
                None
            }
        }
        _ => None,
    }
}

/// The texts of two values, and nothing where they may not be compared or one is an error.
#[tactic(auto, using(crate::proofs::OutcomeLaws::readings_left, crate::proofs::OutcomeLaws::readings_right))]
pub fn texts<'v>(a: &'v Outcome<'_>, b: &'v Outcome<'_>) -> Option<(&'v str, &'v str)>
    ensures { option_map pair_of result ≡ of_readings text_pair (seen a.entry.now)
        (seen b.entry.now) }
{
    let a = read(a)?;
    let b = read(b)?;
    text_pair(a, b)
}

pub fn starts(text: &str, part: &str) -> bool
    ensures { result ≡ starts_with nat_eq text.now part.now }
{
    text.as_bytes().starts_with(part.as_bytes())
}

pub fn ends(text: &str, part: &str) -> bool
    ensures { result ≡ ends_with nat_eq text.now part.now }
{
    text.as_bytes().ends_with(part.as_bytes())
}

pub fn occurs(text: &str, part: &str) -> bool
    ensures { result ≡ occurs_in text.now part.now }
{
    text.contains(part)
}

/// Whether a character begins with this byte.
fn is_first(byte: u8) -> bool
    ensures { result ≡ is_first byte }
{
    byte < 128 || byte >= 192
}

/// How many characters a text has.
pub fn characters(text: &str) -> usize
    ensures { result ≡ characters text.now }
{
    text.as_bytes()
        .iter()
        .filter(|byte| is_first(**byte))
        .count()
}
