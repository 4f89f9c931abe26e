//! Arithmetic on integers of 64 signed bits (SPARQL 1.1 Query, 17.3).
ghost use Rattle.std.specs.Prelude.{◌≡◌};
ghost use Rattle.std.specs.Option.{option_map};
ghost use Rattle.algebra.specs.declared.expression.TwoOperator.TheVariants.{Plus, Minus, Times};
ghost use Rattle.values.specs.Values.{integer, two_value};
ghost use Rattle.expr.specs.Numerals.{number_pair};
ghost use Rattle.expr.specs.Outcomes.{seen, reading_of, of_readings};

use crate::outcome::Outcome;
use crate::reading::{Reading, read};

fn number_pair(a: Reading<'_>, b: Reading<'_>) -> Option<(i64, i64)>
    ensures { result ≡ number_pair (reading_of a.entry) (reading_of b.entry) }
{
    match (a, b) {
        (Reading::Number(a), Reading::Number(b)) => Some((a, b)),
        _ => None,
    }
}

/// The integers that two values are, and nothing where one is none.
#[tactic(auto, using(crate::proofs::OutcomeLaws::readings_left, crate::proofs::OutcomeLaws::readings_right))]
fn numbers(a: &Outcome<'_>, b: &Outcome<'_>) -> Option<(i64, i64)>
    ensures { result ≡ of_readings number_pair (seen a.entry.now) (seen b.entry.now) }
{
    let a = read(a)?;
    let b = read(b)?;
    number_pair(a, b)
}

fn integer_of<'r>(number: Option<i64>) -> Outcome<'r>
    ensures { seen result ≡ option_map integer number }
{
    match number {
        Some(number) => Outcome::Integer(number),
        None => Outcome::Error,
    }
}

/// The sum of two values.
pub fn sum<'r>(a: &Outcome<'_>, b: &Outcome<'_>) -> Outcome<'r>
    ensures { seen result ≡ two_value Plus (seen a.entry.now) (seen b.entry.now) }
{
    match numbers(a, b) {
        Some((a, b)) => integer_of(a.checked_add(b)),
        None => Outcome::Error,
    }
}

/// The difference of two values.
pub fn difference<'r>(a: &Outcome<'_>, b: &Outcome<'_>) -> Outcome<'r>
    ensures { seen result ≡ two_value Minus (seen a.entry.now) (seen b.entry.now) }
{
    match numbers(a, b) {
        Some((a, b)) => integer_of(a.checked_sub(b)),
        None => Outcome::Error,
    }
}

/// The product of two values.
pub fn product<'r>(a: &Outcome<'_>, b: &Outcome<'_>) -> Outcome<'r>
    ensures { seen result ≡ two_value Times (seen a.entry.now) (seen b.entry.now) }
{
    match numbers(a, b) {
        Some((a, b)) => integer_of(a.checked_mul(b)),
        None => Outcome::Error,
    }
}
