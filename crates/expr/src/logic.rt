//! Truth values of expressions.
ghost use Rattle.std.specs.Prelude.{◌≡◌, not};
ghost use Rattle.std.specs.Option.{option_map};
ghost use Rattle.values.specs.Values.{truth_of, effective_of, either_true, both_true, truth_value};
ghost use Rattle.expr.specs.Outcomes.{seen, reading_of};

use crate::outcome::Outcome;
use crate::reading::{Reading, read};

impl Reading<'_> {
    /// Its effective boolean value (SPARQL 1.1 Query, 17.2.2), and nothing where that is an error.
    pub fn truth(self) -> Option<bool>
        ensures { result ≡ truth_of (reading_of self.entry) }
    {
        match self {
            Reading::Number(number) => Some(number != 0),
            Reading::Text(text) => Some(!text.is_empty()),
            Reading::Tagged(text, _) => Some(!text.is_empty()),
            Reading::Truth(so) => Some(so),
            Reading::IllFormed => Some(false),
            Reading::TooLarge => None,
            Reading::Other => None,
        }
    }
}

/// The effective boolean value of a value (SPARQL 1.1 Query, 17.2.2), and nothing where that is an
/// error.
#[tactic(auto, using(crate::proofs::OutcomeLaws::effective_some, crate::proofs::OutcomeLaws::effective_none))]
pub fn effective(value: &Outcome<'_>) -> Option<bool>
    ensures { result ≡ effective_of (seen value.entry.now) }
{
    match read(value) {
        Some(reading) => reading.truth(),
        None => None,
    }
}

/// Not of a truth value; an error stays one.
pub fn negated(so: Option<bool>) -> Option<bool>
    ensures { result ≡ option_map not so }
{
    so.map(|so| !so)
}

/// Or of two truth values: a true side decides also beside an error.
pub fn either_true(a: Option<bool>, b: Option<bool>) -> Option<bool>
    ensures { result ≡ either_true a b }
{
    match (a, b) {
        (Some(true), _) | (_, Some(true)) => Some(true),
        (Some(false), Some(false)) => Some(false),
        _ => None,
    }
}

/// And of two truth values: a false side decides also beside an error.
pub fn both_true(a: Option<bool>, b: Option<bool>) -> Option<bool>
    ensures { result ≡ both_true a b }
{
    match (a, b) {
        (Some(false), _) | (_, Some(false)) => Some(false),
        (Some(true), Some(true)) => Some(true),
        _ => None,
    }
}

/// A truth value as a value of an expression.
pub fn outcome_of<'a>(so: Option<bool>) -> Outcome<'a>
    ensures { seen result ≡ truth_value so }
{
    match so {
        Some(so) => Outcome::Truth(so),
        None => Outcome::Error,
    }
}
