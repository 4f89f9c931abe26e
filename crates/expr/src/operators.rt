//! Operators on two values (SPARQL 1.1 Query, 17.3 and 17.4).
ghost use Rattle.std.specs.Prelude.{◌≡◌, IfOk};
ghost use Rattle.algebra.specs.declared.expression.TwoOperator.TheVariants.{StrStarts, StrEnds, Contains as HasPart};
ghost use Rattle.values.specs.Values.{two_value};
ghost use Rattle.expr.specs.Outcomes.{seen};

use crate::arithmetic::{difference, product, sum};
use crate::comparing::{equal, ordered, same};
use crate::logic::{both_true, effective, either_true, negated, outcome_of};
use crate::outcome::Outcome;
use crate::texts::{ends, occurs, starts, texts};
use algebra::TwoOperator;
use std::alloc::{AllocError, Global};

fn is_start<'r>(a: &Outcome<'_>, b: &Outcome<'_>) -> Outcome<'r>
    ensures { seen result ≡ two_value StrStarts (seen a.entry.now) (seen b.entry.now) }
{
    match texts(a, b) {
        Some((text, part)) => Outcome::Truth(starts(text, part)),
        None => Outcome::Error,
    }
}

fn is_end<'r>(a: &Outcome<'_>, b: &Outcome<'_>) -> Outcome<'r>
    ensures { seen result ≡ two_value StrEnds (seen a.entry.now) (seen b.entry.now) }
{
    match texts(a, b) {
        Some((text, part)) => Outcome::Truth(ends(text, part)),
        None => Outcome::Error,
    }
}

fn is_part<'r>(a: &Outcome<'_>, b: &Outcome<'_>) -> Outcome<'r>
    ensures { seen result ≡ two_value HasPart (seen a.entry.now) (seen b.entry.now) }
{
    match texts(a, b) {
        Some((text, part)) => Outcome::Truth(occurs(text, part)),
        None => Outcome::Error,
    }
}

/// An operator on two values.
pub fn two_value<'r>(
    alloc: Global,
    operator: TwoOperator,
    a: &Outcome<'_>,
    b: &Outcome<'_>,
) -> Result<Outcome<'r>, AllocError>
    ensures { IfOk result (λ v. seen v ≡ two_value operator (seen a.entry.now) (seen b.entry.now)) }
{
    match operator {
        TwoOperator::Or => Ok(outcome_of(either_true(effective(a), effective(b)))),
        TwoOperator::And => Ok(outcome_of(both_true(effective(a), effective(b)))),
        TwoOperator::Equal => Ok(outcome_of(equal(alloc, a, b)?)),
        TwoOperator::NotEqual => Ok(outcome_of(negated(equal(alloc, a, b)?))),
        TwoOperator::Less => Ok(outcome_of(ordered(a, b).map(|order| order.is_lt()))),
        TwoOperator::LessEqual => Ok(outcome_of(ordered(a, b).map(|order| order.is_le()))),
        TwoOperator::Greater => Ok(outcome_of(ordered(a, b).map(|order| order.is_gt()))),
        TwoOperator::GreaterEqual => Ok(outcome_of(ordered(a, b).map(|order| order.is_ge()))),
        TwoOperator::Plus => Ok(sum(a, b)),
        TwoOperator::Minus => Ok(difference(a, b)),
        TwoOperator::Times => Ok(product(a, b)),
        TwoOperator::SameTerm => Ok(outcome_of(same(alloc, a, b)?)),
        TwoOperator::StrStarts => Ok(is_start(a, b)),
        TwoOperator::StrEnds => Ok(is_end(a, b)),
        TwoOperator::Contains => Ok(is_part(a, b)),
    }
}
