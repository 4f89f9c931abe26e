//! Comparisons of values (SPARQL 1.1 Query, 17.3 and 17.4.1).
ghost use Rattle.std.specs.Prelude.{◌≡◌, IfOk, Some};
ghost use Rattle.values.specs.Values.{value_order, same_or_unknown, is_equal, is_same_term};
ghost use Rattle.expr.specs.Outcomes.{seen, reading_of, of_two, of_readings};
ghost use Rattle.expr.specs.Parts.{whole};

use crate::outcome::Outcome;
use crate::parts::{Parts, is_same_term, parts_of};
use crate::reading::{Reading, read};
use std::alloc::{AllocError, Global};
use std::cmp::Ordering;

fn value_order(a: Reading<'_>, b: Reading<'_>) -> Option<Ordering>
    ensures { result ≡ value_order (reading_of a.entry) (reading_of b.entry) }
{
    match (a, b) {
        (Reading::Number(a), Reading::Number(b)) => Some(a.cmp(&b)),
        (Reading::Text(a), Reading::Text(b)) => Some(a.cmp(b)),
        (Reading::Truth(a), Reading::Truth(b)) => Some(a.cmp(&b)),
        _ => None,
    }
}

#[tactic(auto, using(crate::proofs::OutcomeLaws::readings_left, crate::proofs::OutcomeLaws::readings_right))]
/// The order of two integers, two strings or two booleans, by their values.
pub fn ordered(a: &Outcome<'_>, b: &Outcome<'_>) -> Option<Ordering>
    ensures { result ≡ of_readings value_order (seen a.entry.now) (seen b.entry.now) }
{
    let a = read(a)?;
    let b = read(b)?;
    value_order(a, b)
}

fn same_or_unknown(alloc: Global, a: Parts<'_>, b: Parts<'_>) -> Result<Option<bool>, AllocError>
    ensures { IfOk result (λ so. so ≡ same_or_unknown (whole a.entry) (whole b.entry)) }
{
    if is_same_term(alloc, a, b)? {
        return Ok(Some(true));
    }
    if a.is_literal() && b.is_literal() {
        return Ok(None);
    }
    Ok(Some(false))
}

#[tactic(auto, using(crate::proofs::OutcomeLaws::equal_ordered, crate::proofs::OutcomeLaws::equal_unordered, crate::proofs::OutcomeLaws::two_left, crate::proofs::OutcomeLaws::two_right))]
/// Whether two values are equal (SPARQL 1.1 Query, 17.4.1.7), and nothing where that is an error.
pub fn equal(alloc: Global, a: &Outcome<'_>, b: &Outcome<'_>) -> Result<Option<bool>, AllocError>
    ensures { IfOk result (λ so. so ≡ of_two is_equal (seen a.entry.now) (seen b.entry.now)) }
{
    if let Some(order) = ordered(a, b) {
        return Ok(Some(order.is_eq()));
    }
    let Some(left) = parts_of(a) else {
        return Ok(None);
    };
    let Some(right) = parts_of(b) else {
        return Ok(None);
    };
    same_or_unknown(alloc, left, right)
}

#[tactic(auto, using(crate::proofs::OutcomeLaws::two_some, crate::proofs::OutcomeLaws::two_left, crate::proofs::OutcomeLaws::two_right))]
/// Whether two values are one term (SPARQL 1.1 Query, 17.4.1.8), and nothing where one is an error.
pub fn same(alloc: Global, a: &Outcome<'_>, b: &Outcome<'_>) -> Result<Option<bool>, AllocError>
    ensures { IfOk result (λ so. so ≡ of_two (λ x y. Some (is_same_term x y)) (seen a.entry.now)
        (seen b.entry.now)) }
{
    let Some(left) = parts_of(a) else {
        return Ok(None);
    };
    let Some(right) = parts_of(b) else {
        return Ok(None);
    };
    Ok(Some(is_same_term(alloc, left, right)?))
}
