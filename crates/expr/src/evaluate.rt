//! Values of expressions under mappings.
ghost use Rattle.std.specs.Prelude.{◌≡◌, IfOk, Some};
ghost use Rattle.std.specs.Option.{option_map};
ghost use Rattle.algebra.specs.Expressions.{expression_of};
ghost use Rattle.meaning_laws.specs.Renaming.{renamed_expression, renamed_mapping};
ghost use Rattle.values.specs.Values.{value_of};
ghost use Rattle.dict.specs.Dictionary.{term_of};
ghost use Rattle.expr.specs.Outcomes.{seen};

use crate::functions::one_value;
use crate::operators::two_value;
use crate::outcome::Outcome;
use algebra::Expression;
use dict::{Dict, Id};
use solution::Mapping;
use std::alloc::{AllocError, Global};

/// The term of a number.
fn known<'a>(dict: &'a Dict, id: Id) -> Outcome<'a>
    ensures { seen result ≡ Some (term_of dict.entry.now id) }
{
    match id {
        Id::Known(place) => match dict.terms().get(place as usize) {
            Some(term) => Outcome::Known(term),
            None => Outcome::Made {
                request: 0,
                op: 0,
                label: 0,
                rank: 0,
            },
        },
        Id::Made {
            request,
            op,
            label,
            rank,
        } => Outcome::Made {
            request,
            op,
            label,
            rank,
        },
    }
}

/// The term that a variable is bound to.
fn bound<'a>(dict: &'a Dict, id: Option<Id>) -> Outcome<'a>
    ensures { seen result ≡ option_map (term_of dict.entry.now) id }
{
    match id {
        Some(id) => known(dict, id),
        None => Outcome::Error,
    }
}

/// The value of an expression under a mapping (SPARQL 1.1 Query, 17.2 to 17.4), at numbers of
/// terms. It takes memory only for STR of a computed integer, and where a computed integer is
/// compared with a literal as a term.
pub fn value<'a>(
    alloc: Global,
    dict: &'a Dict,
    expression: &Expression<Id>,
    mapping: &Mapping,
) -> Result<Outcome<'a>, AllocError>
    ensures { IfOk result (λ v. seen v ≡ value_of
        (renamed_expression (term_of dict.entry.now) (expression_of expression.now))
        (renamed_mapping (term_of dict.entry.now) mapping.now)) }
{
    match expression {
        Expression::Constant(id) => Ok(known(dict, *id)),
        Expression::Variable(variable) => Ok(bound(dict, mapping.at(*variable))),
        Expression::Bound(variable) => Ok(Outcome::Truth(mapping.at(*variable).is_some())),
        Expression::One(operator, inner) => {
            let inner = value(alloc, dict, inner, mapping)?;
            one_value(alloc, *operator, inner)
        }
        Expression::Two(operator, left, right) => {
            let left = value(alloc, dict, left, mapping)?;
            let right = value(alloc, dict, right, mapping)?;
            two_value(alloc, *operator, &left, &right)
        }
        Expression::Chain(first, steps) => {
            let mut so_far = value(alloc, dict, first, mapping)?;
            for (operator, right) in steps {
                let right = value(alloc, dict, right, mapping)?;
                so_far = two_value(alloc, *operator, &so_far, &right)?;
            }
            Ok(so_far)
        }
    }
}
