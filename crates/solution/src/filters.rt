//! What decides whether a mapping passes a filter.
ghost use Rattle.std.specs.Prelude.{◌≡◌, IfOk};
ghost use Rattle.algebra.specs.Expressions.{expression_of};

use crate::mapping::Mapping;
use algebra::Expression;
use datasets::Id;
use std::alloc::{AllocError, Global};

/// What decides whether a mapping passes a filter (SPARQL 1.1 Query, 17.2).
pub trait Filters {
    ghost use Rattle.std.specs.Prelude.{Bool, List, Option};
    ghost use Rattle.algebra.specs.Expressions as expressions;
    ghost use Rattle.datasets.specs.declared.id.Id as ids;

    /// Whether a mapping passes a filter.
    ghost passes: { Self → expressions.Expression ids.Id → List (Option ids.Id) → Bool };

    /// Whether a mapping passes a filter. An error comes only where a growth was refused.
    fn is_passed(
        &self,
        alloc: Global,
        filter: &Expression<Id>,
        mapping: &Mapping,
    ) -> Result<bool, AllocError>
        ensures { IfOk result (λ so. so ≡ passes self.now (expression_of filter.now) mapping.now) };
}
