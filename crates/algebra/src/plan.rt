//! Patterns of WHERE.
ghost use Rattle.std.specs.Prelude.{◌≡◌};
ghost use Rattle.algebra.specs.Plans.{plan_of};

use crate::expression::Expression;
use crate::pattern::{Place, TriplePattern};
use sets::Items;
use std::marker::Model;

/// How a group goes on with a pattern (SPARQL 1.1 Query, 18.2.2.6).
#[derive(Drop)]
pub enum Link<T> {
    Join,
    /// OPTIONAL, with the filters of its group.
    LeftJoin(Vec<Expression<T>>),
    Minus,
}

/// A graph pattern of the algebra (SPARQL 1.1 Query, 18.2 and 18.6). The filters of a list all have
/// to hold. It is no deeper than the braces of its text, however long that is.
#[derive(Drop)]
pub enum Plan<T> {
    /// A basic graph pattern, asked of the active graph. With no triple pattern it is the empty
    /// group.
    Basic(Items<TriplePattern<T>>),
    /// A group: from the empty group on each pattern in order, and then filters over the whole.
    Group(Vec<(Link<T>, Plan<T>)>, Vec<Expression<T>>),
    /// Patterns from left to right; of none, the empty group.
    Union(Vec<Plan<T>>),
    /// A pattern that is asked of a named graph, or of each.
    InGraph(Place<T>, Box<Plan<T>>),
}

/// The pattern of a WHERE. Contracts see its tree.
#[derive(Drop)]
pub struct Pattern<T> {
    plan: Plan<T>,
}

impl<T> Model for Pattern<T> {
    ghost use Rattle.std.specs.Coded.{codes};
    ghost use Rattle.algebra.specs.Codes.{plan_code};
    ghost use Rattle.algebra.specs.Plans.{Plan, plan_of};

    ghost Value = { Plan T };

    ghost coded = { plan_code (Prim.hlevel codes) };

    ghost view = { λ p. plan_of p.plan };
}

impl<T> Pattern<T> {
    /// The pattern that is this plan. It takes no memory.
    pub fn new(plan: Plan<T>) -> Pattern<T>
        ensures { result ≡ plan_of plan }
    {
        Pattern { plan }
    }

    /// Its plan.
    pub fn plan(&self) -> &Plan<T>
        ensures { plan_of result.now ≡ self.now }
    {
        &self.plan
    }
}
