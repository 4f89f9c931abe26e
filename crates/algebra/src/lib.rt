//! The algebra of updates: filter expressions, patterns, templates and operations, as requests are
//! translated to them, for any kind of term.
//!
//! Stands on `sets`. An update is pure data in every contract: patterns and expressions refer to
//! themselves, and contracts see them as the trees of `specs/`.
#![tactic(auto)]

mod expression;
mod pattern;
mod plan;
mod template;
mod update;

pub use expression::{Expression, OneOperator, TwoOperator};
pub use pattern::{Place, TriplePattern};
pub use plan::{Link, Pattern, Plan};
pub use template::{QuadTemplate, Slot};
pub use update::{GraphOperation, Modify, Operation, Target, Transfer};
