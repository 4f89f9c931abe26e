//! Filter expressions, and what may follow FILTER.
//!
//! Stands on `productions`, `syntax_trees`, `lexer`, `iris` and `sets`. Used above: `constraint_at`
//! answers what the reading of this name gives, and `laws::constraints_are_read` says that it is
//! the one that the grammar gives.
#![tactic(auto)]

mod build;
mod calls;
pub mod laws;
mod operators;
mod parse;
mod values;

pub use parse::constraint_at;
