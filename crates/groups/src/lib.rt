//! The grammar of groups: triples, groups in braces and their unions, OPTIONAL, MINUS, GRAPH and
//! FILTER.
//!
//! Stands on `expressions`, `triples`, `productions`, `syntax_trees`, `lexer` and `sets`. Used
//! above: `group_at` gives what reading gives, and a law says that what is read is what the grammar
//! says, and all of it.
#![tactic(auto)]

pub mod laws;
mod made;
mod parse;
mod patterns;
mod unlabelled;

pub use parse::group_at;
