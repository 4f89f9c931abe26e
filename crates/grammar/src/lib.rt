//! The grammar of requests: prologues, operations on graphs and on quads, and their templates, data
//! and groups (SPARQL 1.1 Update, 19.8).
//!
//! Stands on `groups`, `triples`, `productions`, `lexer` and `syntax_trees`. Used above: `parse`
//! gives the one reading of a text, or the text has none; `front_steps` gives the first steps of a
//! reading.
#![tactic(auto)]

mod graphs;
pub mod laws;
mod operation;
mod request;
mod updates;

pub use request::{front_steps, parse};
