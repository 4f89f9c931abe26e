//! What the names of a request mean: declared prefixes, the terms that nodes stand for, and the
//! numbers of variables and blank node labels.
//!
//! Stands on `syntax_trees` and `terms`. Used above: `Prefixes` gives the term of a node,
//! `Variables` and `Labels` numbers. All are looked up in sorted orders. `laws` says in other words
//! which number a label has, and which IRI a prefix.
#![tactic(auto)]

mod key;
pub mod laws;
mod numbers;
mod prefixes;
mod whole;

pub use numbers::{Labels, Variables};
pub use prefixes::Prefixes;
