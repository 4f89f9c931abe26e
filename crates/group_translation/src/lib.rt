//! From the groups and quads of requests to patterns, filters and templates of the algebra.
//!
//! Stands on `names` and `algebra`. Used above: `translate` gives the pattern of a group,
//! `quads_pattern` that of quads, and `template_of` the template of quads, each in a `Scope`:
//! declared prefixes, and numbers of variables and labels.
#![tactic(auto)]

mod groups;
mod scope;
mod triples;

pub use groups::{quads_pattern, translate};
pub use scope::Scope;
pub use triples::template_of;
