//! The grammar of triples and quads: subjects, verbs, objects, properties, triples, and the quads
//! of templates and data with their GRAPH blocks (SPARQL 1.1 Query and Update, 19.8).
//!
//! Stands on `productions` and `syntax_trees`. Used above: `triples_at`, `graph_name_at` and
//! `quads_at`, each with a law that what it reads is in the grammar, and what is in the grammar is
//! read.
#![tactic(auto)]

pub mod laws;
mod links;
mod nodes;
mod quads;
mod subjects;

pub use nodes::{begins_node, graph_name_at};
pub use quads::quads_at;
pub use subjects::triples_at;
