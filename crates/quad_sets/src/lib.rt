//! Sets of quads by subject, predicate, object and graph, in little memory where all are of known
//! terms: each quad then takes a quarter. Stands on `quad_lists`, whose lists it keeps, on
//! `quad_index`, whose search and orders it uses, on `datasets` and `sets`.
//!
//! The contracts used above: contracts see a `QuadSet`, and a `QuadSlice` that lends it, as the
//! list of its quads; what a slice tells of them is what a plain look at the list tells;
//! `QuadSet::changed` is the union of what a change leaves and of what comes.
#![tactic(auto)]

pub mod lists;
mod narrow;
mod near;
mod pieces;
mod quad_set;
mod quad_slice;
mod runs;

pub use quad_set::QuadSet;
pub use quad_slice::QuadSlice;
