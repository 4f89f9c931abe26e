//! Solution mappings as rows, and sets of them with the operators of the algebra. Stands on
//! `datasets`, `algebra`, `meaning`, `quad_sets` and `sets`.
//!
//! The contract used above: `Mapping::fit` is `fitted`, and each operator of `Solutions` the set of
//! that name, of `meaning`.
#![tactic(auto)]

mod among;
mod disjoint;
mod filters;
mod limited;
mod lookup;
mod mapping;
mod operators;
mod solutions;
mod unit;

pub use filters::Filters;
pub use mapping::Mapping;
pub use solutions::Solutions;
