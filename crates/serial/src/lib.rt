//! Requests one after another, by one thread.
//!
//! Each request is run on the dataset that those before it left: the base with their changes, which
//! is not copied before the end. Stands on `update` and `store`. Used above: `run` is the
//! sequential run of the block.
#![tactic(auto)]

mod current;
mod sequential;

pub use sequential::run;
