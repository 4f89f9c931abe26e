//! A tree over requests in their order that finds the first one for which something is to be done.
//! Stands on std alone.
//!
//! A request may wait until a lower one changes. So a node of the tree keeps of the requests below
//! it when the first of them is due, and when the last of them changed. The nodes of one height are
//! a list, with one for each two of the list below. A request is set from the lowest list up, as
//! far as something changes, and the first one that is due is found from the highest down.
//!
//! The contract used above: a tree is the list of how its requests stand, and `StampTree::first` is
//! the first one that is due.
#![tactic(auto)]

mod standing;
mod tree;

pub use standing::{Due, Standing};
pub use tree::StampTree;
