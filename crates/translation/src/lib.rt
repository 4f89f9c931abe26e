//! What operations mean: their translation to updates over terms.
//!
//! Stands on `group_translation` and `nodes`. Used above: `operation_of` gives the update of an
//! operation, of its nodes and the prefixes that are declared before it.
#![tactic(auto)]

mod operations;

pub use operations::operation_of;
