//! The nodes that stand in an operation of a request, in the order of its text.
//!
//! Stands on `syntax_trees`. Used above: `OperationNodes` is an operation with its nodes, gathered
//! once: all of them, those of what it deletes and those of its WHERE, as the definitions list
//! them.
#![tactic(auto)]

mod nodes;
mod operation_nodes;

pub use operation_nodes::OperationNodes;
