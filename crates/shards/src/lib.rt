//! The sixteen shards of a dataset: a quad lies in the shard of its predicate's number modulo
//! sixteen, and graph names lie in shard 0. Definitions, and their laws over every dataset, change
//! and read; code that cuts a change and merges an answer. Stands on `delta`, `reads` and
//! `change_laws`.
//!
//! The contracts used above: each function of `laws` is one law. Of the lemmas those of
//! proofs/FoundParts may be cited.
#![tactic(auto)]

mod cutting;
pub mod laws;
mod merging;
mod shard;

pub use cutting::{cut, touched};
pub use merging::merge;
pub use shard::{SHARDS, shard_of};
