//! Readers and writers whose failed calls are counted.
//!
//! Stands on the standard library alone. Used above: `Watched` tells each failed call and whether a
//! writer is flushed, `front_of` takes the first bytes of a reader, or `all_of` all of them, and
//! `fill` adds the next ones to those that are there.
#![tactic(auto)]

mod front;
mod watched;

pub use front::{ReadFault, all_of, fill, front_of};
pub use watched::{Failed, Watched};
