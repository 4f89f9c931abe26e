//! A source may lie. What its answers count as: one of the wrong kind counts as no quads, false or
//! no names; a quad that doesn't match, a second copy and a term that the dictionary lacks are left
//! out; the order doesn't matter.
//!
//! The contract used above: what is told of a dataset by answers, as they count, is what a dataset
//! over the dictionary's terms says. Stands on `asking` and `dict`.
#![tactic(auto)]

mod again;
mod answers;

pub use again::Recount;
pub use answers::{are_honest, counted};
