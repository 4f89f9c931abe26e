//! What the requests of a block have published, where it is looked up: a filter of what their
//! changes cover, the changes of those that are committed, and reads with answers that are found
//! again by the changes that made them. Stands on `delta`.
//!
//! The contracts used above: `ChangeFilter::may_cover` stops no read that a change covers which was
//! put; what `Settled` makes of a dataset is `changed_by` of specs/Settled.antt; a `LeanNote` has
//! the answer that it was made with.
#![tactic(auto)]

pub mod along;
mod change_filter;
mod joining;
mod lean_note;
mod level;
mod seen;
mod settled;
mod whole_note;

pub use change_filter::ChangeFilter;
pub use lean_note::LeanNote;
pub use settled::Settled;
pub use whole_note::is_long;
