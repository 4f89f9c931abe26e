//! What requests are refused for.
//!
//! Stands on `nodes`, `names` and `meaning`. Used above: `Walk` goes over a request's steps and
//! finds its faults; `kinds_in` is the whole walk, and tells which kinds of fault are in a request.
#![tactic(auto)]

mod faults;
mod kinds;
mod walk;

pub use kinds::Kinds;
pub use walk::{Walk, kinds_in, see_steps};
