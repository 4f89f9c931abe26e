//! Asking a source: what that comes to, and the calls that ask and note, for one read and for many
//! at once.
//!
//! The contract used above: what was noted is what was asked and answered, in order. Stands on
//! `reads`.
#![tactic(auto)]

mod noting;

pub use noting::{ask, ask_all};
