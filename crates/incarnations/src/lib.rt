//! How far a request of a block has come, what an event of one incarnation is refused for, and what
//! it makes of the request's part. Stands on `version_overlay`, `delta` and `stamp_tree`, and of
//! `meaning` on the reply to a request.
//!
//! The contracts used above: a refusal is the one of specs/Statuses.antt, and a changed slot is the
//! one of specs/Slots.antt, however the notes in it are read.
#![tactic(auto)]

pub mod slot;
mod state;
mod statuses;

pub use state::{Entry, Event, Noted, Pass, Reply, Slot, Status};
pub use statuses::{is_after, is_closed, is_executed, refused_executed, refused_execution};
