//! The machine of a block: optimistic concurrency control with multiple versions, where the
//! requests' order is fixed beforehand. Each event of a worker is one atomic step. Stands on
//! `slots` and `stamp_tree`, and of `meaning` on the reply to a request.
//!
//! The contracts used above: `Machine::step` replies what specs/Machine.antt allows and leaves the
//! state that it says; by `laws::front_is_serial`, after any history the front is that of the
//! requests one after another.
#![tactic(auto)]

pub mod laws;
mod machine;
mod scans;

pub use incarnations::{Entry, Event, Noted, Pass, Reply, Status};
pub use machine::Machine;
pub use scans::scans_of;
