//! A book that many threads use: each call is one event, or some in turn, made while its worker has
//! the lock. Stands on `blocklock`, `book` and `scheduler`.
//!
//! The contract used above: a call that is answered leaves the pass with a lawful history that goes
//! on from what it had seen, ends with the call's entry, and has no other new entry of its worker.
//! At the end the journal begins with what each pass has seen. All entries are of workers who have
//! passes.
#![tactic(auto)]

mod in_turn;
mod kept;
mod pass;
mod refused;
mod replies;
mod shared_block;
mod taking;
mod trying;
mod waiting;

pub use kept::{Kept, Subject};
pub use pass::Pass;
pub use refused::Refused;
pub use replies::told;
pub use shared_block::SharedBlock;
pub use taking::Next;
