//! The lock of a book: one word, and one slot with the boxed book. Stands on `atomic_table` alone:
//! a book is anything with a journal.
//!
//! The contract used above: what is taken has a journal that begins with all that the taker's pass
//! has seen, and whose entries of the pass's worker are those that it has seen. So the journals
//! that passes see are beginnings of one history. All that is added to it is of workers who have
//! passes.
#![tactic(auto)]

mod into_pass;
mod journaled;
mod lock;
mod pass;
mod plays;
mod view;

pub use into_pass::IntoPass;
pub use journaled::Journaled;
pub use lock::{BlockLock, Busy, Held};
pub use pass::Pass;
