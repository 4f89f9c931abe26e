//! The book of a block: its machine, with the journal of every answered event. Stands on
//! `block_machine`, `dict` and `meaning`.
//!
//! The contract used above: a `Book`'s type keeps that its journal is a history and its state is
//! where the journal leads. So its front is the sequential run of that many first requests,
//! whatever the workers did.
#![tactic(auto)]

mod book;
mod journal;
mod journal_entry;
mod packed_entry;

pub use book::Book;
pub use journal::Journal;
pub use journal_entry::{JournalEntry, Kept, count};
pub use packed_entry::{PackedEntry, Shown};
