//! What a worker can do next: a task of a book.
//!
//! Stands on `book`. Used above: `next` answers a commit where one is lawful, else what can be done
//! for the least request for which anything can be, and nothing only where nothing can. `Hints` say
//! where else a worker may look, and decide nothing.
#![tactic(auto)]

mod hint;
mod hints;
mod other_deque;
mod schedule;
mod task;

pub use hints::Hints;
pub use schedule::next;
pub use task::Task;
