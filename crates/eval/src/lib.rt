//! The solutions of a pattern, from what a source answers, through the changes that a request made
//! so far. Stands on `reads` and `solution`.
//!
//! Each answer is noted as it came. The contract used above: whatever the source answers, `solve`
//! gives the solutions of the pattern in each changed dataset that agrees with the notes.
#![tactic(auto)]

mod basic;
mod changes;
mod lacking;
mod limited;
mod naming;
mod query;
mod scanning;
mod solving;

pub use changes::replaced;
pub use lacking::names_outside;
pub use limited::solve_up_to;
pub use naming::{graphs, is_graph};
pub use query::Query;
pub use scanning::scan;
pub use solving::solve;
