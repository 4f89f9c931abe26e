//! Workers on threads of their own, which run a block together.
//!
//! Stands on `shared`, `scheduler` and `update`. Used above: `run_block` answers the dataset and
//! the replies of running the requests one after another, whatever the workers did.
#![tactic(auto)]

mod asker;
mod crew;
mod gate;
mod lengths;
mod pace;
mod patience;
mod run;
mod seat;
mod worker;

pub use gate::{Gate, Open};
pub use run::{run_block, run_book, run_book_with_hints};
