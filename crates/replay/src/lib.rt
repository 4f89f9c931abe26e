//! Journals of a book: its entries as lines, and lines played into a book. Stands on `journal`,
//! `book` and `update`.
//!
//! The contracts used above: `lines_of` gives the line of each entry; `replay` gives a book whose
//! journal has the lines, or the first line of which no entry is lawful where it stands.
#![tactic(auto)]

mod following;
mod lookup;
mod naming;
mod notes;
mod printing;
mod replaying;

pub use printing::lines_of;
pub use replaying::replay;
