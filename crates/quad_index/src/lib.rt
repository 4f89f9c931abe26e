//! Quads in sorted orders: binary search in entries that are sorted by one of the six orders of a
//! quad's places, a set of quads kept in several of them. Stands on `quad_lists`, whose lists it
//! sorts, on `datasets`, `sets`, `sorting`, `radix` and `rayon`.
//!
//! The contracts used above: `part_for` has all entries of a sorted list whose quad a pattern
//! matches, and `part_of_set` all quads of a set; `Index::scan` is a filter of the whole set, and
//! `Index::scan_counted` bounds how many entries it looks at.
#![tactic(auto)]

mod any_in_set;
mod by_numbers;
mod by_parts;
mod index;
mod looks;
mod order;
mod order_set;
mod search;
mod sorted;

pub use any_in_set::is_any_in_set;
pub use index::Index;
pub use looks::Looks;
pub use order::Order;
pub use order_set::OrderSet;
pub use search::{Entry, part_for, part_of_set};
