//! The base of a block: its terms in a frozen dictionary, its dataset at their numbers, and the tag
//! of its text, in one value.
//!
//! Stands on `canonical_nquads`, `dict` and `reads`. Used above: a base's numbers stand for its
//! dataset, and a base answers what a read says of it.
#![tactic(auto)]

mod base;
mod hands;
mod numbers;

pub use base::Base;
pub use hands::{Alone, Hands, Together};
pub use numbers::number_term;
