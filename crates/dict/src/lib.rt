//! The dictionary: the terms of a base and a block, each once and in their order, so that a number
//! stands for a term.
//!
//! It is frozen before any request runs. Comparing two numbers is comparing two terms, so sorting
//! numbers is sorting terms; and what is proved of numbers is true of terms, by the law below.
//! Stands on `terms`, `datasets`, `sets` and the definitions of `meaning`.
#![tactic(auto)]

mod dictionary;
pub mod laws;
mod parts;
mod ranks;
mod steps;

pub use datasets::Id;
pub use dictionary::Dict;
