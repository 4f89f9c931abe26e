//! A base and a block at numbers of terms, and the outcome at terms again.
//!
//! The dictionary of the base has its terms and those of the block's accepted requests. Numbering
//! takes each term to its number, naming takes each number to its term, and the run of the numbers
//! is the run of the terms. Stands on `store`, `rules` and the laws of `meaning`. Used above: what
//! is numbered, run and named is the sequential run of the block on the base.
#![tactic(auto)]

mod ends;
mod gathered;
pub mod laws;
mod lookup;
mod naming;
mod numbered;
mod orders;
mod plans;
mod requests;

pub use naming::named;
pub use numbered::{Numbered, number, number_by};
