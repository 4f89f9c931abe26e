//! Values of filter expressions, at numbers of terms from a frozen dictionary.
//!
//! A value is computed without making terms: a text is read where the dictionary has it. Stands on
//! `dict`, `solution` and the definitions of `values`. The contract used above: a `Filtering`
//! decides filters as the dictionary's vocabulary of numbers does.
#![tactic(auto)]

mod arithmetic;
mod comparing;
mod evaluate;
mod filtering;
mod functions;
mod logic;
mod operators;
mod outcome;
mod parts;
mod reading;
mod texts;

pub use evaluate::value;
pub use filtering::Filtering;
pub use logic::effective;
