//! What the productions of the grammar are made of: signs, keywords, variables, names and literals
//! at the front of the tokens, and the repetition of an item.
//!
//! Stands on `syntax_trees`, `lexer`, `iris` and `sets`. Each function here answers what the
//! reading of the same name in `specs/` gives, and the proofs of the crates above may cite what
//! `proofs/` says of it.
#![tactic(auto)]

mod keywords;
mod literals;
mod names;
mod signs;
mod steps;

pub use keywords::{after_keyword, is_keyword};
pub use literals::literal_at;
pub use names::{name_at, variable_at};
pub use signs::after_sign;
pub use steps::kept;
