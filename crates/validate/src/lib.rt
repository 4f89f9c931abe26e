//! What a read comes to at a request, and whether a note of it would be answered as before, by what
//! the lower requests have published. Stands on `incarnations`, `version_overlay` and `reads`.
//!
//! The contracts used above: what is noted and what a check finds is as specs/Below.antt and
//! specs/Verdicts.antt say of the slots that are kept, where what is kept beside them is so
//! (specs/Kept.antt).
#![tactic(auto)]

mod below;
mod candidates;
mod checks;
mod found;
mod kept;

pub use below::changed_from;
pub use checks::{Verdict, check, check_list};
pub use found::{Found, look};
pub use kept::Kept;
