//! Quads, patterns, reads and answers for any kind of term, and in specs/ what datasets and changes
//! are.
//!
//! Definitions are read at terms and code is proved at numbers of terms, so everything here is
//! generic in the term. Stands on `sets`.
#![tactic(auto)]

mod id;
mod quad;
mod read;

pub use id::Id;
pub use quad::Quad;
pub use read::{Answer, GraphPlace, QuadPattern, Read};
