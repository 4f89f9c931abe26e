//! Changes at numbers of terms: what a change makes of a dataset, and whether it speaks of what a
//! read asks for; and runs of requests as what they read, change and reply. Stands on `reads`, and
//! of `meaning` on the reply to a request.
//!
//! The contract used above: `Delta::apply` is `applied`, `Delta::covers` is `covers` of the specs
//! of `reads`; specs/Sound.antt says when a finished run is sound.
#![tactic(auto)]

mod delta;
mod finished;
mod graph_span;
pub mod laws;
mod lists;
mod parts;

pub use delta::Delta;
pub use finished::{Finished, Outcome};
