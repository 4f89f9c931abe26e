//! What an update request means: replies, and in specs/ the solutions of patterns, the effect of
//! operations, the answer to a request and the run of a block, for any kind of term. Stands on
//! `algebra`, `datasets` and `sets`.
#![tactic(auto)]

mod reply;

pub use reply::{Cause, Refusal, Reply};

/// A request: its operations, or why it is refused.
pub type Request<T> = Result<sets::Items<algebra::Operation<T>>, Refusal>;
