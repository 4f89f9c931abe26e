//! What never changes while a pattern is solved.

use delta::Delta;
use std::alloc::Global;

/// What never changes while a pattern is solved.
#[derive_where(Clone, Copy)]
pub struct Query<'a, F> {
    pub alloc: Global,
    /// How many variables the whole pattern has. They are numbered below it.
    pub width: u32,
    /// What decides whether a mapping passes a filter.
    pub filters: &'a F,
    /// What the request changed so far.
    pub changes: &'a Delta,
}
