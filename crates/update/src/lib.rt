//! One request, from what a source answers: its finished run.
//!
//! Operations take effect in order, each reading through the changes of those before it. At the end
//! the run asks for each quad that it changes, by a scan with all four places bound, unless an
//! earlier answer tells of the quad, and for the name of each graph that would come or go, of 256
//! such questions or fewer all at once; its delta has what really changes and nothing else, so that
//! what changes nothing conflicts with nobody. Of what more than 100,000 solutions insert it asks
//! by one scan of the template. Stands on `eval`, `dict` and `meaning`. Used above: whatever was
//! answered, the finished run is sound, and each of its reads is near the request.
#![tactic(auto)]

mod execution;
mod graphs;
mod known;
mod least;
mod lists;
mod lot;
mod modify;
mod operations;
mod presence;
mod targets;
mod template;
mod template_scans;
mod told_scan;
mod whole;

pub use execution::{Execution, execute};
