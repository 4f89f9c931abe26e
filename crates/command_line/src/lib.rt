//! The program's command line, and the words it tells: a line for each reply or verdict and a line
//! for a fault.
//!
//! Stands on `meaning`, whose replies and refusals it tells, and on `clap`. Used above:
//! `replies_text` is exactly `reply_lines`, `verdicts_text` exactly `verdict_lines`, and a `Job` is
//! what the words say.
#![tactic(auto)]

mod fault;
mod job;
mod replies;
mod words;

pub use fault::{Fault, File, LineFault, Message, told};
pub use job::{Job, read_job};
pub use replies::{replies_text, verdicts_text};
