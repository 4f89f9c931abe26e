//! The engines of the command `run`: from the bytes of a base and a block to the canonical text of
//! the new dataset and the reply lines, by workers on threads of their own, and to the journal of
//! the run. What the program calls of other crates can be had here too.
//!
//! Stands on `engines`, whose way to run a block it makes by `pool`, and on `journal` and `replay`.
//! Used above: both engines make all texts before they touch a writer, refuse bad input with its
//! name, and answer the same for every number of workers.
#![tactic(auto)]

mod engine;
mod recorded;

pub use command_line::{Fault, File, Job, LineFault, Message, read_job};
pub use engine::run_engine;
pub use engines::{InFile, OutFile, check_engine, replay_engine, serial_engine};
pub use pool::{Gate, Open};
pub use recorded::run_with_journal_engine;
