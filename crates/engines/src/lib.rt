//! What the program's engines have in common, and those that need no workers: from the bytes of a
//! base and a block to the canonical text of the new dataset and the reply lines; from a journal to
//! the same again; and from the bytes of a block to the lines of its verdicts.
//!
//! Stands on `devices`, `nquads`, `canonical_nquads`, `rules`, `numbering`, `serial`, `journal`,
//! `replay` and `command_line`, and on nothing that many threads share, so that it is proved beside
//! the pool. Used above: all engines make all texts before they touch a writer, and refuse bad
//! input with its name; `run_by` does so by any way to run a block (`Runs`); readers,
//! `texts_of_outcome` and writers are what an engine with another order of work is made of.
#![tactic(auto)]

mod check;
mod engine;
mod files;
mod in_order;
mod inputs;
mod outputs;
mod replayed;

pub use check::check_engine;
pub use engine::{Runs, named_with, run_by, texts_of_outcome};
pub use files::{InFile, OutFile};
pub use in_order::serial_engine;
pub use inputs::{read_base_by, read_block_by};
pub use outputs::{Texts, write_journal, write_texts};
pub use replayed::replay_engine;
