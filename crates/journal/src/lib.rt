//! Journals: the text of a run's history, both ways.
//!
//! A line is what a worker did and what it was replied, and its words stand with single spaces
//! between. Stands on `nquads_lines` for the terms of a line, and on `datasets` for what a run may
//! ask. Used above: the bytes that are read are the text of the lines, and the first line that is
//! no entry's text is named.
#![tactic(auto)]

mod entries;
mod fault;
pub mod laws;
mod lines;
mod read_terms;
mod reader;
mod words;
mod writer;

pub use fault::JournalFault;
pub use lines::{Event, Line, Reply};
pub use reader::read_journal;
pub use writer::write_lines;
