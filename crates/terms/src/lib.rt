//! Terms, their order and their canonical text, and datasets of terms.
//!
//! A term is pure data in every contract: its texts are their bytes. Stands on `iris`, `sets` and
//! `datasets`. Used above: `Term::cmp` is the order of terms, and a `DataSet` is a set of quads and
//! a set of graph names that has the name of each quad's graph.
#![tactic(auto)]

mod dataset;
mod forms;
mod hash;
pub mod laws;
mod literal;
mod order;
mod table;
mod term;
mod term_cow;
mod text;
pub mod vocabulary;

pub use dataset::{DataSet, OwnedParts, Parts, push_both};
pub use literal::{Blank, Literal};
pub use table::TermTable;
pub use term::Term;
pub use term_cow::{TermCow, TermForm};
pub use text::{canonical, term_text};
