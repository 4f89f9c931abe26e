//! Datasets and reads at numbers of terms: what a read says of a dataset, reads with their answers,
//! and what answers them. Stands on `datasets`, `change_laws`, `quad_lists`, `quad_index` and
//! `quad_sets`.
//!
//! The contract used above: `View::answer` and `IndexedView::answer` are `says` of
//! specs/Reads.antt.
#![tactic(auto)]

mod answered;
mod compact;
mod indexed;
pub mod lists;
mod note;
pub mod presence;
pub mod same;
mod scanned;
mod shared_items;
mod source;
mod view;

pub use answered::{Answered, KeptAnswer};
pub use compact::CompactView;
pub use indexed::IndexedView;
pub use note::Note;
pub use scanned::Scanned;
pub use shared_items::SharedItems;
pub use source::{Source, Stop};
pub use view::View;
