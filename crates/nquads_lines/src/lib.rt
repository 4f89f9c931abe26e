//! N-Quads: reading one line.
//!
//! A text is cut into lines, and a line is read from left to right over its bytes. Stands on
//! `terms`. Used above: `first_line` cuts off the first line of a text, and `line_of` answers what
//! a line says; `object_at` reads one term.
#![tactic(auto)]

mod escapes;
mod forms;
pub mod laws;
mod line;
mod lines;
mod quoted;
mod stop;
mod tags;

pub use forms::object_at;
pub use line::line_of;
pub use lines::first_line;
pub use stop::{Line, Stop};
