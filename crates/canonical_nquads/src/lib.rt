//! N-Quads: writing a dataset.
//!
//! The lines of a dataset are made of the texts of its terms, each made once, and stand in the
//! order of their bytes; one thread makes them, or several, in pieces. Stands on `nquads_lines`
//! (for the mark of a line that declares a graph, no more), `terms`, `devices`, `sorting` and
//! `radix`. Used above: `canonical_text` is the one canonical text of a dataset, `write` writes it,
//! and `tag` is the least number for the labels of made nodes.
#![tactic(auto)]

mod canonical;
mod ranks;
mod rising;
mod rising_pieces;
mod tags;
mod text_line;
mod text_order;
mod text_parts;
mod text_pieces;
mod writer;

pub use canonical::{canonical_pieces, canonical_pieces_by, canonical_text};
pub use tags::{mark_of, tag};
pub use writer::{WriteFault, write};
