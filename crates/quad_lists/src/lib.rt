//! Lists of quads in little memory where all are of known terms, lent and widened one at a time;
//! the six orders of a quad's places, in which they may stand, and what a pattern matches. Stands
//! on `datasets`, `sets` and `radix`.
//!
//! The contracts used above: a `QuadList` is the list of its quads, however they are kept, and a
//! `Part` that lends some of them tells what their list would; a `KnownQuad` is a quad, and stands
//! to another in an order as the quads do; `order_for` is the order that begins with the bound
//! places of a pattern.
#![tactic(auto)]

mod key;
mod known;
mod known_key;
pub mod matching;
mod narrow;
mod part;
mod quad_list;

pub use key::{Arrangement, BESIDE_SPOG, Depth, Key, is_before, order_for};
pub use known::{KnownQuad, known_quads, known_set, widened_quads};
pub use known_key::known_beside;
pub use part::Part;
pub use quad_list::{Entries, QuadList};
