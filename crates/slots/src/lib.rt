//! The requests' parts of the machine, of which the first, once committed, are settled. Stands on
//! `validate` and `incarnations`.
//!
//! The contracts used above: a `Slots` is a list of slots with whole notes; an event of a request
//! sets its slot to what `incarnations/specs/Slots.antt` says, and settling changes nothing.
#![tactic(auto)]

mod asked;
mod settling;
mod slots;
mod transcripts;

pub use asked::Asked;
pub use slots::Slots;
