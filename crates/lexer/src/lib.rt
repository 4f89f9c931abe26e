//! The tokens of a request, as slices of its text.
//!
//! Stands on `iris`. Used above: `tokens` gives the one list of tokens that the text is cut into,
//! or there is none; `step_tokens` gives the first of them, to where a step may end.
#![tactic(auto)]

mod cut;
pub mod laws;
mod pieces;
mod runs;
mod scan;
mod signs;
mod stop;
mod strings;
mod tags;
mod token;

pub use cut::{step_tokens, tokens};
pub use pieces::{
    AnyForm, Digits, DigitsForm, Form, FormedPiece, IriForm, IriText, Label, LabelForm, LocalForm,
    LocalPart, Piece, Quoted, Tag,
};
pub use stop::Stop;
pub use token::{Sign, Token};
