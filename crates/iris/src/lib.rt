//! IRIs, and runs of bytes at the front of a text.
//!
//! Both text formats are read with these: a text is the list of its UTF-8 bytes. Stands on std
//! alone. Used above: an `Iri` is its bytes, and those are an IRI.
#![tactic(auto)]

mod iri;
mod iri_cow;
pub mod laws;
mod utf8;

pub use iri::{Iri, is_iri, is_iri_byte};
pub use iri_cow::IriCow;
pub use utf8::text_of;
