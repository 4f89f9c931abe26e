//! Datasets that are built of the terms of a text.
//!
//! A text says most of its terms more than once. One that is an IRI is looked up by its text, and
//! gets memory of its own only where it is new. Stands on `terms`. Used above: a `DatasetBuilder`
//! is the dataset of what was put in.
#![tactic(auto)]

mod builder;
mod known_iris;
mod placed;

pub use builder::DatasetBuilder;
