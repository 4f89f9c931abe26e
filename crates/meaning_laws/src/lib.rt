//! Laws of what requests mean, over the definitions alone.
//!
//! A renaming that keeps the order, the kinds and the made nodes of terms and what passes a filter
//! carries the run of a block along, so what is proved of code at numbers of terms is true at
//! terms; answers make datasets of datasets; a run goes on with one request more; the joins that
//! define the solutions of a basic graph pattern are its solutions in the standard's words; and a
//! set of members is the one list that rises strictly and has them. Stands on `meaning`.
#![tactic(auto)]

pub mod laws;
