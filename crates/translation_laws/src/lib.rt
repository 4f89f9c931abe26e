//! Laws of what requests are translated to, over the definitions alone.
//!
//! Labels are numbered as the tokens of an operation have them, and a prefix has the IRI of its last
//! declaration. The variables of an operation are within its width, and no solution binds one
//! beyond it; so the joins that define the solutions of its basic graph patterns are their
//! solutions in the standard's words. The terms of an accepted request are IRIs and literals in
//! their forms. The run of a block keeps a dataset well-formed, and a tag free of its blank labels;
//! so the text that is written of it spells it again. Stands on `rules`, `dict` and `nquads_laws`.
#![tactic(auto)]

pub mod laws;
