//! Hashes of terms.
ghost use Rattle.std.specs.Prelude.{◌≡◌};
ghost use Rattle.terms.specs.Hashed.{hashed, hashed_alike};

use crate::term::Term;
use std::hash::{Hash, Hasher};

impl Hash for Term {
    ghost hash_input = { hashed };

    ghost respects_eq = { hashed_alike };

    fn hash<H: Hasher>(&self, state: &mut H) {
        match self {
            Term::Iri(iri) => state.write(iri.as_str().as_bytes()),
            Term::Literal(literal) => {
                state.write(literal.lexical().as_bytes());
                state.write(literal.datatype().as_str().as_bytes());
                if let Some(tag) = literal.tag() {
                    state.write(tag.as_bytes());
                }
            }
            Term::Blank(blank) => state.write(blank.as_str().as_bytes()),
            Term::Made {
                request,
                op,
                label,
                rank,
            } => {
                state.write_u32(*request);
                state.write_u32(*op);
                state.write_u32(*label);
                state.write_u32(*rank);
            }
        }
    }
}
