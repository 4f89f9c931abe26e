//! Hashes of terms by the ends of their texts, so that a hash costs the same whatever the length.
use std::hash::{FoldHasher, Hash, Hasher};
use terms::Term;

/// So many bytes are read at each end of a long text.
const END: usize = 128;

/// A text of more bytes is long: what is between its ends isn't read.
const LONG: usize = 256;

/// What stands in a slot that leads to no term.
pub(crate) const EMPTY: u32 = u32::MAX;

fn add_ends(hasher: &mut FoldHasher, text: &str) {
    let bytes = text.as_bytes();
    let len = bytes.len();
    if len <= LONG {
        hasher.write(bytes);
        return;
    }
    let (front, _) = bytes.split_at(END);
    let (_, back) = bytes.split_at(len - END);
    hasher.write(front);
    hasher.write(back);
    hasher.write_usize(len);
}

/// A hash of a term. Terms of long texts that differ between the ends alone have the same.
pub(crate) fn hash_of(term: &Term) -> usize {
    let mut hasher = FoldHasher::default();
    match term {
        Term::Iri(iri) => add_ends(&mut hasher, iri.as_str()),
        Term::Literal(literal) => {
            add_ends(&mut hasher, literal.lexical());
            add_ends(&mut hasher, literal.datatype().as_str());
            if let Some(tag) = literal.tag() {
                hasher.write(tag.as_bytes());
            }
        }
        Term::Blank(_) | Term::Made { .. } => term.hash(&mut hasher),
    }
    let hash = hasher.finish();
    (hash ^ (hash >> 32)) as usize
}

/// Whether the hash of a term reads less than its texts.
pub(crate) fn is_long(term: &Term) -> bool {
    match term {
        Term::Iri(iri) => iri.as_str().len() > LONG,
        Term::Literal(literal) => {
            literal.lexical().len() > LONG || literal.datatype().as_str().len() > LONG
        }
        Term::Blank(_) | Term::Made { .. } => false,
    }
}

/// The slot so many steps behind the one that a hash leads to.
pub(crate) fn slot_at(slots: &[u32], hash: usize, step: usize) -> usize {
    hash.wrapping_add(step) % slots.len().max(1)
}
