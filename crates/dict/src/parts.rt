//! Where terms stand in an order of which some terms are known, so that most of a sort compares
//! numbers.
use rayon::prelude::*;
use std::alloc::{AllocError, Global};
use std::thread::Threads;
use terms::Term;

/// How many terms part a list at most.
const MOST_MARKS: usize = 512;

/// Where a term stands: the part of the order that it is in, and there its first bytes behind those
/// that the terms of the part share.
#[derive(Clone, Copy, Drop, PartialEq, Eq, PartialOrd, Ord)]
pub(crate) struct Stand {
    part: usize,
    bytes: u64,
}

/// Where a term stands before all others.
pub(crate) const FIRST: Stand = Stand { part: 0, bytes: 0 };

/// Some terms in their order, which part it, and how many bytes the terms of each part share at the
/// front. Nothing is known of the bytes where a part has terms of two kinds.
#[derive(Drop)]
struct Parts<'a> {
    marks: Vec<&'a Term>,
    shared: Vec<Option<usize>>,
}

/// The text by which two terms of one kind are compared first.
fn text_of(term: &Term) -> &[u8] {
    match term {
        Term::Iri(iri) => iri.as_str().as_bytes(),
        Term::Literal(literal) => literal.lexical().as_bytes(),
        Term::Blank(blank) => blank.as_str().as_bytes(),
        Term::Made { .. } => &[],
    }
}

fn are_alike(a: &Term, b: &Term) -> bool {
    matches!(
        (a, b),
        (Term::Iri(_), Term::Iri(_))
            | (Term::Literal(_), Term::Literal(_))
            | (Term::Blank(_), Term::Blank(_))
    )
}

/// How many bytes all terms from one to another share at the front, if they are of one kind.
fn shared_by(low: &Term, high: &Term) -> Option<usize> {
    if !are_alike(low, high) {
        return None;
    }
    let both = text_of(low).iter().zip(text_of(high).iter());
    Some(both.take_while(|bytes| bytes.0 == bytes.1).count())
}

/// The first eight bytes from a place on, as a number that has their order; bytes that lack are 0.
fn bytes_from(text: &[u8], from: usize) -> u64 {
    let Some((_, rest)) = text.split_at_checked(from) else {
        return 0;
    };
    let mut bytes = [0u8; 8];
    for (to, byte) in bytes.iter_mut().zip(rest.iter()) {
        *to = *byte;
    }
    u64::from_be_bytes(bytes)
}

impl<'a> Parts<'a> {
    /// The parts that some of these terms make, and of more.
    fn new(alloc: Global, terms: &'a [Term], more: &'a [Term]) -> Result<Parts<'a>, AllocError> {
        let mut marks = Vec::new(alloc);
        let step = terms.len().saturating_add(more.len()) / MOST_MARKS + 1;
        for term in terms.iter().chain(more.iter()).step_by(step) {
            marks.push(term)?;
        }
        marks.sort_unstable();
        let shared = shared_of(alloc, marks.as_slice())?;
        Ok(Parts { marks, shared })
    }

    /// Where a term stands. Of two terms that stand apart the one that stands before is before.
    fn stand_of(&self, term: &Term) -> Stand {
        let part = self.marks.partition_point(|mark| mark.cmp(&term).is_le());
        let bytes = match self.shared.get(part) {
            Some(Some(from)) => bytes_from(text_of(term), *from),
            _ => 0,
        };
        Stand { part, bytes }
    }
}

/// For each part, how many bytes its terms share: those between a mark and the one before it. The
/// first part has no mark before it, and the last has none behind it.
fn shared_of(alloc: Global, marks: &[&Term]) -> Result<Vec<Option<usize>>, AllocError> {
    let mut shared = Vec::new(alloc);
    shared.push(None)?;
    for (low, high) in marks.iter().zip(marks.iter().skip(1)) {
        shared.push(shared_by(low, high))?;
    }
    Ok(shared)
}

/// Where these terms stand, and then more.
pub(crate) fn stands(
    alloc: Global,
    terms: &[Term],
    more: &[Term],
) -> Result<Vec<Stand>, AllocError> {
    let parts = Parts::new(alloc, terms, more)?;
    let mut stands = Vec::new(alloc);
    stands.reserve(terms.len())?;
    for term in terms.iter().chain(more.iter()) {
        stands.push(parts.stand_of(term))?;
    }
    Ok(stands)
}

/// The same, found by several threads.
pub(crate) fn stands_by<T: Threads + Sync>(
    rt: &T,
    alloc: Global,
    terms: &[Term],
    more: &[Term],
) -> Result<Vec<Stand>, AllocError> {
    let parts = Parts::new(alloc, terms, more)?;
    let mut stands: Vec<Stand> = terms
        .par_iter()
        .map(|term: &Term| -> Stand { parts.stand_of(term) })
        .collect(rt, alloc)?;
    let mut others: Vec<Stand> = more
        .par_iter()
        .map(|term: &Term| -> Stand { parts.stand_of(term) })
        .collect(rt, alloc)?;
    stands.append(&mut others)?;
    Ok(stands)
}
