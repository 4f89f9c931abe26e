//! The terms of a block, each once.
ghost use Rattle.std.specs.Prelude.{◌≡◌, true, IfOk, IsTrue, OnOk};
ghost use Rattle.std.specs.List.{list_any};
ghost use Rattle.std.specs.Ordering.{eq_by_cmp};
ghost use Rattle.terms.specs.Term.{term_order};
ghost use Rattle.numbering.specs.Gathered.{HasTerms, HasMore};

use crate::ends::{EMPTY, hash_of, is_long, slot_at};
use indexmap::IndexSet;
use rules::TermRef;
use std::alloc::{AllocError, Global};
use terms::Term;

/// How many slots lead to long terms that were met lately.
const RECENT: usize = 4096;

/// Whether a term is the one in the set to which the slot of its hash leads. Nothing has to be known
/// of the slots, for the term there is compared.
#[tactic(auto, using(crate::proofs::Gathering::found_at))]
fn is_recent(set: &IndexSet<Term>, recent: &[u32], term: &Term) -> bool
    ensures { IsTrue result → list_any (eq_by_cmp term_order term.now) set.now.keys ≡ true }
{
    let Some(place) = recent.get(slot_at(recent, hash_of(term), 0)) else {
        return false;
    };
    match set.get_index(*place as usize) {
        Some(found) => term == found,
        None => false,
    }
}

/// Whether a term is known to be in the set. A long one is only looked for where it was met lately:
/// a name that stands often is one text in memory, which costs little to compare and much to hash.
fn is_known_in(set: &IndexSet<Term>, recent: &[u32], term: &Term) -> bool
    ensures { IsTrue result → list_any (eq_by_cmp term_order term.now) set.now.keys ≡ true }
{
    if is_long(term) {
        is_recent(set, recent, term)
    } else {
        set.contains(term)
    }
}

// Leads the hash of a long term to its place in the set.
fn note_recent(recent: &mut [u32], term: &Term, place: usize) {
    if !is_long(term) {
        return;
    }
    let at = slot_at(recent, hash_of(term), 0);
    if let Some(slot) = recent.get_mut(at) {
        *slot = u32::try_from(place).unwrap_or(EMPTY);
    }
}

/// Adds a term that is not in the set yet.
#[tactic(auto, using(crate::proofs::Gathering::there_already, crate::proofs::Gathering::is_put_in))]
fn add_term(
    alloc: Global,
    set: &mut IndexSet<Term>,
    recent: &mut [u32],
    term: &Term,
) -> Result<(), AllocError>
    ensures { OnOk result (HasMore set.old.keys set.new.keys term.now) }
{
    if is_known_in(set, recent, term) {
        return Ok(());
    }
    let (place, _) = set.insert_full(term.copied(alloc)?)?;
    note_recent(recent, term, place);
    Ok(())
}

/// Adds the terms that are not in the set yet.
#[tactic(auto, using(crate::proofs::Gathering::one_more))]
fn add_terms(
    alloc: Global,
    set: &mut IndexSet<Term>,
    terms: &[TermRef<'_>],
) -> Result<(), AllocError>
    ensures { OnOk result (HasTerms set.new.keys terms.now) }
{
    let mut recent = vec![in alloc; EMPTY; RECENT]?;
    for term in terms {
        add_term(alloc, set, recent.as_mut_slice(), term.get())?;
    }
    Ok(())
}

/// Each of these terms once, in the order in which they came first.
pub(crate) fn distinct(alloc: Global, terms: &[TermRef<'_>]) -> Result<Vec<Term>, AllocError>
    ensures { IfOk result (λ found. HasTerms found.items terms.now) }
{
    let mut set = IndexSet::new(alloc);
    add_terms(alloc, &mut set, terms)?;
    Vec::from_iter(alloc, set)
}
