//! Terms put in order by their places, each with its number.
ghost use Rattle.std.specs.Prelude.{◌≡◌, ◌++◌, ◌<◌, ℕ, true, All, length as list_length, map, List, IfOk, OnOk};
ghost use Rattle.std.specs.List.Sorted.{IsPermutation, IsSortedByKey};
ghost use Rattle.terms.specs.declared.term.Term.{Term as OneTerm};
ghost use Rattle.terms.specs.Term.{term_order};
ghost use Rattle.terms.specs.Placed.{term_at, is_within};
ghost use Rattle.dict.specs.Dictionary.{is_written};
ghost use Rattle.dict.specs.Ranks.{IsGathered, ArePlaced, AreSteps, IsNumberOf, term_in, ends_with, with_next, taken, number_in};

use crate::parts::{FIRST, Stand, stands, stands_by};
use crate::steps::{falls, steps, steps_by};
use datasets::Id;
use sorting::sorted_by;
use std::alloc::{AllocError, Global};
use std::cmp::Ordering;
use std::thread::Threads;
use terms::Term;

/// A term that was taken out of a list, its place there, and where it stands in its order.
#[derive(Drop)]
pub(crate) struct Placed {
    pub(crate) term: Term,
    place: u32,
    stand: Stand,
}

/// Terms in their order, each with its place, and how each stands to the one in front of it.
#[derive(Drop)]
pub(crate) struct Ordered {
    pub(crate) placed: Vec<Placed>,
    pub(crate) steps: Vec<Ordering>,
}

/// A place as 32 bits. More terms than that do not fit into memory.
fn narrowed(place: usize) -> Result<u32, AllocError>
    ensures { IfOk result (λ narrow. narrow ≡ place) }
{
    match u32::try_from(place) {
        Ok(place) => Ok(place),
        Err(_) => Err(AllocError),
    }
}

/// Adds the terms of a list that goes on where the others ended, each with where it stands by its
/// place.
fn push_placed(
    placed: &mut Vec<Placed>,
    stands: &[Stand],
    terms: Vec<Term>,
) -> Result<(), AllocError>
    ensures { OnOk result ((all : List OneTerm) → IsGathered all placed.old.items
        → IsGathered (all ++ terms.items) placed.new.items) }
{
    placed.reserve(terms.len())?;
    for term in terms {
        let place = narrowed(placed.len())?;
        let stand = stands.get(place as usize).copied().unwrap_or(FIRST);
        placed.push(Placed { term, place, stand })?;
    }
    Ok(())
}

/// The terms of these two lists, one after the other, with their places, each with where it stands
/// by its place.
fn gathered_with(
    alloc: Global,
    terms: Vec<Term>,
    more: Vec<Term>,
    stands: &[Stand],
) -> Result<Vec<Placed>, AllocError>
    ensures { IfOk result (λ placed. IsGathered (terms.items ++ more.items) placed.items) }
{
    let mut placed = Vec::new(alloc);
    placed.reserve(stands.len())?;
    push_placed(&mut placed, stands, terms)?;
    push_placed(&mut placed, stands, more)?;
    Ok(placed)
}

/// The terms of these two lists, one after the other, with their places.
fn gathered(alloc: Global, terms: Vec<Term>, more: Vec<Term>) -> Result<Vec<Placed>, AllocError>
    ensures { IfOk result (λ placed. IsGathered (terms.items ++ more.items) placed.items) }
{
    let stands = stands(alloc, terms.as_slice(), more.as_slice())?;
    gathered_with(alloc, terms, more, stands.as_slice())
}

/// The same, where several threads look for where the terms stand.
fn gathered_by<T: Threads + Sync>(
    rt: &T,
    alloc: Global,
    terms: Vec<Term>,
    more: Vec<Term>,
) -> Result<Vec<Placed>, AllocError>
    ensures { IfOk result (λ placed. IsGathered (terms.items ++ more.items) placed.items) }
{
    let stands = stands_by(rt, alloc, terms.as_slice(), more.as_slice())?;
    gathered_with(alloc, terms, more, stands.as_slice())
}

/// The order of two terms, from where they stand where that differs.
fn by_stands(left: &Placed, right: &Placed) -> Ordering {
    match left.stand.cmp(&right.stand) {
        Ordering::Equal => left.term.cmp(&right.term),
        stands => stands,
    }
}

/// These terms put in order, and how each stands to the one in front of it.
fn sorted_with_steps(alloc: Global, mut moved: Vec<Placed>) -> Result<Ordered, AllocError>
    ensures same { IfOk result (λ r. IsPermutation moved.items r.placed.items) }
    ensures sorted { IfOk result (λ r. IsSortedByKey term_in term_order r.placed.items) }
    ensures steps { IfOk result (λ r. AreSteps r.placed.items r.steps.items) }
{
    moved.sort_unstable_by(|left, right| left.term.cmp(&right.term));
    let steps = steps(alloc, moved.as_slice())?;
    Ok(Ordered {
        placed: moved,
        steps,
    })
}

/// These terms in their order, in which they are likely to be: with these steps they are looked at
/// first, and put in order where one falls.
fn by_terms(alloc: Global, moved: Vec<Placed>, steps: Vec<Ordering>) -> Result<Ordered, AllocError>
    requires { AreSteps moved.items steps.items }
    ensures same { IfOk result (λ r. IsPermutation moved.items r.placed.items) }
    ensures sorted { IfOk result (λ r. IsSortedByKey term_in term_order r.placed.items) }
    ensures steps { IfOk result (λ r. AreSteps r.placed.items r.steps.items) }
{
    if falls(steps.as_slice()) {
        return sorted_with_steps(alloc, moved);
    }
    Ok(Ordered {
        placed: moved,
        steps,
    })
}

/// The terms of these two lists in their order, with their places in the one after the other.
pub(crate) fn in_order(
    alloc: Global,
    terms: Vec<Term>,
    more: Vec<Term>,
) -> Result<Ordered, AllocError>
    ensures placed { IfOk result (λ r. ArePlaced (terms.items ++ more.items) r.placed.items) }
    ensures same { IfOk result (λ r. IsPermutation (terms.items ++ more.items)
        (map term_in r.placed.items)) }
    ensures sorted { IfOk result (λ r. IsSortedByKey term_in term_order r.placed.items) }
    ensures steps { IfOk result (λ r. AreSteps r.placed.items r.steps.items) }
{
    let mut placed = gathered(alloc, terms, more)?;
    placed.sort_unstable_by(|left, right| by_stands(left, right));
    let steps = steps(alloc, placed.as_slice())?;
    by_terms(alloc, placed, steps)
}

/// The same, put in order and looked at by several threads.
pub(crate) fn in_order_by<T: Threads + Sync>(
    rt: &T,
    alloc: Global,
    terms: Vec<Term>,
    more: Vec<Term>,
) -> Result<Ordered, AllocError>
    ensures placed { IfOk result (λ r. ArePlaced (terms.items ++ more.items) r.placed.items) }
    ensures same { IfOk result (λ r. IsPermutation (terms.items ++ more.items)
        (map term_in r.placed.items)) }
    ensures sorted { IfOk result (λ r. IsSortedByKey term_in term_order r.placed.items) }
    ensures steps { IfOk result (λ r. AreSteps r.placed.items r.steps.items) }
{
    let placed = gathered_by(rt, alloc, terms, more)?;
    let moved = sorted_by(rt, placed, |left, right| by_stands(left, right));
    let steps = steps_by(rt, alloc, moved.as_slice())?;
    by_terms(alloc, moved, steps)
}

/// The number of a written term that is above a rising list, where it is put in, or that is the
/// same as its last.
fn next_known(found: &mut Vec<Term>, term: Term, is_same: bool) -> Result<Id, AllocError>
    requires written { is_written term ≡ true }
    requires same { is_same ≡ ends_with found.old.items term }
    ensures found { OnOk result (found.new.items ≡ with_next found.old.items term) }
    ensures number { IfOk result (λ id. IsNumberOf found.new.items term id) }
{
    if !is_same {
        found.push(term)?;
    }
    Ok(Id::Known(narrowed(found.len() - 1)?))
}

/// The number of a term, the same where it is a made node.
fn next_number(found: &mut Vec<Term>, term: Term, is_same: bool) -> Result<Id, AllocError>
    requires { is_written term ≡ true → is_same ≡ ends_with found.old.items term }
    ensures found { OnOk result (found.new.items ≡ with_next found.old.items term) }
    ensures number { IfOk result (λ id. IsNumberOf found.new.items term id) }
{
    match term {
        Term::Made {
            request,
            op,
            label,
            rank,
        } => Ok(Id::Made {
            request,
            op,
            label,
            rank,
        }),
        written => next_known(found, written, is_same),
    }
}

/// The terms of a rising list, each once and without made nodes, and the numbers at the places of
/// the list that they came from, which is of this length. No term is compared: the steps tell which
/// is the same as the one in front of it.
pub(crate) fn numbered(
    alloc: Global,
    ordered: Ordered,
    length: usize,
) -> Result<(Vec<Term>, Vec<Id>), AllocError>
    requires places { All (λ p. p.place < length) ordered.placed.items }
    requires sorted { IsSortedByKey term_in term_order ordered.placed.items }
    requires steps { AreSteps ordered.placed.items ordered.steps.items }
    ensures length { IfOk result (λ r. list_length r.1.items ≡ length) }
    ensures terms { IfOk result (λ r. r.0.items ≡ taken (map term_in ordered.placed.items)) }
    ensures numbers { IfOk result (λ r. (all : List OneTerm) → ArePlaced all ordered.placed.items
        → (place : ℕ) → is_within all place ≡ true
        → IsNumberOf r.0.items (term_at all place) (number_in r.1.items place)) }
{
    let Ordered { placed, steps } = ordered;
    let mut found = Vec::new(alloc);
    found.reserve(placed.len())?;
    let mut ids = vec![in alloc; Id::Known(0); length]?;
    let mut index = 0;
    for entry in placed {
        let is_same = steps[index].is_eq();
        let id = next_number(&mut found, entry.term, is_same)?;
        ids[entry.place as usize] = id;
        index += 1;
    }
    Ok((found, ids))
}
