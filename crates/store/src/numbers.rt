//! Terms, quads and names at numbers.
ghost use Rattle.std.specs.Prelude.{◌≡◌, ◌<◌, ℕ, true, length, map, slice_index_or, IfOk};
ghost use Rattle.std.specs.List.{list_all, Contains};
ghost use Rattle.std.specs.Option.{option_map};
ghost use Rattle.datasets.specs.declared.quad.Quad.{Quad};
ghost use Rattle.quad_lists.specs.Known.{quad_of};
ghost use Rattle.quad_lists.specs.declared.known.KnownQuad.{KnownQuad};
ghost use Rattle.terms.specs.Placed.{is_within, is_name_within, is_quad_within};
ghost use Rattle.dict.specs.Dictionary.{term_of, is_known};
ghost use Rattle.store.specs.Held.{is_held};
ghost use Rattle.store.specs.Tables.{number_at, numbers_at, is_number as the_is_number, number_of as the_number_of, known_at};

use datasets::Quad;
use dict::{Dict, Id};
use quad_lists::{KnownQuad, QuadList};
use rayon::slice::par_for_each_mut;
use std::alloc::{AllocError, Global};
use std::thread::Threads;
use terms::Term;

/// What a list has before its quads are put in.
const NO_QUAD: KnownQuad = KnownQuad {
    subject: 0,
    predicate: 0,
    object: 0,
    graph: None,
};

/// The number of a term that the dictionary holds.
pub fn number_term(dict: &Dict, term: &Term) -> Id
    requires { is_held dict.now term.now ≡ true }
    ensures renamed { term_of dict.now result ≡ term.now }
    ensures known { is_known dict.now result ≡ true }
{
    match dict.id_of(term) {
        Some(id) => id,
        None => unreachable!(),
    }
}

fn name_number(ids: &[Id], name: Option<u32>) -> Option<Id>
    requires { is_name_within ids.now name ≡ true }
    ensures { result ≡ option_map (number_at ids.now) name }
{
    match name {
        Some(place) => Some(ids[place as usize]),
        None => None,
    }
}

fn quad_number(ids: &[Id], quad: &Quad<u32>) -> Quad<Id>
    requires { is_quad_within ids.now quad.now ≡ true }
    ensures { result ≡ numbers_at ids.now quad.now }
{
    Quad {
        subject: ids[quad.subject as usize],
        predicate: ids[quad.predicate as usize],
        object: ids[quad.object as usize],
        graph: name_number(ids, quad.graph),
    }
}

/// Quads by places, at the numbers that stand there.
pub(crate) fn quad_numbers(
    alloc: Global,
    ids: &[Id],
    quads: &[Quad<u32>],
) -> Result<QuadList, AllocError>
    requires { list_all (is_quad_within ids.now) quads.now ≡ true }
    ensures { IfOk result (λ list. list ≡ map (numbers_at ids.now) quads.now) }
{
    let mut list = QuadList::with_room(alloc, quads.len())?;
    for quad in quads {
        list.push(alloc, &quad_number(ids, quad))?;
    }
    Ok(list)
}

/// The number of a known term, and 0 for a made node.
fn number_of(id: Id) -> u32
    ensures { result ≡ the_number_of id }
{
    match id {
        Id::Known(number) => number,
        Id::Made { .. } => 0,
    }
}

fn is_number(id: Id) -> bool
    ensures { result ≡ the_is_number id }
{
    matches!(id, Id::Known(_))
}

/// Whether all are numbers of known terms.
fn are_numbers(ids: &[Id]) -> bool
    ensures { result ≡ list_all the_is_number ids.now }
{
    ids.iter().all(|id| is_number(*id))
}

fn known_name(ids: &[Id], name: Option<u32>) -> Option<u32>
    requires { is_name_within ids.now name ≡ true }
    ensures { result ≡ option_map (λ place. the_number_of (number_at ids.now place)) name }
{
    match name {
        Some(place) => Some(number_of(ids[place as usize])),
        None => None,
    }
}

/// A quad by places, at the numbers of known terms that stand there.
fn known_quad(ids: &[Id], quad: &Quad<u32>) -> KnownQuad
    requires { is_quad_within ids.now quad.now ≡ true }
    ensures { result ≡ known_at ids.now quad.now }
{
    KnownQuad {
        subject: number_of(ids[quad.subject as usize]),
        predicate: number_of(ids[quad.predicate as usize]),
        object: number_of(ids[quad.object as usize]),
        graph: known_name(ids, quad.graph),
    }
}

// Puts these quads in, each by one of several threads.
fn put_known_by<T: Threads + Sync>(rt: &T, ids: &[Id], quads: &[Quad<u32>], known: &mut [KnownQuad])
    requires within { list_all (is_quad_within ids.now) quads.now ≡ true }
    requires long { length known.old ≡ length quads.now }
    ensures long { length known.new ≡ length quads.now }
    ensures each { (k : ℕ) (d : Quad ℕ) (e : KnownQuad) → k < length quads.now
        → slice_index_or known.new k e ≡ known_at ids.now (slice_index_or quads.now k d) }
{
    par_for_each_mut(
        rt,
        known,
        |place: usize, slot: &mut KnownQuad|
            requires { (place < length quads.now)
                × (list_all (is_quad_within ids.now) quads.now ≡ true) }
            ensures { (d : Quad ℕ) → slot.new ≡ known_at ids.entry.now
                (slice_index_or quads.entry.now place d) }
        {
            *slot = known_quad(ids, &quads[place]);
        },
    );
}

// The same of a list that has as many.
fn known_put_by<T: Threads + Sync>(
    rt: &T,
    ids: &[Id],
    quads: &[Quad<u32>],
    mut known: Vec<KnownQuad>,
) -> Vec<KnownQuad>
    requires within { list_all (is_quad_within ids.now) quads.now ≡ true }
    requires long { length known.items ≡ length quads.now }
    ensures long { length result.items ≡ length quads.now }
    ensures each { (k : ℕ) (d : Quad ℕ) (e : KnownQuad) → k < length quads.now
        → slice_index_or result.items k e ≡ known_at ids.now (slice_index_or quads.now k d) }
{
    put_known_by(rt, ids, quads, known.as_mut_slice());
    known
}

// The same as `quad_numbers`, where all are numbers of known terms, in a list that has as many.
fn known_numbers_by<T: Threads + Sync>(
    rt: &T,
    ids: &[Id],
    quads: &[Quad<u32>],
    room: Vec<KnownQuad>,
) -> Vec<KnownQuad>
    requires within { list_all (is_quad_within ids.now) quads.now ≡ true }
    requires numbers { list_all the_is_number ids.now ≡ true }
    requires long { length room.items ≡ length quads.now }
    ensures { map quad_of result.items ≡ map (numbers_at ids.now) quads.now }
{
    known_put_by(rt, ids, quads, room)
}

/// Room for so many quads.
pub(crate) fn room_for(alloc: Global, count: usize) -> Result<Vec<KnownQuad>, AllocError> {
    vec![in alloc; NO_QUAD; count]
}

/// The same as `quad_numbers`, where several threads look for the numbers of known terms and put
/// them into the room that was made for so many.
pub(crate) fn quad_numbers_by<T: Threads + Sync>(
    rt: &T,
    alloc: Global,
    ids: &[Id],
    quads: &[Quad<u32>],
    room: Vec<KnownQuad>,
) -> Result<QuadList, AllocError>
    requires { list_all (is_quad_within ids.now) quads.now ≡ true }
    ensures { IfOk result (λ list. list ≡ map (numbers_at ids.now) quads.now) }
{
    if room.len() != quads.len() || !are_numbers(ids) {
        return quad_numbers(alloc, ids, quads);
    }
    let known = known_numbers_by(rt, ids, quads, room);
    Ok(QuadList::of_known(known))
}

/// These places, each once: the name of a graph comes with each quad that is in it, and of these
/// mostly many one after another.
pub(crate) fn distinct(mut places: Vec<u32>) -> Vec<u32>
    ensures kept { (place : ℕ) → Contains places.items place → Contains result.items place }
    ensures only { (place : ℕ) → Contains result.items place → Contains places.items place }
{
    places.dedup();
    places.sort_unstable();
    places.dedup();
    places
}

/// Names by places, at the numbers that stand there.
pub(crate) fn name_numbers(alloc: Global, ids: &[Id], names: &[u32]) -> Result<Vec<Id>, AllocError>
    requires { list_all (is_within ids.now) names.now ≡ true }
    ensures { IfOk result (λ list. list.items ≡ map (number_at ids.now) names.now) }
{
    let mut list = Vec::new(alloc);
    for place in names {
        list.push(ids[*place as usize])?;
    }
    Ok(list)
}
