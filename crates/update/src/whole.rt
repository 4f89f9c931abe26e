//! What notes tell of whole graphs.
ghost use Rattle.std.specs.Prelude.{◌≡◌, ◌++◌, Bool, true, IfOk, OnOk, filter_map, option_to_list};
ghost use Rattle.std.specs.List.{list_any, flat_map};
ghost use Rattle.reads.specs.Reads.{View};
ghost use Rattle.reads.specs.Runs.{Agrees};
ghost use Rattle.update.specs.Whole.{is_whole as the_is_whole, whole_place as the_whole_place, places_told as the_places_told, quads_told as the_quads_told, is_any as the_is_any, is_default as the_is_default, name_at as the_name_at, is_known as the_is_known, told_in, KnowsWhole};
ghost use Rattle.update.specs.Known.{has_free_scan};

use crate::lists::joined;
use datasets::{GraphPlace, Id, Quad, QuadPattern, Read};
use reads::Note;
use sets::{is_member, set_of};
use std::alloc::{AllocError, Global};
use std::marker::Model;

/// The graphs of which notes tell each quad, and these quads.
#[derive(Drop)]
pub struct WholeGraphs {
    is_all: bool,
    has_default: bool,
    names: Vec<Id>,
    quads: Vec<Quad<Id>>,
}

impl Model for WholeGraphs {
    ghost use Rattle.change_laws.specs.Laws.{IsRising};
    ghost use Rattle.datasets.specs.Id.{id_order};
    ghost use Rattle.update.specs.Whole.{WholeGraphs as TheWholeGraphs};

    ghost Value = { TheWholeGraphs };

    ghost view = { λ w. record { is_all = w.is_all; has_default = w.has_default; names = w.names.items; quads = w.quads.items } };

    ghost invariant = { λ w. IsRising id_order (record { quads = w.quads.items; names = w.names.items }) };
}

// Whether a pattern asks for each quad of its graph place.
fn is_whole(pattern: &QuadPattern<Id>) -> bool
    ensures { result ≡ the_is_whole pattern.now }
{
    pattern.subject.is_none() && pattern.predicate.is_none() && pattern.object.is_none()
}

// The graph place of which a note tells each quad, if it does so.
fn whole_place(note: &Note) -> Option<GraphPlace<Id>>
    ensures { result ≡ the_whole_place note.now.read }
{
    match &note.read {
        Read::Scan(pattern) => {
            if is_whole(pattern) {
                Some(pattern.graph)
            } else {
                None
            }
        }
        _ => None,
    }
}

// The quads that a note tells of a whole graph place.
fn quads_told(alloc: Global, note: &Note) -> Result<Vec<Quad<Id>>, AllocError>
    ensures { IfOk result (λ quads. quads.items
        ≡ the_quads_told note.now.read note.now.answer) }
{
    match (whole_place(note), note.answer.quads()) {
        (Some(_), Some(quads)) => quads.quads(alloc),
        _ => Ok(Vec::new(alloc)),
    }
}

fn is_any(place: GraphPlace<Id>) -> bool
    ensures { result ≡ the_is_any place }
{
    match place {
        GraphPlace::Any => true,
        GraphPlace::Only(_) => false,
    }
}

fn is_default(place: GraphPlace<Id>) -> bool
    ensures { result ≡ the_is_default place }
{
    match place {
        GraphPlace::Any => false,
        GraphPlace::Only(graph) => graph.is_none(),
    }
}

fn name_at(place: GraphPlace<Id>) -> Option<Id>
    ensures { result ≡ the_name_at place }
{
    match place {
        GraphPlace::Any => None,
        GraphPlace::Only(graph) => graph,
    }
}

// One more at the end, if there is one.
fn push_place(
    places: &mut Vec<GraphPlace<Id>>,
    place: Option<GraphPlace<Id>>,
) -> Result<(), AllocError>
    ensures { OnOk result (places.new.items ≡ places.old.items ++ option_to_list place) }
{
    if let Some(found) = place {
        places.push(found)?;
    }
    Ok(())
}

// The places of which the notes tell each quad.
fn places_told(alloc: Global, notes: &[Note]) -> Result<Vec<GraphPlace<Id>>, AllocError>
    ensures { IfOk result (λ places. places.items ≡ the_places_told notes.now) }
{
    let mut places = Vec::new(alloc);
    for note in notes {
        push_place(&mut places, whole_place(note))?;
    }
    Ok(places)
}

fn names_at(alloc: Global, places: &[GraphPlace<Id>]) -> Result<Vec<Id>, AllocError>
    ensures { IfOk result (λ names. names.items ≡ filter_map the_name_at places.now) }
{
    places
        .iter()
        .filter_map(|place| name_at(*place))
        .collect(alloc)
}

fn has_any(places: &[GraphPlace<Id>]) -> bool
    ensures { result ≡ list_any the_is_any places.now }
{
    places.iter().any(|place| is_any(*place))
}

fn has_default(places: &[GraphPlace<Id>]) -> bool
    ensures { result ≡ list_any the_is_default places.now }
{
    places.iter().any(|place| is_default(*place))
}

// The quads that the notes tell of whole graph places.
fn all_told(alloc: Global, notes: &[Note]) -> Result<Vec<Quad<Id>>, AllocError>
    ensures { IfOk result (λ quads. quads.items
        ≡ flat_map (λ note. the_quads_told note.read note.answer) notes.now) }
{
    let mut quads = Vec::new(alloc);
    for note in notes {
        let more = quads_told(alloc, note)?;
        quads = joined(quads, more)?;
    }
    Ok(quads)
}

/// What the notes tell of whole graphs.
pub fn whole_of(alloc: Global, notes: &[Note]) -> Result<WholeGraphs, AllocError>
    ensures knows { IfOk result (λ whole. (d : View) → Agrees notes.now d → KnowsWhole whole d) }
    ensures all { IfOk result (λ whole. has_free_scan notes.now ≡ true → whole.is_all ≡ true) }
{
    let places = places_told(alloc, notes)?;
    let names = names_at(alloc, &places)?;
    let quads = all_told(alloc, notes)?;
    Ok(WholeGraphs {
        is_all: has_any(&places),
        has_default: has_default(&places),
        names: set_of(names),
        quads: set_of(quads),
    })
}

impl WholeGraphs {
    // Whether each quad of the graph was told.
    fn is_known(&self, graph: Option<Id>) -> bool
        ensures { result ≡ the_is_known self.now graph }
    {
        match graph {
            None => self.is_all || self.has_default,
            Some(name) => self.is_all || is_member(&self.names, &name),
        }
    }

    /// Whether the quad is there, where each of its graph was told.
    pub fn tells(&self, quad: &Quad<Id>) -> Option<bool>
        ensures { result ≡ told_in self.now quad.now }
    {
        if self.is_known(quad.graph) {
            Some(is_member(&self.quads, quad))
        } else {
            None
        }
    }
}
