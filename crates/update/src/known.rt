//! What notes tell of quads, so that none of these is asked for again, and of the names of all
//! graphs.
ghost use Rattle.std.specs.Prelude.{◌≡◌, Bool, true, IfOk};
ghost use Rattle.sets.specs.Sets.{has};
ghost use Rattle.datasets.specs.Id.{id_order};
ghost use Rattle.reads.specs.Reads.{View};
ghost use Rattle.reads.specs.Runs.{Agrees};
ghost use Rattle.update.specs.Known.{is_of_graphs as the_is_of_graphs, names_in as the_names_in, told_of, has_names, Knows, KnowsAll};

use crate::told_scan::{ToldScan, first_scans, first_told};
use crate::whole::{WholeGraphs, whole_of};
use datasets::{Id, Quad, Read};
use reads::lists::copied_names;
use reads::{Answered, Note};
use sets::{is_member, set_of};
use std::alloc::{AllocError, Global};
use std::marker::Model;

/// What notes tell: the first scans, of the quads that their patterns let through; the notes after
/// these, of whole graphs; and the names of all graphs, where notes tell them.
#[derive(Drop)]
pub struct Known {
    scans: Vec<ToldScan>,
    whole: WholeGraphs,
    has_graphs: bool,
    graphs: Vec<Id>,
}

impl Model for Known {
    ghost use Rattle.datasets.specs.Id.{id_order};
    ghost use Rattle.update.specs.Known.{WhatIsKnown};
    ghost use Rattle.std.specs.List.Sorted.{IsStrictlySortedBy};

    ghost Value = { WhatIsKnown };

    ghost view = { λ k. record { scans = k.scans.items; whole = k.whole; has_graphs = k.has_graphs; graphs = k.graphs.items } };

    ghost invariant = { λ k. IsStrictlySortedBy id_order k.graphs.items };
}

// Whether a note tells the names of all graphs.
fn is_of_graphs(note: &Note) -> bool
    ensures { result ≡ the_is_of_graphs note.now.read }
{
    matches!(note.read, Read::Graphs)
}

// The names that an answer tells. An answer of another kind tells none.
fn names_in(answer: &Answered) -> &[Id]
    ensures { result.now ≡ the_names_in answer.now }
{
    match answer.names() {
        Some(names) => names,
        None => &[],
    }
}

// Whether the notes tell the names of all graphs, and these names.
fn graphs_told(alloc: Global, notes: &[Note]) -> Result<(bool, Vec<Id>), AllocError>
    ensures told { IfOk result (λ told. (d : View) → Agrees notes.now d → told.0 ≡ true
        → told.1.items ≡ d.names) }
    ensures all { IfOk result (λ told. told.0 ≡ has_names notes.now) }
{
    for note in notes {
        if is_of_graphs(note) {
            let names = copied_names(alloc, names_in(&note.answer))?;
            return Ok((true, names));
        }
    }
    Ok((false, Vec::new(alloc)))
}

/// What the notes tell of quads, and of the names of all graphs. Whatever was answered, a scan of
/// all quads tells of each quad.
pub fn known_of(alloc: Global, notes: &[Note]) -> Result<Known, AllocError>
    ensures knows { IfOk result (λ known. (d : View) → Agrees notes.now d → Knows known d) }
    ensures all { IfOk result (λ known. KnowsAll known notes.now) }
{
    let (scans, place) = first_scans(alloc, notes)?;
    let whole = whole_of(alloc, &notes[place..])?;
    let (has_graphs, graphs) = graphs_told(alloc, notes)?;
    Ok(Known {
        scans,
        whole,
        has_graphs,
        graphs: set_of(graphs),
    })
}

impl Known {
    /// Whether the quad is there, where that was told.
    pub fn tells(&self, quad: &Quad<Id>) -> Option<bool>
        ensures { result ≡ told_of self.now quad.now }
    {
        match first_told(&self.scans, quad) {
            Some(so) => Some(so),
            None => self.whole.tells(quad),
        }
    }

    /// Whether the names of all graphs were told.
    pub fn has_graphs(&self) -> bool
        ensures { result ≡ self.now.has_graphs }
    {
        self.has_graphs
    }

    /// Whether the name is one of those that were told.
    pub fn is_graph(&self, name: &Id) -> bool
        ensures { result ≡ has id_order self.now.graphs name.now }
    {
        is_member(&self.graphs, name)
    }
}
