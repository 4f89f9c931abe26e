//! The graphs that an operation names (SPARQL 1.1 Update, 3.2), where the operations before it led.
ghost use Rattle.std.specs.Prelude.{◌≡◌, IfOk};
ghost use Rattle.datasets.specs.Id.{id_order};
ghost use Rattle.asking.specs.Near.{is_near_target};
ghost use Rattle.reads.specs.Reads.{View, applied};
ghost use Rattle.reads.specs.Runs.{Agrees};
ghost use Rattle.asking.specs.Goes.{Goes, stop_of};
ghost use Rattle.update.specs.Asked.{AskedQuads, AskedNames};
ghost use Rattle.update.specs.Known.{or_told};
ghost use Rattle.update.specs.Graphs.{target_of as the_target_of, is_among as the_is_among, quads_of as the_quads_of, names_of as the_names_of, is_target_there, place_of as the_place_of, whole as the_whole, name_list as the_name_list};

use algebra::Target;
use datasets::{GraphPlace, Id, Quad, QuadPattern};
use delta::Delta;
use eval::{graphs, is_graph, scan};
use reads::{Note, Source, Stop};
use std::alloc::{AllocError, Global};

/// A graph, as DROP and CLEAR name it. No name is the default graph.
pub fn target_of(graph: Option<Id>) -> Target<Id>
    ensures { result ≡ the_target_of graph }
{
    match graph {
        None => Target::Default,
        Some(name) => Target::Graph(name),
    }
}

/// The name of a graph, if it has one.
pub fn name_list(alloc: Global, graph: Option<Id>) -> Result<Vec<Id>, AllocError>
    ensures { IfOk result (λ names. names.items ≡ the_name_list graph) }
{
    let mut names = Vec::new(alloc);
    if let Some(name) = graph {
        names.push(name)?;
    }
    Ok(names)
}

// Whether a graph is one of those that are named.
fn is_among(target: &Target<Id>, graph: Option<Id>) -> bool
    ensures { result ≡ the_is_among target.now graph }
{
    match target {
        Target::Graph(name) => graph == Some(*name),
        Target::Default => graph.is_none(),
        Target::Named => graph.is_some(),
        Target::All => true,
    }
}

// The place of a scan that tells of all their quads.
fn place_of(target: &Target<Id>) -> GraphPlace<Id>
    ensures { result ≡ the_place_of target.now }
{
    match target {
        Target::Graph(name) => GraphPlace::Only(Some(*name)),
        Target::Default => GraphPlace::Only(None),
        Target::Named => GraphPlace::Any,
        Target::All => GraphPlace::Any,
    }
}

// Each quad of a place.
fn whole(graph: GraphPlace<Id>) -> QuadPattern<Id>
    ensures { result ≡ the_whole graph }
{
    QuadPattern {
        subject: None,
        predicate: None,
        object: None,
        graph,
    }
}

// Of the quads those of the graphs that are named.
fn among(target: &Target<Id>, mut quads: Vec<Quad<Id>>) -> Vec<Quad<Id>>
    ensures { result.items ≡ the_quads_of target.now quads.items }
{
    quads.retain(|quad| is_among(target, quad.graph));
    quads
}

/// The quads of the graphs that are named, in each changed dataset that agrees with the notes. It
/// asks once, for all of a graph, or for all quads where the target is more than one graph.
pub fn quads_of<S: Source>(
    alloc: Global,
    target: &Target<Id>,
    changes: &Delta,
    source: &mut S,
    notes: &mut Vec<Note>,
) -> Result<Vec<Quad<Id>>, Stop>
    ensures goes { Goes S.asks (is_near_target id_order target.now) source.old source.new
        notes.old.items notes.new.items (stop_of result) }
    ensures seen { IfOk result (λ quads. (d : View) → Agrees notes.new.items d
        → quads.items ≡ the_quads_of target.now (applied changes.now d).quads) }
    ensures within { IfOk result (λ quads.
        AskedQuads (or_told (is_near_target id_order target.now) notes.new.items) quads.items) }
{
    let pattern = whole(place_of(target));
    let found = scan(alloc, &pattern, changes, source, notes)?;
    let quads = found.as_slice().quads(alloc)?;
    Ok(among(target, quads))
}

/// The names of the graphs that are named, in each changed dataset that agrees with the notes; a
/// graph that is named by itself counts also where it isn't there.
pub fn names_of<S: Source>(
    alloc: Global,
    target: &Target<Id>,
    changes: &Delta,
    source: &mut S,
    notes: &mut Vec<Note>,
) -> Result<Vec<Id>, Stop>
    ensures goes { Goes S.asks (is_near_target id_order target.now) source.old source.new
        notes.old.items notes.new.items (stop_of result) }
    ensures seen { IfOk result (λ names. (d : View) → Agrees notes.new.items d
        → names.items ≡ the_names_of target.now (applied changes.now d).names) }
    ensures within { IfOk result (λ names.
        AskedNames (or_told (is_near_target id_order target.now) notes.new.items) names.items) }
{
    match target {
        Target::Graph(name) => {
            let names = name_list(alloc, Some(*name))?;
            Ok(names)
        }
        Target::Default => Ok(Vec::new(alloc)),
        Target::Named => graphs(alloc, changes, source, notes),
        Target::All => graphs(alloc, changes, source, notes),
    }
}

/// Whether the graph that is named is there, in each changed dataset that agrees with the notes.
/// Only one that is named by itself may be missing, and only that one is asked for.
pub fn is_there<S: Source>(
    alloc: Global,
    target: &Target<Id>,
    changes: &Delta,
    source: &mut S,
    notes: &mut Vec<Note>,
) -> Result<bool, Stop>
    ensures goes { Goes S.asks (is_near_target id_order target.now) source.old source.new
        notes.old.items notes.new.items (stop_of result) }
    ensures seen { IfOk result (λ so. (d : View) → Agrees notes.new.items d
        → so ≡ is_target_there (applied changes.now d) target.now) }
{
    match target {
        Target::Graph(name) => is_graph(alloc, *name, changes, source, notes),
        Target::Default => Ok(true),
        Target::Named => Ok(true),
        Target::All => Ok(true),
    }
}
