//! Operations on whole graphs (SPARQL 1.1 Update, 3.2).
ghost use Rattle.std.specs.Prelude.{◌≡◌, Bool, true, IfOk, map};
ghost use Rattle.datasets.specs.Dataset.{same_graph};
ghost use Rattle.datasets.specs.Id.{id_order};
ghost use Rattle.meaning.specs.GraphOperations.{graphs_after, in_graph};
ghost use Rattle.asking.specs.Near.{is_near_graphs, is_near_target};
ghost use Rattle.algebra.specs.declared.update.GraphOperation.TheVariants as graph_operation;
ghost use Rattle.reads.specs.Reads.{View, Read as Reading, applied};
ghost use Rattle.reads.specs.Runs.{Agrees};
ghost use Rattle.asking.specs.Goes.{Goes, stop_of};
ghost use Rattle.update.specs.Asked.{AskedQuads, IsWithin};
ghost use Rattle.update.specs.Changed.{changed};
ghost use Rattle.update.specs.Known.{or_told};
ghost use Rattle.update.specs.Graphs.{quads_of as the_quads_of, leaving as the_leaving, name_leaving as the_name_leaving};

use crate::lists::joined;
use crate::targets::{is_there, name_list, names_of, quads_of, target_of};
use algebra::{GraphOperation, Target, Transfer};
use datasets::{Id, Quad};
use delta::Delta;
use eval::is_graph;
use meaning::Cause;
use reads::{Note, Source, Stop};
use std::alloc::{AllocError, Global};

// What CREATE changes by itself. It fails where the graph is there.
fn created<S: Source>(
    alloc: Global,
    name: Id,
    changes: &Delta,
    source: &mut S,
    notes: &mut Vec<Note>,
) -> Result<Result<Delta, Cause>, Stop>
    ensures goes { Goes S.asks (is_near_graphs id_order (graph_operation.Create name)) source.old
        source.new notes.old.items notes.new.items (stop_of result) }
    ensures effect { IfOk result (λ outcome. (d : View) → Agrees notes.new.items d
        → changed (applied changes.now d) outcome
        ≡ graphs_after id_order (graph_operation.Create name) (applied changes.now d)) }
    ensures within { IfOk result (λ outcome. IfOk outcome
        (λ own. IsWithin (is_near_graphs id_order (graph_operation.Create name)) own)) }
{
    let exists = is_graph(alloc, name, changes, source, notes)?;
    if exists {
        return Ok(Err(Cause::GraphExists));
    }
    let there = name_list(alloc, Some(name))?;
    let own = Delta::from_parts(
        alloc,
        Vec::new(alloc),
        Vec::new(alloc),
        there,
        Vec::new(alloc),
    )?;
    Ok(Ok(own))
}

// What CLEAR changes by itself. It fails where the graph isn't there.
fn cleared<S: Source>(
    alloc: Global,
    target: &Target<Id>,
    changes: &Delta,
    source: &mut S,
    notes: &mut Vec<Note>,
) -> Result<Result<Delta, Cause>, Stop>
    ensures goes { Goes S.asks (is_near_target id_order target.now) source.old source.new
        notes.old.items notes.new.items (stop_of result) }
    ensures effect { IfOk result (λ outcome. (d : View) → Agrees notes.new.items d
        → changed (applied changes.now d) outcome
        ≡ graphs_after id_order (graph_operation.Clear target.now) (applied changes.now d)) }
    ensures within { IfOk result (λ outcome. IfOk outcome
        (λ own. IsWithin (or_told (is_near_target id_order target.now) notes.new.items) own)) }
{
    let exists = is_there(alloc, target, changes, source, notes)?;
    if !exists {
        return Ok(Err(Cause::GraphMissing));
    }
    let quads = quads_of(alloc, target, changes, source, notes)?;
    let own = Delta::from_parts(
        alloc,
        Vec::new(alloc),
        quads,
        Vec::new(alloc),
        Vec::new(alloc),
    )?;
    Ok(Ok(own))
}

// What DROP changes by itself. It fails where the graph isn't there.
fn dropped<S: Source>(
    alloc: Global,
    target: &Target<Id>,
    changes: &Delta,
    source: &mut S,
    notes: &mut Vec<Note>,
) -> Result<Result<Delta, Cause>, Stop>
    ensures goes { Goes S.asks (is_near_target id_order target.now) source.old source.new
        notes.old.items notes.new.items (stop_of result) }
    ensures effect { IfOk result (λ outcome. (d : View) → Agrees notes.new.items d
        → changed (applied changes.now d) outcome
        ≡ graphs_after id_order (graph_operation.Drop target.now) (applied changes.now d)) }
    ensures within { IfOk result (λ outcome. IfOk outcome
        (λ own. IsWithin (or_told (is_near_target id_order target.now) notes.new.items) own)) }
{
    let exists = is_there(alloc, target, changes, source, notes)?;
    if !exists {
        return Ok(Err(Cause::GraphMissing));
    }
    let quads = quads_of(alloc, target, changes, source, notes)?;
    let names = names_of(alloc, target, changes, source, notes)?;
    let own = Delta::from_parts(alloc, Vec::new(alloc), quads, Vec::new(alloc), names)?;
    Ok(Ok(own))
}

// Whether two graphs are one. No name is the default graph.
fn is_same_graph(one: Option<Id>, other: Option<Id>) -> bool
    ensures { result ≡ same_graph id_order one other }
{
    one == other
}

// The triples of some quads, in this graph.
fn put_in(alloc: Global, graph: Option<Id>, quads: &[Quad<Id>]) -> Result<Vec<Quad<Id>>, AllocError>
    ensures { IfOk result (λ put. put.items ≡ map (in_graph id_order graph) quads.now) }
{
    quads
        .iter()
        .map(|quad| Quad {
            subject: quad.subject,
            predicate: quad.predicate,
            object: quad.object,
            graph,
        })
        .collect(alloc)
}

// The quads that go where a graph's triples, which were found, come to the place of another one's.
fn leaving<S: Source>(
    alloc: Global,
    how: Transfer,
    found: Vec<Quad<Id>>,
    to: &Target<Id>,
    changes: &Delta,
    source: &mut S,
    notes: &mut Vec<Note>,
) -> Result<Vec<Quad<Id>>, Stop>
    ensures goes { Goes S.asks (is_near_target id_order to.now) source.old source.new
        notes.old.items notes.new.items (stop_of result) }
    ensures seen { IfOk result (λ quads. (d : View) → Agrees notes.new.items d
        → quads.items ≡ the_leaving how found.items
        (the_quads_of to.now (applied changes.now d).quads)) }
    ensures within { (allowed : Reading → Bool) →
        ((r : Reading) → or_told (is_near_target id_order to.now) notes.new.items r ≡ true
        → allowed r ≡ true)
        → AskedQuads allowed found.items → IfOk result (λ quads. AskedQuads allowed quads.items) }
{
    match how {
        Transfer::Add => Ok(Vec::new(alloc)),
        Transfer::Copy => quads_of(alloc, to, changes, source, notes),
        Transfer::Move => {
            let others = quads_of(alloc, to, changes, source, notes)?;
            let quads = joined(found, others)?;
            Ok(quads)
        }
    }
}

// The name that goes where a graph's triples come to another one.
fn name_leaving(alloc: Global, how: Transfer, from: Option<Id>) -> Result<Vec<Id>, AllocError>
    ensures { IfOk result (λ names. names.items ≡ the_name_leaving how from) }
{
    match how {
        Transfer::Move => name_list(alloc, from),
        _ => Ok(Vec::new(alloc)),
    }
}

// What COPY, MOVE and ADD change by themselves. From a graph to itself that is nothing; else they
// fail where the first graph isn't there.
fn transferred<S: Source>(
    alloc: Global,
    how: Transfer,
    from: Option<Id>,
    to: Option<Id>,
    changes: &Delta,
    source: &mut S,
    notes: &mut Vec<Note>,
) -> Result<Result<Delta, Cause>, Stop>
    ensures goes { Goes S.asks (is_near_graphs id_order (graph_operation.Transfer how from to))
        source.old source.new notes.old.items notes.new.items (stop_of result) }
    ensures effect { IfOk result (λ outcome. (d : View) → Agrees notes.new.items d
        → changed (applied changes.now d) outcome
        ≡ graphs_after id_order (graph_operation.Transfer how from to) (applied changes.now d)) }
    ensures within { IfOk result (λ outcome. IfOk outcome
        (λ own. IsWithin (or_told (is_near_graphs id_order (graph_operation.Transfer how from to))
        notes.new.items) own)) }
{
    if is_same_graph(from, to) {
        return Ok(Ok(Delta::new(alloc)));
    }
    let first = target_of(from);
    let second = target_of(to);
    let exists = is_there(alloc, &first, changes, source, notes)?;
    if !exists {
        return Ok(Err(Cause::GraphMissing));
    }
    let found = quads_of(alloc, &first, changes, source, notes)?;
    let come = put_in(alloc, to, &found)?;
    let gone = leaving(alloc, how, found, &second, changes, source, notes)?;
    let there = name_list(alloc, to)?;
    let names = name_leaving(alloc, how, from)?;
    let own = Delta::from_parts(alloc, come, gone, there, names)?;
    Ok(Ok(own))
}

// What an operation changes by itself, where the operations before it led, or why it fails.
fn own_change<S: Source>(
    alloc: Global,
    operation: &GraphOperation<Id>,
    changes: &Delta,
    source: &mut S,
    notes: &mut Vec<Note>,
) -> Result<Result<Delta, Cause>, Stop>
    ensures goes { Goes S.asks (is_near_graphs id_order operation.now) source.old source.new
        notes.old.items notes.new.items (stop_of result) }
    ensures effect { IfOk result (λ outcome. (d : View) → Agrees notes.new.items d
        → changed (applied changes.now d) outcome
        ≡ graphs_after id_order operation.now (applied changes.now d)) }
    ensures within { IfOk result (λ outcome. IfOk outcome
        (λ own. IsWithin (or_told (is_near_graphs id_order operation.now) notes.new.items) own)) }
{
    match operation {
        GraphOperation::Create(name) => created(alloc, *name, changes, source, notes),
        GraphOperation::Drop(target) => dropped(alloc, target, changes, source, notes),
        GraphOperation::Clear(target) => cleared(alloc, target, changes, source, notes),
        GraphOperation::Transfer { how, from, to } => {
            transferred(alloc, *how, *from, *to, changes, source, notes)
        }
    }
}

/// The change that goes on with an operation on graphs, or why the operation fails, from a change
/// to which the operations before it led. CREATE fails where the graph is there; DROP and CLEAR of
/// one graph, and COPY, MOVE and ADD from it, where it isn't. From a graph to itself nothing
/// happens.
pub fn graphs<S: Source>(
    alloc: Global,
    operation: &GraphOperation<Id>,
    changes: &Delta,
    source: &mut S,
    notes: &mut Vec<Note>,
) -> Result<Result<Delta, Cause>, Stop>
    ensures goes { Goes S.asks (is_near_graphs id_order operation.now) source.old source.new
        notes.old.items notes.new.items (stop_of result) }
    ensures effect { IfOk result (λ outcome. (d : View) → Agrees notes.new.items d
        → changed d outcome ≡ graphs_after id_order operation.now (applied changes.now d)) }
    ensures within { (allowed : Reading → Bool) →
        ((r : Reading) → or_told (is_near_graphs id_order operation.now) notes.new.items r ≡ true
        → allowed r ≡ true)
        → IsWithin allowed changes.now → IfOk result
        (λ outcome. IfOk outcome (λ change. IsWithin allowed change)) }
{
    match own_change(alloc, operation, changes, source, notes)? {
        Ok(own) => {
            let change = changes.followed_by(alloc, &own)?;
            Ok(Ok(change))
        }
        Err(cause) => Ok(Err(cause)),
    }
}
