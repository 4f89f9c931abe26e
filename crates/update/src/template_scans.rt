//! One scan of a template, in place of a question for each of very many instances.
ghost use Rattle.std.specs.Prelude.{◌≡◌, Bool, true, false, OnOk};
ghost use Rattle.reads.specs.Reads.{Read as Reading};
ghost use Rattle.asking.specs.Goes.{Goes, stop_of};
ghost use Rattle.update.specs.TemplateScans.{written as the_written, written_graph as the_written_graph, template_scan as the_template_scan, AskedTemplates};
ghost use Rattle.update.specs.Once.{is_noted as the_is_noted, AddsNew};

use algebra::{QuadTemplate, Slot};
use asking::ask;
use datasets::{GraphPlace, Id, QuadPattern, Read};
use reads::same::same_reads;
use reads::{Note, Source, Stop};
use std::alloc::Global;

// The term that is written, and nothing for a variable or a label.
fn written(slot: Slot<Id>) -> Option<Id>
    ensures { result ≡ the_written slot }
{
    match slot {
        Slot::Term(term) => Some(term),
        Slot::Variable(_) => None,
        Slot::Label(_) => None,
    }
}

// The graph that is written, and any graph for a variable or a label. With none it is the default
// graph.
fn written_graph(graph: Option<Slot<Id>>) -> GraphPlace<Id>
    ensures { result ≡ the_written_graph graph }
{
    match graph {
        None => GraphPlace::Only(None),
        Some(slot) => match written(slot) {
            Some(name) => GraphPlace::Only(Some(name)),
            None => GraphPlace::Any,
        },
    }
}

// The scan for each quad that has the written terms of a template.
fn template_scan(template: &QuadTemplate<Id>) -> Read<Id>
    ensures { result ≡ the_template_scan template.now }
{
    Read::Scan(QuadPattern {
        subject: written(template.subject),
        predicate: written(template.predicate),
        object: written(template.object),
        graph: written_graph(template.graph),
    })
}

// Whether a template has a written predicate or graph name. The scan of another may tell of nearly
// all quads.
fn is_narrow(template: &QuadTemplate<Id>) -> bool {
    matches!(template.predicate, Slot::Term(_)) || matches!(template.graph, Some(Slot::Term(_)))
}

// Whether a read was asked for.
fn is_noted(notes: &[Note], read: &Read<Id>) -> bool
    ensures { result ≡ the_is_noted notes.now read.now }
{
    notes.iter().any(|note| same_reads(&note.read, read))
}

// Asks for the scan of a narrow template, unless it was asked for.
#[tactic(auto, using(crate::proofs::NewNotes::adds_nothing))]
fn ask_template<S: Source>(
    alloc: Global,
    template: &QuadTemplate<Id>,
    source: &mut S,
    notes: &mut Vec<Note>,
) -> Result<(), Stop>
    ensures goes { (allowed : Reading → Bool) → allowed (the_template_scan template.now) ≡ true
        → Goes S.asks allowed source.old source.new notes.old.items notes.new.items
        (stop_of result) }
    ensures new { OnOk result (AddsNew notes.old.items notes.new.items) }
{
    let read = template_scan(template);
    if !is_narrow(template) {
        return Ok(());
    }
    if is_noted(notes.as_slice(), &read) {
        return Ok(());
    }
    let _answer = ask(alloc, read, source, notes)?;
    Ok(())
}

/// Asks for the scans of templates, where they have many instances, and for none that was asked for
/// before.
#[tactic(auto, using(crate::proofs::NewNotes::adds_nothing))]
pub fn ask_templates<S: Source>(
    alloc: Global,
    are_many: bool,
    templates: &[QuadTemplate<Id>],
    source: &mut S,
    notes: &mut Vec<Note>,
) -> Result<(), Stop>
    ensures goes { (allowed : Reading → Bool) → AskedTemplates allowed templates.now
        → Goes S.asks allowed source.old source.new notes.old.items notes.new.items
        (stop_of result) }
    ensures new { OnOk result (AddsNew notes.old.items notes.new.items) }
    ensures none { are_many ≡ false → notes.new.items ≡ notes.old.items }
{
    if !are_many {
        return Ok(());
    }
    for template in templates {
        ask_template(alloc, template, source, notes)?;
    }
    Ok(())
}
