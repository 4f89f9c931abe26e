//! Triples of templates and patterns.
ghost use Rattle.std.specs.Prelude.{◌≡◌, ◌++◌, Option, IfOk, OnOk};
ghost use Rattle.algebra.specs.declared.template.Slot.{Slot};
ghost use Rattle.terms.specs.declared.term.Term.{Term};
ghost use Rattle.group_translation.specs.Triples.{of_property, of_subject, of_triples, slot_of, graph_of, pattern_of, patterns_of, quad_of, quads_of_block, template_of};

use crate::scope::Scope;
use algebra::{QuadTemplate, Slot, TriplePattern};
use sets::Items;
use std::alloc::{AllocError, Global};
use syntax_trees::{Block, Name, Node, Property, SameSubject};
use terms::Term;

// ---- patterns

fn pattern_of<'a>(
    alloc: Global,
    scope: &Scope<'_, 'a>,
    subject: &Node<'a>,
    verb: &Node<'a>,
    object: &Node<'a>,
) -> Result<TriplePattern<Term>, AllocError>
    ensures { IfOk result (λ pattern. pattern
        ≡ pattern_of scope.now.prefixes.now scope.now.variables.now subject.now verb.now
        object.now) }
{
    Ok(TriplePattern {
        subject: scope.place(alloc, subject)?,
        predicate: scope.place(alloc, verb)?,
        object: scope.place(alloc, object)?,
    })
}

fn add_property_patterns<'a>(
    alloc: Global,
    scope: &Scope<'_, 'a>,
    found: &mut Items<TriplePattern<Term>>,
    subject: &Node<'a>,
    property: &Property<'a>,
) -> Result<(), AllocError>
    ensures { OnOk result (found.new ≡ found.old
        ++ of_property (pattern_of scope.now.prefixes.now scope.now.variables.now) subject.now
        property.now) }
{
    for object in property.objects.as_slice() {
        found.push(pattern_of(alloc, scope, subject, &property.verb, object)?)?;
    }
    Ok(())
}

fn add_subject_patterns<'a>(
    alloc: Global,
    scope: &Scope<'_, 'a>,
    found: &mut Items<TriplePattern<Term>>,
    same: &SameSubject<'a>,
) -> Result<(), AllocError>
    ensures { OnOk result (found.new ≡ found.old
        ++ of_subject (pattern_of scope.now.prefixes.now scope.now.variables.now) same.now) }
{
    for property in same.properties.as_slice() {
        add_property_patterns(alloc, scope, found, &same.subject, property)?;
    }
    Ok(())
}

/// The triple patterns that stand in a group.
pub(crate) fn patterns_of<'a>(
    alloc: Global,
    scope: &Scope<'_, 'a>,
    triples: &[SameSubject<'a>],
) -> Result<Items<TriplePattern<Term>>, AllocError>
    ensures { IfOk result (λ found. found ≡ patterns_of scope.now.prefixes.now
        scope.now.variables.now triples.now) }
{
    let mut found = Items::new(alloc);
    for same in triples {
        add_subject_patterns(alloc, scope, &mut found, same)?;
    }
    Ok(found)
}

// ---- templates

/// What the quads of a block stand in: the scope of the operation, the graph of WITH and that of
/// the block.
#[derive(Clone, Copy)]
struct Within<'s, 'a> {
    scope: &'s Scope<'s, 'a>,
    with: &'s Option<Name<'a>>,
    graph: &'s Option<Node<'a>>,
}

/// What a subject and a verb stand for.
fn two_slots<'a>(
    alloc: Global,
    scope: &Scope<'_, 'a>,
    subject: &Node<'a>,
    verb: &Node<'a>,
) -> Result<(Slot<Term>, Slot<Term>), AllocError>
    ensures { IfOk result (λ x. x
        ≡ (
          slot_of scope.now.prefixes.now scope.now.variables.now scope.now.labels.now subject.now,
          slot_of scope.now.prefixes.now scope.now.variables.now scope.now.labels.now verb.now,
        )) }
{
    let subject = scope.slot(alloc, subject)?;
    let verb = scope.slot(alloc, verb)?;
    Ok((subject, verb))
}

/// What an object stands for, and the graph of its quad.
fn object_of<'a>(
    alloc: Global,
    within: &Within<'_, 'a>,
    object: &Node<'a>,
) -> Result<(Slot<Term>, Option<Slot<Term>>), AllocError>
    ensures { IfOk result (λ x. x ≡ (
      slot_of within.now.scope.now.prefixes.now
          within.now.scope.now.variables.now within.now.scope.now.labels.now object.now,
      graph_of within.now.scope.now.prefixes.now within.now.scope.now.variables.now
          within.now.scope.now.labels.now within.now.with.now within.now.graph.now,
    )) }
{
    let object = within.scope.slot(alloc, object)?;
    let graph = within.scope.graph(alloc, within.with, within.graph)?;
    Ok((object, graph))
}

/// A quad of its subject and verb, and of what was made of its object and graph.
fn quad_with(
    ends: (Slot<Term>, Slot<Term>),
    rest: Result<(Slot<Term>, Option<Slot<Term>>), AllocError>,
) -> Result<QuadTemplate<Term>, AllocError>
    ensures { (object : Slot Term) (graph : Option (Slot Term))
        → IfOk rest (λ x. x ≡ (object, graph))
        → IfOk result (λ quad. quad ≡ record {
          subject = ends.0;
          predicate = ends.1;
          object = object;
          graph = graph;
        }) }
{
    let (object, graph) = rest?;
    let (subject, predicate) = ends;
    Ok(QuadTemplate {
        subject,
        predicate,
        object,
        graph,
    })
}

fn quad_of<'a>(
    alloc: Global,
    within: &Within<'_, 'a>,
    subject: &Node<'a>,
    verb: &Node<'a>,
    object: &Node<'a>,
) -> Result<QuadTemplate<Term>, AllocError>
    ensures { IfOk result (λ quad. quad ≡ quad_of within.now.scope.now.prefixes.now
        within.now.scope.now.variables.now within.now.scope.now.labels.now
        (graph_of within.now.scope.now.prefixes.now within.now.scope.now.variables.now
        within.now.scope.now.labels.now within.now.with.now within.now.graph.now) subject.now
        verb.now object.now) }
{
    let ends = two_slots(alloc, within.scope, subject, verb)?;
    quad_with(ends, object_of(alloc, within, object))
}

fn add_property_quads<'a>(
    alloc: Global,
    within: &Within<'_, 'a>,
    found: &mut Items<QuadTemplate<Term>>,
    subject: &Node<'a>,
    property: &Property<'a>,
) -> Result<(), AllocError>
    ensures { OnOk result (found.new ≡ found.old
        ++ of_property (quad_of within.now.scope.now.prefixes.now within.now.scope.now.variables.now
        within.now.scope.now.labels.now (graph_of within.now.scope.now.prefixes.now
        within.now.scope.now.variables.now within.now.scope.now.labels.now within.now.with.now
        within.now.graph.now)) subject.now property.now) }
{
    for object in property.objects.as_slice() {
        found.push(quad_of(alloc, within, subject, &property.verb, object)?)?;
    }
    Ok(())
}

fn add_subject_quads<'a>(
    alloc: Global,
    within: &Within<'_, 'a>,
    found: &mut Items<QuadTemplate<Term>>,
    same: &SameSubject<'a>,
) -> Result<(), AllocError>
    ensures { OnOk result (found.new ≡ found.old
        ++ of_subject (quad_of within.now.scope.now.prefixes.now within.now.scope.now.variables.now
        within.now.scope.now.labels.now (graph_of within.now.scope.now.prefixes.now
        within.now.scope.now.variables.now within.now.scope.now.labels.now within.now.with.now
        within.now.graph.now)) same.now) }
{
    for property in same.properties.as_slice() {
        add_property_quads(alloc, within, found, &same.subject, property)?;
    }
    Ok(())
}

fn add_quads<'a>(
    alloc: Global,
    within: &Within<'_, 'a>,
    found: &mut Items<QuadTemplate<Term>>,
    triples: &[SameSubject<'a>],
) -> Result<(), AllocError>
    ensures { OnOk result (found.new ≡ found.old
        ++ of_triples (quad_of within.now.scope.now.prefixes.now within.now.scope.now.variables.now
        within.now.scope.now.labels.now (graph_of within.now.scope.now.prefixes.now
        within.now.scope.now.variables.now within.now.scope.now.labels.now within.now.with.now
        within.now.graph.now)) triples.now) }
{
    for same in triples {
        add_subject_quads(alloc, within, found, same)?;
    }
    Ok(())
}

fn add_block_quads<'a>(
    alloc: Global,
    scope: &Scope<'_, 'a>,
    with: &Option<Name<'a>>,
    found: &mut Items<QuadTemplate<Term>>,
    block: &Block<'a>,
) -> Result<(), AllocError>
    ensures { OnOk result (found.new ≡ found.old
        ++ quads_of_block scope.now.prefixes.now scope.now.variables.now scope.now.labels.now
        with.now block.now) }
{
    let within = Within {
        scope,
        with,
        graph: &block.graph,
    };
    add_quads(alloc, &within, found, block.triples.as_slice())
}

// How many quads blocks have where most subjects have one property, of one object.
fn likely_count(blocks: &[Block<'_>]) -> usize {
    blocks.iter().fold(
        0,
        |count: usize, block| count.saturating_add(block.triples.len()),
    )
}

/// The quads of a template (SPARQL 1.1 Update, 3.1.3), where WITH names a graph or nothing: a quad
/// stands in the graph of its GRAPH, else in that of WITH, else in the default graph. An error
/// comes only where a growth was refused.
pub fn template_of<'a>(
    alloc: Global,
    scope: &Scope<'_, 'a>,
    with: &Option<Name<'a>>,
    blocks: &[Block<'a>],
) -> Result<Items<QuadTemplate<Term>>, AllocError>
    ensures { IfOk result (λ found. found ≡ template_of scope.now.prefixes.now
        scope.now.variables.now scope.now.labels.now with.now blocks.now) }
{
    let mut found = Items::from_vec(Vec::with_capacity(alloc, likely_count(blocks))?);
    for block in blocks {
        add_block_quads(alloc, scope, with, &mut found, block)?;
    }
    Ok(found)
}
