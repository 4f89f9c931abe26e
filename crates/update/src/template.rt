//! Instances of templates under solutions (SPARQL 1.1 Update, 3.1.3).
ghost use Rattle.std.specs.Prelude.{◌≡◌, ◌++◌, ◌≤◌, length, IfOk, OnOk, filter_map};
ghost use Rattle.datasets.specs.declared.id.Id.TheVariants as id;
ghost use Rattle.dict.specs.Dictionary.{numbers};
ghost use Rattle.meaning.specs.Template.{term_at as the_term_at, graph_at as the_graph_at, is_legal as the_is_legal, legal_quad as the_legal_quad, instance_of as the_instance_of, instances as the_instances};

use algebra::{QuadTemplate, Slot};
use datasets::Quad;
use dict::{Dict, Id};
use solution::Mapping;
use std::alloc::{AllocError, Global};

/// For how many instances there is room at first, at most: of most solutions each template has one.
const MOST_ROOM: usize = 1024;

/// What numbers the nodes that labels make: the request, its operation, both counted from 0, and
/// the rank of the solution.
#[derive(Clone, Copy)]
struct Origin {
    request: u32,
    op: u32,
    rank: u32,
}

// The term in a place of a template, if it is bound.
fn term_at(_dict: &Dict, origin: Origin, mapping: &Mapping, slot: Slot<Id>) -> Option<Id>
    ensures { result ≡ the_term_at (numbers _dict.now)
        (λ l. id.Made origin.request origin.op l origin.rank) mapping.now slot }
{
    match slot {
        Slot::Term(term) => Some(term),
        Slot::Variable(variable) => mapping.at(variable),
        Slot::Label(label) => Some(Id::Made {
            request: origin.request,
            op: origin.op,
            label,
            rank: origin.rank,
        }),
    }
}

// The graph of a template's quad, if it is bound.
fn graph_at(
    dict: &Dict,
    origin: Origin,
    mapping: &Mapping,
    graph: Option<Slot<Id>>,
) -> Option<Option<Id>>
    ensures { result ≡ the_graph_at (numbers dict.now)
        (λ l. id.Made origin.request origin.op l origin.rank) mapping.now graph }
{
    match graph {
        None => Some(None),
        Some(slot) => match term_at(dict, origin, mapping, slot) {
            None => None,
            Some(name) => Some(Some(name)),
        },
    }
}

// Whether a quad may have this subject, predicate and graph name (RDF 1.1 Concepts, 3.1).
fn is_legal(dict: &Dict, subject: Id, predicate: Id, graph: Option<Id>) -> bool
    ensures { result ≡ the_is_legal (numbers dict.now) subject predicate graph }
{
    let places = !dict.is_literal(subject) && dict.is_iri(predicate);
    match graph {
        None => places,
        Some(name) => places && dict.is_iri(name),
    }
}

// The quad of these terms, if each is bound and it is legal.
fn legal_quad(
    dict: &Dict,
    subject: Option<Id>,
    predicate: Option<Id>,
    object: Option<Id>,
    graph: Option<Option<Id>>,
) -> Option<Quad<Id>>
    ensures { result ≡ the_legal_quad (numbers dict.now) subject predicate object graph }
{
    match (subject, predicate, object, graph) {
        (Some(subject), Some(predicate), Some(object), Some(graph)) => {
            if is_legal(dict, subject, predicate, graph) {
                Some(Quad {
                    subject,
                    predicate,
                    object,
                    graph,
                })
            } else {
                None
            }
        }
        _ => None,
    }
}

// The quad of a template's quad under a solution, if it is fully bound and legal.
fn instance_of(
    dict: &Dict,
    origin: Origin,
    mapping: &Mapping,
    template: &QuadTemplate<Id>,
) -> Option<Quad<Id>>
    ensures { result ≡ the_instance_of (numbers dict.now)
        (λ l. id.Made origin.request origin.op l origin.rank) mapping.now template.now }
{
    legal_quad(
        dict,
        term_at(dict, origin, mapping, template.subject),
        term_at(dict, origin, mapping, template.predicate),
        term_at(dict, origin, mapping, template.object),
        graph_at(dict, origin, mapping, template.graph),
    )
}

// Puts the instances of a template under one solution at the end of a list.
fn push_instances(
    quads: &mut Vec<Quad<Id>>,
    dict: &Dict,
    origin: Origin,
    mapping: &Mapping,
    templates: &[QuadTemplate<Id>],
) -> Result<(), AllocError>
    ensures { OnOk result (quads.new.items ≡ quads.old.items
        ++ filter_map (the_instance_of (numbers dict.now)
        (λ l. id.Made origin.request origin.op l origin.rank) mapping.now) templates.now) }
{
    for template in templates {
        if let Some(quad) = instance_of(dict, origin, mapping, template) {
            quads.push(quad)?;
        }
    }
    Ok(())
}

/// The instances of a template over the solutions of an operation, with doubles. The rank of a
/// solution is its place.
pub fn instances(
    alloc: Global,
    dict: &Dict,
    request: u32,
    op: u32,
    templates: &[QuadTemplate<Id>],
    found: &[Mapping],
) -> Result<Vec<Quad<Id>>, AllocError>
    requires { length found.now ≤ 1000000 }
    ensures { IfOk result (λ quads. quads.items
        ≡ the_instances (numbers dict.now) request op templates.now found.now) }
{
    let likely = found.len().saturating_mul(templates.len());
    let mut quads = Vec::with_capacity(alloc, likely.min(MOST_ROOM))?;
    let mut rank: u32 = 0;
    for mapping in found {
        let origin = Origin { request, op, rank };
        push_instances(&mut quads, dict, origin, mapping, templates)?;
        rank += 1;
    }
    Ok(quads)
}
