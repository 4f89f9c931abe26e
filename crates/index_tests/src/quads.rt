//! Quads and patterns, and which of them match by a plain look at each place.
use datasets::{GraphPlace, Id, Quad, QuadPattern};

fn graph_of(i: usize) -> Option<Id> {
    if i % 3 == 0 {
        None
    } else {
        Some(Id::Known((i % 3) as u32))
    }
}

pub fn quad_of(i: usize) -> Quad<Id> {
    Quad {
        subject: Id::Known((i % 25) as u32),
        predicate: Id::Known((i % 4) as u32),
        object: Id::Known((i / 25 % 4096) as u32),
        graph: graph_of(i),
    }
}

fn bound_if(so: bool, term: Id) -> Option<Id> {
    if so { Some(term) } else { None }
}

// A quad's pattern, in which the places of these bits are bound.
pub fn pattern_of(places: u32, quad: &Quad<Id>) -> QuadPattern<Id> {
    QuadPattern {
        subject: bound_if(places & 1 != 0, quad.subject),
        predicate: bound_if(places & 2 != 0, quad.predicate),
        object: bound_if(places & 4 != 0, quad.object),
        graph: if places & 8 != 0 {
            GraphPlace::Only(quad.graph)
        } else {
            GraphPlace::Any
        },
    }
}

fn is_or_free(place: Option<Id>, term: Id) -> bool {
    match place {
        Some(bound) => bound == term,
        None => true,
    }
}

pub fn fits(pattern: &QuadPattern<Id>, quad: &Quad<Id>) -> bool {
    let graph = match pattern.graph {
        GraphPlace::Only(graph) => graph == quad.graph,
        GraphPlace::Any => true,
    };
    graph
        && is_or_free(pattern.subject, quad.subject)
        && is_or_free(pattern.predicate, quad.predicate)
        && is_or_free(pattern.object, quad.object)
}
