//! The question whether one quad is there, and its answers.
use datasets::{GraphPlace, Id, Quad, QuadPattern, Read};
use reads::presence::{is_present, presence_answer, quad_scanned, scan_for};
use std::alloc::{AllocError, Global};
use std::test::Fail;

fn quad_of(object: u32, graph: Option<Id>) -> Quad<Id> {
    Quad {
        subject: Id::Known(1),
        predicate: Id::Known(2),
        object: Id::Known(object),
        graph,
    }
}

// Whether the scan for a quad is found to be one, and its answer tells whether the quad is there.
fn is_told(alloc: Global, quad: Quad<Id>, there: bool) -> Result<bool, AllocError> {
    let Some(known) = quad_scanned(&scan_for(quad)) else {
        return Ok(false);
    };
    let answer = presence_answer(alloc, &known, there)?;
    let Some(quads) = answer.quads() else {
        return Ok(false);
    };
    let has_quad = match quads.quads(alloc)?.as_slice() {
        [found] => there && *found == quad,
        [] => !there,
        _ => false,
    };
    let told = matches!(is_present(&known, &answer), Some(so) if so == there);
    Ok(has_quad && told)
}

// Whether the answer about a quad tells nothing of another.
fn tells_of_no_other(alloc: Global, quad: Quad<Id>, other: Quad<Id>) -> Result<bool, AllocError> {
    let (Some(known), Some(stranger)) = (
        quad_scanned(&scan_for(quad)),
        quad_scanned(&scan_for(other)),
    ) else {
        return Ok(false);
    };
    let answer = presence_answer(alloc, &known, true)?;
    Ok(is_present(&stranger, &answer).is_none())
}

// The scan for a quad's triple in any graph.
fn in_any_graph(quad: &Quad<Id>) -> Read<Id> {
    Read::Scan(QuadPattern {
        subject: Some(quad.subject),
        predicate: Some(quad.predicate),
        object: Some(quad.object),
        graph: GraphPlace::Any,
    })
}

#[test]
fn one_quad_is_there_or_not(rt: HostRuntime) -> Result<(), Fail> {
    let alloc = rt.alloc();
    let (plain, named) = (quad_of(3, None), quad_of(3, Some(Id::Known(4))));
    assert!(rt; is_told(alloc, plain, true)? && is_told(alloc, plain, false)?);
    assert!(rt; is_told(alloc, named, true)? && is_told(alloc, named, false)?);
    assert!(rt; tells_of_no_other(alloc, plain, named)?);
    assert!(rt; quad_scanned(&in_any_graph(&plain)).is_none());
    assert!(rt; quad_scanned(&Read::Graphs).is_none());
    Ok(())
}
