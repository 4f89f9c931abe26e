//! Triple patterns against triples.
ghost use Rattle.std.specs.Prelude.{◌≡◌, ◌++◌, ◌∷◌, [], IfOk, OnOk, filter_map};
ghost use Rattle.datasets.specs.Id.{id_order};
ghost use Rattle.meaning.specs.Solutions.{mapping_onto as the_mapping_onto, solutions_among as the_solutions_among};

use crate::mapping::Mapping;
use algebra::TriplePattern;
use datasets::{Id, Quad};
use quad_sets::QuadSlice;
use sets::set_of;
use std::alloc::{AllocError, Global};

// The mapping under which a triple pattern is this triple, if there is one.
fn mapping_onto(
    alloc: Global,
    width: u32,
    pattern: &TriplePattern<Id>,
    quad: &Quad<Id>,
) -> Result<Option<Mapping>, AllocError>
    ensures { IfOk result (λ mapping. mapping
        ≡ the_mapping_onto id_order width pattern.now quad.now) }
{
    let empty = Mapping::empty(alloc, width)?;
    Ok(
        empty
            .fit(pattern.subject, quad.subject)
            .and_then(|mapping| mapping.fit(pattern.predicate, quad.predicate))
            .and_then(|mapping| mapping.fit(pattern.object, quad.object)),
    )
}

// One more at the end: the mapping under which a triple pattern is this triple, if there is one.
fn push_mapping(
    alloc: Global,
    width: u32,
    pattern: &TriplePattern<Id>,
    quad: &Quad<Id>,
    found: &mut Vec<Mapping>,
) -> Result<(), AllocError>
    ensures { OnOk result (found.new.items ≡ found.old.items
        ++ filter_map (the_mapping_onto id_order width pattern.now) (quad.now ∷ [])) }
{
    match mapping_onto(alloc, width, pattern, quad)? {
        Some(mapping) => {
            found.push(mapping)?;
            Ok(())
        }
        None => Ok(()),
    }
}

/// The solutions of a triple pattern among these triples, whatever their graphs: each once, in the
/// order of mappings. The pattern's variables are numbered below the width.
pub fn solutions_among(
    alloc: Global,
    width: u32,
    pattern: &TriplePattern<Id>,
    quads: &QuadSlice<'_>,
) -> Result<Vec<Mapping>, AllocError>
    ensures { IfOk result (λ found. found.items
        ≡ the_solutions_among id_order width pattern.now quads.now) }
{
    let mut found = Vec::new(alloc);
    for place in 0..quads.len() {
        push_mapping(alloc, width, pattern, &quads.get(place), &mut found)?;
    }
    Ok(set_of(found))
}
