//! Solution mappings: pairs that agree, differ or share no variable, and what each two are together.
use algebra::Place;
use datasets::Id;
use solution::Mapping;
use std::alloc::{AllocError, Global};

/// The terms that a mapping has for three variables.
type Terms = [Option<Id>; 3];

const A: Option<Id> = Some(Id::Known(0));

const B: Option<Id> = Some(Id::Known(7));

const MADE: Option<Id> = Some(Id::Made {
    request: 1,
    op: 2,
    label: 3,
    rank: 4,
});

const OTHER_MADE: Option<Id> = Some(Id::Made {
    request: 1,
    op: 2,
    label: 3,
    rank: 5,
});

const NONE: Terms = [None, None, None];

/// Two mappings, whether they agree where both are bound, and the terms of the two together, of
/// which those of the first come first.
struct Row {
    first: Terms,
    second: Terms,
    agree: bool,
    merged: Terms,
}

const ROWS: [Row; 10] = [
    Row {
        first: NONE,
        second: NONE,
        agree: true,
        merged: NONE,
    },
    Row {
        first: NONE,
        second: [A, None, B],
        agree: true,
        merged: [A, None, B],
    },
    // The two share nothing.
    Row {
        first: [A, None, None],
        second: [None, B, MADE],
        agree: true,
        merged: [A, B, MADE],
    },
    // They share a variable, and agree on it.
    Row {
        first: [A, B, None],
        second: [None, B, A],
        agree: true,
        merged: [A, B, A],
    },
    Row {
        first: [MADE, None, A],
        second: [MADE, B, None],
        agree: true,
        merged: [MADE, B, A],
    },
    Row {
        first: [A, B, MADE],
        second: [A, B, MADE],
        agree: true,
        merged: [A, B, MADE],
    },
    // They share a variable, and differ.
    Row {
        first: [A, B, None],
        second: [None, A, B],
        agree: false,
        merged: [A, B, B],
    },
    Row {
        first: [None, None, MADE],
        second: [A, None, OTHER_MADE],
        agree: false,
        merged: [A, None, MADE],
    },
    Row {
        first: [A, None, MADE],
        second: [None, B, A],
        agree: false,
        merged: [A, B, MADE],
    },
    // One variable that they agree on is not enough.
    Row {
        first: [A, A, None],
        second: [A, B, None],
        agree: false,
        merged: [A, A, None],
    },
];

/// A mapping with one variable more, if it is bound.
fn with(mapping: Option<Mapping>, variable: u32, term: Option<Id>) -> Option<Mapping> {
    match term {
        Some(term) => mapping?.fit(Place::Variable(variable), term),
        None => mapping,
    }
}

/// The mapping that has these terms.
fn mapping_of(alloc: Global, terms: &Terms) -> Result<Option<Mapping>, AllocError> {
    let empty = Some(Mapping::empty(alloc, 3)?);
    let [first, second, third] = *terms;
    Ok(with(with(with(empty, 0, first), 1, second), 2, third))
}

fn has(mapping: &Mapping, terms: &Terms) -> bool {
    [mapping.at(0), mapping.at(1), mapping.at(2)] == *terms
}

/// Whether two mappings agree or not, from either side, and are together what a row says.
fn are_as_told(first: &Mapping, second: &Mapping, row: &Row) -> Result<bool, AllocError> {
    let agree = first.is_compatible(second) == row.agree;
    let agree_back = second.is_compatible(first) == row.agree;
    let merged = first.merge(second)?;
    Ok(agree && agree_back && has(&merged, &row.merged))
}

/// The same of a row, whose mappings have its terms.
fn comes_out(alloc: Global, row: &Row) -> Result<bool, AllocError> {
    let first = mapping_of(alloc, &row.first)?;
    let second = mapping_of(alloc, &row.second)?;
    match (&first, &second) {
        (Some(first), Some(second)) => Ok(
            has(first, &row.first) && has(second, &row.second) && are_as_told(first, second, row)?,
        ),
        _ => Ok(false),
    }
}

#[test]
fn pairs_of_mappings(rt: HostRuntime) -> Result<(), AllocError> {
    for row in &ROWS {
        assert!(rt;
            comes_out(rt.alloc(), row)?,
            "{:?} {:?}",
            row.first,
            row.second
        );
    }
    Ok(())
}
