//! Notes whose answers are forgotten, and are what they were.

use datasets::{GraphPlace, Id, Quad, QuadPattern, Read};
use delta::Delta;
use quad_lists::QuadList;
use reads::same::same_reads;
use reads::{Answered, IndexedView, View};
use std::alloc::{AllocError, Global};
use std::test::Fail;
use version_overlay::LeanNote;
use version_overlay::along::answer_after;

fn quad_of(object: u32) -> Quad<Id> {
    Quad {
        subject: Id::Known(0),
        predicate: Id::Known(0),
        object: Id::Known(object),
        graph: None,
    }
}

fn quads_of(alloc: Global, objects: &[u32]) -> Result<Vec<Quad<Id>>, AllocError> {
    let mut quads = Vec::new(alloc);
    for object in objects {
        quads.push(quad_of(*object))?;
    }
    Ok(quads)
}

fn named(alloc: Global, number: u32) -> Result<Vec<Id>, AllocError> {
    let mut names = Vec::new(alloc);
    names.push(Id::Known(number))?;
    Ok(names)
}

// The quads of objects 1 and 2, and the name 5.
fn base_of(alloc: Global) -> Result<IndexedView, AllocError> {
    let quads = QuadList::of_wide(quads_of(alloc, &[1, 2])?);
    let names = named(alloc, 5)?;
    IndexedView::new(alloc, View::from_parts(quads, names), &[])
}

// The quad of 1 goes and that of 3 comes, as the names 5 and 7 do.
fn changes_of(alloc: Global) -> Result<Vec<Delta>, AllocError> {
    let present = quads_of(alloc, &[3])?;
    let absent = quads_of(alloc, &[1])?;
    let there = named(alloc, 7)?;
    let gone = named(alloc, 5)?;
    let change = Delta::from_parts(alloc, present, absent, there, gone)?;
    let mut changes = Vec::new(alloc);
    changes.push(change)?;
    Ok(changes)
}

fn number_of(id: &Id) -> u32 {
    match id {
        Id::Known(number) => *number,
        Id::Made { .. } => 0,
    }
}

fn objects_of(alloc: Global, quads: &[Quad<Id>]) -> Result<Vec<u32>, AllocError> {
    let mut objects = Vec::new(alloc);
    for quad in quads {
        objects.push(number_of(&quad.object))?;
    }
    Ok(objects)
}

fn numbers_of(alloc: Global, names: &[Id]) -> Result<Vec<u32>, AllocError> {
    let mut numbers = Vec::new(alloc);
    for name in names {
        numbers.push(number_of(name))?;
    }
    Ok(numbers)
}

// The objects of the quads that are answered, or the names, or none.
fn told_by(alloc: Global, answer: &Answered) -> Result<Vec<u32>, AllocError> {
    if let Some(list) = answer.quads() {
        let quads = list.quads(alloc)?;
        return objects_of(alloc, quads.as_slice());
    }
    match answer.names() {
        Some(names) => numbers_of(alloc, names),
        None => Ok(Vec::new(alloc)),
    }
}

/// A read, and what it says of the base after the changes: which quads by their objects or which
/// names, or whether the name is there.
struct Row {
    read: Read<Id>,
    told: &'static [u32],
    is: Option<bool>,
}

const ROWS: [Row; 5] = [
    Row {
        read: Read::Scan(QuadPattern {
            subject: None,
            predicate: None,
            object: None,
            graph: GraphPlace::Any,
        }),
        told: &[2, 3],
        is: None,
    },
    // Of one quad, which a note keeps in little memory.
    Row {
        read: Read::Scan(QuadPattern {
            subject: Some(Id::Known(0)),
            predicate: Some(Id::Known(0)),
            object: Some(Id::Known(3)),
            graph: GraphPlace::Only(None),
        }),
        told: &[3],
        is: None,
    },
    Row {
        read: Read::Graphs,
        told: &[7],
        is: None,
    },
    Row {
        read: Read::GraphIs(Id::Known(7)),
        told: &[],
        is: Some(true),
    },
    Row {
        read: Read::GraphIs(Id::Known(5)),
        told: &[],
        is: Some(false),
    },
];

// Whether a note is that read with that answer, and not the answer of the base.
fn is_noted(
    alloc: Global,
    base: &IndexedView,
    note: &LeanNote<'_>,
    row: &Row,
) -> Result<bool, AllocError> {
    let before = base.answer(alloc, &row.read)?;
    let is_before = note.is_answer(alloc, &before);
    drop(before);
    let answer = note.answer(alloc)?;
    let told = told_by(alloc, &answer)?;
    Ok(
        !is_before?
            && same_reads(&note.read(), &row.read)
            && answer.is() == row.is
            && told.as_slice() == row.told,
    )
}

// The note of a read whose answer can be found again.
fn lean_note<'a>(
    alloc: Global,
    base: &'a IndexedView,
    read: &Read<Id>,
) -> Result<LeanNote<'a>, AllocError> {
    let changes = changes_of(alloc)?;
    let answer = answer_after(alloc, base, changes.as_slice(), read)?;
    LeanNote::lean(alloc, base, read, answer, changes)
}

// The note of a read whose answer can't be found again, as the changes are not there.
fn kept_note<'a>(
    alloc: Global,
    base: &'a IndexedView,
    read: &Read<Id>,
) -> Result<LeanNote<'a>, AllocError> {
    let changes = changes_of(alloc)?;
    let answer = answer_after(alloc, base, changes.as_slice(), read)?;
    drop(changes);
    LeanNote::kept(alloc, base, read, answer)
}

// Whether a note is the same before its answer is forgotten and after.
fn stays(
    alloc: Global,
    base: &IndexedView,
    mut note: LeanNote<'_>,
    row: &Row,
) -> Result<bool, AllocError> {
    if !is_noted(alloc, base, &note, row)? {
        return Ok(false);
    }
    note.forget();
    is_noted(alloc, base, &note, row)
}

// Whether the notes of the read stay.
fn both_stay(alloc: Global, base: &IndexedView, row: &Row) -> Result<bool, AllocError> {
    let lean = lean_note(alloc, base, &row.read)?;
    if !stays(alloc, base, lean, row)? {
        return Ok(false);
    }
    let kept = kept_note(alloc, base, &row.read)?;
    stays(alloc, base, kept, row)
}

#[test]
fn answers_are_forgotten(rt: HostRuntime) -> Result<(), Fail> {
    let base = base_of(rt.alloc())?;
    for row in &ROWS {
        assert!(rt; both_stay(rt.alloc(), &base, row)?, "{:?}", row.told);
    }
    Ok(())
}
