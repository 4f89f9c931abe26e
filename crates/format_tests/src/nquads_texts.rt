//! N-Quads texts: what they spell, and what is written.
use crate::fixtures::{TWO_GRAPHS, fault_of, spells, two_graphs};
use canonical_nquads::{tag, write};
use devices::{ReadFault, Watched, front_of};
use nquads::{BaseFault, read, read_bytes};
use std::alloc::Global;
use std::test::Fail;
use terms::DataSet;

/// Texts, and the canonical text of what each spells.
pub const TEXTS: [(&str, &str); 22] = [
    ("", ""),
    ("\n\r\n\r\t # nothing", ""),
    ("<x:a><x:b><x:c>.", "<x:a> <x:b> <x:c> .\n"),
    (
        "\t<x:a> \t<x:b>\t<x:c> . # why\r<x:a> <x:b> <x:c> .\r\n",
        "<x:a> <x:b> <x:c> .\n",
    ),
    (
        "<x:b> <x:p> <x:c> .\n<x:a> <x:p> <x:c> .\n",
        "<x:a> <x:p> <x:c> .\n<x:b> <x:p> <x:c> .\n",
    ),
    (
        "<x:a> <x:p> <x:c> .\n<x:a!> <x:p> <x:c> .\n",
        "<x:a!> <x:p> <x:c> .\n<x:a> <x:p> <x:c> .\n",
    ),
    ("<x:é> <x:p> <x:日本> .", "<x:é> <x:p> <x:日本> .\n"),
    (
        "#@graphs are other comments\n<x:a> <x:b> <x:c> .#@graph ",
        "<x:a> <x:b> <x:c> .\n",
    ),
    (
        "<http://e/a><http://e/p>\"\\u0041\\\"é\"@EN-gb.",
        "<http://e/a> <http://e/p> \"A\\\"é\"@en-gb .\n",
    ),
    ("_:a<x:p>_:a.", "_:a <x:p> _:a .\n"),
    (
        "<x:a><x:b><x:c><x:g>.#@graph x",
        "<x:a> <x:b> <x:c> <x:g> .\n",
    ),
    (
        "<x:a> <x:b> \"x\"@EN .\n<x:a> <x:b> \"x\"@en .",
        "<x:a> <x:b> \"x\"@en .\n",
    ),
    ("#@graph <x:g>\t \n#@graph <x:g>", "#@graph <x:g>\n"),
    ("#@graph <\\u0078:g>", "#@graph <x:g>\n"),
    (
        "#@graph <x:g>\n<x:a> <x:b> <x:c> <x:g> .",
        "<x:a> <x:b> <x:c> <x:g> .\n",
    ),
    ("#@graph", ""),
    ("#@graphs <x:g>", ""),
    ("#@graph\t<x:g>", ""),
    (" #@graph x", ""),
    ("# \0\u{85}\u{2028}", ""),
    (
        "<x:a> <x:b> <x:c> <x:h> .\n<x:a> <x:b> <x:c> <x:g> .\n<x:a> <x:b> <x:c> .",
        "<x:a> <x:b> <x:c> .\n<x:a> <x:b> <x:c> <x:g> .\n<x:a> <x:b> <x:c> <x:h> .\n",
    ),
    (
        "<x:b> <x:p> <x:c> .\n#@graph <x:e>\n<x:a> <x:p> <x:c> <x:g> .",
        "#@graph <x:e>\n<x:a> <x:p> <x:c> <x:g> .\n<x:b> <x:p> <x:c> .\n",
    ),
];

#[test]
fn read_and_written(rt: HostRuntime) -> Result<(), BaseFault> {
    for (text, canonical) in &TEXTS {
        let canonical = canonical.as_bytes();
        assert!(rt; spells(rt.alloc(), text.as_bytes(), canonical)?, "{text:?}");
        assert!(rt; spells(rt.alloc(), canonical, canonical)?, "{text:?}");
    }
    Ok(())
}

/// Bases, and the tag that each has.
const TAGS: [(&str, u32); 8] = [
    ("", 1),
    ("_:a <x:p> _:a <x:g> .\n#@graph <x:e>", 1),
    ("_:m1r <x:p> <x:a> .\n_:m3r5 <x:p> <x:a> .", 2),
    ("_:m10r1 <x:p> <x:a> .\n_:m01r1 <x:p> <x:a> .", 1),
    ("<x:a> <x:p> _:m1r0o0l0s0 .", 2),
    ("_:m1 <x:p> _:m1s .\n_:M1r <x:p> <x:a> .", 1),
    ("<x:a> <x:p> \"_:m1r\" .", 1),
    ("_:m3r <x:p> _:m2r .\n_:m1r <x:p> _:m5r .", 4),
];

fn tag_of(alloc: Global, text: &str) -> Result<u32, BaseFault> {
    let dataset = read_bytes(alloc, text.as_bytes())?;
    let tag = tag(alloc, &dataset);
    drop(dataset);
    Ok(tag?)
}

#[test]
fn tags(rt: HostRuntime) -> Result<(), BaseFault> {
    for (text, wanted) in &TAGS {
        assert_eq!(rt; tag_of(rt.alloc(), text)?, *wanted, "{text:?}");
    }
    Ok(())
}

/// Texts, and the number of the first bad line of each.
pub const BAD: [(&[u8], usize); 24] = [
    (b"x", 1),
    (b"\n<x:a> <x:b> <x:c>", 2),
    (b"\r\n\r<x:a> <x:b> .\r\r", 3),
    (b"<x:a> <x:b> <x:c> .\n<x:a> <x:b> <x:c> . <x:d>\nx", 2),
    (b"<x:a> <x:b> <x:c> .\n<a> <x:b> <x:c> .", 2),
    (b"# \xff", 1),
    (b"<x:\xff> <x:b> <x:c> .", 1),
    (b"<x:a> <x:b> \"\xff\" .", 1),
    (b"<x:a> <x:b> \"a\rb\" .", 1),
    (b"\"a\" <x:b> <x:c> .", 1),
    (b"<x:a> _:b <x:c> .", 1),
    (b"<x:a> \"b\" <x:c> .", 1),
    (b"<x:a> <x:b> <x:c> _:g .", 1),
    (b"<x:a> <x:b> <x:c> \"g\" .", 1),
    (b"<x:a> <x:b> <x:c> <g> .", 1),
    (b"<x:a> <x:b> <x:c> <x:g> <x:h> .", 1),
    (b"#@graph x:g", 1),
    (b"#@graph  <x:g>", 1),
    (b"#@graph <x:g> # g", 1),
    (b"#@graph <x:g> .", 1),
    (b"#@graph <g>", 1),
    (b"#@graph <x:g", 1),
    (b"#@graph _:g", 1),
    (b"\n#@graph ", 2),
];

/// Whether the line of this number is the first bad one. An `Err` where memory ran out.
pub fn is_bad_at(outcome: Result<DataSet, BaseFault>, number: usize) -> Result<bool, BaseFault> {
    Ok(matches!(fault_of(outcome)?, Some(BaseFault::BadLine(at)) if at == number))
}

/// Whether the line of this number is the first bad one of a text that a reader gives at once.
fn is_read_bad(alloc: Global, text: &[u8], number: usize) -> Result<bool, BaseFault> {
    let mut reader = Watched::new(text);
    let outcome = read(alloc, &mut reader);
    Ok(is_bad_at(outcome, number)? && reader.failures == 0)
}

#[test]
fn bad_lines(rt: HostRuntime) -> Result<(), BaseFault> {
    for (text, number) in &BAD {
        let outcome = read_bytes(rt.alloc(), text);
        assert!(rt; is_bad_at(outcome, *number)?, "{text:?}");
        assert!(rt; is_read_bad(rt.alloc(), text, *number)?, "{text:?}");
    }
    Ok(())
}

#[test]
fn graphs_written(rt: HostRuntime) -> Result<(), Fail> {
    let dataset = two_graphs(rt.alloc())?;
    let mut writer = Watched::new(Vec::new(rt.alloc()));
    write(rt.alloc(), &mut writer, &dataset, 1)?;
    assert!(rt; writer.failures == 0 && writer.inner.as_slice() == TWO_GRAPHS.as_bytes());
    Ok(())
}

/// Whether the front of ten bytes is the whole, or a beginning past this limit.
fn is_front(alloc: Global, limit: u8) -> Result<bool, ReadFault> {
    let text = b"0123456789".as_slice();
    let front = front_of(alloc, &mut Watched::new(text), limit as usize)?;
    Ok(text.starts_with(&front) && (front.len() == text.len() || front.len() > limit as usize))
}

#[test]
fn fronts(rt: HostRuntime) -> Result<(), ReadFault> {
    for limit in [0, 1, 9, 10, 11, 255] {
        assert!(rt; is_front(rt.alloc(), limit)?, "{limit}");
    }
    Ok(())
}

#[test]
fn messages(rt: HostRuntime) -> Result<(), Fail> {
    let faults = [
        (BaseFault::OutOfMemory, "out of memory"),
        (BaseFault::BadLine(3), "bad line 3"),
        (BaseFault::TooLong, "too long"),
        (BaseFault::Device, "cannot read"),
    ];
    for (fault, message) in &faults {
        let text = fault.to_string(rt.alloc())?;
        assert!(rt; text.as_str() == *message, "{message}");
    }
    let faults = [
        (ReadFault::OutOfMemory, "out of memory"),
        (ReadFault::Device, "cannot read"),
    ];
    for (fault, message) in &faults {
        let text = fault.to_string(rt.alloc())?;
        assert!(rt; text.as_str() == *message, "{message}");
    }
    Ok(())
}
