//! Bases that come in pieces.
ghost use Rattle.std.specs.Prelude.{◌<◌};

use crate::nquads_texts::{BAD, TEXTS, is_bad_at};
use canonical_nquads::canonical_text;
use nquads::{BaseFault, Feed};
use std::alloc::Global;
use terms::DataSet;

/// What a feed answers that gets a text in pieces of so many bytes.
fn fed(alloc: Global, text: &[u8], size: usize) -> Result<DataSet, BaseFault>
    requires { 0 < size }
{
    let mut feed = Feed::new(alloc);
    for piece in text.chunks(size) {
        // A fault is told again at the end.
        if let Err(BaseFault::OutOfMemory) = feed.feed(piece) {
            drop(feed);
            return Err(BaseFault::OutOfMemory);
        }
    }
    feed.finish()
}

/// Whether the canonical text of what a text spells is this one, if it comes in pieces of so many
/// bytes.
fn spells_in_pieces(
    alloc: Global,
    text: &str,
    size: usize,
    canonical: &str,
) -> Result<bool, BaseFault>
    requires { 0 < size }
{
    let dataset = fed(alloc, text.as_bytes(), size)?;
    let found = canonical_text(alloc, &dataset, 1);
    drop(dataset);
    Ok(found?.as_slice() == canonical.as_bytes())
}

#[test]
fn texts_in_pieces(rt: HostRuntime) -> Result<(), BaseFault> {
    for (text, canonical) in &TEXTS {
        assert!(rt;
            spells_in_pieces(rt.alloc(), text, 1, canonical)?,
            "{text:?}"
        );
        assert!(rt;
            spells_in_pieces(rt.alloc(), text, 3, canonical)?,
            "{text:?}"
        );
        assert!(rt;
            spells_in_pieces(rt.alloc(), text, 1000, canonical)?,
            "{text:?}"
        );
    }
    Ok(())
}

#[test]
fn bad_lines_in_pieces(rt: HostRuntime) -> Result<(), BaseFault> {
    for (text, number) in &BAD {
        assert!(rt; is_bad_at(fed(rt.alloc(), text, 1), *number)?, "{text:?}");
        assert!(rt; is_bad_at(fed(rt.alloc(), text, 3), *number)?, "{text:?}");
        assert!(rt;
            is_bad_at(fed(rt.alloc(), text, 1000), *number)?,
            "{text:?}"
        );
    }
    Ok(())
}

/// Whether this line is told as the first bad one. An `Err` where memory ran out.
fn is_bad(outcome: Result<(), BaseFault>, number: usize) -> Result<bool, BaseFault> {
    match outcome {
        Err(BaseFault::OutOfMemory) => Err(BaseFault::OutOfMemory),
        Err(BaseFault::BadLine(at)) => Ok(at == number),
        Ok(()) | Err(BaseFault::TooLong | BaseFault::Device) => Ok(false),
    }
}

/// The same of a text that is too long.
fn is_too_long(outcome: Result<(), BaseFault>) -> Result<bool, BaseFault> {
    match outcome {
        Err(BaseFault::OutOfMemory) => Err(BaseFault::OutOfMemory),
        Err(BaseFault::TooLong) => Ok(true),
        Ok(()) | Err(BaseFault::BadLine(_) | BaseFault::Device) => Ok(false),
    }
}

/// A feed of at most so many bytes that took pieces, between which a bar stands.
fn fed_pieces(alloc: Global, limit: u32, pieces: &str) -> Result<Feed, BaseFault> {
    let mut feed = Feed::with_limit(alloc, limit);
    for piece in pieces.split('|') {
        if let Err(fault) = feed.feed(piece.as_bytes()) {
            drop(feed);
            return Err(fault);
        }
    }
    Ok(feed)
}

/// Most bytes, pieces that are taken, the piece with which a bad line is told, and its number.
const TOLD: [(u32, &str, &str, usize); 13] = [
    (9, "", "x\n", 1),
    (9, "x", "\n", 1),
    (9, "x|", "\n", 1),
    (9, "x\r", "\n", 1),
    (9, "x\r|", "y", 1),
    (9, "x", "\ry", 1),
    (9, "\r|\n|x", "\r\r", 2),
    (9, "\r\r|\r|x\r", "\r", 4),
    (9, "\n|\r\n|\r", "x\n", 4),
    (9, "\n|#\r\n#", "\nx\n", 4),
    (2, "x\r", "y", 1),
    (2, "x", "\n\n\n", 1),
    (3, "\n", "x\n\n", 2),
];

#[test]
fn bad_lines_told(rt: HostRuntime) -> Result<(), BaseFault> {
    for (limit, pieces, last, number) in &TOLD {
        let mut feed = fed_pieces(rt.alloc(), *limit, pieces)?;
        assert!(rt;
            is_bad(feed.feed(last.as_bytes()), *number)?,
            "{pieces:?} {last:?}"
        );
        assert!(rt;
            is_bad(feed.feed(b"\n\n\n\n\n\n\n\n\n\n"), *number)?,
            "{pieces:?} {last:?}"
        );
        assert!(rt; is_bad(feed.feed(b""), *number)?, "{pieces:?} {last:?}");
        assert!(rt; is_bad_at(feed.finish(), *number)?, "{pieces:?} {last:?}");
    }
    Ok(())
}

/// Most bytes, pieces that are taken, and the piece with which there are too many.
const TOO_LONG: [(u32, &str, &str); 7] = [
    (0, "", "\n"),
    (3, "\n|\n\n", "\n"),
    (3, "xyz", "x"),
    (2, "xy", "\n"),
    (2, "x\r", "\n"),
    (2, "\n|x", "\n"),
    (3, "\r\r", "x\n"),
];

#[test]
fn too_long_told(rt: HostRuntime) -> Result<(), BaseFault> {
    for (limit, pieces, last) in &TOO_LONG {
        let mut feed = fed_pieces(rt.alloc(), *limit, pieces)?;
        assert!(rt;
            is_too_long(feed.feed(last.as_bytes()))?,
            "{pieces:?} {last:?}"
        );
        assert!(rt; is_too_long(feed.feed(b"x\n"))?, "{pieces:?} {last:?}");
        assert!(rt; is_too_long(feed.feed(b""))?, "{pieces:?} {last:?}");
        let outcome = match feed.finish() {
            Ok(dataset) => {
                drop(dataset);
                Ok(())
            }
            Err(fault) => Err(fault),
        };
        assert!(rt; is_too_long(outcome)?, "{pieces:?} {last:?}");
    }
    Ok(())
}

#[test]
fn as_long_as_may_be(rt: HostRuntime) -> Result<(), BaseFault> {
    for (limit, pieces) in [(0, ""), (1, "\r"), (4, "\n|\n\r|\n"), (6, "#a\r|\n#a")] {
        let dataset = fed_pieces(rt.alloc(), limit, pieces)?.finish()?;
        let text = canonical_text(rt.alloc(), &dataset, 1)?;
        assert!(rt; text.is_empty(), "{pieces:?}");
    }
    Ok(())
}
