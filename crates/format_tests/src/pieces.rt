//! Texts that are read in portions, and in pieces by several threads.
ghost use Rattle.std.specs.Prelude.{◌≡◌};

use crate::fixtures::fault_of;
use crate::journals::JOURNALS;
use crate::nquads_texts::{BAD, TEXTS, is_bad_at};
use crate::slow_devices::Slow;
use canonical_nquads::{canonical_pieces, canonical_pieces_by, canonical_text};
use devices::{Watched, all_of};
use journal::{read_journal, write_lines};
use nquads::{BaseFault, read_by, read_bytes};
use std::alloc::{AllocError, Global};
use std::io;
use std::io::Read;
use std::process::Abort;
use std::test::Fail;
use std::thread::Threads;
use terms::DataSet;

/// So many threads, and portions of more than so many bytes.
const WAYS: [(usize, u32); 9] = [
    (0, 1000),
    (1, 1000),
    (1, 5),
    (2, 1000),
    (2, 0),
    (3, 1000),
    (8, 1000),
    (8, 20),
    (2, 368),
];

/// A reader that gives one byte of a text at a time.
fn slow(text: &[u8]) -> Watched<Slow<'_>>
    ensures { result.failures ≡ 0 }
{
    Watched::new(Slow {
        rest: text,
        good_reads: 1_000_000,
    })
}

/// Sixteen quads of two terms, each of them twice, and three quads more. Two threads read the first
/// sixteen lines, and then go on in portions.
const FEW_TERMS: &str = "\
    <x:a> <x:a> <x:a> .\n\
    <x:a> <x:a> <x:b> .\n\
    <x:a> <x:b> <x:a> .\n\
    <x:a> <x:b> <x:b> .\n\
    <x:b> <x:a> <x:a> .\n\
    <x:b> <x:a> <x:b> .\n\
    <x:b> <x:b> <x:a> .\n\
    <x:b> <x:b> <x:b> .\n\
    <x:a> <x:a> <x:a> <x:a> .\n\
    <x:a> <x:a> <x:b> <x:a> .\n\
    <x:a> <x:b> <x:a> <x:a> .\n\
    <x:a> <x:b> <x:b> <x:a> .\n\
    <x:b> <x:a> <x:a> <x:a> .\n\
    <x:b> <x:a> <x:b> <x:a> .\n\
    <x:b> <x:b> <x:a> <x:a> .\n\
    <x:b> <x:b> <x:b> <x:a> .\n\
    <x:b> <x:b> <x:b> <x:a> .\n\
    <x:b> <x:b> <x:a> <x:a> .\n\
    <x:b> <x:a> <x:b> <x:a> .\n\
    <x:b> <x:a> <x:a> <x:a> .\n\
    <x:a> <x:b> <x:b> <x:a> .\n\
    <x:a> <x:b> <x:a> <x:a> .\n\
    <x:a> <x:a> <x:b> <x:a> .\n\
    <x:a> <x:a> <x:a> <x:a> .\n\
    <x:b> <x:b> <x:b> .\n\
    <x:b> <x:b> <x:a> .\n\
    <x:b> <x:a> <x:b> .\n\
    <x:b> <x:a> <x:a> .\n\
    <x:a> <x:b> <x:b> .\n\
    <x:a> <x:b> <x:a> .\n\
    <x:a> <x:a> <x:b> .\n\
    <x:a> <x:a> <x:a> .\n\
    <x:c> <x:p> <x:b> .\n\
    <x:b> <x:p> <x:c> <x:g> .\n\
    <x:b> <x:a> <x:a> .\n\
";

/// The canonical text of the same.
const FEW_TERMS_TOLD: &str = "\
    <x:a> <x:a> <x:a> .\n\
    <x:a> <x:a> <x:a> <x:a> .\n\
    <x:a> <x:a> <x:b> .\n\
    <x:a> <x:a> <x:b> <x:a> .\n\
    <x:a> <x:b> <x:a> .\n\
    <x:a> <x:b> <x:a> <x:a> .\n\
    <x:a> <x:b> <x:b> .\n\
    <x:a> <x:b> <x:b> <x:a> .\n\
    <x:b> <x:a> <x:a> .\n\
    <x:b> <x:a> <x:a> <x:a> .\n\
    <x:b> <x:a> <x:b> .\n\
    <x:b> <x:a> <x:b> <x:a> .\n\
    <x:b> <x:b> <x:a> .\n\
    <x:b> <x:b> <x:a> <x:a> .\n\
    <x:b> <x:b> <x:b> .\n\
    <x:b> <x:b> <x:b> <x:a> .\n\
    <x:b> <x:p> <x:c> <x:g> .\n\
    <x:c> <x:p> <x:b> .\n\
";

/// Texts that are cut at several places, and the canonical text of what each spells.
const CUT: [(&str, &str); 10] = [
    (FEW_TERMS, FEW_TERMS_TOLD),
    ("\n\n\n\n\n\n\n\n\n", ""),
    (
        "<x:b> <x:p> <x:c> .\r\n<x:a> <x:p> <x:c> .\r\n",
        "<x:a> <x:p> <x:c> .\n<x:b> <x:p> <x:c> .\n",
    ),
    (
        "<x:b> <x:p> <x:c> .\r<x:a> <x:p> <x:c> .\r",
        "<x:a> <x:p> <x:c> .\n<x:b> <x:p> <x:c> .\n",
    ),
    (
        "<x:b> <x:p> <x:c> .\r\r\n\r\r\n\n\r\n<x:a> <x:p> <x:c> .\r",
        "<x:a> <x:p> <x:c> .\n<x:b> <x:p> <x:c> .\n",
    ),
    (
        "<x:a> <x:p> <x:c> .\n<x:a> <x:p> <x:c> .\n<x:a> <x:p> <x:c> .\n<x:a> <x:p> <x:c> .",
        "<x:a> <x:p> <x:c> .\n",
    ),
    (
        "#@graph <x:g>\n#@graph <x:e>\n<x:a> <x:p> <x:c> <x:g> .\n<x:c> <x:p> <x:a> <x:g> .\n",
        "#@graph <x:e>\n<x:a> <x:p> <x:c> <x:g> .\n<x:c> <x:p> <x:a> <x:g> .\n",
    ),
    (
        "<x:a> <x:p> <x:c> <x:g> .\n<x:c> <x:p> <x:a> <x:h> .\n#@graph <x:e>\n#@graph <x:g>\n",
        "#@graph <x:e>\n<x:a> <x:p> <x:c> <x:g> .\n<x:c> <x:p> <x:a> <x:h> .\n",
    ),
    (
        "_:a <x:p> \"1\" .\n_:b <x:p> \"1\" .\n_:a <x:q> _:b .\n<x:p> <x:q> \"1\"@en .\n",
        "<x:p> <x:q> \"1\"@en .\n_:a <x:p> \"1\" .\n_:a <x:q> _:b .\n_:b <x:p> \"1\" .\n",
    ),
    (
        "<x:4> <x:p> <x:1> .\n<x:3> <x:p> <x:2> .\n# none\n<x:2> <x:p> <x:3> .\n<x:1> <x:p> <x:4> .\n",
        "<x:1> <x:p> <x:4> .\n<x:2> <x:p> <x:3> .\n<x:3> <x:p> <x:2> .\n<x:4> <x:p> <x:1> .\n",
    ),
];

/// The text of pieces, one behind another.
fn text_of(alloc: Global, pieces: &[Vec<u8>]) -> Result<Vec<u8>, AllocError> {
    let mut text = Vec::new(alloc);
    for piece in pieces {
        text.extend_from_slice(piece.as_slice())?;
    }
    Ok(text)
}

/// Whether the text of pieces is this one.
fn is_text(alloc: Global, pieces: &[Vec<u8>], text: &str) -> Result<bool, AllocError> {
    Ok(text_of(alloc, pieces)?.as_slice() == text.as_bytes())
}

/// Whether the canonical text of a dataset is this one, made by one thread.
fn is_told(alloc: Global, dataset: &DataSet, canonical: &str) -> Result<bool, AllocError> {
    let pieces = canonical_pieces(alloc, dataset, 1)?;
    let is_text = is_text(alloc, pieces.as_slice(), canonical);
    drop(pieces);
    is_text
}

/// The same, made by so many threads.
fn is_told_by<T: Threads + Sync>(
    rt: &T,
    alloc: Global,
    dataset: &DataSet,
    threads: usize,
    canonical: &str,
) -> Result<bool, AllocError> {
    let pieces = canonical_pieces_by(rt, alloc, dataset, 1, threads)?;
    let is_text = is_text(alloc, pieces.as_slice(), canonical);
    drop(pieces);
    is_text
}

/// Whether the canonical text of a dataset is this one, made by one thread and by so many.
fn is_told_alike<T: Threads + Sync>(
    rt: &T,
    alloc: Global,
    dataset: &DataSet,
    threads: usize,
    canonical: &str,
) -> Result<bool, AllocError> {
    Ok(is_told(alloc, dataset, canonical)? && is_told_by(rt, alloc, dataset, threads, canonical)?)
}

/// Whether what so many threads read of a text has that canonical text, and no read failed.
fn is_read<T: Threads + Sync>(
    rt: &T,
    alloc: Global,
    text: &str,
    threads: usize,
    portion: u32,
    canonical: &str,
) -> Result<bool, BaseFault> {
    let mut reader = slow(text.as_bytes());
    let dataset = read_by(rt, alloc, &mut reader, threads, portion)?;
    let is_told = is_told_alike(rt, alloc, &dataset, threads, canonical);
    drop(dataset);
    Ok(is_told? && reader.failures == 0)
}

fn check_table<T: Threads + Sync + Abort>(
    rt: &T,
    alloc: Global,
    table: &[(&str, &str)],
) -> Result<(), BaseFault> {
    for (threads, portion) in &WAYS {
        for (text, canonical) in table {
            assert!(rt;
                is_read(rt, alloc, text, *threads, *portion, canonical)?,
                "{threads} {portion} {text:?}"
            );
        }
    }
    Ok(())
}

#[test]
fn read_by_threads(rt: HostRuntime) -> Result<(), BaseFault> {
    check_table(&rt, rt.alloc(), &TEXTS)?;
    check_table(&rt, rt.alloc(), &CUT)
}

/// Texts of several pieces, and the number of the first bad line of each.
const BAD_PIECES: [(&[u8], usize); 6] = [
    (b"x\n#\n#\n#\n#\n#\n#\n#\n", 1),
    (b"#\n#\n#\nx\n#\n#\n#\n#\n", 4),
    (b"#\n#\n#\n#\n#\n#\n#\nx", 8),
    (b"#\n#\nx\n#\n#\nx\n#\n#\n", 3),
    (b"#\r#\r\n#\r#\r#\n\rx\n#\n\xff", 7),
    (b"<x:a> <x:p> \"a\nb\" .\n<x:a> <x:p> <x:b> .\n", 1),
];

fn check_bad<T: Threads + Sync + Abort>(
    rt: &T,
    alloc: Global,
    table: &[(&[u8], usize)],
) -> Result<(), BaseFault> {
    for (threads, portion) in &WAYS {
        for (text, number) in table {
            let outcome = read_by(rt, alloc, &mut slow(text), *threads, *portion);
            assert!(rt;
                is_bad_at(outcome, *number)?,
                "{threads} {portion} {text:?}"
            );
        }
    }
    Ok(())
}

#[test]
fn bad_lines_by_threads(rt: HostRuntime) -> Result<(), BaseFault> {
    check_bad(&rt, rt.alloc(), &BAD)?;
    check_bad(&rt, rt.alloc(), &BAD_PIECES)
}

// A line of a quad.
fn push_line(
    alloc: Global,
    text: &mut Vec<u8>,
    subject: u32,
    number: u32,
) -> Result<(), AllocError> {
    let line = format!(in alloc; "<x:{subject}> <x:p> \"{number}\" .\n")?;
    text.extend_from_slice(line.as_bytes())
}

// Lines of so many quads, of which each has another subject, from the last to the first.
fn falling(alloc: Global, quads: u32) -> Result<Vec<u8>, AllocError> {
    let mut text = Vec::new(alloc);
    for number in 0..quads {
        let subject = quads.saturating_sub(number).saturating_add(100_000);
        push_line(alloc, &mut text, subject, number)?;
    }
    Ok(text)
}

/// A dataset of so many quads.
fn falling_dataset(alloc: Global, quads: u32) -> Result<DataSet, BaseFault> {
    let text = falling(alloc, quads)?;
    read_bytes(alloc, text.as_slice())
}

/// Whether eight threads make a dataset's canonical text as one does, and it begins so.
fn is_made_alike<T: Threads + Sync>(
    rt: &T,
    alloc: Global,
    dataset: &DataSet,
    front: &[u8],
) -> Result<bool, AllocError> {
    let pieces = canonical_pieces_by(rt, alloc, dataset, 1, 8)?;
    let by_threads = text_of(alloc, pieces.as_slice())?;
    let by_one = canonical_text(alloc, dataset, 1)?;
    Ok(by_one.starts_with(front) && by_one.as_slice() == by_threads.as_slice())
}

#[test]
fn long_texts_by_threads(rt: HostRuntime) -> Result<(), BaseFault> {
    let dataset = falling_dataset(rt.alloc(), 10_000)?;
    let front = b"<x:100001> <x:p> \"9999\" .\n<x:100002> <x:p> \"9998\" .\n";
    let is_alike = is_made_alike(&rt, rt.alloc(), &dataset, front);
    drop(dataset);
    assert!(rt; is_alike?);
    Ok(())
}

/// A reader that gives so many bytes of a text at a time.
#[derive(Drop)]
struct Few<'a> {
    rest: &'a [u8],
    most: usize,
}

impl Read for Few<'_> {
    fn read(&mut self, buf: &mut [u8]) -> io::Result<usize> {
        let count = self.most.min(self.rest.len()).min(buf.len());
        let (given, rest) = self.rest.split_at(count);
        let (front, _) = buf.split_at_mut(count);
        front.copy_from_slice(given);
        self.rest = rest;
        Ok(count)
    }
}

/// So many bytes a read, so many threads, and portions of more than so many bytes.
const READS: [(usize, usize, u32); 10] = [
    (1, 0, 1000),
    (2, 0, 1000),
    (3, 0, 1000),
    (7, 0, 1000),
    (2, 2, 0),
    (3, 2, 1),
    (7, 2, 2),
    (3, 3, 7),
    (7, 8, 20),
    (7, 2, 1000),
];

/// The dataset of a text that is read so.
fn read_few<T: Threads + Sync>(
    rt: &T,
    alloc: Global,
    text: &[u8],
    way: (usize, usize, u32),
) -> Result<DataSet, BaseFault> {
    let (most, threads, portion) = way;
    let mut reader = Watched::new(Few { rest: text, most });
    read_by(rt, alloc, &mut reader, threads, portion)
}

/// Whether it has that canonical text.
fn is_read_few<T: Threads + Sync>(
    rt: &T,
    alloc: Global,
    text: &[u8],
    way: (usize, usize, u32),
    canonical: &str,
) -> Result<bool, BaseFault> {
    let dataset = read_few(rt, alloc, text, way)?;
    let is_told = is_told(alloc, &dataset, canonical);
    drop(dataset);
    Ok(is_told?)
}

fn check_few<T: Threads + Sync + Abort>(
    rt: &T,
    alloc: Global,
    table: &[(&str, &str)],
) -> Result<(), BaseFault> {
    for way in &READS {
        for (text, canonical) in table {
            let is_read = is_read_few(rt, alloc, text.as_bytes(), *way, canonical)?;
            assert!(rt; is_read, "{way:?} {text:?}");
        }
    }
    Ok(())
}

#[test]
fn a_few_bytes_a_read(rt: HostRuntime) -> Result<(), BaseFault> {
    check_few(&rt, rt.alloc(), &TEXTS)?;
    check_few(&rt, rt.alloc(), &CUT)
}

/// Seven lines, the last without an end, and the canonical text of what they spell.
const LINE_ENDS: (&str, &str) = (
    "\r\n<x:c> <x:p> <x:a> .\r<x:b> <x:p> <x:a> .\r\n<x:a> <x:p> <x:a> .\n\r\r\n<x:d> <x:p> <x:a> .",
    "<x:a> <x:p> <x:a> .\n<x:b> <x:p> <x:a> .\n<x:c> <x:p> <x:a> .\n<x:d> <x:p> <x:a> .\n",
);

/// The seven lines behind so many spaces, and what follows.
fn shifted(alloc: Global, spaces: usize, back: &str) -> Result<String, AllocError> {
    let mut text = String::new(alloc);
    for _ in 0..spaces {
        text.push(' ')?;
    }
    text.push_str(LINE_ENDS.0)?;
    text.push_str(back)?;
    Ok(text)
}

// Each line end comes at each place of a piece. A line of CR LF that is cut is one line.
#[test]
fn line_ends_at_piece_ends(rt: HostRuntime) -> Result<(), BaseFault> {
    for spaces in 0..7 {
        let good = shifted(rt.alloc(), spaces, "")?;
        let bad = shifted(rt.alloc(), spaces, "\r\nx")?;
        for way in &READS {
            let is_read = is_read_few(&rt, rt.alloc(), good.as_bytes(), *way, LINE_ENDS.1)?;
            assert!(rt; is_read, "{spaces} {way:?}");
            let outcome = read_few(&rt, rt.alloc(), bad.as_bytes(), *way);
            assert!(rt; is_bad_at(outcome, 8)?, "{spaces} {way:?}");
        }
    }
    Ok(())
}

/// Whether a journal that comes so many bytes a read is read, and written again as it is.
fn is_journal_read(alloc: Global, text: &str, most: usize) -> Result<bool, Fail> {
    let mut reader = Watched::new(Few {
        rest: text.as_bytes(),
        most,
    });
    let bytes = all_of(alloc, &mut reader)?;
    let lines = read_journal(alloc, bytes.as_slice(), 1)?;
    let again = write_lines(alloc, &lines, 1)?;
    Ok(reader.failures == 0 && again.as_slice() == text.as_bytes())
}

#[test]
fn journals_in_pieces(rt: HostRuntime) -> Result<(), Fail> {
    for most in [1, 2, 3, 7, 100_000] {
        for text in &JOURNALS {
            assert!(rt; is_journal_read(rt.alloc(), text, most)?, "{most} {text:?}");
        }
    }
    Ok(())
}
