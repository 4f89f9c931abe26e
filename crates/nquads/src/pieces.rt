//! A text that is read in pieces, by several threads.
ghost use Rattle.std.specs.Prelude.{◌≡◌, ◌≤◌, ◌<◌, ◌+◌, ◌-◌, ◌^◌, ◌&&◌, is_none, ℕ, List, length, slice_index, IfOk, IfErr, IfSome, MatchOption};
ghost use Rattle.std.specs.Thread.{IsSync};
ghost use Rattle.nquads.specs.Pieces.{ArePieces};
ghost use Rattle.nquads.specs.Portions.{IsReadText, AreRead, ends_of, ends_in, behind, all_behind, as_one};
ghost use Rattle.nquads.specs.declared.fault.BaseFault.TheVariants.{OutOfMemory};
ghost use Rattle.terms.specs.DataSet.{united as the_united};

use crate::fault::BaseFault;
use crate::reader::{ReadText, read_counted};
use nquads_lines::laws::lines_are_read;
use radix::place_for_last;
use std::alloc::Global;
use std::thread::{Threads, join, join_mut};
use terms::DataSet;
use terms::laws::lists_grow_as_datasets;

/// What was read of a text in pieces that stand one behind another.
#[derive(Drop)]
pub enum ReadPieces {
    Only(ReadText),
    /// Some pieces, and one behind them.
    Behind(Box<ReadPieces>, ReadText),
}

/// Whole lines that were read.
#[derive(Drop)]
pub struct ReadLines {
    /// Those that were put together, if any were.
    pub front: Option<ReadText>,
    /// Those behind them.
    pub behind: Option<ReadPieces>,
}

/// To put the pieces of a portion together takes one thread so many times less than to read them.
const QUICKER: usize = 16;

/// How many lines were read.
fn lines_before(front: &Option<ReadText>) -> usize
    ensures { result ≡ ends_of front.now }
{
    match front {
        Some(read) => read.ends,
        None => 0,
    }
}

/// How many lines of all pieces have an end.
fn ends_in(pieces: &ReadPieces) -> usize
    requires { ends_in pieces.now < 2 ^ 64 }
    ensures { result ≡ ends_in pieces.now }
{
    match pieces {
        ReadPieces::Only(read) => read.ends,
        ReadPieces::Behind(first, last) => ends_in(first) + last.ends,
    }
}

impl ReadLines {
    /// How many lines they are.
    pub fn ends(&self) -> usize
        requires { ends_of (as_one self.now) < 2 ^ 64 }
        ensures { result ≡ ends_of (as_one self.now) }
    {
        let before = lines_before(&self.front);
        match &self.behind {
            Some(pieces) => before + ends_in(pieces),
            None => before,
        }
    }

    /// Whether none were read.
    pub fn are_none(&self) -> bool
        ensures { result ≡ (is_none self.now.front && is_none self.now.behind) }
    {
        self.front.is_none() && self.behind.is_none()
    }
}

/// Where the first LF ends that comes at this place or later.
fn end_of_lf(bytes: &[u8], from: usize) -> Option<usize>
    ensures { IfSome result (λ end. (0 < end) × (end ≤ length bytes.now)
        × (slice_index bytes.now (end - 1) ≡ 10)) }
{
    for place in from..bytes.len() {
        if bytes[place] == b'\n' {
            return Some(place + 1);
        }
    }
    None
}

/// A text in two pieces, for all of so many threads but one and for that, where an LF comes late
/// enough. The first piece ends with it.
fn parted(bytes: &[u8], threads: usize) -> Option<(&[u8], &[u8])>
    ensures { IfSome result (λ r. ArePieces bytes.now r.0.now r.1.now) }
{
    let end = end_of_lf(bytes, place_for_last(bytes.len(), threads))?;
    Some(bytes.split_at(end))
}

/// A text in two pieces, for all of so many threads but one and for that, which puts the lines
/// before it together first and gets as much less.
fn parted_beside(bytes: &[u8], threads: usize) -> Option<(&[u8], &[u8])>
    ensures { IfSome result (λ r. ArePieces bytes.now r.0.now r.1.now) }
{
    let more = threads.saturating_mul(threads) / QUICKER;
    parted(bytes, threads.saturating_add(more))
}

/// Two datasets, first the one that has more terms.
fn more_first(one: DataSet, other: DataSet) -> (DataSet, DataSet)
    ensures { the_united result.0 result.1 ≡ the_united one other }
{
    if one.parts().terms.len() < other.parts().terms.len() {
        (other, one)
    } else {
        (one, other)
    }
}

/// Two pieces as one text, by so many threads. The terms of the one that has fewer are looked for
/// among those of the other.
fn united<T: Threads + Sync>(
    rt: &T,
    first: ReadText,
    rest: ReadText,
    threads: usize,
) -> Result<ReadText, BaseFault>
    requires { first.ends + rest.ends < 2 ^ 64 }
    ensures ok { IfOk result (λ read. (read.dataset ≡ the_united first.dataset rest.dataset)
        × (read.ends ≡ first.ends + rest.ends)) }
    ensures err { IfErr result (λ e. e ≡ OutOfMemory) }
{
    let ends = first.ends + rest.ends;
    let (mut dataset, fewer) = more_first(first.dataset, rest.dataset);
    if threads <= 1 {
        dataset.unite(fewer)?;
    } else {
        dataset.unite_by(rt, fewer)?;
    }
    Ok(ReadText { dataset, ends })
}

/// The lines that were read, and these behind them, by so many threads.
fn and_then<T: Threads + Sync>(
    rt: &T,
    front: Option<ReadText>,
    more: ReadText,
    threads: usize,
) -> Result<ReadText, BaseFault>
    requires { ends_of front + more.ends < 2 ^ 64 }
    ensures ok { IfOk result (λ read. read ≡ behind front more) }
    ensures err { IfErr result (λ e. e ≡ OutOfMemory) }
{
    match front {
        Some(front) => united(rt, front, more, threads),
        None => Ok(more),
    }
}

/// The lines that were read, and the text of these pieces behind them. Each piece is put behind
/// those lines in turn, so that its quads are moved once.
pub(crate) fn and_pieces<T: Threads + Sync>(
    rt: &T,
    front: Option<ReadText>,
    pieces: ReadPieces,
    threads: usize,
) -> Result<ReadText, BaseFault>
    requires { ends_of front + ends_in pieces < 2 ^ 64 }
    ensures ok { IfOk result (λ read. read ≡ all_behind front pieces) }
    ensures err { IfErr result (λ e. e ≡ OutOfMemory) }
{
    match pieces {
        ReadPieces::Only(read) => and_then(rt, front, read, threads),
        ReadPieces::Behind(first, last) => {
            let read = and_pieces(rt, front, Box::into_inner(first), threads)?;
            and_then(rt, Some(read), last, threads)
        }
    }
}

/// Lines that were read, put together by one thread, beside which others read.
pub(crate) fn together<T: Threads + Sync>(
    rt: &T,
    lines: ReadLines,
) -> Result<Option<ReadText>, BaseFault>
    requires { ends_of (as_one lines) < 2 ^ 64 }
    ensures ok { IfOk result (λ read. read ≡ as_one lines) }
    ensures err { IfErr result (λ e. e ≡ OutOfMemory) }
{
    let ReadLines { front, behind } = lines;
    match behind {
        Some(pieces) => Ok(Some(and_pieces(rt, front, pieces, 1)?)),
        None => Ok(front),
    }
}

/// What a text says.
fn read_piece(alloc: Global, bytes: &[u8]) -> Result<ReadText, BaseFault>
    ensures { IfOk result (IsReadText bytes.now) }
{
    lines_are_read();
    lists_grow_as_datasets();
    read_counted(alloc, bytes)
}

/// The same, as one piece.
fn read_whole(alloc: Global, bytes: &[u8]) -> Result<ReadPieces, BaseFault>
    ensures { IfOk result (AreRead bytes.now) }
{
    Ok(ReadPieces::Only(read_piece(alloc, bytes)?))
}

/// What a text says, read in pieces by so many threads, where they can be had. An error tells no
/// more than that a piece was not read: a line is bad, or memory ran out. The thread that calls
/// makes all others: of those that new ones make, two often share a processor at first.
pub(crate) fn read_pieces<T: Threads + Sync>(
    rt: &T,
    alloc: Global,
    bytes: &[u8],
    threads: usize,
) -> Result<ReadPieces, BaseFault>
    ensures { IfOk result (AreRead bytes.now) }
{
    if threads <= 1 {
        return read_whole(alloc, bytes);
    }
    let Some((first, rest)) = parted(bytes, threads) else {
        return read_whole(alloc, bytes);
    };
    let others = threads - 1;
    let (last, before) = join(
        rt,
        || -> Result<ReadText, BaseFault>
            ensures { IfOk result (IsReadText rest.entry.now) }
        { read_piece(alloc, rest) },
        || -> Result<ReadPieces, BaseFault>
            requires { IsSync T.row }
            ensures { IfOk result (AreRead first.entry.now) }
        { read_pieces(rt, alloc, first, others) },
    );
    let before = Box::new(alloc, before?)?;
    Ok(ReadPieces::Behind(before, last?))
}

/// What pieces of a text say, and the one behind them, where all were read.
fn with_last(
    alloc: Global,
    before: Result<ReadPieces, BaseFault>,
    last: Result<ReadText, BaseFault>,
) -> Result<ReadPieces, BaseFault>
    ensures { (text first rest : List ℕ) → ArePieces text first rest → IfOk before (AreRead first)
        → IfOk last (IsReadText rest) → IfOk result (AreRead text) }
{
    let before = Box::new(alloc, before?)?;
    Ok(ReadPieces::Behind(before, last?))
}

/// Reads a text as `read_pieces` does, by at least two threads, of which one puts other lines
/// together first, and then reads less of the text than each of the others.
pub(crate) fn read_beside<T: Threads + Sync>(
    rt: &T,
    alloc: Global,
    lines: ReadLines,
    bytes: &[u8],
    threads: usize,
) -> (
    Result<Option<ReadText>, BaseFault>,
    Result<ReadPieces, BaseFault>,
)
    requires several { 1 < threads }
    requires few { ends_of (as_one lines) < 2 ^ 64 }
    ensures together { IfOk result.0 (λ read. read ≡ as_one lines) }
    ensures full { IfErr result.0 (λ e. e ≡ OutOfMemory) }
    ensures read { IfOk result.1 (AreRead bytes.now) }
{
    let Some((first, rest)) = parted_beside(bytes, threads) else {
        let front = together(rt, lines);
        return (front, read_whole(alloc, bytes));
    };
    let others = threads - 1;
    let mut given = Some(lines);
    let ((front, last), before) = join_mut(
        rt,
        &mut || -> (
            Result<Option<ReadText>, BaseFault>,
            Result<ReadText, BaseFault>,
        )
            requires { IsSync T.row × MatchOption given ⊥ (λ lines. ends_of (as_one lines) < 2 ^ 64) }
            ensures { IfSome given.entry (λ lines. IfOk result.0 (λ read. read ≡ as_one lines)
                × IfErr result.0 (λ e. e ≡ OutOfMemory))
                × IfOk result.1 (IsReadText rest.entry.now) }
        {
            match given.take() {
                Some(lines) => (together(rt, lines), read_piece(alloc, rest)),
                None => unreachable!(),
            }
        },
        &mut || -> Result<ReadPieces, BaseFault>
            requires { IsSync T.row }
            ensures { IfOk result (AreRead first.entry.now) }
        { read_pieces(rt, alloc, first, others) },
    );
    (front, with_last(alloc, before, last))
}
