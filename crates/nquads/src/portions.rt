//! A text that is read in portions: once the lines of one are read, the next one comes.
ghost use Rattle.std.specs.Prelude.{◌≡◌, ◌≤◌, ◌<◌, ◌+◌, ◌-◌, ◌^◌, ◌++◌, ℕ, List, false, length, drop, slice_index, IfOk, IfErr, IfSome, MatchOption, Option, Err, if◌then◌else◌};
ghost use Rattle.std.specs.Thread.{IsSync};
ghost use Rattle.devices.specs.Front.{IsFilled, is_device as is_unread};
ghost use Rattle.nquads.specs.Long.{IsAnswer, front_within, is_device};
ghost use Rattle.nquads.specs.Pieces.{ArePieces};
ghost use Rattle.nquads.specs.declared.fault.BaseFault.TheVariants.{OutOfMemory};
ghost use Rattle.nquads.specs.Portions.{IsReadText, AreRead, IsPartlyRead, DidNotCome, StopsBehind, StopsFurther, StopsWithin, ends_of, as_one};

use crate::base::{MOST_BYTES, check_lines, ended_front};
use crate::fault::BaseFault;
use crate::pieces::{ReadLines, ReadPieces, and_pieces, read_beside, read_pieces, together};
use crate::reader::{ReadText, read_counted};
use devices::{ReadFault, Watched, fill};
use nquads_lines::laws::lines_are_read;
use std::alloc::{AllocError, Global};
use std::io::Read;
use std::thread::{Threads, join_mut, spawn};
use terms::DataSet;
use terms::laws::{lists_grow_as_datasets, lists_unite};

/// How often a portion is as long as the first one, where several threads read. Each that follows
/// is twice as long as the one before.
const FIRST_SHARE: usize = 8;

/// In how many pieces each of several threads reads a portion, where terms are few.
const PIECES_OF_A_THREAD: usize = 3;

/// Terms are few where a piece has so many quads for each.
const QUADS_OF_A_TERM: usize = 2;

/// What has come of a text.
#[derive(Drop)]
pub struct PartlyRead {
    /// The lines that were read.
    pub lines: ReadLines,
    /// How many bytes they have.
    pub len: usize,
    /// The bytes behind them.
    pub rest: Vec<u8>,
    /// Room for others.
    pub spare: Vec<u8>,
    /// Whether no more will come.
    pub is_all: bool,
}

/// Where the last LF ends.
fn end_of_last_lf(bytes: &[u8]) -> Option<usize>
    ensures { IfSome result (λ end. (0 < end) × (end ≤ length bytes.now)
        × (slice_index bytes.now (end - 1) ≡ 10)) }
{
    let mut end = bytes.len();
    while end > 0 {
        if bytes[end - 1] == b'\n' {
            return Some(end);
        }
        end -= 1;
    }
    None
}

/// The whole lines of a text, which end with the last LF, and what is behind them.
fn whole_lines(text: &[u8]) -> Option<(&[u8], &[u8])>
    ensures { IfSome result (λ r. ArePieces text.now r.0.now r.1.now) }
{
    let end = end_of_last_lf(text)?;
    Some(text.split_at(end))
}

/// Reads a text before which so many lines come.
pub(crate) fn read_after(alloc: Global, text: &[u8], before: usize) -> Result<ReadText, BaseFault>
    requires { before + length text.now < 2 ^ 64 - 1 }
    ensures ok { IfOk result (IsReadText text.now) }
    ensures err { IfErr result (StopsBehind before text.now) }
{
    lines_are_read();
    lists_grow_as_datasets();
    match read_counted(alloc, text) {
        Ok(read) => Ok(read),
        Err(BaseFault::BadLine(number)) => Err(BaseFault::BadLine(before + number)),
        Err(fault) => Err(fault),
    }
}

/// The same, as one piece.
fn read_alone(alloc: Global, text: &[u8], before: usize) -> Result<ReadPieces, BaseFault>
    requires { before + length text.now < 2 ^ 64 - 1 }
    ensures ok { IfOk result (AreRead text.now) }
    ensures err { IfErr result (StopsBehind before text.now) }
{
    match read_after(alloc, text, before) {
        Ok(read) => Ok(ReadPieces::Only(read)),
        Err(fault) => Err(fault),
    }
}

/// Whether lines say few terms for their quads.
fn has_few_terms(read: &ReadText) -> bool {
    let parts = read.dataset.parts();
    parts.terms.len() <= parts.quads.len() / QUADS_OF_A_TERM
}

/// The same of the last of some pieces.
fn have_few_terms(pieces: &ReadPieces) -> bool {
    match pieces {
        ReadPieces::Only(last) | ReadPieces::Behind(_, last) => has_few_terms(last),
    }
}

/// Whether these lines are known to say few terms for their quads.
fn say_few_terms(lines: &ReadLines) -> bool {
    match &lines.behind {
        Some(pieces) => have_few_terms(pieces),
        None => false,
    }
}

/// How many bytes come behind these lines and so many bytes: twice as many, as long as several
/// threads may be done with those before they came. The terms that they read of a portion are put
/// among those of the lines before it by one thread: where they are not few, all that is left comes
/// at once.
fn portion_behind(lines: &ReadLines, bytes: usize, threads: usize, portion: usize) -> usize
    requires { portion < 2 ^ 32 }
    ensures { result < 2 ^ 32 }
{
    if threads <= 1 {
        portion
    } else if lines.behind.is_some() && !say_few_terms(lines) {
        MOST_BYTES
    } else {
        portion.min(bytes.saturating_mul(2))
    }
}

/// In how many pieces a text behind these lines is read by so many threads. Each piece has a table
/// of its terms: where they are few, it is read in more pieces than there are threads, so that a
/// processor that is done with one goes on with another.
fn pieces_behind(lines: &ReadLines, threads: usize) -> usize
    ensures { 1 < threads → 1 < result }
{
    if 1 < threads && say_few_terms(lines) {
        threads.saturating_mul(PIECES_OF_A_THREAD)
    } else {
        threads
    }
}

/// These bytes, in the room of others.
fn bytes_in(room: Vec<u8>, bytes: &[u8]) -> Result<Vec<u8>, AllocError>
    ensures { IfOk result (λ list. list.items ≡ bytes.now) }
{
    let mut list = room;
    list.clear();
    list.extend_from_slice(bytes)?;
    Ok(list)
}

/// What has come of a text of which no line has an end, and more.
fn begun_further<R: Read>(
    reader: &mut Watched<R>,
    read: PartlyRead,
    portion: usize,
) -> Result<PartlyRead, BaseFault>
    requires failures { reader.old.failures < 2 ^ 64 - 1 }
    requires few { length read.rest.items < 2 ^ 32 }
    requires portion { portion < 2 ^ 32 }
    ensures ok { (before : Option (List ℕ))
        → IsPartlyRead before (R.remaining reader.old.inner) read
        → IfOk result (IsPartlyRead before (R.remaining reader.new.inner)) }
    ensures ends { IfOk result (λ after. (after.lines ≡ read.lines) × (after.len ≡ read.len)) }
    ensures more { IfOk result (λ after. after.is_all ≡ false
        → length read.rest.items < length after.rest.items) }
    ensures err { IfErr result DidNotCome }
    ensures count { reader.new.failures ≡ (if is_device result then reader.old.failures + 1
        else reader.old.failures) }
{
    let mut read = read;
    let limit = read.rest.len() + portion;
    match fill(reader, &mut read.rest, limit) {
        Ok(is_all) => {
            read.is_all = is_all;
            Ok(read)
        }
        Err(fault) => {
            drop(read);
            Err(fault.into())
        }
    }
}

/// Reads a text in pieces by so many threads, of which one puts the lines before it together.
fn read_and_put<T: Threads + Sync>(
    rt: &T,
    alloc: Global,
    lines: ReadLines,
    text: &[u8],
    threads: usize,
) -> (
    Result<Option<ReadText>, BaseFault>,
    Result<ReadPieces, BaseFault>,
)
    requires { ends_of (as_one lines) < 2 ^ 64 }
    ensures together { IfOk result.0 (λ read. read ≡ as_one lines) }
    ensures full { IfErr result.0 (λ e. e ≡ OutOfMemory) }
    ensures read { IfOk result.1 (AreRead text.now) }
{
    if threads <= 1 || lines.are_none() {
        let front = together(rt, lines);
        return (front, read_pieces(rt, alloc, text, threads));
    }
    let pieces = pieces_behind(&lines, threads);
    read_beside(rt, alloc, lines, text, pieces)
}

/// Reads a text behind these lines, which are put together.
fn read_behind<T: Threads + Sync>(
    rt: &T,
    alloc: Global,
    lines: ReadLines,
    text: &[u8],
    threads: usize,
) -> Result<(Option<ReadText>, ReadPieces), BaseFault>
    requires { ends_of (as_one lines) + length text.now < 2 ^ 64 - 1 }
    ensures ok { IfOk result (λ r. (r.0 ≡ as_one lines) × AreRead text.now r.1) }
    ensures err { IfErr result (StopsBehind (ends_of (as_one lines)) text.now) }
{
    let before = lines.ends();
    let (front, read) = read_and_put(rt, alloc, lines, text, threads);
    if let Ok(pieces) = read {
        return Ok((front?, pieces));
    }
    // The first bad line of a piece may not be that of the text, and one table may have room where
    // several have not.
    match read_alone(alloc, text, before) {
        Ok(pieces) => Ok((front?, pieces)),
        Err(fault) => {
            drop(front);
            Err(fault)
        }
    }
}

/// The same, while more bytes come.
fn read_while_filled<T: Threads + Sync, R: Read>(
    rt: &T,
    alloc: Global,
    lines: ReadLines,
    text: &[u8],
    threads: usize,
    reader: &mut Watched<R>,
    bytes: &mut Vec<u8>,
    limit: usize,
) -> (
    Result<(Option<ReadText>, ReadPieces), BaseFault>,
    Result<bool, ReadFault>,
)
    requires failures { reader.old.failures < 2 ^ 64 - 1 }
    requires limit { limit < 2 ^ 63 }
    requires ends { ends_of (as_one lines) + length text.now < 2 ^ 64 - 1 }
    ensures read { IfOk result.0 (λ r. (r.0 ≡ as_one lines) × AreRead text.now r.1) }
    ensures err { IfErr result.0 (StopsBehind (ends_of (as_one lines)) text.now) }
    ensures filled { IfOk result.1 (IsFilled limit (R.remaining reader.old.inner)
        (R.remaining reader.new.inner) bytes.old.items bytes.new.items) }
    ensures count { reader.new.failures ≡ (if is_unread result.1 then reader.old.failures + 1
        else reader.old.failures) }
{
    let mut given = Some(lines);
    join_mut(
        rt,
        &mut || -> Result<(Option<ReadText>, ReadPieces), BaseFault>
            requires { IsSync T.row × MatchOption given ⊥
                (λ lines. ends_of (as_one lines) + length text.now < 2 ^ 64 - 1) }
            ensures { IfSome given.entry (λ lines.
                IfOk result (λ r. (r.0 ≡ as_one lines) × AreRead text.entry.now r.1)
                × IfErr result (StopsBehind (ends_of (as_one lines)) text.entry.now)) }
        {
            match given.take() {
                Some(lines) => read_behind(rt, alloc, lines, text, threads),
                None => unreachable!(),
            }
        },
        &mut || fill(reader, bytes, limit),
    )
}

/// The same, while more bytes come where there are several threads, and else before they do.
fn read_and_filled<T: Threads + Sync, R: Read>(
    rt: &T,
    alloc: Global,
    lines: ReadLines,
    text: &[u8],
    threads: usize,
    reader: &mut Watched<R>,
    bytes: &mut Vec<u8>,
    limit: usize,
) -> Result<(Option<ReadText>, ReadPieces, bool), BaseFault>
    requires failures { reader.old.failures < 2 ^ 64 - 1 }
    requires limit { limit < 2 ^ 63 }
    requires ends { ends_of (as_one lines) + length text.now < 2 ^ 64 - 1 }
    ensures read { IfOk result (λ r. (r.0 ≡ as_one lines) × AreRead text.now r.1) }
    ensures filled { IfOk result (λ r. IsFilled limit (R.remaining reader.old.inner)
        (R.remaining reader.new.inner) bytes.old.items bytes.new.items r.2) }
    ensures err { IfErr result (StopsFurther (ends_of (as_one lines)) text.now) }
    ensures count { reader.new.failures ≡ (if is_device result then reader.old.failures + 1
        else reader.old.failures) }
{
    if threads <= 1 {
        let (front, pieces) = read_behind(rt, alloc, lines, text, threads)?;
        let is_all = fill(reader, bytes, limit)?;
        return Ok((front, pieces, is_all));
    }
    let (read, filled) = read_while_filled(rt, alloc, lines, text, threads, reader, bytes, limit);
    match filled {
        Ok(is_all) => {
            let (front, pieces) = read?;
            Ok((front, pieces, is_all))
        }
        // Where the reader failed, that is told.
        Err(fault) => {
            drop(read);
            Err(fault.into())
        }
    }
}

/// Reads the whole lines of what has come, and then more comes.
fn read_further<T: Threads + Sync, R: Read>(
    rt: &T,
    alloc: Global,
    reader: &mut Watched<R>,
    read: PartlyRead,
    threads: usize,
    portion: usize,
) -> Result<PartlyRead, BaseFault>
    requires failures { reader.old.failures < 2 ^ 64 - 1 }
    requires ends { ends_of (as_one read.lines) ≤ read.len }
    requires few { read.len + length read.rest.items < 2 ^ 32 }
    requires portion { portion < 2 ^ 32 }
    ensures ok { (before : Option (List ℕ))
        → IsPartlyRead before (R.remaining reader.old.inner) read
        → IfOk result (IsPartlyRead before (R.remaining reader.new.inner)) }
    ensures ends { IfOk result (λ after. ends_of (as_one after.lines) ≤ after.len) }
    ensures len { IfOk result (λ after. after.len ≤ read.len + length read.rest.items) }
    ensures more { IfOk result (λ after. after.is_all ≡ false
        → read.len + length read.rest.items < after.len + length after.rest.items) }
    ensures err { (limit : ℕ) (text : List ℕ)
        → IsPartlyRead (Some text) (R.remaining reader.old.inner) read
        → read.len + length read.rest.items ≤ limit
        → IfErr result (λ e. IsAnswer limit text (Err e)) }
    ensures count { reader.new.failures ≡ (if is_device result then reader.old.failures + 1
        else reader.old.failures) }
{
    lines_are_read();
    lists_unite();
    let PartlyRead {
        lines,
        len,
        rest,
        spare,
        is_all,
    } = read;
    let Some((text, begun)) = whole_lines(rest.as_slice()) else {
        let read = PartlyRead {
            lines,
            len,
            rest,
            spare,
            is_all,
        };
        return begun_further(reader, read, portion);
    };
    let mut next = bytes_in(spare, begun)?;
    let limit = next.len() + portion_behind(&lines, text.len(), threads, portion);
    let len = len + text.len();
    let read = match read_and_filled(rt, alloc, lines, text, threads, reader, &mut next, limit) {
        Ok(read) => read,
        Err(fault) => return Err(fault),
    };
    let (front, pieces, is_all) = read;
    Ok(PartlyRead {
        lines: ReadLines {
            front,
            behind: Some(pieces),
        },
        len,
        rest: next,
        spare: rest,
        is_all,
    })
}

/// How many bytes come first. Of several threads all but one wait for them.
fn first_portion(threads: usize, portion: usize) -> usize
    ensures { result ≤ portion }
{
    if threads <= 1 {
        portion
    } else {
        portion / FIRST_SHARE
    }
}

/// Reads whole lines as long as more comes, and there is not more than the limit.
fn read_lines_of<T: Threads + Sync, R: Read>(
    rt: &T,
    alloc: Global,
    reader: &mut Watched<R>,
    limit: usize,
    threads: usize,
    portion: usize,
) -> Result<PartlyRead, BaseFault>
    requires failures { reader.old.failures < 2 ^ 64 - 1 }
    requires limit { limit < 2 ^ 32 }
    requires portion { portion < 2 ^ 32 }
    ensures ok { IfOk result (IsPartlyRead (R.remaining reader.old.inner)
        (R.remaining reader.new.inner)) }
    ensures ends { IfOk result (λ read. ends_of (as_one read.lines) ≤ read.len) }
    ensures within { IfOk result (λ read. read.len ≤ limit) }
    ensures enough { IfOk result (λ read. read.is_all ≡ false
        → limit < read.len + length read.rest.items) }
    ensures err { IfSome (R.remaining reader.old.inner)
        (λ text. IfErr result (λ e. IsAnswer limit text (Err e))) }
    ensures count { reader.new.failures ≡ (if is_device result then reader.old.failures + 1
        else reader.old.failures) }
{
    let mut rest = Vec::new(alloc);
    let is_all = fill(reader, &mut rest, first_portion(threads, portion))?;
    let mut read = PartlyRead {
        lines: ReadLines {
            front: None,
            behind: None,
        },
        len: 0,
        rest,
        spare: Vec::new(alloc),
        is_all,
    };
    while !read.is_all && read.len + read.rest.len() <= limit {
        read = match read_further(rt, alloc, reader, read, threads, portion) {
            Ok(read) => read,
            Err(fault) => return Err(fault),
        };
    }
    Ok(read)
}

/// Why a text that is longer than the limit is not read, before which so many lines come.
pub(crate) fn fault_within(alloc: Global, text: &[u8], before: usize, limit: usize) -> BaseFault
    requires long { limit < length text.now }
    requires few { before + length text.now < 2 ^ 64 - 1 }
    ensures { StopsWithin before limit text.now result }
{
    lines_are_read();
    if limit == 0 {
        return BaseFault::TooLong;
    }
    match check_lines(alloc, ended_front(text, limit)) {
        Ok(()) => BaseFault::TooLong,
        Err(BaseFault::BadLine(number)) => BaseFault::BadLine(before + number),
        Err(fault) => fault,
    }
}

/// Lets texts go that were read, where there are several threads by one that nobody waits for.
fn let_go<T: Threads + Sync>(rt: &T, texts: (Vec<u8>, Vec<u8>), threads: usize) {
    if threads <= 1 {
        drop(texts);
        return;
    }
    let _ = spawn(rt, move || drop(texts));
}

/// The answer to a text of which the last bytes have come, or more than the limit.
fn ended<T: Threads + Sync>(
    rt: &T,
    alloc: Global,
    read: PartlyRead,
    limit: usize,
    threads: usize,
) -> Result<DataSet, BaseFault>
    requires ends { ends_of (as_one read.lines) ≤ read.len }
    requires few { read.len + length read.rest.items < 2 ^ 64 - 1 }
    requires enough { read.is_all ≡ false → limit < read.len + length read.rest.items }
    requires within { read.len ≤ limit }
    requires some { 0 < limit }
    ensures answer { (text : List ℕ) (now : Option (List ℕ)) → IsPartlyRead (Some text) now read
        → IsAnswer limit text result }
    ensures device { is_device result ≡ false }
{
    lines_are_read();
    lists_unite();
    let PartlyRead {
        lines,
        len,
        rest,
        spare,
        ..
    } = read;
    if limit < len + rest.len() {
        let before = lines.ends();
        drop(lines);
        return Err(fault_within(alloc, rest.as_slice(), before, limit - len));
    }
    let read = match read_behind(rt, alloc, lines, rest.as_slice(), threads) {
        Ok(read) => read,
        Err(fault) => return Err(fault),
    };
    let_go(rt, (rest, spare), threads);
    let (front, last) = read;
    let whole = and_pieces(rt, front, last, threads)?;
    Ok(whole.dataset)
}

fn read_within_by<T: Threads + Sync, R: Read>(
    rt: &T,
    alloc: Global,
    reader: &mut Watched<R>,
    limit: usize,
    threads: usize,
    portion: usize,
) -> Result<DataSet, BaseFault>
    requires failures { reader.old.failures < 2 ^ 64 - 1 }
    requires some { 0 < limit }
    requires limit { limit < 2 ^ 32 }
    requires portion { portion < 2 ^ 32 }
    ensures answer { IfSome (R.remaining reader.old.inner) (λ text. IsAnswer limit text result) }
    ensures count { reader.new.failures ≡ (if is_device result then reader.old.failures + 1
        else reader.old.failures) }
{
    // No more than what tells that a text is too long.
    let portion = portion.min(limit);
    let read = read_lines_of(rt, alloc, reader, limit, threads, portion)?;
    ended(rt, alloc, read, limit, threads)
}

/// The same as `read`, in portions of some more than so many bytes, so that a longer text is not
/// held whole, unless several threads read many terms. The lines of each portion are read by so
/// many threads where they can be had.
pub fn read_by<T: Threads + Sync, R: Read>(
    rt: &T,
    alloc: Global,
    reader: &mut Watched<R>,
    threads: usize,
    portion: u32,
) -> Result<DataSet, BaseFault>
    requires { reader.old.failures < 2 ^ 64 - 1 }
    ensures answer { IfSome (R.remaining reader.old.inner) (λ text. IsAnswer (2 ^ 30) text result) }
    ensures count { reader.new.failures ≡ (if is_device result then reader.old.failures + 1
        else reader.old.failures) }
{
    read_within_by(rt, alloc, reader, MOST_BYTES, threads, portion as usize)
}
