//! What is kept of a base that comes in pieces.
ghost use Rattle.std.specs.Prelude.{◌≡◌, ◌≤◌, ◌<◌, ◌+◌, ◌-◌, ◌^◌, ◌++◌, ◌∷◌, ℕ, List, [], true, false, length, take, drop, IfOk, IfErr, IfSome, OnOk, OnErr, MatchOption};
ghost use Rattle.nquads.specs.Fed.{Stops};
ghost use Rattle.nquads.specs.Feeding.{EndsBefore, HasMore, IsSame, Keeps, StopsAmong, is_begun};
ghost use Rattle.nquads.specs.Long.{IsAnswer, is_device};
ghost use Rattle.nquads.specs.Portions.{IsReadText, StopsBehind, StopsWithin};
ghost use Rattle.nquads_lines.specs.Lines.{lines};

use crate::fault::BaseFault;
use crate::portions::{fault_within, read_after};
use crate::reader::{ReadText, add_line};
use nquads_lines::first_line;
use nquads_lines::laws::lines_are_read;
use std::alloc::{AllocError, Global};
use terms::DataSet;
use terms::laws::{lists_grow_as_datasets, lists_unite};

/// What is kept of the bytes that have come.
#[derive(Drop)]
pub struct Kept {
    /// What their whole lines say, and how many they are.
    pub read: ReadText,
    /// How many bytes those have.
    pub len: usize,
    /// The bytes behind them, in which no line's end is known.
    pub rest: Vec<u8>,
}

/// Nothing has come.
pub(crate) fn nothing_kept(alloc: Global) -> Kept
    ensures kept { Keeps [] result }
    ensures ends { result.read.ends ≡ 0 }
    ensures len { result.len ≡ 0 }
    ensures rest { result.rest.items ≡ [] }
{
    Kept {
        read: ReadText {
            dataset: DataSet::new(alloc),
            ends: 0,
        },
        len: 0,
        rest: Vec::new(alloc),
    }
}

/// Where the last line ends whose end is known, if none is known before this place.
fn known_end(bytes: &[u8], from: usize) -> Option<usize>
    requires { from ≤ length bytes.now }
    ensures { MatchOption result
        (is_begun (take from bytes.now) ≡ true → is_begun bytes.now ≡ true)
        (λ end. (end ≤ length bytes.now) × EndsBefore (take end bytes.now) (drop end bytes.now)
        × (is_begun (drop end bytes.now) ≡ true)) }
{
    let first = from.max(1);
    let mut end = bytes.len();
    while end >= first {
        if bytes[end - 1] == b'\n' {
            return Some(end);
        }
        if bytes[end - 1] == b'\r' && end < bytes.len() {
            return Some(end);
        }
        end -= 1;
    }
    None
}

/// Takes the first bytes away. The others get their room.
fn cut_off(bytes: &mut Vec<u8>, end: usize)
    requires { end ≤ length bytes.old.items }
    ensures { bytes.new.items ≡ drop end bytes.old.items }
{
    let left = bytes.len() - end;
    bytes.copy_within(end.., 0);
    bytes.truncate(left);
}

/// The line that a text is with its end, if it is one line.
fn lone_line(text: &[u8]) -> Option<&[u8]>
    ensures lines { IfSome result (λ line. lines text.now ≡ line.now ∷ [] ∷ []) }
    ensures some { IfSome result (λ line. 0 < length text.now) }
{
    match first_line(text) {
        (line, Some(after)) if after.is_empty() => Some(line),
        _ => None,
    }
}

/// Reads a text behind the whole lines that were read. What a lone line says is put into their
/// dataset at once: a table of its own would cost more than the line. An `Err` leaves all as it
/// was.
fn read_more(alloc: Global, read: &mut ReadText, text: &[u8]) -> Result<(), BaseFault>
    requires { read.old.ends + length text.now < 2 ^ 64 - 1 }
    ensures ok { OnOk result ((front : List ℕ) → IsReadText front read.old
        → HasMore text.now read.old read.new) }
    ensures ends { OnOk result (read.new.ends ≤ read.old.ends + length text.now) }
    ensures err { IfErr result (StopsBehind read.old.ends text.now) }
    ensures same { OnErr result (read.new ≡ read.old) }
{
    lines_are_read();
    lists_grow_as_datasets();
    lists_unite();
    if let Some(line) = lone_line(text) {
        match add_line(alloc, &mut read.dataset, line, read.ends + 1) {
            Ok(()) => {}
            Err(fault) => return Err(fault),
        }
        read.ends += 1;
        return Ok(());
    }
    let more = match read_after(alloc, text, read.ends) {
        Ok(more) => more,
        Err(fault) => return Err(fault),
    };
    match read.dataset.unite(more.dataset) {
        Ok(()) => {}
        Err(_) => return Err(BaseFault::OutOfMemory),
    }
    read.ends += more.ends;
    Ok(())
}

/// Reads the first of the bytes that are behind the whole lines, where they are whole lines too. An
/// `Err` leaves all as it was.
fn read_first(kept: &mut Kept, end: usize) -> Result<(), BaseFault>
    requires end { end ≤ length kept.old.rest.items }
    requires ends { kept.old.read.ends ≤ kept.old.len }
    requires few { kept.old.len + length kept.old.rest.items < 2 ^ 32 }
    ensures ok { OnOk result ((front : List ℕ) → IsReadText front kept.old.read
        → HasMore (take end kept.old.rest.items) kept.old.read kept.new.read) }
    ensures ends { kept.new.read.ends ≤ kept.new.len }
    ensures len { OnOk result (kept.new.len ≡ kept.old.len + end) }
    ensures rest { OnOk result (kept.new.rest.items ≡ drop end kept.old.rest.items) }
    ensures err { IfErr result (StopsBehind kept.old.read.ends (take end kept.old.rest.items)) }
    ensures same { OnErr result (IsSame kept.old kept.new) }
{
    let alloc = *kept.rest.allocator();
    let (text, _) = kept.rest.as_slice().split_at(end);
    match read_more(alloc, &mut kept.read, text) {
        Ok(()) => {}
        Err(fault) => return Err(fault),
    }
    kept.len += end;
    cut_off(&mut kept.rest, end);
    Ok(())
}

/// Takes in bytes that follow, and reads the lines whose end is known with them. Only these bytes
/// are looked at for that. An `Err` leaves all as it was.
pub(crate) fn take_in(kept: &mut Kept, piece: &[u8]) -> Result<(), BaseFault>
    requires ends { kept.old.read.ends ≤ kept.old.len }
    requires few { kept.old.len + length kept.old.rest.items + length piece.now < 2 ^ 32 }
    ensures ok { OnOk result ((bytes : List ℕ) → Keeps bytes kept.old
        → Keeps (bytes ++ piece.now) kept.new) }
    ensures ends { kept.new.read.ends ≤ kept.new.len }
    ensures len { OnOk result (kept.new.len + length kept.new.rest.items
        ≡ kept.old.len + length kept.old.rest.items + length piece.now) }
    ensures err { IfErr result (λ e. (bytes : List ℕ) → Keeps bytes kept.old
        → StopsAmong (bytes ++ piece.now) e) }
    ensures same { OnErr result (IsSame kept.old kept.new) }
{
    lines_are_read();
    lists_unite();
    let before = kept.rest.len();
    kept.rest.extend_from_slice(piece)?;
    let Some(end) = known_end(kept.rest.as_slice(), before) else {
        return Ok(());
    };
    match read_first(kept, end) {
        Ok(()) => Ok(()),
        Err(fault) => {
            kept.rest.truncate(before);
            Err(fault)
        }
    }
}

/// Two texts as one.
fn joined(alloc: Global, first: &[u8], rest: &[u8]) -> Result<Vec<u8>, AllocError>
    ensures { IfOk result (λ text. text.items ≡ first.now ++ rest.now) }
{
    let mut text = Vec::from_slice(alloc, first)?;
    text.extend_from_slice(rest)?;
    Ok(text)
}

/// Why no more is taken where bytes that follow make more than the limit.
pub(crate) fn fault_with(kept: &Kept, piece: &[u8], limit: usize) -> BaseFault
    requires ends { kept.now.read.ends ≤ kept.now.len }
    requires few { kept.now.len + length kept.now.rest.items < 2 ^ 32 }
    requires within { kept.now.len ≤ limit }
    requires long { limit < kept.now.len + length kept.now.rest.items + length piece.now }
    ensures { StopsWithin kept.now.read.ends (limit - kept.now.len)
        (kept.now.rest.items ++ piece.now) result }
{
    let alloc = *kept.rest.allocator();
    match joined(alloc, kept.rest.as_slice(), piece) {
        Ok(text) => fault_within(alloc, text.as_slice(), kept.read.ends, limit - kept.len),
        Err(_) => BaseFault::OutOfMemory,
    }
}

/// Takes in bytes that follow, unless they make more than the limit. An `Err` leaves all as it was.
pub(crate) fn take_within(kept: &mut Kept, piece: &[u8], limit: usize) -> Result<(), BaseFault>
    requires ends { kept.old.read.ends ≤ kept.old.len }
    requires within { kept.old.len + length kept.old.rest.items ≤ limit }
    requires most { limit < 2 ^ 32 }
    ensures ok { OnOk result ((bytes : List ℕ) → Keeps bytes kept.old
        → Keeps (bytes ++ piece.now) kept.new) }
    ensures ends { kept.new.read.ends ≤ kept.new.len }
    ensures within { kept.new.len + length kept.new.rest.items ≤ limit }
    ensures len { OnOk result (kept.new.len + length kept.new.rest.items
        ≡ kept.old.len + length kept.old.rest.items + length piece.now) }
    ensures err { IfErr result (λ e. (bytes : List ℕ) → Keeps bytes kept.old
        → Stops limit (bytes ++ piece.now) e) }
    ensures same { OnErr result (IsSame kept.old kept.new) }
{
    lines_are_read();
    if kept.len + kept.rest.len() + piece.len() > limit {
        return Err(fault_with(kept, piece, limit));
    }
    take_in(kept, piece)
}

/// What all that has come is answered, where no more comes.
pub(crate) fn answer(kept: Kept) -> Result<DataSet, BaseFault>
    requires ends { kept.read.ends ≤ kept.len }
    requires few { kept.len + length kept.rest.items < 2 ^ 32 }
    ensures answer { (limit : ℕ) (bytes : List ℕ) → Keeps bytes kept → length bytes ≤ limit
        → IsAnswer limit bytes result }
    ensures device { is_device result ≡ false }
{
    lines_are_read();
    lists_unite();
    let Kept { read, rest, .. } = kept;
    let alloc = *rest.allocator();
    let last = match read_after(alloc, rest.as_slice(), read.ends) {
        Ok(last) => last,
        Err(fault) => return Err(fault),
    };
    let mut dataset = read.dataset;
    dataset.unite(last.dataset)?;
    Ok(dataset)
}
