//! The lines of a journal, from its bytes.
ghost use Rattle.std.specs.Prelude.{◌≡◌, ◌≤◌, ◌<◌, ◌++◌, ℕ, List, length, drop, nat_eq, true, false, IfOk, IfErr, IsErrOf, MatchOption, MatchResult, None, Some};
ghost use Rattle.std.specs.List.{prefix_len, starts_with};
ghost use Rattle.std.specs.Str.{is_utf8};
ghost use Rattle.std.specs.Cmp.Lexicographic.{pointwise};
ghost use Rattle.iris.specs.Runs.{run_of, rest_of};
ghost use Rattle.nquads_lines.specs.Lines.{is_inner};
ghost use Rattle.nquads_lines.specs.Reading.{Gives};
ghost use Rattle.canonical_nquads.specs.Tag.{mark_of};
ghost use Rattle.journal.specs.declared.lines.Line.{Line};
ghost use Rattle.journal.specs.Text.{line_body, line_text, first_line};
ghost use Rattle.journal.specs.Lines.{IsLine};
ghost use Rattle.journal.specs.Journal.{IsJournal, IsForeign, IsBadBehind, IsFirstBad};
ghost use Rattle.journal.specs.Entry.{after_lf, line_at, entry_at, has_line, Faults, IsCutShort};

use crate::entries::line_of;
use crate::fault::JournalFault;
use crate::laws::{entries_are_lines, one_journal};
use crate::lines::Line;
use crate::writer::{FIRST_LINE, push_body};
use canonical_nquads::mark_of;
use iris::laws::run_by_length;
use nquads_lines::Stop;
use std::alloc::{AllocError, Global};

fn is_inner(b: u8) -> bool
    ensures { result ≡ is_inner b }
{
    b != b'\n' && b != b'\r'
}

/// How many bytes stand before the first line end.
fn line_len(text: &[u8]) -> usize
    ensures within { result ≤ length text.now }
    ensures run { result ≡ prefix_len is_inner text.now }
{
    text.iter().take_while(|b| is_inner(**b)).count()
}

/// What follows an LF.
fn after_lf(text: &[u8]) -> Option<&[u8]>
    ensures { MatchOption result (after_lf text.now ≡ None)
        (λ rest. after_lf text.now ≡ Some rest.now) }
{
    match text {
        [b'\n', rest @ ..] => Some(rest),
        _ => None,
    }
}

/// Whether these bytes are the text of a line, without its end.
fn is_body(alloc: Global, line: &Line, tag: u32, bytes: &[u8]) -> Result<bool, AllocError>
    ensures { IfOk result (λ same. same ≡ pointwise nat_eq (line_body tag line.now) bytes.now) }
{
    let mut text = Vec::new(alloc);
    push_body(alloc, &mut text, line, tag)?;
    Ok(text.as_slice() == bytes)
}

/// The line that these bytes are the text of.
#[tactic(auto, unfolding(crate::specs::Entry::line_at))]
fn line_at(alloc: Global, tag: u32, mark: &[u8], bytes: &[u8]) -> Result<Line, Stop>
    ensures read { Gives (λ x. x) result (line_at tag mark.now bytes.now) }
    ensures form { IfOk result (λ l. IsLine mark.now l) }
    ensures encoded { is_utf8 bytes.now ≡ false → IsErrOf result Stop.Bad }
{
    let line = line_of(alloc, mark, bytes)?;
    if !is_body(alloc, &line, tag, bytes)? {
        return Err(Stop::Bad);
    }
    Ok(line)
}

/// The line at the front of a text, and what follows it. Where it has no end, or is no UTF-8, it is
/// bad, and never want of memory.
#[tactic(auto, unfolding(crate::specs::Entry::entry_at))]
fn entry_at<'a>(
    alloc: Global,
    tag: u32,
    mark: &[u8],
    text: &'a [u8],
) -> Result<(Line, &'a [u8]), Stop>
    ensures read { Gives (λ x. (x.0, x.1.now)) result (entry_at tag mark.now text.entry.now) }
    ensures form { IfOk result (λ x. IsLine mark.now x.0) }
    ensures none { has_line text.entry.now ≡ false → IsErrOf result Stop.Bad }
{
    run_by_length();
    let (line, rest) = text.split_at(line_len(text));
    let Some(rest) = after_lf(rest) else {
        return Err(Stop::Bad);
    };
    Ok((line_at(alloc, tag, mark, line)?, rest))
}

/// The line of this entry at the front of a text, and what follows it.
fn next_entry<'a>(
    alloc: Global,
    tag: u32,
    mark: &[u8],
    text: &'a [u8],
    number: u64,
) -> Result<(Line, &'a [u8]), JournalFault>
    requires { mark.now ≡ mark_of tag }
    ensures text { IfOk result (λ x. text.entry.now ≡ line_text tag x.0 ++ x.1.now) }
    ensures form { IfOk result (λ x. IsLine mark.now x.0) }
    ensures bad { IfErr result (λ e. Faults tag text.entry.now number e) }
    ensures none { has_line text.entry.now ≡ false
        → IsErrOf result (JournalFault.BadEntry number) }
{
    entries_are_lines();
    match entry_at(alloc, tag, mark, text) {
        Ok(entry) => Ok(entry),
        Err(Stop::Memory) => Err(JournalFault::OutOfMemory),
        Err(Stop::Bad) => Err(JournalFault::BadEntry(number)),
    }
}

/// The lines behind the first line of a journal.
fn read_lines(alloc: Global, tag: u32, mark: &[u8], text: &[u8]) -> Result<Vec<Line>, JournalFault>
    requires { mark.now ≡ mark_of tag }
    ensures lines { IfOk result (λ v. IsJournal tag (first_line ++ text.now) v.items) }
    ensures bad { (n : ℕ) → IsErrOf result (JournalFault.BadEntry n)
        → IsBadBehind tag (first_line ++ text.now) n }
    ensures legal { (n : ℕ) → IsErrOf result (JournalFault.Illegal n) → ⊥ }
    ensures memory { IsErrOf result JournalFault.OutOfMemory
        → IsCutShort tag (first_line ++ text.now) }
{
    let mut lines = Vec::new(alloc);
    let mut rest = text;
    while !rest.is_empty() {
        let number = lines.len() as u64 + 1;
        match next_entry(alloc, tag, mark, rest, number) {
            Ok((line, after)) => {
                lines.push(line)?;
                rest = after;
            }
            Err(fault) => return Err(fault),
        }
    }
    Ok(lines)
}

/// What follows the first line of a journal.
fn after_first_line(bytes: &[u8]) -> Option<&[u8]>
    ensures { MatchOption result (starts_with nat_eq bytes.now first_line ≡ false)
        (λ rest. (starts_with nat_eq bytes.now first_line ≡ true)
        × (rest.now ≡ drop (length first_line) bytes.now)) }
{
    if !bytes.starts_with(FIRST_LINE) {
        return None;
    }
    Some(&bytes[FIRST_LINE.len()..])
}

fn read_bytes(alloc: Global, bytes: &[u8], tag: u32) -> Result<Vec<Line>, JournalFault>
    ensures lines { IfOk result (λ v. IsJournal tag bytes.now v.items) }
    ensures bad { (n : ℕ) → IsErrOf result (JournalFault.BadEntry n) → IsFirstBad tag bytes.now n }
    ensures legal { (n : ℕ) → IsErrOf result (JournalFault.Illegal n) → ⊥ }
    ensures foreign { IsForeign bytes.now → IsErrOf result (JournalFault.BadEntry 0) }
{
    let Some(text) = after_first_line(bytes) else {
        return Err(JournalFault::BadEntry(0));
    };
    let mark = mark_of(alloc, tag)?;
    read_lines(alloc, tag, mark.as_slice(), text)
}

/// The lines that these bytes are the text of, with the base's tag in the labels of made nodes.
/// `BadEntry` tells of the first entry whose line is no line's text, counted from 1, or 0 where the
/// first line is another. `OutOfMemory` may come at any bytes behind the first line, and `Illegal`
/// never.
pub fn read_journal(alloc: Global, bytes: &[u8], tag: u32) -> Result<Vec<Line>, JournalFault>
    ensures lines { IfOk result (λ v. IsJournal tag bytes.now v.items) }
    ensures bad { (n : ℕ) → IsErrOf result (JournalFault.BadEntry n) → IsFirstBad tag bytes.now n }
    ensures legal { (n : ℕ) → IsErrOf result (JournalFault.Illegal n) → ⊥ }
    // Another first line is bad, whatever the memory.
    ensures foreign { IsForeign bytes.now → IsErrOf result (JournalFault.BadEntry 0) }
    // What is a journal is read, unless memory runs out.
    ensures only { (lines : List Line) → IsJournal tag bytes.now lines
        → MatchResult result (λ v. v.items ≡ lines) (λ e. e ≡ JournalFault.OutOfMemory) }
{
    one_journal();
    read_bytes(alloc, bytes, tag)
}
