//! The reader of a base, over a reader of bytes.
ghost use Rattle.std.specs.Prelude.{◌≡◌, ◌≤◌, ◌<◌, ◌+◌, ◌-◌, ◌^◌, ◌∷◌, [], ℕ, List, length, false, OnOk, MatchOption, IfOk, IfErr, IfSome, if◌then◌else◌};
ghost use Rattle.nquads_lines.specs.Lines.{lines};
ghost use Rattle.nquads.specs.Long.{front_within, but_last, IsAnswer, is_device};
ghost use Rattle.devices.specs.Front.{IsFront};
ghost use Rattle.nquads.specs.Checked.{first_bad, Checks};
ghost use Rattle.nquads.specs.Whole.{Faults};
ghost use Rattle.nquads_lines.specs.Reading.{line_of};

use crate::fault::BaseFault;
use crate::reader::{read_line, read_lines};
use devices::{Watched, front_of};
use nquads_lines::first_line;
use nquads_lines::laws::lines_are_read;
use std::alloc::Global;
use std::io::Read;
use terms::DataSet;
use terms::laws::lists_grow_as_datasets;

/// The most bytes of a base.
pub(crate) const MOST_BYTES: usize = 1_073_741_824;

/// The front of a text in which each line but the last has its end.
pub(crate) fn ended_front(bytes: &[u8], limit: usize) -> &[u8]
    requires long { limit < length bytes.now }
    requires some { 0 < limit }
    ensures { result.now ≡ front_within limit bytes.now }
{
    let parts_crlf = bytes[limit - 1] == b'\r' && bytes[limit] == b'\n';
    let most = if parts_crlf { limit - 1 } else { limit };
    let (front, _) = bytes.split_at(most);
    front
}

/// The first line of a text and what follows its end, if it has one.
#[tactic(auto, using(crate::proofs::LongLaws::but_last_more))]
fn ended_line(text: &[u8]) -> Option<(&[u8], &[u8])>
    ensures cut { MatchOption result (but_last (lines text.now) ≡ [])
        (λ x. but_last (lines text.now) ≡ x.0.now ∷ but_last (lines x.1.now)) }
    ensures shorter { IfSome result (λ x. length x.1.now < length text.now) }
{
    match first_line(text) {
        (line, Some(after)) => Some((line, after)),
        (_, None) => None,
    }
}

/// Whether a line, which has this number, says what a line may say.
fn check_line(alloc: Global, line: &[u8], number: usize) -> Result<(), BaseFault>
    ensures ok { OnOk result ((n : ℕ) (later : List (List ℕ))
        → first_bad n (line.now ∷ later) ≡ first_bad (n + 1) later) }
    ensures bad { IfErr result (λ e. Faults e number (line_of line.now)) }
{
    match read_line(alloc, line, number) {
        Ok(_) => Ok(()),
        Err(fault) => Err(fault),
    }
}

/// Whether no line but the last is bad, or the first that is.
pub(crate) fn check_lines(alloc: Global, bytes: &[u8]) -> Result<(), BaseFault>
    ensures { Checks result (first_bad 0 (but_last (lines bytes.now))) }
{
    let mut number = 0;
    let mut rest = bytes;
    while let Some((line, after)) = ended_line(rest) {
        number += 1;
        check_line(alloc, line, number)?;
        rest = after;
    }
    Ok(())
}

/// The answer to a text of which these are the first bytes, all of them if they are within the
/// limit.
fn answer(alloc: Global, bytes: &[u8], limit: usize) -> Result<DataSet, BaseFault>
    requires { 0 < limit }
    ensures answer { (text : List ℕ) → IsFront limit text bytes.now → IsAnswer limit text result }
    ensures device { is_device result ≡ false }
{
    lines_are_read();
    lists_grow_as_datasets();
    if bytes.len() <= limit {
        return read_lines(alloc, bytes);
    }
    match check_lines(alloc, ended_front(bytes, limit)) {
        Ok(()) => Err(BaseFault::TooLong),
        Err(fault) => Err(fault),
    }
}

fn read_within<R: Read>(
    alloc: Global,
    reader: &mut Watched<R>,
    limit: usize,
) -> Result<DataSet, BaseFault>
    requires failures { reader.old.failures < 2 ^ 64 - 1 }
    requires some { 0 < limit }
    requires limit { limit < 2 ^ 32 }
    ensures answer { IfSome (R.remaining reader.old.inner) (λ text. IsAnswer limit text result) }
    ensures count { reader.new.failures ≡ (if is_device result then reader.old.failures + 1
        else reader.old.failures) }
{
    let bytes = front_of(alloc, reader, limit)?;
    answer(alloc, bytes.as_slice(), limit)
}

/// The dataset that the bytes of a reader spell, of which there may be 2^30. `OutOfMemory` and
/// `Device` may come at any text, `Device` only where a read failed; `BadLine` and `TooLong` say
/// what is wrong with the text.
pub fn read<R: Read>(alloc: Global, reader: &mut Watched<R>) -> Result<DataSet, BaseFault>
    requires { reader.old.failures < 2 ^ 64 - 1 }
    ensures answer { IfSome (R.remaining reader.old.inner) (λ text. IsAnswer (2 ^ 30) text result) }
    ensures count { reader.new.failures ≡ (if is_device result then reader.old.failures + 1
        else reader.old.failures) }
{
    read_within(alloc, reader, MOST_BYTES)
}
