//! The texts of an answer, made before any writer is touched.
ghost use Rattle.std.specs.Prelude.{◌≡◌, ◌<◌, ◌+◌, ◌-◌, ◌^◌, ◌⊎◌, true, is_ok, if◌then◌else◌, OnOk, OnErr, IfErr, string_bytes};
ghost use Rattle.engines.specs.Failures.{is_unwritten, is_journal_unwritten, FailedIf, OneFailedIf};
ghost use Rattle.canonical_nquads.specs.Canonical.{text_of_pieces};
ghost use Rattle.engines.specs.Outputs.{Grew, GrewInPart, IfTouched, IsPart, taken};
ghost use Rattle.command_line.specs.declared.fault.Fault.TheVariants.{CannotWrite};
ghost use Rattle.command_line.specs.declared.fault.File.TheVariants.{Answer, Journal};

use crate::engine::Runs;
use command_line::{Fault, File};
use devices::{Failed, Watched};
use std::io::Write;

/// The canonical text of the new dataset, in pieces that stand one behind another, and the reply
/// lines.
#[derive(Drop)]
pub struct Texts {
    pub dataset: Vec<Vec<u8>>,
    pub replies: String,
}

/// Writes a text and flushes it, also where it is empty. An `Err` comes where a write or the flush
/// failed.
fn write_and_flush<W: Write>(writer: &mut Watched<W>, text: &[u8]) -> Result<(), Failed>
    requires { writer.old.failures < 2 ^ 64 - 1 }
    ensures ok { OnOk result (Grew (taken W.contents writer.old.inner writer.new.inner) text.now) }
    ensures part { OnErr result (GrewInPart (taken W.contents writer.old.inner writer.new.inner)
        text.now) }
    ensures flushed { OnOk result (writer.new.is_flushed ≡ true) }
    ensures count { writer.new.failures ≡ (if is_ok result then writer.old.failures
        else writer.old.failures + 1) }
{
    match writer.write_all(text) {
        Ok(()) => writer.flush(),
        Err(failed) => Err(failed),
    }
}

/// Writes a text of the answer and flushes it, also where it is empty. An `Err` comes where a write
/// or the flush failed.
pub(crate) fn write_text<W: Write>(writer: &mut Watched<W>, text: &[u8]) -> Result<(), Fault>
    requires { writer.old.failures < 2 ^ 64 - 1 }
    ensures ok { OnOk result (Grew (taken W.contents writer.old.inner writer.new.inner) text.now) }
    ensures part { OnErr result (GrewInPart (taken W.contents writer.old.inner writer.new.inner)
        text.now) }
    ensures flushed { OnOk result (writer.new.is_flushed ≡ true) }
    ensures failures { FailedIf (is_unwritten result) writer.old.failures writer.new.failures }
    ensures fault { IfErr result (λ fault. fault ≡ CannotWrite Answer) }
{
    match write_and_flush(writer, text) {
        Ok(()) => Ok(()),
        Err(_) => Err(Fault::CannotWrite(File::Answer)),
    }
}

/// Writes the text of a journal and flushes it, also where it is empty. An `Err` comes where a
/// write or the flush failed.
pub fn write_journal<W: Write>(writer: &mut Watched<W>, text: &[u8]) -> Result<(), Fault>
    requires { writer.old.failures < 2 ^ 64 - 1 }
    ensures ok { OnOk result (Grew (taken W.contents writer.old.inner writer.new.inner) text.now) }
    ensures part { OnErr result (GrewInPart (taken W.contents writer.old.inner writer.new.inner)
        text.now) }
    ensures flushed { OnOk result (writer.new.is_flushed ≡ true) }
    ensures failures { FailedIf (is_journal_unwritten result) writer.old.failures
        writer.new.failures }
    ensures fault { IfErr result (λ fault. fault ≡ CannotWrite Journal) }
{
    match write_and_flush(writer, text) {
        Ok(()) => Ok(()),
        Err(_) => Err(Fault::CannotWrite(File::Journal)),
    }
}

/// Writes the pieces of a text, one after another, and lets each go that is written. An `Err` comes
/// where a write failed.
fn write_pieces<Y: Runs, W: Write>(
    way: &Y,
    writer: &mut Watched<W>,
    pieces: Vec<Vec<u8>>,
) -> Result<(), Failed>
    requires ready { Y.Ready }
    requires failures { writer.old.failures < 2 ^ 64 - 1 }
    ensures ok { OnOk result (Grew (taken W.contents writer.old.inner writer.new.inner)
        (text_of_pieces pieces.items)) }
    ensures part { OnErr result (GrewInPart (taken W.contents writer.old.inner writer.new.inner)
        (text_of_pieces pieces.items)) }
    ensures count { writer.new.failures ≡ (if is_ok result then writer.old.failures
        else writer.old.failures + 1) }
{
    for piece in pieces {
        writer.write_all(piece.as_slice())?;
        way.let_go(piece);
    }
    Ok(())
}

/// The same, and flushes the writer, also where the text is empty. An `Err` comes where a write or
/// the flush failed.
fn write_pieces_and_flush<Y: Runs, W: Write>(
    way: &Y,
    writer: &mut Watched<W>,
    pieces: Vec<Vec<u8>>,
) -> Result<(), Failed>
    requires ready { Y.Ready }
    requires failures { writer.old.failures < 2 ^ 64 - 1 }
    ensures ok { OnOk result (Grew (taken W.contents writer.old.inner writer.new.inner)
        (text_of_pieces pieces.items)) }
    ensures part { OnErr result (GrewInPart (taken W.contents writer.old.inner writer.new.inner)
        (text_of_pieces pieces.items)) }
    ensures flushed { OnOk result (writer.new.is_flushed ≡ true) }
    ensures count { writer.new.failures ≡ (if is_ok result then writer.old.failures
        else writer.old.failures + 1) }
{
    write_pieces(way, writer, pieces)?;
    writer.flush()
}

/// Writes the dataset's text, of which these are the pieces, and flushes it, also where it is
/// empty. An `Err` comes where a write or the flush failed.
fn write_dataset<Y: Runs, W: Write>(
    way: &Y,
    writer: &mut Watched<W>,
    pieces: Vec<Vec<u8>>,
) -> Result<(), Fault>
    requires ready { Y.Ready }
    requires failures { writer.old.failures < 2 ^ 64 - 1 }
    ensures ok { OnOk result (Grew (taken W.contents writer.old.inner writer.new.inner)
        (text_of_pieces pieces.items)) }
    ensures part { OnErr result (GrewInPart (taken W.contents writer.old.inner writer.new.inner)
        (text_of_pieces pieces.items)) }
    ensures flushed { OnOk result (writer.new.is_flushed ≡ true) }
    ensures failures { FailedIf (is_unwritten result) writer.old.failures writer.new.failures }
    ensures fault { IfErr result (λ fault. fault ≡ CannotWrite Answer) }
{
    match write_pieces_and_flush(way, writer, pieces) {
        Ok(()) => Ok(()),
        Err(_) => Err(Fault::CannotWrite(File::Answer)),
    }
}

/// Writes the dataset and flushes it, and then the replies, each also where it is empty. An `Err`
/// comes where a write or a flush failed.
pub fn write_texts<Y: Runs, D: Write, A: Write>(
    way: &Y,
    texts: Texts,
    dataset: &mut Watched<D>,
    replies: &mut Watched<A>,
) -> Result<(), Fault>
    requires ready { Y.Ready }
    requires dataset { dataset.old.failures < 2 ^ 64 - 1 }
    requires replies { replies.old.failures < 2 ^ 64 - 1 }
    ensures dataset { OnOk result (Grew (taken D.contents dataset.old.inner dataset.new.inner)
        (text_of_pieces texts.dataset.items)) }
    ensures replies { OnOk result (Grew (taken A.contents replies.old.inner replies.new.inner)
        (string_bytes texts.replies)) }
    // After a failed write the texts before it are whole, and of its own a beginning was written.
    ensures part { OnErr result (IsPart (taken D.contents dataset.old.inner dataset.new.inner)
        (taken A.contents replies.old.inner replies.new.inner)
        (text_of_pieces texts.dataset.items) (string_bytes texts.replies)) }
    ensures flushed { OnOk result ((dataset.new.is_flushed ≡ true)
        × (replies.new.is_flushed ≡ true)) }
    // The replies are touched only once the dataset is flushed.
    ensures in_turn { IfTouched replies.old replies.new (dataset.new.is_flushed ≡ true) }
    ensures failures { OneFailedIf (is_unwritten result) dataset.old.failures dataset.new.failures
        replies.old.failures replies.new.failures }
    ensures fault { IfErr result (λ fault. fault ≡ CannotWrite Answer) }
{
    write_dataset(way, dataset, texts.dataset)?;
    write_text(replies, texts.replies.as_bytes())
}
