//! The engine of the command `replay`.
ghost use Rattle.std.specs.Prelude.{◌≡◌, ◌≢◌, ◌<◌, ◌≤◌, ◌-◌, ◌^◌, true, length, IfOk, IfErr, IfSome, OnOk, IsErrOf, string_bytes};
ghost use Rattle.book.specs.Run.{HasAllTerms};
ghost use Rattle.update.specs.Asked.{AreShort};
ghost use Rattle.canonical_nquads.specs.Canonical.{text_of_pieces};
ghost use Rattle.engines.specs.Failures.{is_unread, is_unwritten, FailedIf, OneFailedIf};
ghost use Rattle.engines.specs.Journals.{IsFaultOfLines, IsFaultOfReplay, IsFrontOf, IsReplay, IsReplayFault, WroteReplay, WroteReplayInPart, journal_fault as the_journal_fault};
ghost use Rattle.engines.specs.Outputs.{IfBoth, IfTouched, taken};

use crate::engine::{Runs, texts_of_outcome};
use crate::in_order::OneByOne;
use crate::inputs::{read_base, read_block, read_journal_bytes};
use crate::outputs::{Texts, write_texts};
use command_line::{Fault, File};
use delta::Outcome;
use devices::Watched;
use journal::{JournalFault, Line, read_journal};
use numbering::Numbered;
use numbering::laws::carries_block;
use replay::replay;
use rules::Block;
use std::alloc::Global;
use std::io::{Read, Write};
use terms::DataSet;

/// What the program tells of a journal that was not taken.
fn journal_fault(fault: JournalFault) -> Fault
    ensures { result ≡ the_journal_fault fault }
{
    match fault {
        JournalFault::OutOfMemory => Fault::Memory,
        JournalFault::BadEntry(number) => Fault::BadEntry(number),
        JournalFault::Illegal(number) => Fault::Illegal(number),
    }
}

/// The outcome of the requests that are committed behind a journal's lines, at numbers of terms.
fn outcome_of_lines(alloc: Global, numbered: &Numbered, lines: &[Line]) -> Result<Outcome, Fault>
    requires few { length numbered.now.block.items < 2 ^ 32 }
    requires short { AreShort numbered.now.block.items }
    requires terms { HasAllTerms numbered.now.base.terms numbered.now.base.dataset
        numbered.now.block.items }
    ensures outcome { IfOk result (IsFrontOf numbered.now.base numbered.now.block.items lines.now) }
    ensures fault { IfErr result (IsFaultOfLines numbered.now.base numbered.now.block.items
        lines.now) }
{
    let (base, block) = (&numbered.base, numbered.block.as_slice());
    let book = match replay(alloc, base.terms(), base.dataset(), block, lines) {
        Ok(book) => book,
        Err(fault) => return Err(journal_fault(fault)),
    };
    // (for the proof: it is a history)
    let _journal = book.journal();
    let made = book.outcome(alloc);
    drop(book);
    match made {
        Ok(outcome) => Ok(outcome),
        Err(_) => Err(Fault::Memory),
    }
}

/// The texts of the answer to the requests that are committed behind a journal.
fn texts_of_journal(
    alloc: Global,
    base: DataSet,
    block: Block,
    journal: Vec<u8>,
) -> Result<Texts, Fault>
    requires few { length block ≤ 4096 }
    requires short { AreShort block }
    ensures answer { IfOk result (λ texts. IsReplay base block journal.items
        (text_of_pieces texts.dataset.items) (string_bytes texts.replies)) }
    ensures fault { IfErr result (IsReplayFault base block journal.items) }
{
    carries_block();
    let _parts = base.parts();
    let Ok(numbered) = OneByOne.number(alloc, base, block) else {
        return Err(Fault::Memory);
    };
    let lines = match read_journal(alloc, journal.as_slice(), numbered.base.tag()) {
        Ok(lines) => lines,
        Err(fault) => return Err(journal_fault(fault)),
    };
    drop(journal);
    let outcome = outcome_of_lines(alloc, &numbered, lines.as_slice())?;
    drop(lines);
    match texts_of_outcome(&OneByOne, alloc, numbered, outcome) {
        Ok(texts) => Ok(texts),
        Err(_) => Err(Fault::Memory),
    }
}

/// Reads a base, a block and a journal, replays the journal, and writes the canonical text of the
/// dataset that its committed requests end with and one line for each of them, also where they are
/// not the whole block. The base is read before the block and the block before the journal, and all
/// texts are made before a writer is touched; then the dataset is written and flushed, and then the
/// replies are, each also where it is empty. A fault is the first that comes: of the base, of the
/// block, of the journal, want of memory, or of a writer.
pub fn replay_engine<B: Read, K: Read, J: Read, D: Write, A: Write>(
    alloc: Global,
    base: &mut Watched<B>,
    block: &mut Watched<K>,
    journal: &mut Watched<J>,
    dataset: &mut Watched<D>,
    replies: &mut Watched<A>,
) -> Result<(), Fault>
    requires base { base.old.failures < 2 ^ 64 - 1 }
    requires block { block.old.failures < 2 ^ 64 - 1 }
    requires journal { journal.old.failures < 2 ^ 64 - 1 }
    requires dataset { dataset.old.failures < 2 ^ 64 - 1 }
    requires replies { replies.old.failures < 2 ^ 64 - 1 }
    // What was written is the answer to the requests that are committed behind the journal.
    ensures answer { OnOk result (IfBoth (B.remaining base.old.inner) (K.remaining block.old.inner)
        (λ b k. IfSome (J.remaining journal.old.inner)
        (λ j. WroteReplay b k j (taken D.contents dataset.old.inner dataset.new.inner)
        (taken A.contents replies.old.inner replies.new.inner)))) }
    // Both texts were flushed, also where they are empty.
    ensures flushed { OnOk result ((dataset.new.is_flushed ≡ true)
        × (replies.new.is_flushed ≡ true)) }
    // The replies are touched only once the dataset is flushed.
    ensures in_turn { IfTouched replies.old replies.new (dataset.new.is_flushed ≡ true) }
    // After a failed write the texts before it are whole, and of its own a beginning was written.
    ensures part { IsErrOf result (Fault.CannotWrite File.Answer)
        → IfBoth (B.remaining base.old.inner) (K.remaining block.old.inner)
        (λ b k. IfSome (J.remaining journal.old.inner)
        (λ j. WroteReplayInPart b k j (taken D.contents dataset.old.inner dataset.new.inner)
        (taken A.contents replies.old.inner replies.new.inner))) }
    // Any other fault comes before a writer is touched.
    ensures untouched { IfErr result (λ fault. fault ≢ Fault.CannotWrite File.Answer
        → (dataset.new ≡ dataset.old) × (replies.new ≡ replies.old)) }
    // Each fault is told only where it is there.
    ensures fault { IfErr result (λ fault. IfBoth (B.remaining base.old.inner)
        (K.remaining block.old.inner) (λ b k.
        IfSome (J.remaining journal.old.inner) (λ j. IsFaultOfReplay b k j fault))) }
    // A device that failed is told, and only where one did.
    ensures base_failures { FailedIf (is_unread File.Base result) base.old.failures
        base.new.failures }
    ensures block_failures { FailedIf (is_unread File.Block result) block.old.failures
        block.new.failures }
    ensures journal_failures { FailedIf (is_unread File.Journal result) journal.old.failures
        journal.new.failures }
    ensures write_failures { OneFailedIf (is_unwritten result) dataset.old.failures
        dataset.new.failures replies.old.failures replies.new.failures }
{
    let read = read_base(alloc, base)?;
    let requests = match read_block(alloc, block) {
        Ok(requests) => requests,
        Err(fault) => return Err(fault),
    };
    let bytes = read_journal_bytes(alloc, journal)?;
    match texts_of_journal(alloc, read, requests, bytes) {
        Ok(texts) => write_texts(&OneByOne, texts, dataset, replies),
        Err(fault) => Err(fault),
    }
}
