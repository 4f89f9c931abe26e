//! The engine of the command `run` with a journal.
ghost use Rattle.std.specs.Prelude.{◌≡◌, ◌≢◌, ◌<◌, ◌≤◌, ◌-◌, ◌^◌, true, length, IfOk, IfErr, IfSome, OnOk, IsErrOf, string_bytes};
ghost use Rattle.canonical_nquads.specs.Canonical.{text_of_pieces};
ghost use Rattle.engines.specs.Failures.{is_unread, is_unwritten, is_journal_unwritten, FailedIf, OneFailedIf};
ghost use Rattle.book.specs.Run.{HasAllTerms};
ghost use Rattle.update.specs.Asked.{AreShort};
ghost use Rattle.cli.specs.Journals.{IsFaultWithJournal, IsRecord, IsRecordAt, IsRecordOf, WroteJournal, WroteJournalInPart};
ghost use Rattle.engines.specs.Outputs.{IfBoth, IfTouched, IsAnswerTo, Wrote, WroteInPart, taken};

use crate::engine::Workers;
use book::Book;
use command_line::{Fault, File};
use delta::Outcome;
use devices::Watched;
use engines::{
    Runs, Texts, read_base_by, read_block_by, texts_of_outcome, write_journal, write_texts,
};
use journal::write_lines;
use numbering::Numbered;
use numbering::laws::carries_block;
use pool::{Gate, run_book};
use replay::lines_of;
use rules::Block;
use std::alloc::{AllocError, Global};
use std::io::{Read, Write};
use std::sync::Wait;
use std::thread::Threads;
use terms::DataSet;

/// What a run of a block comes to at numbers of terms, and the text of its journal.
#[derive(Drop)]
struct Record {
    outcome: Outcome,
    journal: Vec<u8>,
}

/// The texts of an answer, and that of the journal.
#[derive(Drop)]
struct RecordTexts {
    answer: Texts,
    journal: Vec<u8>,
}

/// What a book comes to, and the text of its journal, with the tag of its base. An `Err` is want of
/// memory.
fn record_of(alloc: Global, book: Book<'_>, tag: u32) -> Result<Record, AllocError>
    ensures { IfOk result (λ r. IsRecordOf book.entry tag r.outcome r.journal.items) }
{
    let found = book.outcome(alloc);
    let printed = lines_of(alloc, &book);
    drop(book);
    let (outcome, lines) = (found?, printed?);
    let journal = write_lines(alloc, lines.as_slice(), tag)?;
    Ok(Record { outcome, journal })
}

/// Runs a block by this many workers, from 1 to 64, and makes the text of the journal. The gate
/// sees each event.
fn recorded<T: Threads + Wait + Sync, G: Gate + Sync>(
    rt: &T,
    alloc: Global,
    numbered: &Numbered,
    workers: u32,
    gate: &G,
) -> Result<Record, AllocError>
    requires some { 0 < workers }
    requires most { workers ≤ 64 }
    requires few { length numbered.now.block.items < 2 ^ 32 }
    requires short { AreShort numbered.now.block.items }
    requires terms { HasAllTerms numbered.now.base.terms numbered.now.base.dataset
        numbered.now.block.items }
    ensures { IfOk result (λ r. IsRecordAt numbered.now.base numbered.now.block.items r.outcome
        r.journal.items) }
{
    let (base, block) = (&numbered.base, numbered.block.as_slice());
    let (terms, dataset) = (base.terms(), base.dataset());
    let book = run_book(rt, alloc, terms, dataset, block, workers, gate)?;
    // (for the proof: it is a history)
    let _journal = book.journal();
    let pair = record_of(alloc, book, base.tag())?;
    Ok(pair)
}

/// The texts of the answer to a base and a block, and that of the journal of their run.
fn texts_with_journal<T: Threads + Wait + Sync, G: Gate + Sync>(
    rt: &T,
    alloc: Global,
    base: DataSet,
    block: Block,
    workers: u32,
    gate: &G,
) -> Result<RecordTexts, AllocError>
    requires some { 0 < workers }
    requires most { workers ≤ 64 }
    requires few { length block ≤ 4096 }
    requires short { AreShort block }
    ensures answer { IfOk result (λ texts. IsAnswerTo base block
        (text_of_pieces texts.answer.dataset.items) (string_bytes texts.answer.replies)) }
    ensures history { IfOk result (λ texts. IsRecord base block
        (text_of_pieces texts.answer.dataset.items) (string_bytes texts.answer.replies)
        texts.journal.items) }
{
    carries_block();
    let _parts = base.parts();
    let way = Workers { rt, count: workers };
    let numbered = way.number(alloc, base, block)?;
    let Record { outcome, journal } = recorded(rt, alloc, &numbered, workers, gate)?;
    let answer = texts_of_outcome(&way, alloc, numbered, outcome)?;
    Ok(RecordTexts { answer, journal })
}

/// Reads a base and a block, runs the block by this many workers, and writes the canonical text of
/// the new dataset, one line a request, and the journal of the run. The base is read before the
/// block, and all texts are made before a writer is touched; then the dataset is written and
/// flushed, then the replies are, and then the journal is, each also where it is empty. Workers are
/// from 1 to 64, each on a thread of its own where one can be had, and change nothing in the
/// answer. The gate sees each event of the run. A fault is the first that comes: of the base, of
/// the block, want of memory, or of a writer.
pub fn run_with_journal_engine<
    T: Threads + Wait + Sync,
    B: Read,
    K: Read,
    D: Write,
    A: Write,
    J: Write,
    G: Gate + Sync,
>(
    rt: &T,
    alloc: Global,
    base: &mut Watched<B>,
    block: &mut Watched<K>,
    dataset: &mut Watched<D>,
    replies: &mut Watched<A>,
    journal: &mut Watched<J>,
    workers: u32,
    gate: &G,
) -> Result<(), Fault>
    requires base { base.old.failures < 2 ^ 64 - 1 }
    requires block { block.old.failures < 2 ^ 64 - 1 }
    requires dataset { dataset.old.failures < 2 ^ 64 - 1 }
    requires replies { replies.old.failures < 2 ^ 64 - 1 }
    requires journal { journal.old.failures < 2 ^ 64 - 1 }
    requires some { 0 < workers }
    requires most { workers ≤ 64 }
    // What was written is the output of what was read.
    ensures answer { OnOk result (IfBoth (B.remaining base.old.inner) (K.remaining block.old.inner)
        (λ b k. Wrote b k (taken D.contents dataset.old.inner dataset.new.inner)
        (taken A.contents replies.old.inner replies.new.inner))) }
    // And the three texts are of one history, which commits the whole block.
    ensures journal { OnOk result (IfBoth (B.remaining base.old.inner) (K.remaining block.old.inner)
        (λ b k. WroteJournal b k (taken D.contents dataset.old.inner dataset.new.inner)
        (taken A.contents replies.old.inner replies.new.inner)
        (taken J.contents journal.old.inner journal.new.inner))) }
    // All texts were flushed, also where they are empty.
    ensures flushed { OnOk result ((dataset.new.is_flushed ≡ true) × (replies.new.is_flushed ≡ true)
        × (journal.new.is_flushed ≡ true)) }
    // The replies are touched only once the dataset is flushed.
    ensures in_turn { IfTouched replies.old replies.new (dataset.new.is_flushed ≡ true) }
    // And the journal once both are.
    ensures journal_in_turn { IfTouched journal.old journal.new
        ((dataset.new.is_flushed ≡ true) × (replies.new.is_flushed ≡ true)) }
    // After a failed write the texts before it are whole, and of its own a beginning was written.
    ensures part { IsErrOf result (Fault.CannotWrite File.Answer)
        → IfBoth (B.remaining base.old.inner) (K.remaining block.old.inner)
        (λ b k. WroteInPart b k (taken D.contents dataset.old.inner dataset.new.inner)
        (taken A.contents replies.old.inner replies.new.inner)) }
    ensures whole { IsErrOf result (Fault.CannotWrite File.Journal)
        → IfBoth (B.remaining base.old.inner) (K.remaining block.old.inner)
        (λ b k. Wrote b k (taken D.contents dataset.old.inner dataset.new.inner)
        (taken A.contents replies.old.inner replies.new.inner)) }
    ensures journal_part { IsErrOf result (Fault.CannotWrite File.Journal)
        → IfBoth (B.remaining base.old.inner) (K.remaining block.old.inner)
        (λ b k. WroteJournalInPart b k (taken D.contents dataset.old.inner dataset.new.inner)
        (taken A.contents replies.old.inner replies.new.inner)
        (taken J.contents journal.old.inner journal.new.inner)) }
    // Any other fault comes before a writer is touched, and one of the answer's before that of the
    // journal is.
    ensures untouched { IfErr result (λ fault. fault ≢ Fault.CannotWrite File.Answer
        → fault ≢ Fault.CannotWrite File.Journal → (dataset.new ≡ dataset.old)
        × (replies.new ≡ replies.old)) }
    ensures journal_untouched { IfErr result (λ fault. fault ≢ Fault.CannotWrite File.Journal
        → journal.new ≡ journal.old) }
    // Each fault is told only where it is there.
    ensures fault { IfErr result (λ fault. IfBoth (B.remaining base.old.inner)
        (K.remaining block.old.inner) (λ b k. IsFaultWithJournal b k fault)) }
    // A device that failed is told, and only where one did.
    ensures base_failures { FailedIf (is_unread File.Base result) base.old.failures
        base.new.failures }
    ensures block_failures { FailedIf (is_unread File.Block result) block.old.failures
        block.new.failures }
    ensures write_failures { OneFailedIf (is_unwritten result) dataset.old.failures
        dataset.new.failures replies.old.failures replies.new.failures }
    ensures journal_failures { FailedIf (is_journal_unwritten result) journal.old.failures
        journal.new.failures }
{
    let read = read_base_by(rt, alloc, base, workers)?;
    let requests = read_block_by(rt, alloc, block, workers)?;
    let Ok(texts) = texts_with_journal(rt, alloc, read, requests, workers, gate) else {
        return Err(Fault::Memory);
    };
    let RecordTexts {
        answer,
        journal: lines,
    } = texts;
    let way = Workers { rt, count: workers };
    write_texts(&way, answer, dataset, replies)?;
    write_journal(journal, lines.as_slice())
}
