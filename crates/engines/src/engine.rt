//! What engines have in common, by whichever way they run a block.
ghost use Rattle.std.specs.Prelude.{◌≡◌, ◌≢◌, ◌<◌, ◌≤◌, ◌-◌, ◌^◌, true, length, IfOk, IfErr, IfSome, OnOk, IsErrOf, string_bytes};
ghost use Rattle.datasets.specs.Dataset.{IsDataset};
ghost use Rattle.terms.specs.Term.{term_order};
ghost use Rattle.dict.specs.Dictionary.{term_of, is_known};
ghost use Rattle.meaning_laws.specs.Renaming.{renamed, dataset_known};
ghost use Rattle.canonical_nquads.specs.Canonical.{canonical, text_of_pieces};
ghost use Rattle.command_line.specs.Replies.{reply_lines};
ghost use Rattle.engines.specs.Failures.{is_unread, is_unwritten, FailedIf, OneFailedIf};
ghost use Rattle.engines.specs.Inputs.{IsFaultOf};
ghost use Rattle.update.specs.Asked.{AreShort};
ghost use Rattle.engines.specs.Outputs.{IfBoth, IfTouched, IsAnswerTo, Wrote, WroteInPart, taken};

use crate::outputs::{Texts, write_texts};
use command_line::{Fault, File, replies_text};
use datasets::Id;
use delta::Outcome;
use devices::Watched;
use meaning::Request;
use numbering::laws::carries_block;
use numbering::{Numbered, named};
use reads::CompactView;
use rules::Block;
use std::alloc::{AllocError, Global};
use std::io::{Read, Write};
use std::mem::forget;
use store::Base;
use terms::DataSet;

/// A way to read a base and a block, to run the block at numbers of terms, and to make the text of
/// a dataset.
pub trait Runs {
    ghost use Rattle.std.specs.Prelude.{◌≡◌, ◌<◌, ◌≤◌, ◌-◌, ◌^◌, true, length, IfOk, IfSome};
    ghost use Rattle.update.specs.Asked.{AreShort};
    ghost use Rattle.engines.specs.Failures.{is_unread, FailedIf, TellsNoOther};
    ghost use Rattle.engines.specs.Inputs.{IsBaseAnswer, IsBlockAnswer};
    ghost use Rattle.engines.specs.Outputs.{IsWhole};
    ghost use Rattle.canonical_nquads.specs.Canonical.{canonical, text_of_pieces};
    ghost use Rattle.numbering.specs.Numbered.{IsNumbered};
    ghost use Rattle.book.specs.Run.{HasAllTerms};
    ghost use Rattle.datasets.specs.Dataset.{IsDataset};
    ghost use Rattle.terms.specs.Term.{term_order};
    ghost use Rattle.dict.specs.Dictionary.{term_of, is_known};
    ghost use Rattle.meaning_laws.specs.Renaming.{renamed, dataset_known};

    // What it takes of its types.
    ghost Ready: { Type 0 };

    /// The dataset that a base spells. `CannotRead` comes where a read failed, and only there.
    fn read<R: Read>(&self, alloc: Global, base: &mut Watched<R>) -> Result<DataSet, Fault>
        requires ready { Ready }
        requires failures { base.old.failures < 2 ^ 64 - 1 }
        ensures answer { IfSome (R.remaining base.old.inner) (λ text. IsBaseAnswer text result) }
        ensures failures { FailedIf (is_unread File.Base result) base.old.failures
            base.new.failures }
        ensures others { TellsNoOther File.Base result };

    /// The requests of the block that a reader gives. `CannotRead` comes where a read failed, and
    /// only there.
    fn requests<R: Read>(&self, alloc: Global, block: &mut Watched<R>) -> Result<Block, Fault>
        requires ready { Ready }
        requires failures { block.old.failures < 2 ^ 64 - 1 }
        ensures answer { IfSome (R.remaining block.old.inner) (λ text. IsBlockAnswer text result) }
        ensures failures { FailedIf (is_unread File.Block result) block.old.failures
            block.new.failures }
        ensures others { TellsNoOther File.Block result }
        ensures few { IfOk result (λ block. length block ≤ 4096) }
        ensures short { IfOk result AreShort };

    /// The base and the block at numbers of terms. An `Err` is want of memory.
    fn number(&self, alloc: Global, dataset: DataSet, block: Block) -> Result<Numbered, AllocError>
        requires ready { Ready }
        ensures { IfOk result (λ n. IsNumbered dataset block n.base n.block.items) };

    /// The outcome of the whole block, whose requests are fewer than 2^32, on a base whose
    /// dictionary has all their terms. An `Err` is want of memory.
    fn outcome(&self, alloc: Global, numbered: &Numbered) -> Result<Outcome, AllocError>
        requires ready { Ready }
        requires few { length numbered.now.block.items < 2 ^ 32 }
        requires short { AreShort numbered.now.block.items }
        requires terms { HasAllTerms numbered.now.base.terms numbered.now.base.dataset
            numbered.now.block.items }
        ensures { IfOk result (λ outcome. IsWhole numbered.now.base.terms numbered.now.base.dataset numbered.now.block.items outcome.dataset outcome.replies) };

    /// The dataset of terms that one at numbers stands for, where neither the base nor the block is
    /// needed any more: what is left of them is let go. An `Err` is want of memory.
    fn named(
        &self,
        alloc: Global,
        base: Base,
        block: Vec<Request<Id>>,
        dataset: CompactView,
    ) -> Result<DataSet, AllocError>
        requires ready { Ready }
        requires known { dataset_known (is_known base.terms) dataset ≡ true }
        requires dataset { IsDataset term_order (renamed (term_of base.terms) dataset) }
        ensures { IfOk result (λ answer. answer ≡ renamed (term_of base.terms) dataset) };

    /// The canonical text of a dataset, with this tag of the made nodes, in pieces that stand one
    /// behind another. An `Err` is want of memory.
    fn text(&self, alloc: Global, dataset: &DataSet, tag: u32) -> Result<Vec<Vec<u8>>, AllocError>
        requires ready { Ready }
        ensures { IfOk result (λ pieces. text_of_pieces pieces.items ≡ canonical dataset.now tag) };

    /// Lets a piece of text go that is written.
    fn let_go(&self, piece: Vec<u8>)
        requires ready { Ready };
}

/// The dataset of terms that one at numbers of a base's terms stands for. Of the base only its
/// terms are left. An `Err` is want of memory.
pub fn named_with(alloc: Global, base: Base, dataset: CompactView) -> Result<DataSet, AllocError>
    requires known { dataset_known (is_known base.terms) dataset ≡ true }
    requires dataset { IsDataset term_order (renamed (term_of base.terms) dataset) }
    ensures { IfOk result (λ answer. answer ≡ renamed (term_of base.terms) dataset) }
{
    named(alloc, base.into_terms(), dataset)
}

/// The texts of an outcome at numbers of terms: the canonical text of its dataset, with the tag of
/// the base, and its reply lines. What is not needed any more is let go before the texts are made.
/// An `Err` is want of memory.
pub fn texts_of_outcome<W: Runs>(
    way: &W,
    alloc: Global,
    numbered: Numbered,
    outcome: Outcome,
) -> Result<Texts, AllocError>
    requires ready { W.Ready }
    requires known { dataset_known (is_known numbered.base.terms) outcome.dataset ≡ true }
    requires dataset { IsDataset term_order (renamed (term_of numbered.base.terms)
        outcome.dataset) }
    ensures dataset { IfOk result (λ texts. text_of_pieces texts.dataset.items
        ≡ canonical (renamed (term_of numbered.base.terms) outcome.dataset) numbered.base.tag) }
    ensures replies { IfOk result (λ texts. string_bytes texts.replies
        ≡ reply_lines outcome.replies) }
{
    let Outcome { dataset, replies } = outcome;
    let Numbered { base, block } = numbered;
    let tag = base.tag();
    let answer = way.named(alloc, base, block, dataset)?;
    let text = way.text(alloc, &answer, tag)?;
    // Only writing is left. To let each term go would take as long, and the process's end lets all
    // go at once.
    forget(answer);
    Ok(Texts {
        dataset: text,
        replies: replies_text(alloc, replies.as_slice())?,
    })
}

/// The texts of the answer to a base and a block.
fn texts_of<W: Runs>(
    way: &W,
    alloc: Global,
    base: DataSet,
    block: Block,
) -> Result<Texts, AllocError>
    requires ready { W.Ready }
    requires few { length block ≤ 4096 }
    requires short { AreShort block }
    ensures { IfOk result (λ texts. IsAnswerTo base block (text_of_pieces texts.dataset.items)
        (string_bytes texts.replies)) }
{
    carries_block();
    let _parts = base.parts();
    let numbered = way.number(alloc, base, block)?;
    let outcome = way.outcome(alloc, &numbered)?;
    let texts = texts_of_outcome(way, alloc, numbered, outcome)?;
    Ok(texts)
}

/// Reads a base and a block, runs the block in this way, and writes the canonical text of the new
/// dataset and one line a request. The base is read before the block, and all texts are made before
/// a writer is touched; then the dataset is written and flushed, and then the replies are, each
/// also where it is empty. A fault is the first that comes: of the base, of the block, want of
/// memory, or of a writer.
pub fn run_by<W: Runs, B: Read, K: Read, D: Write, A: Write>(
    way: &W,
    alloc: Global,
    base: &mut Watched<B>,
    block: &mut Watched<K>,
    dataset: &mut Watched<D>,
    replies: &mut Watched<A>,
) -> Result<(), Fault>
    requires ready { W.Ready }
    requires base { base.old.failures < 2 ^ 64 - 1 }
    requires block { block.old.failures < 2 ^ 64 - 1 }
    requires dataset { dataset.old.failures < 2 ^ 64 - 1 }
    requires replies { replies.old.failures < 2 ^ 64 - 1 }
    // What was written is the output of what was read.
    ensures answer { OnOk result (IfBoth (B.remaining base.old.inner) (K.remaining block.old.inner)
        (λ b k. Wrote b k (taken D.contents dataset.old.inner dataset.new.inner)
        (taken A.contents replies.old.inner replies.new.inner))) }
    // Both texts were flushed, also where they are empty.
    ensures flushed { OnOk result ((dataset.new.is_flushed ≡ true)
        × (replies.new.is_flushed ≡ true)) }
    // The replies are touched only once the dataset is flushed.
    ensures in_turn { IfTouched replies.old replies.new (dataset.new.is_flushed ≡ true) }
    // After a failed write the texts before it are whole, and of its own a beginning was written.
    ensures part { IsErrOf result (Fault.CannotWrite File.Answer)
        → IfBoth (B.remaining base.old.inner) (K.remaining block.old.inner)
        (λ b k. WroteInPart b k (taken D.contents dataset.old.inner dataset.new.inner)
        (taken A.contents replies.old.inner replies.new.inner)) }
    // Any other fault comes before a writer is touched.
    ensures untouched { IfErr result (λ fault. fault ≢ Fault.CannotWrite File.Answer
        → (dataset.new ≡ dataset.old) × (replies.new ≡ replies.old)) }
    // Each fault is told only where it is there.
    ensures fault { IfErr result (λ fault. IfBoth (B.remaining base.old.inner)
        (K.remaining block.old.inner) (λ b k. IsFaultOf b k fault)) }
    // A device that failed is told, and only where one did.
    ensures base_failures { FailedIf (is_unread File.Base result) base.old.failures
        base.new.failures }
    ensures block_failures { FailedIf (is_unread File.Block result) block.old.failures
        block.new.failures }
    ensures write_failures { OneFailedIf (is_unwritten result) dataset.old.failures
        dataset.new.failures replies.old.failures replies.new.failures }
{
    let read = way.read(alloc, base)?;
    let requests = way.requests(alloc, block)?;
    match texts_of(way, alloc, read, requests) {
        Ok(texts) => write_texts(way, texts, dataset, replies),
        Err(_) => Err(Fault::Memory),
    }
}
