//! The engine of the command `run`.
ghost use Rattle.std.specs.Prelude.{◌≡◌, ◌≢◌, ◌<◌, ◌≤◌, ◌-◌, ◌^◌, true, IfOk, IfErr, OnOk, IsErrOf};
ghost use Rattle.datasets.specs.Dataset.{IsDataset};
ghost use Rattle.terms.specs.Term.{term_order};
ghost use Rattle.dict.specs.Dictionary.{term_of, is_known};
ghost use Rattle.meaning_laws.specs.Renaming.{renamed, dataset_known};
ghost use Rattle.engines.specs.Failures.{is_unread, is_unwritten, FailedIf, OneFailedIf};
ghost use Rattle.engines.specs.Inputs.{IsFaultOf};
ghost use Rattle.engines.specs.Outputs.{IfBoth, IfTouched, Wrote, WroteInPart, taken};

use canonical_nquads::canonical_pieces_by;
use command_line::{Fault, File};
use datasets::Id;
use delta::Outcome;
use devices::Watched;
use engines::{Runs, named_with, read_base_by, read_block_by, run_by};
use meaning::Request;
use numbering::{Numbered, named, number, number_by};
use pool::{Open, run_block};
use reads::CompactView;
use rules::Block;
use std::alloc::{AllocError, Global};
use std::io::{Read, Write};
use std::sync::Wait;
use std::thread::{Threads, join, spawn};
use store::Base;
use terms::DataSet;

/// By workers on threads of their own, from 1 to 64.
#[derive(Drop)]
pub(crate) struct Workers<'r, T: Threads + Wait + Sync> {
    pub(crate) rt: &'r T,
    pub(crate) count: u32,
    ghost some: { 0 < count },
    ghost most: { count ≤ 64 },
}

impl<'r, T: Threads + Wait + Sync> Runs for Workers<'r, T> {
    ghost use Rattle.std.specs.Thread.{IsSync};

    ghost Ready = { IsSync T.row };

    fn read<R: Read>(&self, alloc: Global, base: &mut Watched<R>) -> Result<DataSet, Fault> {
        read_base_by(self.rt, alloc, base, self.count)
    }

    fn requests<R: Read>(&self, alloc: Global, block: &mut Watched<R>) -> Result<Block, Fault> {
        read_block_by(self.rt, alloc, block, self.count)
    }

    fn number(
        &self,
        alloc: Global,
        dataset: DataSet,
        block: Block,
    ) -> Result<Numbered, AllocError> {
        if self.count == 1 {
            return number(alloc, dataset, block);
        }
        number_by(self.rt, alloc, dataset, block, self.count as usize)
    }

    #[tactic(auto, using(engines::proofs::Composed::whole_run))]
    fn outcome(&self, alloc: Global, numbered: &Numbered) -> Result<Outcome, AllocError> {
        let (base, block) = (&numbered.base, numbered.block.as_slice());
        let (terms, dataset) = (base.terms(), base.dataset());
        let outcome = run_block(self.rt, alloc, terms, dataset, block, self.count, &Open)?;
        Ok(outcome)
    }

    fn named(
        &self,
        alloc: Global,
        base: Base,
        block: Vec<Request<Id>>,
        dataset: CompactView,
    ) -> Result<DataSet, AllocError> {
        if self.count == 1 {
            drop(block);
            return named_with(alloc, base, dataset);
        }
        let (terms, orders) = base.apart();
        // Nobody waits until they are let go.
        let _ = spawn(self.rt, move || drop(orders));
        let (_, answer) = join(
            self.rt,
            move || drop(block),
            move || -> Result<DataSet, AllocError>
                requires { (dataset_known (is_known terms) dataset ≡ true)
                    × IsDataset term_order (renamed (term_of terms) dataset) }
                ensures { IfOk result (λ answer. answer ≡ renamed (term_of terms) dataset) }
            { named(alloc, terms, dataset) },
        );
        answer
    }

    fn text(&self, alloc: Global, dataset: &DataSet, tag: u32) -> Result<Vec<Vec<u8>>, AllocError> {
        canonical_pieces_by(self.rt, alloc, dataset, tag, self.count as usize)
    }

    // With more than one thread nobody waits for it: the pieces are most of what the process would
    // give back at its end.
    fn let_go(&self, piece: Vec<u8>) {
        if self.count == 1 {
            drop(piece);
            return;
        }
        let _ = spawn(self.rt, move || drop(piece));
    }
}

/// Reads a base and a block, runs the block by this many workers, and writes the canonical text of
/// the new dataset and one line a request. The base is read before the block, and all texts are
/// made before a writer is touched; then the dataset is written and flushed, and then the replies
/// are, each also where it is empty. Workers are from 1 to 64, each on a thread of its own where
/// one can be had, and change nothing in the answer. A fault is the first that comes: of the base,
/// of the block, want of memory, or of a writer.
pub fn run_engine<T: Threads + Wait + Sync, B: Read, K: Read, D: Write, A: Write>(
    rt: &T,
    alloc: Global,
    base: &mut Watched<B>,
    block: &mut Watched<K>,
    dataset: &mut Watched<D>,
    replies: &mut Watched<A>,
    workers: u32,
) -> Result<(), Fault>
    requires base { base.old.failures < 2 ^ 64 - 1 }
    requires block { block.old.failures < 2 ^ 64 - 1 }
    requires dataset { dataset.old.failures < 2 ^ 64 - 1 }
    requires replies { replies.old.failures < 2 ^ 64 - 1 }
    requires some { 0 < workers }
    requires most { workers ≤ 64 }
    // What was written is the output of what was read.
    ensures answer { OnOk result (IfBoth (B.remaining base.old.inner) (K.remaining block.old.inner)
        (λ b k. Wrote b k (taken D.contents dataset.old.inner dataset.new.inner)
        (taken A.contents replies.old.inner replies.new.inner))) }
    // Both texts were flushed, also where they are empty.
    ensures flushed { OnOk result ((dataset.new.is_flushed ≡ true)
        × (replies.new.is_flushed ≡ true)) }
    // The replies are touched only once the dataset is flushed.
    ensures in_turn { IfTouched replies.old replies.new (dataset.new.is_flushed ≡ true) }
    // After a failed write the texts before it are whole, and of its own a beginning was written.
    ensures part { IsErrOf result (Fault.CannotWrite File.Answer)
        → IfBoth (B.remaining base.old.inner) (K.remaining block.old.inner)
        (λ b k. WroteInPart b k (taken D.contents dataset.old.inner dataset.new.inner)
        (taken A.contents replies.old.inner replies.new.inner)) }
    // Any other fault comes before a writer is touched.
    ensures untouched { IfErr result (λ fault. fault ≢ Fault.CannotWrite File.Answer
        → (dataset.new ≡ dataset.old) × (replies.new ≡ replies.old)) }
    // Each fault is told only where it is there.
    ensures fault { IfErr result (λ fault. IfBoth (B.remaining base.old.inner)
        (K.remaining block.old.inner) (λ b k. IsFaultOf b k fault)) }
    // A device that failed is told, and only where one did.
    ensures base_failures { FailedIf (is_unread File.Base result) base.old.failures
        base.new.failures }
    ensures block_failures { FailedIf (is_unread File.Block result) block.old.failures
        block.new.failures }
    ensures write_failures { OneFailedIf (is_unwritten result) dataset.old.failures
        dataset.new.failures replies.old.failures replies.new.failures }
{
    let way = Workers { rt, count: workers };
    run_by(&way, alloc, base, block, dataset, replies)
}
