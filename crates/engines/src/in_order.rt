//! The engine of the command `serial`.
ghost use Rattle.std.specs.Prelude.{◌≡◌, ◌≢◌, ◌<◌, ◌-◌, ◌^◌, true, IfErr, IfSome, OnOk, IsErrOf};
ghost use Rattle.engines.specs.Failures.{is_unread, is_unwritten, FailedIf, OneFailedIf};
ghost use Rattle.engines.specs.Inputs.{IsFaultOf};
ghost use Rattle.engines.specs.Outputs.{IfBoth, IfTouched, Wrote, WroteInPart, taken};

use crate::engine::{Runs, named_with, run_by};
use crate::inputs::{read_base, read_block};
use canonical_nquads::canonical_pieces;
use command_line::{Fault, File};
use datasets::Id;
use delta::Outcome;
use devices::Watched;
use meaning::Request;
use numbering::{Numbered, number};
use reads::CompactView;
use rules::Block;
use serial::run;
use std::alloc::{AllocError, Global};
use std::io::{Read, Write};
use store::Base;
use terms::DataSet;

/// One request after another.
#[derive(Drop)]
pub(crate) struct OneByOne;

impl Runs for OneByOne {
    ghost Ready = { Unit {0} };

    fn read<R: Read>(&self, alloc: Global, base: &mut Watched<R>) -> Result<DataSet, Fault> {
        read_base(alloc, base)
    }

    fn requests<R: Read>(&self, alloc: Global, block: &mut Watched<R>) -> Result<Block, Fault> {
        read_block(alloc, block)
    }

    fn number(
        &self,
        alloc: Global,
        dataset: DataSet,
        block: Block,
    ) -> Result<Numbered, AllocError> {
        number(alloc, dataset, block)
    }

    fn outcome(&self, alloc: Global, numbered: &Numbered) -> Result<Outcome, AllocError> {
        run(alloc, &numbered.base, numbered.block.as_slice())
    }

    fn named(
        &self,
        alloc: Global,
        base: Base,
        block: Vec<Request<Id>>,
        dataset: CompactView,
    ) -> Result<DataSet, AllocError> {
        drop(block);
        named_with(alloc, base, dataset)
    }

    fn text(&self, alloc: Global, dataset: &DataSet, tag: u32) -> Result<Vec<Vec<u8>>, AllocError> {
        canonical_pieces(alloc, dataset, tag)
    }

    fn let_go(&self, piece: Vec<u8>) {
        drop(piece);
    }
}

/// Reads a base and a block, runs the block by one thread, one request after another, and writes
/// the canonical text of the new dataset and one line a request. The base is read before the block,
/// and all texts are made before a writer is touched; then the dataset is written and flushed, and
/// then the replies are, each also where it is empty. A fault is the first that comes: of the base,
/// of the block, want of memory, or of a writer.
pub fn serial_engine<B: Read, K: Read, D: Write, A: Write>(
    alloc: Global,
    base: &mut Watched<B>,
    block: &mut Watched<K>,
    dataset: &mut Watched<D>,
    replies: &mut Watched<A>,
) -> Result<(), Fault>
    requires base { base.old.failures < 2 ^ 64 - 1 }
    requires block { block.old.failures < 2 ^ 64 - 1 }
    requires dataset { dataset.old.failures < 2 ^ 64 - 1 }
    requires replies { replies.old.failures < 2 ^ 64 - 1 }
    // What was written is the output of what was read.
    ensures answer { OnOk result (IfBoth (B.remaining base.old.inner) (K.remaining block.old.inner)
        (λ b k. Wrote b k (taken D.contents dataset.old.inner dataset.new.inner)
        (taken A.contents replies.old.inner replies.new.inner))) }
    // Both texts were flushed, also where they are empty.
    ensures flushed { OnOk result ((dataset.new.is_flushed ≡ true)
        × (replies.new.is_flushed ≡ true)) }
    // The replies are touched only once the dataset is flushed.
    ensures in_turn { IfTouched replies.old replies.new (dataset.new.is_flushed ≡ true) }
    // After a failed write the texts before it are whole, and of its own a beginning was written.
    ensures part { IsErrOf result (Fault.CannotWrite File.Answer)
        → IfBoth (B.remaining base.old.inner) (K.remaining block.old.inner)
        (λ b k. WroteInPart b k (taken D.contents dataset.old.inner dataset.new.inner)
        (taken A.contents replies.old.inner replies.new.inner)) }
    // Any other fault comes before a writer is touched.
    ensures untouched { IfErr result (λ fault. fault ≢ Fault.CannotWrite File.Answer
        → (dataset.new ≡ dataset.old) × (replies.new ≡ replies.old)) }
    // Each fault is told only where it is there.
    ensures fault { IfErr result (λ fault. IfBoth (B.remaining base.old.inner)
        (K.remaining block.old.inner) (λ b k. IsFaultOf b k fault)) }
    // A device that failed is told, and only where one did.
    ensures base_failures { FailedIf (is_unread File.Base result) base.old.failures
        base.new.failures }
    ensures block_failures { FailedIf (is_unread File.Block result) block.old.failures
        block.new.failures }
    ensures write_failures { OneFailedIf (is_unwritten result) dataset.old.failures
        dataset.new.failures replies.old.failures replies.new.failures }
{
    run_by(&OneByOne, alloc, base, block, dataset, replies)
}
