//! The engine of the command `check`.
ghost use Rattle.std.specs.Prelude.{◌≡◌, ◌≢◌, ◌<◌, ◌-◌, ◌^◌, true, IfErr, IfSome, OnOk, IsErrOf};
ghost use Rattle.engines.specs.Failures.{is_unread, is_unwritten, FailedIf};
ghost use Rattle.engines.specs.Outputs.{taken};
ghost use Rattle.engines.specs.Verdicts.{IsCheckFault, WroteVerdicts, WroteVerdictsInPart};

use crate::inputs::read_verdicts;
use crate::outputs::write_text;
use command_line::{Fault, File, verdicts_text};
use devices::Watched;
use std::alloc::Global;
use std::io::{Read, Write};

/// Reads a block, and writes one line a request, in order: whether it is accepted, or why it is
/// refused. Nothing is run. The text is made before the writer is touched; then it is written and
/// flushed, also where it is empty. A fault is the first that comes: of the block, want of memory,
/// or of the writer.
pub fn check_engine<K: Read, A: Write>(
    alloc: Global,
    block: &mut Watched<K>,
    replies: &mut Watched<A>,
) -> Result<(), Fault>
    requires block { block.old.failures < 2 ^ 64 - 1 }
    requires replies { replies.old.failures < 2 ^ 64 - 1 }
    // What was written is the lines of the verdicts on what was read.
    ensures answer { OnOk result (IfSome (K.remaining block.old.inner)
        (λ k. WroteVerdicts k (taken A.contents replies.old.inner replies.new.inner))) }
    // The text was flushed, also where it is empty.
    ensures flushed { OnOk result (replies.new.is_flushed ≡ true) }
    // After a failed write a beginning of the lines was written.
    ensures part { IsErrOf result (Fault.CannotWrite File.Answer)
        → IfSome (K.remaining block.old.inner)
        (λ k. WroteVerdictsInPart k (taken A.contents replies.old.inner replies.new.inner)) }
    // Any other fault comes before the writer is touched.
    ensures untouched { IfErr result (λ fault. fault ≢ Fault.CannotWrite File.Answer
        → replies.new ≡ replies.old) }
    // Each fault is told only where it is there.
    ensures fault { IfErr result (λ fault. IfSome (K.remaining block.old.inner)
        (λ k. IsCheckFault k fault)) }
    // A device that failed is told, and only where one did.
    ensures block_failures { FailedIf (is_unread File.Block result) block.old.failures
        block.new.failures }
    ensures write_failures { FailedIf (is_unwritten result) replies.old.failures
        replies.new.failures }
{
    let verdicts = read_verdicts(alloc, block)?;
    let Ok(lines) = verdicts_text(alloc, verdicts.as_slice()) else {
        return Err(Fault::Memory);
    };
    write_text(replies, lines.as_bytes())
}
