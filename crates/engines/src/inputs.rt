//! The base, the block and the journal, as their readers give them.
ghost use Rattle.std.specs.Prelude.{◌≡◌, ◌<◌, ◌≤◌, ◌-◌, ◌^◌, false, Ok, Err, IfSome, IfOk, IfErr, length, List, ℕ};
ghost use Rattle.devices.specs.Front.{IsFront};
ghost use Rattle.rules.specs.Requests.{AreVerdicts, IsSplit};
ghost use Rattle.update.specs.Asked.{AreShort};
ghost use Rattle.engines.specs.Failures.{is_unread, FailedIf, TellsNoOther};
ghost use Rattle.engines.specs.Inputs.{IsBaseAnswer, IsBlockAnswer, IsUnreadJournal, base_fault as the_base_fault, block_fault as the_block_fault, device_fault as the_device_fault};
ghost use Rattle.engines.specs.Verdicts.{IsJudgement};

use command_line::{Fault, File};
use devices::{ReadFault, Watched, all_of, front_of};
use nquads::BaseFault;
use rules::laws::requests_are_short;
use rules::{Block, BlockFault, Verdict, split, split_by, verdicts};
use sets::Items;
use std::alloc::Global;
use std::io::Read;
use std::thread::Threads;
use terms::DataSet;

/// The most bytes of a block.
const MOST_BLOCK_BYTES: usize = 268_435_456;

/// So many bytes of a base come at a time where one thread reads them.
const PORTION_BYTES: u32 = 8_388_608;

/// So many where several threads do, which wait for each other at the end of each portion.
const SHARED_PORTION_BYTES: u32 = 16_777_216;

/// What the program tells of a base that was not read.
fn base_fault(fault: BaseFault) -> Fault
    ensures { result ≡ the_base_fault fault }
{
    match fault {
        BaseFault::OutOfMemory => Fault::Memory,
        BaseFault::BadLine(number) => Fault::BadLine(number),
        BaseFault::TooLong => Fault::BaseTooLong,
        BaseFault::Device => Fault::CannotRead(File::Base),
    }
}

/// What the program tells of a block whose bytes did not come.
fn device_fault(fault: ReadFault) -> Fault
    ensures { result ≡ the_device_fault fault }
{
    match fault {
        ReadFault::OutOfMemory => Fault::Memory,
        ReadFault::Device => Fault::CannotRead(File::Block),
    }
}

/// What the program tells of a block that was not cut.
fn block_fault(fault: BlockFault) -> Fault
    ensures { result ≡ the_block_fault fault }
{
    match fault {
        BlockFault::OutOfMemory => Fault::Memory,
        BlockFault::TooLong => Fault::BlockTooLong,
        BlockFault::TooManyRequests => Fault::TooManyRequests,
        BlockFault::BadUtf8 => Fault::BadUtf8,
    }
}

/// The dataset that a base spells. `CannotRead` comes where a read failed, and only there.
pub fn read_base<R: Read>(alloc: Global, reader: &mut Watched<R>) -> Result<DataSet, Fault>
    requires { reader.old.failures < 2 ^ 64 - 1 }
    ensures answer { IfSome (R.remaining reader.old.inner) (λ text. IsBaseAnswer text result) }
    ensures failures { FailedIf (is_unread File.Base result) reader.old.failures
        reader.new.failures }
    ensures others { TellsNoOther File.Base result }
{
    match nquads::read(alloc, reader) {
        Ok(dataset) => Ok(dataset),
        Err(fault) => Err(base_fault(fault)),
    }
}

/// The dataset that a base spells, read by so many threads. `CannotRead` comes where a read failed,
/// and only there.
pub fn read_base_by<T: Threads + Sync, R: Read>(
    rt: &T,
    alloc: Global,
    reader: &mut Watched<R>,
    threads: u32,
) -> Result<DataSet, Fault>
    requires { reader.old.failures < 2 ^ 64 - 1 }
    ensures answer { IfSome (R.remaining reader.old.inner) (λ text. IsBaseAnswer text result) }
    ensures failures { FailedIf (is_unread File.Base result) reader.old.failures
        reader.new.failures }
    ensures others { TellsNoOther File.Base result }
{
    let portion = if threads <= 1 {
        PORTION_BYTES
    } else {
        SHARED_PORTION_BYTES
    };
    match nquads::read_by(rt, alloc, reader, threads as usize, portion) {
        Ok(dataset) => Ok(dataset),
        Err(fault) => Err(base_fault(fault)),
    }
}

/// The requests of a block's bytes.
fn cut(alloc: Global, bytes: &[u8]) -> Result<Block, Fault>
    ensures answer { (text : List ℕ) → IsFront (2 ^ 28) text bytes.now → IsBlockAnswer text result }
    ensures read { is_unread File.Block result ≡ false }
    ensures others { TellsNoOther File.Block result }
    ensures few { IfOk result (λ block. length block ≤ 4096) }
    ensures short { IfOk result AreShort }
{
    requests_are_short();
    match split(alloc, bytes) {
        Ok(block) => Ok(block),
        Err(fault) => Err(block_fault(fault)),
    }
}

/// The same, checked by so many threads.
fn cut_by<T: Threads + Sync>(
    rt: &T,
    alloc: Global,
    bytes: &[u8],
    threads: u32,
) -> Result<Block, Fault>
    ensures answer { (text : List ℕ) → IsFront (2 ^ 28) text bytes.now → IsBlockAnswer text result }
    ensures read { is_unread File.Block result ≡ false }
    ensures others { TellsNoOther File.Block result }
    ensures few { IfOk result (λ block. length block ≤ 4096) }
    ensures short { IfOk result AreShort }
{
    requests_are_short();
    match split_by(rt, alloc, bytes, threads as usize) {
        Ok(block) => Ok(block),
        Err(fault) => Err(block_fault(fault)),
    }
}

/// The requests of the block that a reader gives. `CannotRead` comes where a read failed, and only
/// there.
pub fn read_block<R: Read>(alloc: Global, reader: &mut Watched<R>) -> Result<Block, Fault>
    requires { reader.old.failures < 2 ^ 64 - 1 }
    ensures answer { IfSome (R.remaining reader.old.inner) (λ text. IsBlockAnswer text result) }
    ensures failures { FailedIf (is_unread File.Block result) reader.old.failures
        reader.new.failures }
    ensures others { TellsNoOther File.Block result }
    ensures few { IfOk result (λ block. length block ≤ 4096) }
    ensures short { IfOk result AreShort }
{
    let bytes = match front_of(alloc, reader, MOST_BLOCK_BYTES) {
        Ok(bytes) => bytes,
        Err(fault) => return Err(device_fault(fault)),
    };
    cut(alloc, bytes.as_slice())
}

/// The requests of the block that a reader gives, checked by so many threads. `CannotRead` comes
/// where a read failed, and only there.
pub fn read_block_by<T: Threads + Sync, R: Read>(
    rt: &T,
    alloc: Global,
    reader: &mut Watched<R>,
    threads: u32,
) -> Result<Block, Fault>
    requires { reader.old.failures < 2 ^ 64 - 1 }
    ensures answer { IfSome (R.remaining reader.old.inner) (λ text. IsBlockAnswer text result) }
    ensures failures { FailedIf (is_unread File.Block result) reader.old.failures
        reader.new.failures }
    ensures others { TellsNoOther File.Block result }
    ensures few { IfOk result (λ block. length block ≤ 4096) }
    ensures short { IfOk result AreShort }
{
    let bytes = match front_of(alloc, reader, MOST_BLOCK_BYTES) {
        Ok(bytes) => bytes,
        Err(fault) => return Err(device_fault(fault)),
    };
    cut_by(rt, alloc, bytes.as_slice(), threads)
}

/// The verdicts on the requests of a block's bytes.
fn judged(alloc: Global, bytes: &[u8]) -> Result<Items<Verdict>, Fault>
    ensures answer { (text : List ℕ) → IsFront (2 ^ 28) text bytes.now → IsJudgement text result }
    ensures read { is_unread File.Block result ≡ false }
    ensures others { TellsNoOther File.Block result }
{
    match verdicts(alloc, bytes) {
        Ok(verdicts) => Ok(verdicts),
        Err(fault) => Err(block_fault(fault)),
    }
}

/// The verdicts on the requests of the block that a reader gives: whether each is accepted, or why
/// it is refused. `CannotRead` comes where a read failed, and only there.
pub fn read_verdicts<R: Read>(
    alloc: Global,
    reader: &mut Watched<R>,
) -> Result<Items<Verdict>, Fault>
    requires { reader.old.failures < 2 ^ 64 - 1 }
    ensures answer { IfSome (R.remaining reader.old.inner) (λ text. IsJudgement text result) }
    ensures failures { FailedIf (is_unread File.Block result) reader.old.failures
        reader.new.failures }
    ensures others { TellsNoOther File.Block result }
{
    let bytes = match front_of(alloc, reader, MOST_BLOCK_BYTES) {
        Ok(bytes) => bytes,
        Err(fault) => return Err(device_fault(fault)),
    };
    judged(alloc, bytes.as_slice())
}

/// The bytes of the journal that a reader gives. `CannotRead` comes where a read failed, and only
/// there; any other fault is want of memory.
pub fn read_journal_bytes<R: Read>(alloc: Global, reader: &mut Watched<R>) -> Result<Vec<u8>, Fault>
    requires { reader.old.failures < 2 ^ 64 - 1 }
    ensures bytes { IfOk result (λ bytes. IfSome (R.remaining reader.old.inner)
        (λ text. bytes.items ≡ text)) }
    ensures fault { IfErr result IsUnreadJournal }
    ensures failures { FailedIf (is_unread File.Journal result) reader.old.failures
        reader.new.failures }
    ensures others { TellsNoOther File.Journal result }
{
    match all_of(alloc, reader) {
        Ok(bytes) => Ok(bytes),
        Err(ReadFault::OutOfMemory) => Err(Fault::Memory),
        Err(ReadFault::Device) => Err(Fault::CannotRead(File::Journal)),
    }
}
