//! The writer of a dataset.
ghost use Rattle.std.specs.Prelude.{◌≡◌, ◌<◌, ◌+◌, ◌-◌, ◌^◌, ℕ, take, OnOk, IsErrOf};
ghost use Rattle.std.specs.Io.KnownBytes.{Appends};
ghost use Rattle.canonical_nquads.specs.Canonical.{canonical};

use crate::canonical::canonical_text;
use devices::Watched;
use std::alloc::Global;
use std::io::Write;
use terms::DataSet;
use thiserror::Error;

/// Why a dataset was not written.
#[derive(Debug, Drop, Error)]
pub enum WriteFault {
    /// A growth was refused, and nothing was written.
    #[error("out of memory")]
    OutOfMemory,
    /// The writer failed, and a beginning of the text was written.
    #[error("cannot write")]
    Device,
}

/// Writes the canonical text of a dataset, which is made before the first byte goes out. The flush
/// is the caller's.
pub fn write<W: Write>(
    alloc: Global,
    writer: &mut Watched<W>,
    dataset: &DataSet,
    tag: u32,
) -> Result<(), WriteFault>
    requires { writer.old.failures < 2 ^ 64 - 1 }
    ensures ok { OnOk result (Appends (W.contents writer.old.inner) (W.contents writer.new.inner)
        (canonical dataset.now tag)) }
    ensures memory { IsErrOf result WriteFault.OutOfMemory → writer.new ≡ writer.old }
    ensures device { IsErrOf result WriteFault.Device
        → ((n : ℕ) × Appends (W.contents writer.old.inner) (W.contents writer.new.inner) (take n (canonical dataset.now tag)))
        × (writer.new.failures ≡ writer.old.failures + 1) }
    ensures count { OnOk result (writer.new.failures ≡ writer.old.failures) }
{
    let text = match canonical_text(alloc, dataset, tag) {
        Ok(text) => text,
        Err(_) => return Err(WriteFault::OutOfMemory),
    };
    match writer.write_all(text.as_slice()) {
        Ok(()) => Ok(()),
        Err(_) => Err(WriteFault::Device),
    }
}
