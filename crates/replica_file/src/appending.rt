//! Appends operations to a file as one record, of which a crash leaves all or nothing.
ghost use Rattle.std.specs.Prelude.{IfSome};
ghost use Rattle.replica_file.specs.Append.{AppendMeets};
ghost use Rattle.replica_file.specs.Ends.{EndsAtGate, IsWithinReach};

use crate::End;
use crate::batch::bytes_after_gate;
use crate::gate::write_after;
use fugue_ids::{Failed, NoMemory};
use op_runs::OpSlice;
use outer_ports::Disk;
use std::alloc::Global;

/// Why a batch was not appended.
#[derive(Clone, Copy)]
pub enum AppendFault {
    /// Nothing was written.
    BatchTooLong,
    /// The file has all of the batch or none, and has to be loaded again.
    DiskFault,
    /// Nothing was written.
    NoMemory,
}

impl From<Failed> for AppendFault {
    ghost use Rattle.std.specs.Prelude.{◌≡◌};
    ghost use Rattle.replica_file.specs.declared.appending.AppendFault.TheVariants.{DiskFault};

    ghost from_gives = { λ _ fault. fault ≡ DiskFault };

    fn from(_: Failed) -> AppendFault {
        AppendFault::DiskFault
    }
}

impl From<NoMemory> for AppendFault {
    ghost use Rattle.std.specs.Prelude.{◌≡◌};
    ghost use Rattle.replica_file.specs.declared.appending.AppendFault.TheVariants.{NoMemory as NoMemoryFound};

    ghost from_gives = { λ _ fault. fault ≡ NoMemoryFound };

    fn from(_: NoMemory) -> AppendFault {
        AppendFault::NoMemory
    }
}

/// Appends the operations as one batch, and returns where the file's meaning ends then. At every moment a crash leaves
/// all of the batch or none. No operations are no batch: then the file is left as it is.
pub fn append<H: Disk>(
    alloc: Global,
    disk: &mut H,
    end: End,
    ops: OpSlice<'_>,
) -> Result<End, AppendFault>
    requires reaches { IsWithinReach end }
    requires ends { IfSome (H.seen disk.old).past (λ h. EndsAtGate h.last end) }
    ensures { AppendMeets end ops.entry (H.seen disk.old) (H.seen disk.new) result }
{
    if ops.len() == 0 {
        return Ok(end);
    }
    if end.slots == u32::MAX {
        return Err(AppendFault::BatchTooLong);
    }
    let bytes = bytes_after_gate(alloc, ops)?;
    write_after(disk, end.at, &bytes)?;
    Ok(End {
        at: end.at + bytes.len() as u64,
        slots: end.slots + 1,
    })
}
