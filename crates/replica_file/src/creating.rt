//! Creates a file that has a header and no records, for a replica without operations.
ghost use Rattle.std.specs.Prelude.{◌<◌, ◌≤◌};
ghost use Rattle.fugue_ids.specs.declared.limits.TheConstants.{GREATEST_HOLD};
ghost use Rattle.replica_file.specs.Create.{CreateMeets};

use crate::header::new_file;
use fugue_ids::Failed;
use outer_ports::Disk;

/// Why a file was not made.
#[derive(Clone, Copy, Debug, PartialEq, Eq)]
pub enum CreateFault {
    NotEmpty,
    DiskFault,
}

impl From<Failed> for CreateFault {
    ghost use Rattle.std.specs.Prelude.{◌≡◌};
    ghost use Rattle.replica_file.specs.declared.creating.CreateFault.TheVariants.{DiskFault};

    ghost from_gives = { λ _ fault. fault ≡ DiskFault };

    fn from(_: Failed) -> CreateFault {
        CreateFault::DiskFault
    }
}

/// Makes the file of a replica that holds nothing. It takes no memory. A file that has bytes stays as it is, whatever
/// the answer.
pub fn create<H: Disk>(disk: &mut H, replica: u32, hold: u32) -> Result<(), CreateFault>
    requires some_replica { 0 < replica }
    requires some_hold { 0 < hold }
    requires hold_within { hold ≤ GREATEST_HOLD }
    ensures { CreateMeets replica hold (H.seen disk.old) (H.seen disk.new) result }
{
    if disk.size()? != 0 {
        return Err(CreateFault::NotEmpty);
    }
    disk.write_at(0, &new_file(replica, hold))?;
    disk.sync()?;
    Ok(())
}
