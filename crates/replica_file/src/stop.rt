//! `Stop`: why a header or a record is not read: corrupt, disk failed, or out of memory.
use crate::reading::ReadFault;
use fugue_ids::{Failed, NoMemory};

/// Why the slots of a file are not taken in any further.
#[derive(Clone, Copy)]
pub(crate) enum Stop {
    /// The slot has no batch, or no byte stands after it.
    Bad,
    Disk,
    NoMemory,
}

impl From<Failed> for Stop {
    ghost use Rattle.std.specs.Prelude.{◌≡◌};
    ghost use Rattle.replica_file.specs.declared.stop.Stop.TheVariants.{Disk};

    ghost from_gives = { λ _ stop. stop ≡ Disk };

    fn from(_: Failed) -> Stop {
        Stop::Disk
    }
}

impl From<NoMemory> for Stop {
    ghost use Rattle.std.specs.Prelude.{◌≡◌};
    ghost use Rattle.replica_file.specs.declared.stop.Stop.TheVariants.{NoMemory as NoMemoryFound};

    ghost from_gives = { λ _ stop. stop ≡ NoMemoryFound };

    fn from(_: NoMemory) -> Stop {
        Stop::NoMemory
    }
}

impl From<ReadFault> for Stop {
    ghost use Rattle.std.specs.Prelude.{◌≡◌};
    ghost use Rattle.replica_file.specs.Stops.{stop_of};

    ghost from_gives = { λ fault stop. stop ≡ stop_of fault };

    fn from(fault: ReadFault) -> Stop {
        match fault {
            ReadFault::DiskFault => Stop::Disk,
            ReadFault::NoMemory => Stop::NoMemory,
        }
    }
}
