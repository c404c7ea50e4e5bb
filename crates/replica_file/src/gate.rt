//! The commit byte of a record, and the write that sets it once the record is durable.
ghost use Rattle.std.specs.Prelude.{◌≡◌, ◌+◌, ◌<◌, ◌^◌, IfSome, OnOk, OnErr};
ghost use Rattle.fugue_ids.specs.Causes.{HasCause};
ghost use Rattle.outer_ports.specs.disk.Disks.{DiskIsSpecified};
ghost use Rattle.outer_ports.specs.disk.Moments.{LeavesOnlyTo};
ghost use Rattle.outer_ports.specs.disk.States.{IsHonest};
ghost use Rattle.replica_file.specs.Ends.{Agrees};
ghost use Rattle.replica_file.specs.Gates.{BeforeOrWritten, OpenedTo, LastsForCalls, gate_opened, spent_opening};

use fugue_ids::Failed;
use outer_ports::Disk;

/// A gate of a file.
#[derive(Clone, Copy)]
pub(crate) struct Gate {
    pub(crate) at: u64,
    pub(crate) open: bool,
}

/// The first byte of a slot that counts.
pub(crate) const OPEN: u8 = 1;

/// The byte in the place of a slot that is still to come. Any other but `OPEN` says the same.
pub(crate) const CLOSED: u8 = 0;

/// Writes the bytes after the closed gate, and opens it once they are settled.
pub(crate) fn write_after<H: Disk>(disk: &mut H, gate: u64, bytes: &[u8]) -> Result<(), Failed>
    requires agrees { IfSome (H.seen disk.old).past (λ h. Agrees h.last (gate + 1)) }
    requires small { gate + 1 < 2 ^ 64 }
    ensures moments { IfSome (H.seen disk.old).past (λ h.
        LeavesOnlyTo h (H.seen disk.new).past (BeforeOrWritten h.last.seen gate bytes.now)) }
    ensures opened { OnOk result (IfSome (H.seen disk.old).past (λ h.
        OpenedTo h.last.seen gate bytes.now (H.seen disk.new).past)) }
    ensures past { OnOk result ((H.seen disk.new).past ≡ gate_opened gate bytes.now (H.seen disk.old).past) }
    ensures honest { IfSome (H.seen disk.old).past (λ h. IsHonest h.last)
        → IfSome (H.seen disk.new).past (λ k. IsHonest k.last) }
    ensures room { OnOk result ((H.seen disk.new).room ≡ spent_opening bytes.now (H.seen disk.old).room) }
    ensures cause { HasCause (H.seen disk.old).faults (H.seen disk.new).faults result }
    ensures sure { IfSome (H.seen disk.old).room (λ room. LastsForCalls bytes.now room → OnErr result ⊥) }
    ensures counts_no_fault { IfSome (H.seen disk.old).room (λ room.
        LastsForCalls bytes.now room → (H.seen disk.new).faults ≡ (H.seen disk.old).faults) }
    ensures specified_no_fault { DiskIsSpecified (H.seen disk.old)
        → OnOk result ((H.seen disk.new).faults ≡ (H.seen disk.old).faults) }
{
    disk.write_at(gate + 1, bytes)?;
    disk.sync()?;
    disk.write_at(gate, &[OPEN])?;
    disk.sync()
}
