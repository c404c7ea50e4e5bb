//! The start of a file: its header and the first commit byte.
ghost use Rattle.std.specs.Prelude.{◌≡◌, ◌≢◌, ◌<◌, ◌≤◌, false, IfSome, IfOk, IfErr, OnOk, ℕ};
ghost use Rattle.origin_model.specs.files.Image.{has_header};
ghost use Rattle.fugue_ids.specs.declared.limits.TheConstants.{GREATEST_HOLD};
ghost use Rattle.replica_file.specs.Looks.{LooksOnly, ReadsNoFurther};
ghost use Rattle.replica_file.specs.Slots.{IsFileFront, SlotStopsFor};

use crate::LoadFault;
use crate::gate::Gate;
use crate::header::{HEADER, Header, read_header};
use crate::slot::read_gate;
use crate::stop::Stop;
use outer_ports::Disk;

/// What stands in front of the slots, and the first gate.
#[derive(Clone, Copy)]
pub(crate) struct Front {
    pub(crate) header: Header,
    pub(crate) gate: Gate,
}

/// The front of a file.
pub(crate) fn read_front<H: Disk>(disk: &mut H) -> Result<Front, LoadFault>
    ensures specified { IfOk result
        (λ front. IfSome (H.seen disk.old).past (λ h. IsFileFront h.last.seen front.header front.gate)) }
    ensures at { IfOk result (λ front. front.gate.at ≡ 13) }
    ensures within { IfOk result (λ front.
        (0 < front.header.replica) × (0 < front.header.hold) × (front.header.hold ≤ GREATEST_HOLD)) }
    ensures stops { IfErr result (λ fault. IfSome (H.seen disk.old).past (λ h.
        (most : ℕ) → SlotStopsFor most h.last.seen fault)) }
    ensures looks { LooksOnly (H.seen disk.old) (H.seen disk.new) (result ≡ Err LoadFault.DiskFault) }
    ensures reach { OnOk result (ReadsNoFurther 14 (H.seen disk.old) (H.seen disk.new)) }
{
    match read_both(disk) {
        Ok(front) => Ok(front),
        Err(Stop::Bad) => Err(LoadFault::NotReplica),
        Err(Stop::Disk) => Err(LoadFault::DiskFault),
        Err(Stop::NoMemory) => Err(LoadFault::NoMemory),
    }
}

fn read_both<H: Disk>(disk: &mut H) -> Result<Front, Stop>
    ensures specified { IfOk result
        (λ front. IfSome (H.seen disk.old).past (λ h. IsFileFront h.last.seen front.header front.gate)) }
    ensures at { IfOk result (λ front. front.gate.at ≡ 13) }
    ensures within { IfOk result (λ front.
        (0 < front.header.replica) × (0 < front.header.hold) × (front.header.hold ≤ GREATEST_HOLD)) }
    ensures bad { result ≡ Err Stop.Bad → IfSome (H.seen disk.old).past (λ h. has_header h.last.seen ≡ false) }
    ensures no_memory { result ≢ Err Stop.NoMemory }
    ensures looks { LooksOnly (H.seen disk.old) (H.seen disk.new) (result ≡ Err Stop.Disk) }
    ensures reach { OnOk result (ReadsNoFurther 14 (H.seen disk.old) (H.seen disk.new)) }
{
    let header = read_header(disk)?;
    let gate = read_gate(disk, HEADER as u64)?;
    Ok(Front { header, gate })
}
