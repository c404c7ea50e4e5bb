//! Loads the replica of a file, its revisions and the end of its records, or says why that fails.
ghost use Rattle.std.specs.Prelude.{◌≡◌, ◌<◌, ◌≤◌, ◌+◌, IfSome, IfOk};
ghost use Rattle.fugue_ids.specs.declared.limits.TheConstants.{MOST_OPERATIONS};
ghost use Rattle.replica_file.specs.Ends.{IsWithinReach};
ghost use Rattle.replica_file.specs.Load.{LoadAnswerIs};
ghost use Rattle.replica_file.specs.Loaded.{LoadMeets};
ghost use Rattle.replica_file.specs.Loading.{CanTake};
ghost use Rattle.replica_file.specs.Looks.{LooksOnly, ReadsNoFurther};
ghost use Rattle.replica_file.specs.Moments.{HasMoments, OneListOfMoments, loaded_of};
ghost use Rattle.replica_file.specs.Laws.{OneImage};

use crate::front::read_front;
use crate::loading::Loading;
use crate::slots::take_slots;
use fugue_ids::{Failed, NoMemory};
use outer_ports::Disk;
use replica_core::Replica;
use std::alloc::Global;
use thiserror::Error;

/// Where the meaning of a replica's file ends.
#[derive(Clone, Copy, Debug, PartialEq, Eq)]
pub struct End {
    /// The offset of the gate that ends it.
    pub at: u64,
    /// How many open slots stand before it.
    pub slots: u32,
}

/// Why a file was not loaded.
#[derive(Clone, Copy, Debug, PartialEq, Eq, Error)]
pub enum LoadFault {
    #[error("no replica's file")]
    NotReplica,
    /// The open slot of this number has no batch, or no byte stands after it.
    #[error("bad batch in slot {0}")]
    BadBatch(u32),
    #[error("the disk failed")]
    DiskFault,
    /// So many operations are held, and one more came.
    #[error("{0} operations are accepted or wait")]
    TooMany(u32),
    #[error("out of memory")]
    NoMemory,
}

impl From<Failed> for LoadFault {
    ghost use Rattle.std.specs.Prelude.{◌≡◌};
    ghost use Rattle.replica_file.specs.declared.load_file.LoadFault.TheVariants.{DiskFault};

    ghost from_gives = { λ _ fault. fault ≡ DiskFault };

    fn from(_: Failed) -> LoadFault {
        LoadFault::DiskFault
    }
}

impl From<NoMemory> for LoadFault {
    ghost use Rattle.std.specs.Prelude.{◌≡◌};
    ghost use Rattle.replica_file.specs.declared.load_file.LoadFault.TheVariants.{NoMemory as NoMemoryFound};

    ghost from_gives = { λ _ fault. fault ≡ NoMemoryFound };

    fn from(_: NoMemory) -> LoadFault {
        LoadFault::NoMemory
    }
}

/// Loads the replica that a file holds, which may have `most` operations, and finds where the file's meaning ends.
/// Operations that are refused change nothing and are no fault.
///
/// The size is not asked for, nor, where it succeeds, a byte after the gate that ends the meaning. Any gate may be that
/// one until it is read, so what stands after a gate is asked for only once the gate was seen open: it is whole then,
/// though another program may be saving.
pub fn load<H: Disk>(alloc: Global, disk: &mut H, most: u32) -> Result<(Replica, End), LoadFault>
    requires some { 0 < most }
    requires within { most ≤ MOST_OPERATIONS }
    ensures { LoadMeets most (H.seen disk.old) (H.seen disk.new) result }
{
    match load_moments(alloc, disk, most) {
        Ok((replica, end, _moments)) => Ok((replica, end)),
        Err(fault) => Err(fault),
    }
}

/// The same, with the moments of the file: of each batch with which more operations were accepted, how many were accepted
/// then.
pub fn load_moments<H: Disk>(
    alloc: Global,
    disk: &mut H,
    most: u32,
) -> Result<(Replica, End, Vec<u32>), LoadFault>
    requires some { 0 < most }
    requires within { most ≤ MOST_OPERATIONS }
    ensures meets { LoadMeets most (H.seen disk.old) (H.seen disk.new) (loaded_of result) }
    ensures moments { IfOk result (λ loaded. IfSome (H.seen disk.old).past (λ h.
        HasMoments h.last.seen loaded.2.items)) }
{
    disk.sync()?;
    read_all(alloc, disk, most)
}

/// Loads what a read gives.
fn read_all<H: Disk>(
    alloc: Global,
    disk: &mut H,
    most: u32,
) -> Result<(Replica, End, Vec<u32>), LoadFault>
    requires some { 0 < most }
    requires within { most ≤ MOST_OPERATIONS }
    ensures cause { IfSome (H.seen disk.old).past (λ h. LoadAnswerIs most h.last.seen (loaded_of result)) }
    ensures moments_are { IfOk result
        (λ loaded. IfSome (H.seen disk.old).past (λ h. HasMoments h.last.seen loaded.2.items)) }
    ensures ready { IfOk result (λ loaded. CanTake loaded.0) }
    ensures reaches { IfOk result (λ loaded. IsWithinReach loaded.1) }
    ensures looks { LooksOnly (H.seen disk.old) (H.seen disk.new) (result ≡ Err LoadFault.DiskFault) }
    ensures reach { IfOk result
        (λ loaded. ReadsNoFurther (loaded.1.at + 1) (H.seen disk.old) (H.seen disk.new)) }
{
    let front = read_front(disk)?;
    let mut loading = Loading::new(alloc, front.header, most);
    let mut moments = Vec::new(alloc);
    match take_slots(alloc, disk, front.gate, most, &mut loading, &mut moments) {
        Ok(end) => Ok((loading.into_replica(), end, moments)),
        Err(fault) => {
            loading.into_replica().discard();
            Err(fault)
        }
    }
}

/// All bytes mean exactly one thing as a replica's file.
pub fn one_image()
    ensures { OneImage }
{}

/// A replica's file has one list of moments.
pub fn moments_once()
    ensures { OneListOfMoments }
{}
