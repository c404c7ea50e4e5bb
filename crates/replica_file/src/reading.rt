//! Reads from a disk until the buffer is full or the file ends.
ghost use Rattle.std.specs.Prelude.{◌≡◌, ◌+◌, ◌<◌, ◌≤◌, ◌^◌, length, take, drop, vec_len, IsErr, IfOk, OnOk, IfSome};
ghost use Rattle.replica_file.specs.Looks.{LooksOnly, ReadsMore, ReadsNoFurther};

use fugue_ids::{Failed, NoMemory};
use outer_ports::Disk;
use std::alloc::Global;

/// Why a file's bytes were not read.
#[derive(Clone, Copy)]
pub enum ReadFault {
    /// A read failed, and the disk's count of faults rose.
    DiskFault,
    /// Memory ran out, before anything was read.
    NoMemory,
}

impl From<Failed> for ReadFault {
    ghost use Rattle.std.specs.Prelude.{◌≡◌};
    ghost use Rattle.replica_file.specs.declared.reading.ReadFault.TheVariants.{DiskFault};

    ghost from_gives = { λ _ fault. fault ≡ DiskFault };

    fn from(_: Failed) -> ReadFault {
        ReadFault::DiskFault
    }
}

impl From<NoMemory> for ReadFault {
    ghost use Rattle.std.specs.Prelude.{◌≡◌};
    ghost use Rattle.replica_file.specs.declared.reading.ReadFault.TheVariants.{NoMemory as NoMemoryFound};

    ghost from_gives = { λ _ fault. fault ≡ NoMemoryFound };

    fn from(_: NoMemory) -> ReadFault {
        ReadFault::NoMemory
    }
}

/// The bytes of a file from an offset on: as many as are asked for, or as there are.
pub fn read_piece<H: Disk>(
    alloc: Global,
    disk: &mut H,
    at: u64,
    size: usize,
) -> Result<Vec<u8>, ReadFault>
    requires { at + size < 2 ^ 64 }
    ensures specified { IfOk result (λ piece. IfSome (H.seen disk.old).past (λ h.
        piece.items ≡ take size (drop at h.last.seen))) }
    ensures bound { IfOk result (λ piece. vec_len piece ≤ size) }
    ensures looks { LooksOnly (H.seen disk.old) (H.seen disk.new) (result ≡ Err ReadFault.DiskFault) }
    ensures reach { OnOk result (ReadsNoFurther (at + size) (H.seen disk.old) (H.seen disk.new)) }
{
    let mut piece = zeros(alloc, size)?;
    let count = read_from(disk, at, &mut piece)?;
    piece.truncate(count);
    Ok(piece)
}

fn zeros(alloc: Global, size: usize) -> Result<Vec<u8>, NoMemory>
    ensures { IfOk result (λ bytes. vec_len bytes ≡ size) }
{
    let mut bytes = Vec::new(alloc);
    bytes.resize(size, 0)?;
    Ok(bytes)
}

#[tactic(auto, using(crate::proofs::ReachLemmas::reaches_none))]
/// Fills the buffer with the bytes from an offset on, as far as there are any, and returns how many there were.
pub(crate) fn read_from<H: Disk>(disk: &mut H, at: u64, buf: &mut [u8]) -> Result<usize, Failed>
    requires { at + length buf.old < 2 ^ 64 }
    ensures bound { IfOk result (λ n. n ≤ length buf.new) }
    ensures specified { IfOk result (λ n. IfSome (H.seen disk.old).past (λ h.
        take n buf.new ≡ take (length buf.new) (drop at h.last.seen))) }
    ensures looks { LooksOnly (H.seen disk.old) (H.seen disk.new) (IsErr result) }
    ensures reach { OnOk result (ReadsNoFurther (at + length buf.new) (H.seen disk.old) (H.seen disk.new)) }
{
    let mut filled = 0;
    'reads: while filled < buf.len() {
        let count = read_more(disk, at, buf, filled)?;
        if count == 0 {
            return Ok(filled);
        }
        filled += count;
    }
    Ok(filled)
}

/// Reads into the part of the buffer that is not filled yet.
fn read_more<H: Disk>(disk: &mut H, at: u64, buf: &mut [u8], filled: usize) -> Result<usize, Failed>
    requires within { filled ≤ length buf.old }
    requires small { at + length buf.old < 2 ^ 64 }
    ensures { ReadsMore (H.seen disk.old) (H.seen disk.new) result at filled buf.old buf.new }
{
    disk.read_at(at + filled as u64, &mut buf[filled..])
}
