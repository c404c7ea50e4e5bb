//! The trait of a file that is read and written at offsets, and laws of what a crash leaves of it.

ghost use Rattle.std.specs.Prelude.{◌≤◌, length, IfSome};
ghost use Rattle.outer_ports.specs.disk.Disks.{DiskView, Sizes, ReadsAt, WritesAt, Syncs};
ghost use Rattle.outer_ports.specs.disk.Laws.{ReadsStayHonest, RestIsHonest, SinceNow, SizesStayHonest, SpansJoin};
ghost use Rattle.outer_ports.specs.disk.Laws.{SyncBringsNone, SyncsStayHonest, WritesStayHonest};

mod file_disk;

pub use file_disk::{FileDisk, Opening};
use fugue_ids::Failed;

/// A file on a disk.
pub trait Disk {
    /// The states so far, the count of faults, the room that is left, and what was asked for: each form says what of
    /// these it tells.
    ghost seen: { Self → DiskView };

    /// How long the file is.
    fn size(&mut self) -> Result<u64, Failed>
        ensures { Sizes (seen self.old) (seen self.new) result };

    /// Gives bytes that stand from `at` on, and returns how many: none exactly at or past the end, or for an empty
    /// buffer. What `buf` holds after the given bytes is not said.
    fn read_at(&mut self, at: u64, buf: &mut [u8]) -> Result<usize, Failed>
        ensures { ReadsAt (seen self.old) (seen self.new) result at buf.new };

    /// Writes over what is there, and past the end. Until a sync, a crash may leave any bytes in the range.
    fn write_at(&mut self, at: u64, bytes: &[u8]) -> Result<(), Failed>
        requires inside { IfSome (seen self.old).past (λ h. at ≤ length h.last.seen) }
        ensures writes { WritesAt (seen self.old) (seen self.new) result at bytes.now };

    /// After it, a crash leaves what a read gives.
    fn sync(&mut self) -> Result<(), Failed>
        ensures { Syncs (seen self.old) (seen self.new) result };
}

/// What a crash may have left since a moment is what it may have left until a later moment, and since that one.
pub fn spans_join()
    ensures joins { SpansJoin }
    ensures now { SinceNow }
{}

/// A sync brings no image that could not be left before it.
pub fn sync_brings_none()
    ensures { SyncBringsNone }
{}

/// Bytes at rest are honest, and each call keeps a disk honest, whatever it answers: what a read gives is always one of
/// the files that a crash may leave.
pub fn disks_stay_honest()
    ensures rest { RestIsHonest }
    ensures sizes { SizesStayHonest }
    ensures reads { ReadsStayHonest }
    ensures writes { WritesStayHonest }
    ensures syncs { SyncsStayHonest }
{}
