//! The high-water mark of the reads of a disk, which both disks in memory keep.
ghost use Rattle.std.specs.Prelude.{◌≡◌};
ghost use Rattle.outer_ports.specs.disk.Disks.{reach_after};

/// So many bytes were asked for from an offset on.
pub(super) fn reach_to(reach: &mut u64, at: u64, count: usize)
    ensures { reach.new ≡ reach_after at count reach.old }
{
    *reach = (*reach).max(at.saturating_add(count as u64));
}
