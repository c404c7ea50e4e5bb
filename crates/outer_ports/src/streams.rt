//! The trait of a source, from which bytes are read.

ghost use Rattle.outer_ports.specs.Sources.{SourceView, ReadsSome};

use fugue_ids::Failed;

/// Where a program's bytes come from.
pub trait Source {
    /// What is left, the count of faults, and whether no call fails: each form says what of these it tells.
    ghost seen: { Self → SourceView };

    /// Gives the next bytes of what is left, and returns how many. An answer of 0 for a buffer that is not empty comes
    /// only at the end. What `buf` holds after the given bytes is not said.
    fn read(&mut self, buf: &mut [u8]) -> Result<usize, Failed>
        ensures { ReadsSome (seen self.old) (seen self.new) result buf.new };
}
