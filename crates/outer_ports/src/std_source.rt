//! A source over any reader of the system, such as standard input.

ghost use Rattle.std.specs.Prelude.{◌≡◌, None, false, OnOk, OnErr};
ghost use Rattle.std.specs.Io.KnownBytes.{ReadConsumes};
ghost use Rattle.outer_ports.specs.Sources.{ReadsSome};
ghost use Rattle.outer_ports.specs.Calls.{risen};

use crate::faults::Faults;
use crate::{Source, retry};
use fugue_ids::Failed;
use std::io::Read;

/// Reads from a stream of the system. It does not tell what is left there. A read that a signal interrupts is made
/// again.
#[derive(Drop)]
pub struct StdSource<R: Read + Drop> {
    reader: R,
    faults: Faults,
}

impl<R: Read + Drop> StdSource<R> {
    /// A source of what the stream gives, which has not failed yet.
    pub fn new(reader: R) -> StdSource<R>
        ensures seen { ⟦<StdSource<R> as Source>⟧.seen result
            ≡ record { left = None; faults = 0; sure = false } }
        ensures stream { result.reader ≡ reader }
    {
        StdSource {
            reader,
            faults: Faults::none(),
        }
    }
}

impl<R: Read + Drop> Source for StdSource<R> {
    ghost seen = { λ s. record { left = None; faults = s.faults; sure = false } };

    fn read(&mut self, buf: &mut [u8]) -> Result<usize, Failed>
        ensures reads { ReadsSome (⟦<StdSource<R> as Source>⟧.seen self.old) (⟦<StdSource<R> as Source>⟧.seen self.new)
            result buf.new }
        ensures stream { ReadConsumes (R.remaining self.old.reader) (R.remaining self.new.reader) result buf.new }
        ensures passed { OnOk result (self.new.faults ≡ self.old.faults) }
        ensures failed { OnErr result (self.new.faults ≡ risen self.old.faults) }
    {
        self.faults.pass(retry::read(&mut self.reader, buf))
    }
}
