//! A sink over any writer of the system, such as standard output.

ghost use Rattle.std.specs.Prelude.{◌≡◌, None, OnOk, OnErr};
ghost use Rattle.std.specs.Io.KnownBytes.{WriteAppends};
ghost use Rattle.fugue_ids.specs.Outs.{WritesSome};
ghost use Rattle.outer_ports.specs.Calls.{risen};

use crate::faults::{Faults, taken};
use crate::{Sink, retry};
use fugue_ids::{Failed, Out};
use std::io::Write;

/// Writes to a stream of the system. It does not tell what was written there. A write that a signal interrupts is made
/// again.
#[derive(Drop)]
pub struct StdSink<W: Write + Drop> {
    writer: W,
    faults: Faults,
}

impl<W: Write + Drop> StdSink<W> {
    /// A sink that hands on to the stream, which has not failed yet.
    pub fn new(writer: W) -> StdSink<W>
        ensures seen { ⟦<StdSink<W> as Out>⟧.seen result
            ≡ record { written = None; faults = 0; room = None } }
        ensures stream { result.writer ≡ writer }
    {
        StdSink {
            writer,
            faults: Faults::none(),
        }
    }
}

impl<W: Write + Drop> Out for StdSink<W> {
    ghost seen = { λ s. record { written = None; faults = s.faults; room = None } };

    fn write(&mut self, piece: &[u8]) -> Result<usize, Failed>
        ensures writes { WritesSome (⟦<StdSink<W> as Out>⟧.seen self.old) (⟦<StdSink<W> as Out>⟧.seen self.new)
            result piece.now }
        ensures stream { WriteAppends (W.contents self.old.writer) (W.contents self.new.writer) result piece.now }
        ensures passed { OnOk result (self.new.faults ≡ self.old.faults) }
        ensures failed { OnErr result (self.new.faults ≡ risen self.old.faults) }
    {
        self.faults
            .pass(taken(retry::write(&mut self.writer, piece), piece))
    }
}

impl<W: Write + Drop> Sink for StdSink<W> {}
