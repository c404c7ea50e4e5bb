//! A source that gives bytes from memory in pieces of limited size, and fails at listed calls.
ghost use Rattle.std.specs.Prelude.{◌≡◌, ◌≤◌, Some, false};
ghost use Rattle.outer_ports.specs.Sources.{ReadsSome};
ghost use Rattle.memory_ports.specs.Forms.{MemReads};

use fugue_ids::Failed;
use outer_ports::{Calls, Source, SureSource};
use std::marker::Model;

/// Gives bytes from memory, as much in each call as its piece allows. It fails at the calls that it is set to.
#[derive(Drop)]
pub struct MemSource {
    source: SureSource,
    calls: Calls,
}

impl Model for MemSource {
    ghost use Rattle.memory_ports.specs.Forms.{MemSourceView};

    ghost Value = { MemSourceView };

    ghost view = { λ s. record { left = s.source.left; piece = s.source.piece; calls = s.calls } };
}

impl MemSource {
    /// A call gives at most `piece` bytes. The calls listed in `fail`, counted from 0, fail.
    pub fn new(bytes: Vec<u8>, piece: usize, fail: Vec<u32>) -> MemSource
        requires { 1 ≤ piece }
        ensures seen { ⟦<MemSource as Source>⟧.seen result
            ≡ record { left = Some bytes.items; faults = 0; sure = false } }
        ensures piece { result.piece ≡ piece }
        ensures calls { result.calls ≡ record { made = 0; listed = fail.items; faults = 0 } }
    {
        MemSource {
            source: SureSource::new(bytes, piece),
            calls: Calls::new(fail),
        }
    }
}

impl Source for MemSource {
    ghost seen = { λ s. record { left = Some s.left; faults = s.calls.faults; sure = false } };

    fn read(&mut self, buf: &mut [u8]) -> Result<usize, Failed>
        ensures reads { ReadsSome (⟦<MemSource as Source>⟧.seen self.old) (⟦<MemSource as Source>⟧.seen self.new)
            result buf.new }
        ensures form { MemReads self.old self.new result buf.new }
    {
        self.calls.begin()?;
        self.source.read(buf)
    }
}
