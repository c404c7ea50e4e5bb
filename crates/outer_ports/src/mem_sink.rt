//! A sink in memory, which fails at calls that a test chooses.

ghost use Rattle.std.specs.Prelude.{◌≡◌, ◌≤◌, [], Some, None};
ghost use Rattle.fugue_ids.specs.Outs.{WritesSome};
ghost use Rattle.outer_ports.specs.Forms.{MemWrites};

use crate::Sink;
use crate::calls::Calls;
use fugue_ids::{Failed, Out};
use std::alloc::Global;
use std::marker::Model;

/// Keeps what is written, as much in each call as its piece allows. It fails at the calls that it is set to, and where
/// memory runs out.
#[derive(Drop)]
pub struct MemSink {
    bytes: Vec<u8>,
    piece: usize,
    calls: Calls,
}

impl Model for MemSink {
    ghost use Rattle.std.specs.Prelude.{◌≤◌, ◌-◌, vec_len, vec_capacity};
    ghost use Rattle.outer_ports.specs.Forms.{MemSinkView};

    ghost Value = { MemSinkView };

    ghost view = { λ s. record {
      written = s.bytes.items;
      piece = s.piece;
      spare = vec_capacity s.bytes - vec_len s.bytes;
      calls = s.calls;
    } };

    ghost invariant = { λ s. 1 ≤ s.piece };
}

impl MemSink {
    /// A call takes at most `piece` bytes. The calls listed in `fail`, counted from 0, fail.
    pub fn new(alloc: Global, piece: usize, fail: Vec<u32>) -> MemSink
        requires { 1 ≤ piece }
        ensures seen { ⟦<MemSink as Out>⟧.seen result
            ≡ record { written = Some []; faults = 0; room = None } }
        ensures piece { result.piece ≡ piece }
        ensures calls { result.calls ≡ record { made = 0; listed = fail.items; faults = 0 } }
    {
        MemSink {
            bytes: Vec::new(alloc),
            piece,
            calls: Calls::new(fail),
        }
    }

    /// All that was written so far.
    pub fn written(&self) -> &[u8]
        ensures { result.now ≡ self.now.written }
    {
        &self.bytes
    }
}

impl Out for MemSink {
    ghost seen = { λ s. record { written = Some s.written; faults = s.calls.faults; room = None } };

    fn write(&mut self, piece: &[u8]) -> Result<usize, Failed>
        ensures writes { WritesSome (⟦<MemSink as Out>⟧.seen self.old) (⟦<MemSink as Out>⟧.seen self.new)
            result piece.now }
        ensures form { MemWrites self.old self.new result piece.now }
    {
        self.calls.begin()?;
        let count = self.piece.min(piece.len());
        match self.bytes.extend_from_slice(&piece[..count]) {
            Ok(()) => Ok(count),
            Err(_) => Err(self.calls.fail()),
        }
    }
}

impl Sink for MemSink {}
