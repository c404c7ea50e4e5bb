//! A sink in memory with reserved capacity: writes never allocate, and fail only if it is exceeded.
ghost use Rattle.std.specs.Prelude.{◌≡◌, ◌≤◌, [], Some, IfOk};
ghost use Rattle.fugue_ids.specs.Outs.{WritesSome};
ghost use Rattle.memory_ports.specs.Forms.{SureWrites};

use fugue_ids::{Failed, NoMemory, Out};
use outer_ports::{Sink, raise};
use std::alloc::Global;
use std::marker::Model;

/// Keeps what is written, as much in each call as its piece allows, in room that was reserved. A write takes no
/// memory, and fails only where no room is left.
#[derive(Drop)]
pub struct SureSink {
    bytes: Vec<u8>,
    piece: usize,
    room: usize,
    faults: u64,
}

impl Model for SureSink {
    ghost use Rattle.std.specs.Prelude.{◌≤◌, ◌+◌, vec_len, vec_capacity};
    ghost use Rattle.memory_ports.specs.Forms.{SureSinkView};

    ghost Value = { SureSinkView };

    ghost view = { λ s. record { written = s.bytes.items; piece = s.piece; room = s.room; faults = s.faults } };

    ghost invariant = { λ s. (vec_len s.bytes + s.room ≤ vec_capacity s.bytes) × (1 ≤ s.piece) };
}

impl SureSink {
    /// A call takes at most `piece` bytes, and all calls together at most `room`.
    pub fn new(alloc: Global, piece: usize, room: usize) -> Result<SureSink, NoMemory>
        requires { 1 ≤ piece }
        ensures seen { IfOk result (λ s. ⟦<SureSink as Out>⟧.seen s
            ≡ record { written = Some []; faults = 0; room = Some room }) }
        ensures piece { IfOk result (λ s. s.piece ≡ piece) }
    {
        Ok(SureSink {
            bytes: Vec::with_capacity(alloc, room)?,
            piece,
            room,
            faults: 0,
        })
    }

    /// All that was written so far.
    pub fn written(&self) -> &[u8]
        ensures { result.now ≡ self.now.written }
    {
        &self.bytes
    }
}

impl Out for SureSink {
    ghost seen = { λ s. record { written = Some s.written; faults = s.faults; room = Some s.room } };

    fn write(&mut self, piece: &[u8]) -> Result<usize, Failed>
        ensures writes { WritesSome (⟦<SureSink as Out>⟧.seen self.old) (⟦<SureSink as Out>⟧.seen self.new)
            result piece.now }
        ensures form { SureWrites self.old self.new result piece.now }
    {
        if self.room == 0 && !piece.is_empty() {
            raise(&mut self.faults);
            return Err(Failed);
        }
        let count = self.piece.min(piece.len()).min(self.room);
        match self.bytes.extend_from_slice(&piece[..count]) {
            Ok(()) => {
                self.room -= count;
                Ok(count)
            }
            Err(_) => unreachable!(),
        }
    }
}

impl Sink for SureSink {}
