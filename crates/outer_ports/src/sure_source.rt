//! A source in memory that never fails, and gives its bytes in pieces.

ghost use Rattle.std.specs.Prelude.{◌≡◌, ◌≤◌, Some, true, length};
ghost use Rattle.outer_ports.specs.Sources.{ReadsSome};
ghost use Rattle.outer_ports.specs.Forms.{SureReads};

use crate::Source;
use fugue_ids::Failed;
use std::marker::Model;

/// Gives bytes from memory, as much in each call as its piece allows, and never fails.
#[derive(Drop)]
pub struct SureSource {
    bytes: Vec<u8>,
    at: usize,
    piece: usize,
}

impl Model for SureSource {
    ghost use Rattle.std.specs.Prelude.{◌≤◌, drop, vec_len};
    ghost use Rattle.outer_ports.specs.Forms.{SureSourceView};

    ghost Value = { SureSourceView };

    ghost view = { λ s. record { left = drop s.at s.bytes.items; piece = s.piece } };

    ghost invariant = { λ s. (s.at ≤ vec_len s.bytes) × (1 ≤ s.piece) };
}

impl SureSource {
    /// A call gives at most `piece` bytes.
    pub fn new(bytes: Vec<u8>, piece: usize) -> SureSource
        requires { 1 ≤ piece }
        ensures seen { ⟦<SureSource as Source>⟧.seen result
            ≡ record { left = Some bytes.items; faults = 0; sure = true } }
        ensures piece { result.piece ≡ piece }
    {
        SureSource {
            bytes,
            at: 0,
            piece,
        }
    }

    /// How many bytes are left.
    pub fn left(&self) -> usize
        ensures { result ≡ length self.now.left }
    {
        self.bytes.len() - self.at
    }
}

impl Source for SureSource {
    ghost seen = { λ s. record { left = Some s.left; faults = 0; sure = true } };

    fn read(&mut self, buf: &mut [u8]) -> Result<usize, Failed>
        ensures reads { ReadsSome (⟦<SureSource as Source>⟧.seen self.old) (⟦<SureSource as Source>⟧.seen self.new)
            result buf.new }
        ensures form { SureReads self.old self.new result buf.new }
    {
        let count = self.piece.min(buf.len()).min(self.bytes.len() - self.at);
        buf[..count].copy_from_slice(&self.bytes[self.at..self.at + count]);
        self.at += count;
        Ok(count)
    }
}
