//! A connection in memory with a predefined reply, which keeps what is written and fails at listed calls.
ghost use Rattle.std.specs.Prelude.{◌≡◌, ◌≤◌, [], Some, None, option_map};
ghost use Rattle.outer_ports.specs.wire.Wires.{Dials, WireReads, WireWrites};
ghost use Rattle.outer_ports.specs.Latest.{never};
ghost use Rattle.memory_ports.specs.wire.Forms.{MemDials, MemWireReads, MemWireWrites};

use fugue_ids::Failed;
use outer_ports::{Calls, Dial, Latest, Source, SureSource, Wire};
use std::alloc::Global;
use std::marker::Model;

/// Gives a reply from memory and keeps what is written, as much in each call as its piece allows. It fails at the calls
/// that it is set to, and where memory runs out.
#[derive(Drop)]
pub struct MemWire {
    dials: Latest<Dial>,
    reply: SureSource,
    said: Vec<u8>,
    calls: Calls,
    piece: usize,
}

impl Model for MemWire {
    ghost use Rattle.std.specs.Prelude.{◌≡◌, ◌≤◌, ◌-◌, vec_len, vec_capacity};
    ghost use Rattle.memory_ports.specs.wire.Forms.{MemWireView};

    ghost Value = { MemWireView };

    ghost view = { λ w. record {
      dials = w.dials;
      left = w.reply.left;
      said = w.said.items;
      piece = w.piece;
      spare = vec_capacity w.said - vec_len w.said;
      calls = w.calls;
    } };

    ghost invariant = { λ w. (1 ≤ w.piece) × (w.reply.piece ≡ w.piece) };
}

impl MemWire {
    /// A call gives or takes at most `piece` bytes. The calls listed in `fail`, counted from 0, fail.
    pub fn new(alloc: Global, reply: Vec<u8>, piece: usize, fail: Vec<u32>) -> MemWire
        requires { 1 ≤ piece }
        ensures seen { ⟦<MemWire as Wire>⟧.seen result
            ≡ record { dials = Some never; left = Some reply.items; said = Some []; faults = 0; room = None } }
        ensures piece { result.piece ≡ piece }
        ensures calls { result.calls ≡ record { made = 0; listed = fail.items; faults = 0 } }
    {
        MemWire {
            dials: Latest::none(),
            reply: SureSource::new(reply, piece),
            said: Vec::new(alloc),
            calls: Calls::new(fail),
            piece,
        }
    }

    /// All that was written so far.
    pub fn said(&self) -> &[u8]
        ensures { result.now ≡ self.now.said }
    {
        &self.said
    }

    /// How often it was dialled, and the last time.
    pub fn dials(&self) -> Latest<Dial>
        ensures { result ≡ self.now.dials }
    {
        self.dials
    }

    /// The port last dialled.
    pub fn port(&self) -> Option<u16>
        ensures { result ≡ option_map (λ d. d.port) self.now.dials.last }
    {
        self.dials.last.map(|d| d.port)
    }
}

impl Wire for MemWire {
    ghost seen = { λ w. record {
      dials = Some w.dials;
      left = Some w.left;
      said = Some w.said;
      faults = w.calls.faults;
      room = None;
    } };

    fn dial(&mut self, port: u16) -> Result<(), Failed>
        ensures dials { Dials (⟦<MemWire as Wire>⟧.seen self.old) (⟦<MemWire as Wire>⟧.seen self.new) result port }
        ensures form { MemDials self.old self.new result port }
    {
        self.calls.begin()?;
        self.dials.add(Dial {
            port,
            said: Some(self.said.len()),
            left: Some(self.reply.left()),
        });
        Ok(())
    }

    fn read(&mut self, buf: &mut [u8]) -> Result<usize, Failed>
        ensures reads { WireReads (⟦<MemWire as Wire>⟧.seen self.old) (⟦<MemWire as Wire>⟧.seen self.new)
            result buf.new }
        ensures form { MemWireReads self.old self.new result buf.new }
    {
        self.calls.begin()?;
        self.reply.read(buf)
    }

    fn write(&mut self, piece: &[u8]) -> Result<usize, Failed>
        ensures writes { WireWrites (⟦<MemWire as Wire>⟧.seen self.old) (⟦<MemWire as Wire>⟧.seen self.new)
            result piece.now }
        ensures form { MemWireWrites self.old self.new result piece.now }
    {
        self.calls.begin()?;
        let count = self.piece.min(piece.len());
        match self.said.extend_from_slice(&piece[..count]) {
            Ok(()) => Ok(count),
            Err(_) => Err(self.calls.fail()),
        }
    }
}
