//! A connection in memory with a predefined reply and reserved capacity; I/O calls never allocate.
ghost use Rattle.std.specs.Prelude.{◌≡◌, ◌≤◌, [], Ok, Some, IfOk, option_map};
ghost use Rattle.outer_ports.specs.wire.Wires.{Dials, WireReads, WireWrites};
ghost use Rattle.outer_ports.specs.Latest.{never, once_more};
ghost use Rattle.memory_ports.specs.wire.Forms.{SureWireReads, SureWireWrites, dial_at};

use crate::SureSink;
use fugue_ids::{Failed, NoMemory, Out};
use outer_ports::{Dial, Latest, Source, SureSource, Wire};
use std::alloc::Global;
use std::marker::Model;

/// Gives a reply from memory and keeps what is written, at most `piece` bytes in each call, in room that was reserved.
/// No call allocates memory, and none fails but a write for which no room is left.
#[derive(Drop)]
pub struct SureWire {
    dials: Latest<Dial>,
    reply: SureSource,
    said: SureSink,
}

impl Model for SureWire {
    ghost use Rattle.std.specs.Prelude.{◌≡◌};
    ghost use Rattle.memory_ports.specs.wire.Forms.{SureWireView};

    ghost Value = { SureWireView };

    ghost view = { λ w. record {
      dials = w.dials;
      left = w.reply.left;
      said = w.said.written;
      piece = w.said.piece;
      room = w.said.room;
      faults = w.said.faults;
    } };

    ghost invariant = { λ w. w.reply.piece ≡ w.said.piece };
}

impl SureWire {
    /// A call gives or takes at most `piece` bytes, and all writes together take at most `room`.
    pub fn new(
        alloc: Global,
        reply: Vec<u8>,
        piece: usize,
        room: usize,
    ) -> Result<SureWire, NoMemory>
        requires { 1 ≤ piece }
        ensures seen { IfOk result (λ w. ⟦<SureWire as Wire>⟧.seen w
            ≡ record { dials = Some never; left = Some reply.items; said = Some []; faults = 0; room = Some room }) }
        ensures piece { IfOk result (λ w. w.piece ≡ piece) }
    {
        let said = SureSink::new(alloc, piece, room)?;
        Ok(SureWire {
            dials: Latest::none(),
            reply: SureSource::new(reply, piece),
            said,
        })
    }

    /// All that was written so far.
    pub fn said(&self) -> &[u8]
        ensures { result.now ≡ self.now.said }
    {
        self.said.written()
    }

    /// How often it was dialled, and the last time.
    pub fn dials(&self) -> Latest<Dial>
        ensures { result ≡ self.now.dials }
    {
        self.dials
    }

    /// The port last dialled.
    pub fn port(&self) -> Option<u16>
        ensures { result ≡ option_map (λ d. d.port) self.now.dials.last }
    {
        self.dials.last.map(|d| d.port)
    }
}

impl Wire for SureWire {
    ghost seen = { λ w. record {
      dials = Some w.dials;
      left = Some w.left;
      said = Some w.said;
      faults = w.faults;
      room = Some w.room;
    } };

    fn dial(&mut self, port: u16) -> Result<(), Failed>
        ensures dials { Dials (⟦<SureWire as Wire>⟧.seen self.old) (⟦<SureWire as Wire>⟧.seen self.new) result port }
        ensures form { self.new
            ≡ record self.old { dials = once_more (dial_at port self.old.said self.old.left) self.old.dials } }
    {
        self.dials.add(Dial {
            port,
            said: Some(self.said.written().len()),
            left: Some(self.reply.left()),
        });
        Ok(())
    }

    fn read(&mut self, buf: &mut [u8]) -> Result<usize, Failed>
        ensures reads { WireReads (⟦<SureWire as Wire>⟧.seen self.old) (⟦<SureWire as Wire>⟧.seen self.new)
            result buf.new }
        ensures form { SureWireReads self.old self.new result buf.new }
    {
        self.reply.read(buf)
    }

    fn write(&mut self, piece: &[u8]) -> Result<usize, Failed>
        ensures writes { WireWrites (⟦<SureWire as Wire>⟧.seen self.old) (⟦<SureWire as Wire>⟧.seen self.new)
            result piece.now }
        ensures form { SureWireWrites self.old self.new result piece.now }
    {
        self.said.write(piece)
    }
}
