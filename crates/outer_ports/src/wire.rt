//! The trait of a client's connections, and what is known of one connection.

ghost use Rattle.outer_ports.specs.wire.Wires.{WireView, Dials, WireReads, WireWrites};

mod ahead;
mod tcp_wire;

use fugue_ids::Failed;
pub use tcp_wire::TcpWire;

/// A call of `dial` that went well, and how much had been written and was left to read by then, where that is specified.
#[derive(Clone, Copy, Debug, PartialEq, Eq)]
pub struct Dial {
    pub port: u16,
    pub said: Option<usize>,
    pub left: Option<usize>,
}

/// A way to ask somebody and to hear the answer. What is said and heard passes on the connection that was dialled last.
pub trait Wire {
    /// The dials, what is left to read, what was written, the count of faults, and the room that is left: each
    /// form says what of these it tells.
    ghost seen: { Self → WireView };

    /// Asks for whoever listens on this port.
    fn dial(&mut self, port: u16) -> Result<(), Failed>
        ensures { Dials (seen self.old) (seen self.new) result port };

    /// Gives the next bytes of what is left, and returns how many. An answer of 0 for a buffer that is not empty comes
    /// only at the end. What `buf` holds after the given bytes is not said.
    fn read(&mut self, buf: &mut [u8]) -> Result<usize, Failed>
        ensures { WireReads (seen self.old) (seen self.new) result buf.new };

    /// Writes a front of the piece, at least one byte of a piece that is not empty, and returns how many.
    fn write(&mut self, piece: &[u8]) -> Result<usize, Failed>
        ensures { WireWrites (seen self.old) (seen self.new) result piece.now };
}
