//! The trait of a listener that serves sessions one after the other, and the steps of a session.

ghost use Rattle.std.specs.Prelude.{◌<◌, length};
ghost use Rattle.outer_ports.specs.dock.Docks.{DockView, Listens, Takes, Sends, EndsSession};

mod tcp_dock;

use fugue_ids::{ByteList, Failed};
pub use tcp_dock::TcpDock;

/// What came in at a dock, with the number of its session.
#[derive(Clone, Copy, Debug, PartialEq, Eq)]
pub enum DockStep {
    Opened(u32),
    /// So many bytes came. They stand in the buffer.
    Bytes(u32, usize),
    Gone(u32),
}

/// The same, with the bytes that came.
#[derive(Drop)]
pub enum MemStep {
    Opened(u32),
    Bytes(u32, ByteList),
    Gone(u32),
}

/// A call of `listen` that went well, and how many steps had been taken by then, where that is specified.
#[derive(Clone, Copy, Debug, PartialEq, Eq)]
pub struct Listening {
    pub port: u16,
    pub taken: Option<usize>,
}

/// Where others ask, in sessions that bear numbers.
pub trait Dock {
    /// When it listened, the steps taken and to come, what was sent to each session, the sessions ended and what
    /// they had been sent by then, the count of faults, and the room that is left: each form says what of these it
    /// tells.
    ghost seen: { Self → DockView };

    /// Listens on this port.
    fn listen(&mut self, port: u16) -> Result<(), Failed>
        ensures { Listens (seen self.old) (seen self.new) result port };

    /// Takes the next step. What `buf` holds after the bytes of the step is not said.
    fn next(&mut self, buf: &mut [u8]) -> Result<DockStep, Failed>
        requires room { 0 < length buf.old }
        ensures takes { Takes (seen self.old) (seen self.new) result buf.new };

    /// Sends a front of the piece to the session, at least one byte of a piece that is not empty, and returns how many.
    fn send(&mut self, session: u32, piece: &[u8]) -> Result<usize, Failed>
        ensures { Sends (seen self.old) (seen self.new) result session piece.now };

    /// Ends the session: nothing more is to be sent to it.
    fn end(&mut self, session: u32) -> Result<(), Failed>
        ensures { EndsSession (seen self.old) (seen self.new) result session };
}
