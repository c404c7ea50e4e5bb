//! What happens to a relay, and what it answers to a session.

use fugue_ids::ByteList;

/// The bytes that a session is sent, and whether it is closed by them.
#[derive(Drop)]
pub struct Reply {
    pub session: u32,
    pub bytes: ByteList,
    pub closes: bool,
}

/// What happens to a session of a relay, by the session's number.
#[derive(Debug, Drop)]
pub enum Event {
    Opened(u32),
    Piece(u32, ByteList),
    Gone(u32),
}
