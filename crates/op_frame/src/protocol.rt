//! The tag bytes of the frames, and those that begin or end a session's text or the reply to it.
/// The first bytes of the frames of one operation.
pub(crate) const SECTION: u8 = 1;

pub(crate) const TEXT: u8 = 2;

pub(crate) const DELETE: u8 = 3;

pub(crate) const NOTE: u8 = 5;

/// The first byte of a run's frame.
pub const RUN: u8 = 4;

/// What begins a session's text, with a cursor after it.
pub const GREETING: u8 = 0x48;

/// What ends a session's text.
pub const CLOSING: u8 = 0x44;

/// What ends the reply to a session, with the log's length after it.
pub const END: u8 = 0x55;

/// What begins the reply to a session whose text breaks a rule, with the rule's code after it.
pub const REFUSAL: u8 = 0x58;
