//! Frames of operations, as they stand in a stream, and files.

use std::process::Abort;

/// The section (9,0) with the title T.
pub(crate) const S: &[u8] = b"\x01\0\0\0\x09\0\0\0\0\0\0\0\x01T";

/// The letter B, (1,0).
pub(crate) const B: &[u8] = b"\x02\0\0\0\x01\0\0\0\0\0\0\0\x09\0\0\0\0\0\0\0\0B";

/// The letter A, (1,1), before (1,0).
pub(crate) const A: &[u8] =
    b"\x02\0\0\0\x01\0\0\0\x01\0\0\0\x09\0\0\0\0\0\x01\0\0\0\x01\0\0\0\0\0\0A";

/// The letter D, (2,0), before (1,0).
pub(crate) const D: &[u8] =
    b"\x02\0\0\0\x02\0\0\0\0\0\0\0\x09\0\0\0\0\0\x01\0\0\0\x01\0\0\0\0\0\0D";

/// The letter X, (3,0), after (1,1), before (1,0).
pub(crate) const X: &[u8] =
    b"\x02\0\0\0\x03\0\0\0\0\0\0\0\x09\0\0\0\0\x01\0\0\0\x01\0\0\0\x01\x01\0\0\0\x01\0\0\0\0\0\0X";

/// The letter Y, (2,1), after (1,1), before (2,0).
pub(crate) const Y: &[u8] =
    b"\x02\0\0\0\x02\0\0\0\x01\0\0\0\x09\0\0\0\0\x01\0\0\0\x01\0\0\0\x01\x01\0\0\0\x02\0\0\0\0\0\0Y";

/// The letter a, (1,0).
pub(crate) const LOWER_A: &[u8] = b"\x02\0\0\0\x01\0\0\0\0\0\0\0\x09\0\0\0\0\0\0\0\0a";

/// The letter b, (1,1), after (1,0).
pub(crate) const LOWER_B: &[u8] =
    b"\x02\0\0\0\x01\0\0\0\x01\0\0\0\x09\0\0\0\0\x01\0\0\0\x01\0\0\0\0\0\0\0b";

/// The letter c, (2,0), after (1,0).
pub(crate) const BEHIND_A: &[u8] =
    b"\x02\0\0\0\x02\0\0\0\0\0\0\0\x09\0\0\0\0\x01\0\0\0\x01\0\0\0\0\0\0\0c";

/// A frame that is cut short.
pub(crate) const CUT: &[u8] = b"\x02\0\0\0\x01\0";

/// The file of replica 1 with hold 16 that holds nothing.
pub(crate) const NEW: &[u8] = b"FGMX\x02\0\0\0\x01\0\0\0\x10\0";

/// The same with the section (1,0), titled T, and in it A, B, which is dropped, and C: one batch.
pub(crate) const SAVED: &[u8] = b"FGMX\x02\0\0\0\x01\0\0\0\x10\
\x01\x20\0\0\x58\
\x01\0\0\0\x01\0\0\0\0\0\0\0\x01T\
\x04\0\0\0\x01\0\0\0\x01\0\0\0\x01\0\0\0\0\0\0\0\x02\0\0A\0\0B\
\x03\0\0\0\x01\0\0\0\x02\
\x02\0\0\0\x01\0\0\0\x03\0\0\0\x01\0\0\0\0\x01\0\0\0\x01\0\0\0\x01\x01\0\0\0\x01\0\0\0\x02\0\0C\
\0";

/// The same file as version 1 wrote it.
pub(crate) const OLD: &[u8] = b"FGMX\x01\0\0\0\x01\0\0\0\x10\
\x01\0\0\0\x71\
\x01\0\0\0\x01\0\0\0\0\0\0\0\x01T\
\x02\0\0\0\x01\0\0\0\x01\0\0\0\x01\0\0\0\0\0\0\0\0A\
\x02\0\0\0\x01\0\0\0\x02\0\0\0\x01\0\0\0\0\x01\0\0\0\x01\0\0\0\x01\0\0\0B\
\x03\0\0\0\x01\0\0\0\x02\
\x02\0\0\0\x01\0\0\0\x03\0\0\0\x01\0\0\0\0\x01\0\0\0\x01\0\0\0\x01\x01\0\0\0\x01\0\0\0\x02\0\0C\
\0";

/// What is printed of it.
pub(crate) const PRINTED: &[u8] = b"# T\nAC\n";

/// What a relay answers to who asks for a log of two frames: those of a and of the section, and the log's length.
pub(crate) const REPLY: &[u8] = &[
    2, 0, 0, 0, 1, 0, 0, 0, 0, 0, 0, 0, 9, 0, 0, 0, 0, 0, 0, 0, 0, 97, 1, 0, 0, 0, 9, 0, 0, 0, 0,
    0, 0, 0, 1, 84, 0x55, 0, 0, 0, 2,
];

/// The frames, one after the other.
pub(crate) fn stream(rt: &(impl Abort + AllocGlobal), frames: &[&[u8]]) -> Vec<u8> {
    let mut bytes = Vec::new(rt.alloc());
    for frame in frames {
        bytes.extend_from_slice(frame).expect(rt, "memory");
    }
    bytes
}
