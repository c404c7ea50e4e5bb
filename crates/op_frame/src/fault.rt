//! Why no operation was read: a bad or truncated frame, a failed source, the limit, or out of memory.
/// Why no operation was given. Offsets are counted from 0 in the stream.
///
/// After any of these but `NoMemory` the reader answers the same for good.
#[derive(Clone, Copy, Debug, PartialEq, Eq)]
pub enum FrameFault {
    /// No frame stands at this offset, and the bytes there begin none.
    BadFrame(u64),
    /// The stream ended within the frame at this offset.
    CutShort(u64),
    /// The source failed.
    ReadFault,
    /// The stream goes on past the limit.
    TooLong,
    /// The reader stands before the same frame.
    NoMemory,
}
