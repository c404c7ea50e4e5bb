//! What is counted while operations are taken in.
/// What became of operations that were taken in.
#[derive(Clone, Copy, Debug, Default, PartialEq, Eq)]
pub struct Tally {
    /// Those that joined the accepted ones, at once or when they settled.
    pub accepted: u32,
    /// Those that were accepted or waiting already.
    pub repeated: u32,
    /// Those whose identifier another accepted or waiting operation has.
    pub conflict: u32,
    /// Those refused as stray, and waiting ones that were dropped as stray.
    pub stray: u32,
    /// Those that found the waiting list full.
    pub full: u32,
}
