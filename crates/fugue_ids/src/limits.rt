//! The limits that all crates keep.

/// The most operations that a history has.
pub const MOST_OPERATIONS: u32 = 4_194_304;

/// The greatest number of operations that may be asked to wait.
pub const GREATEST_HOLD: u32 = 1_048_576;

/// The most bytes that are read of one stream of operations.
pub const STREAM_LIMIT: u64 = 2_147_483_648;

/// The longest title, in bytes of UTF-8.
pub const LONGEST_TITLE: usize = 480;

/// The most identifiers that a note names.
pub const MOST_NAMES: usize = 3;

/// The longest body of a note, in bytes.
pub const LONGEST_BODY: usize = 1024;

/// The bytes that are read or written at once.
pub const BUFFER: usize = 4096;
