//! What a note must be to name a version.

/// The code of a note that names a version.
pub const VERSION_CODE: u8 = 4;

/// The longest name of a version, in bytes of UTF-8.
pub const LONGEST_NAME: usize = 120;
