//! What a note must be to move or to retitle a section.

/// The code of a note that says where a section stands.
pub const MOVE_CODE: u8 = 1;

/// The code of a note that says what a section's title is.
pub const RETITLE_CODE: u8 = 2;
