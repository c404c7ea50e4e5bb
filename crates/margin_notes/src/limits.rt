//! What a note must be to be a comment.

/// The code of a note that is a comment.
pub const COMMENT_CODE: u8 = 3;
