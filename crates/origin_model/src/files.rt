//! Limits of a manuscript file: the longest batch, and the unit of a record's tag.

/// The most bytes that the frames of one batch have.
pub const LONGEST_BATCH: u32 = 268_435_456;

/// What a slot's word has for each unit of its tag: the tag is in the upper three of 32 bits.
pub const TAG_UNIT: u32 = 536_870_912;
