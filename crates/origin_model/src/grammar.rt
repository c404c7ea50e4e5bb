//! The two versions of the frame format.

/// Which frames there are.
#[derive(Clone, Copy)]
pub enum Grammar {
    /// The frames of a Section, a Text and a Delete.
    Version1,
    /// Those of a run of Texts and of a Note too.
    Version2,
}
