//! What bytes are with one more appended: a whole frame, a proper prefix of one, or neither.
/// What bytes are with one more after them.
#[derive(Clone, Copy, Debug, PartialEq, Eq)]
pub enum Grown {
    /// A frame.
    Frame,
    /// A proper front of some frame.
    Front,
    /// Neither, and no frame begins with them.
    Bad,
}
