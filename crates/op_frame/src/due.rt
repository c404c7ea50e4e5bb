//! The state of the frame parser: the fields still to come, and the result of checking bytes of the next.
use origin_model::Grammar;

/// What a frame still lacks: all of it, a run after its first byte, or so many identifiers, then so many origins, and
/// then its last field.
#[derive(Clone, Copy)]
pub(crate) enum Due {
    Kind(Grammar),
    Run,
    Fields(u8, u8, Last),
}

/// What a frame ends with.
#[derive(Clone, Copy)]
pub(crate) enum Last {
    Nothing,
    /// So many scalars.
    Scalars(usize),
    /// How many scalars, at most so many, and these.
    Count(usize),
    Title,
    /// The text of a title, of which so many bytes are due.
    Text(usize),
    /// How many identifiers a note names, these, its code and its body.
    Names,
    /// The code of a note, and its body.
    Code,
    /// The length of a body, and the body.
    Length,
    /// A body, of which so many bytes are due.
    Body(usize),
}

/// What some bytes of the field are that is due.
#[derive(Clone, Copy)]
pub(crate) enum Judged {
    /// All of it, and this is due after it.
    Done(Due),
    /// Some of it.
    Front,
    /// No such field begins with them.
    Bad,
}
