//! What a reader returns at once: a run of Texts, Deletes in a row, or one other operation.
use fugue_ids::{ElementId, Op, RunStart};

/// The next operations of a stream.
#[derive(Drop)]
pub enum NextOps {
    /// Texts that were typed in a row, at least one. Their scalars stand beside it.
    Run(RunStart),
    /// The Deletes of so many identifiers, from this one on: at least one.
    Deletes(ElementId, u32),
    /// One operation, which is neither a Text nor a Delete.
    Single(Op),
}
