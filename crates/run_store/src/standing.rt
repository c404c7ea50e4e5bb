//! Positions by run index and offset, and an element or a range together with where it stands.
use fugue_ids::{ElementId, Key};

/// A place among the cells: in the run after this many others, after this many of its cells.
#[derive(Clone, Copy)]
pub(crate) struct Standing {
    pub(crate) place: usize,
    pub(crate) offset: u32,
}

/// A cell, with its key, and where it stands.
#[derive(Clone, Copy)]
pub(crate) struct Found {
    pub(crate) id: ElementId,
    pub(crate) key: Key,
    pub(crate) at: Standing,
}

/// A part of the cells, in which those whose key is at most `most` are looked for. Where its ends stand is kept with
/// them, so that a search that narrows it looks up neither again.
#[derive(Clone, Copy)]
pub(crate) struct Part {
    /// It begins after this cell, or at the beginning.
    pub(crate) from: Option<ElementId>,
    /// It ends before this cell, or at the end.
    pub(crate) to: Option<ElementId>,
    pub(crate) begin: Standing,
    pub(crate) end: Standing,
    pub(crate) most: Key,
}
