//! An element with its origins, tombstone mark, search key and scalar, and the same without the scalar.
use fugue_ids::{ElementId, Key};

/// What a cell says of itself but for its scalar.
#[derive(Clone, Copy)]
pub struct Head {
    pub(crate) id: ElementId,
    pub(crate) left: Option<ElementId>,
    pub(crate) right: Option<ElementId>,
    pub(crate) hidden: bool,
    pub(crate) key: Key,
}

/// An element of a place, with its origins, its scalar and its key.
#[derive(Clone, Copy)]
pub struct Cell {
    pub id: ElementId,
    pub left: Option<ElementId>,
    pub right: Option<ElementId>,
    pub ch: char,
    pub hidden: bool,
    pub key: Key,
}
