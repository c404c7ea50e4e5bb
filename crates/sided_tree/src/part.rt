//! A range of an order in which the elements of one search key are looked for.
use fugue_ids::{ElementId, Key};

/// A part of an order, in which the elements of a key are looked for: none there has a lesser one.
#[derive(Clone, Copy)]
pub(crate) struct Part {
    /// It begins after this element, or at the beginning.
    pub from: Option<ElementId>,
    /// It ends before this element, or at the end.
    pub to: Option<ElementId>,
    pub key: Key,
}
