//! An element of a list with its left and right origin.

use fugue_ids::ElementId;

/// An element with its origins.
#[derive(Clone, Copy)]
pub struct Node {
    pub id: ElementId,
    pub left: Option<ElementId>,
    pub right: Option<ElementId>,
}
