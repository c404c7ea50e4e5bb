//! What the tree of sides is made of.
use fugue_ids::ElementId;

/// Where a node hangs in the sided tree.
#[derive(Clone, Copy)]
pub enum Slot {
    /// Among the right children of a node, or of the start.
    RightOf(Option<ElementId>),
    /// Among the left children of a node.
    LeftOf(ElementId),
}
