//! An element's key in the FugueMax tree, and the gaps and sides at which a new element goes.

use crate::ElementId;

/// A gap of a list of elements, into which a new one goes.
#[derive(Clone, Copy, Debug, PartialEq, Eq)]
pub enum Gap {
    /// The list is empty.
    Alone,
    /// Directly before this element.
    Before(ElementId),
    /// Directly after this element.
    After(ElementId),
}

/// On which side of its parent a node of the sided tree hangs.
#[derive(Clone, Copy, Debug, PartialEq, Eq)]
pub enum Side {
    Left,
    Right,
}

/// The key of an element in an order, by which it is searched for. Keys are compared by depth and then by forest.
#[derive(Clone, Copy, Debug, PartialEq, Eq, PartialOrd, Ord)]
pub struct Key {
    /// One more than that of the left origin; 1 where that is the start.
    pub depth: u32,
    /// One more than that of the right origin, where that has the same left origin; otherwise 0.
    pub forest: u32,
}
