//! The elements that operations make, each with its place and its origins.

ghost use Rattle.std.specs.Prelude.{◌≡◌};
ghost use Rattle.origin_model.specs.operations.History.{element, left_of as left_origin, right_of as right_origin};
ghost use Rattle.origin_model.specs.operations.History.{stands_at as stands_in};

use crate::{Node, Place};
use fugue_ids::{ElementId, Op};

/// Where the element of an operation stands, and its origins: a `Delete` and a `Note` have none.
pub fn element_of(op: &Op) -> Option<(Place, Node)>
    ensures { result ≡ element op.now }
{
    match op {
        Op::Section {
            id,
            left,
            right,
            ..
        } => Some((Place::Catalogue, node(id, left, right))),
        Op::Text {
            id,
            section,
            left,
            right,
            ..
        } => Some((Place::Section(*section), node(id, left, right))),
        _ => None,
    }
}

fn node(id: &ElementId, left: &Option<ElementId>, right: &Option<ElementId>) -> Node
    ensures { result ≡ record { id = id.now; left = left.now; right = right.now } }
{
    Node {
        id: *id,
        left: *left,
        right: *right,
    }
}

/// The left origin.
pub fn left_of(op: &Op) -> Option<ElementId>
    ensures { result ≡ left_origin op.now }
{
    let (_, node) = element_of(op)?;
    node.left
}

/// The right origin.
pub fn right_of(op: &Op) -> Option<ElementId>
    ensures { result ≡ right_origin op.now }
{
    let (_, node) = element_of(op)?;
    node.right
}

/// Whether the operation stands in the place.
pub fn stands_at(op: &Op, place: &Place) -> bool
    ensures { result ≡ stands_in place.now op.now }
{
    match element_of(op) {
        Some((own, _)) => own == *place,
        None => false,
    }
}
