//! Which list of children a node with given origins belongs to, and which siblings go before a new one.
ghost use Rattle.std.specs.Prelude.{◌≡◌, ◌∷◌};
ghost use Rattle.fugue_ids.specs.Keys.{ids};
ghost use Rattle.fugue_ids.specs.Listed.{HoldsOrigin};
ghost use Rattle.origin_model.specs.order.Order.{has_left as has_left_on, right_at, index_of_origin, precedes};
ghost use Rattle.origin_model.specs.sides.Keys.{keyed_order};
ghost use Rattle.origin_model.specs.sides.Node.{AreNodes, as_ops};
ghost use Rattle.origin_model.specs.sides.Slot.{slot_by};
ghost use Rattle.sided_tree.specs.EarlierSiblings.{is_earlier_sibling};

use crate::node_lookup::NodeLookup;
use fugue_ids::{ElementId, OrderOf};
use origin_model::{Node, Slot};

/// Whether r is a node with this left origin.
#[tactic(auto, using(crate::proofs::RightOriginLemmas::held_nodes))]
fn has_left<N: NodeLookup>(nodes: &N, r: ElementId, left: &Option<ElementId>) -> bool
    ensures { result ≡ has_left_on (as_ops (N.nodes nodes.now)) r left.now }
{
    match nodes.find(r) {
        Some(node) => node.left == *left,
        None => false,
    }
}

/// The right origin of a node.
#[tactic(auto, using(crate::proofs::RightOriginLemmas::held_nodes))]
fn right_of<N: NodeLookup>(nodes: &N, id: ElementId) -> Option<ElementId>
    ensures { result ≡ right_at (as_ops (N.nodes nodes.now)) id }
{
    match nodes.find(id) {
        Some(node) => node.right,
        None => None,
    }
}

/// Where a node with these origins hangs.
pub(crate) fn find_slot<N: NodeLookup>(
    nodes: &N,
    left: Option<ElementId>,
    right: Option<ElementId>,
) -> Slot
    ensures { result ≡ slot_by (as_ops (N.nodes nodes.now)) left right }
{
    match right {
        Some(r) if has_left(nodes, r, &left) => Slot::LeftOf(r),
        _ => Slot::RightOf(left),
    }
}

/// Whether a sibling goes before a new node.
pub(crate) fn goes_before<N: NodeLookup, F: OrderOf>(
    nodes: &N,
    order: &F,
    sibling: ElementId,
    node: &Node,
) -> bool
    requires new { AreNodes (node.now ∷ N.nodes nodes.now) }
    requires list { F.listed order.now ≡ keyed_order (N.nodes nodes.now) }
    ensures { result ≡ is_earlier_sibling (N.nodes nodes.now) node.now sibling }
{
    let right = right_of(nodes, sibling);
    goes_first(order, right, node.right, sibling, node.id)
}

/// Whether a, with the right origin `here`, goes before b, with the right origin `there`: the later right origin goes
/// first, and the end is the latest.
fn goes_first<F: OrderOf>(
    order: &F,
    here: Option<ElementId>,
    there: Option<ElementId>,
    a: ElementId,
    b: ElementId,
) -> bool
    requires here_stands { HoldsOrigin (ids (F.listed order.now)) here }
    requires there_stands { HoldsOrigin (ids (F.listed order.now)) there }
    ensures { result ≡ precedes (index_of_origin (ids (F.listed order.now)) here)
        (index_of_origin (ids (F.listed order.now)) there) a b }
{
    match (here, there) {
        (None, None) => a < b,
        (None, Some(_)) => true,
        (Some(_), None) => false,
        (Some(x), Some(y)) => { if x == y { a < b } else { order.earlier(y, x) } }
    }
}
