//! The insertion point of a new node, found from its two origins by searches for keys.
ghost use Rattle.std.specs.Prelude.{◌≡◌, ◌↔◌, ◌∷◌, [], All, true, Contains};
ghost use Rattle.fugue_ids.specs.Keys.{IsFit, first_id, ids, rest_of};
ghost use Rattle.fugue_ids.specs.declared.key.Gap.TheVariants.{Alone};
ghost use Rattle.origin_model.specs.sides.KeyLaws.{HoldsElement};
ghost use Rattle.origin_model.specs.sides.KeyedGap.{before_all as before_all_in, gap_between as gap_between_in};
ghost use Rattle.origin_model.specs.sides.KeyedGap.{gap_by_keys as gap_by_keys_in, no_earlier_gap as no_earlier_gap_in};
ghost use Rattle.origin_model.specs.sides.KeyedGap.{slot_key as slot_key_of, block_end as block_end_in};
ghost use Rattle.origin_model.specs.sides.KeyedGap.{block_start as block_start_in, widest as widest_of};
ghost use Rattle.origin_model.specs.sides.Keys.{keyed_order};
ghost use Rattle.origin_model.specs.sides.Node.{AreNodes, as_ops, node_order};
ghost use Rattle.origin_model.specs.sides.Slot.{IsBeside, at_gap, slot_by};
ghost use Rattle.sided_tree.specs.EarlierSiblings.{is_earlier_sibling};

use crate::node_lookup::NodeLookup;
use crate::siblings::find_slot;
use crate::slots::{last_earlier_sibling, slot_key, slot_part};
use fugue_ids::{ElementId, Gap, Key, OrderOf};
use origin_model::{Node, Slot};

/// The gap of the order into which a new node goes. If its right origin directly follows the left one, as in all
/// typing, the order is asked once, and the nodes are not.
pub fn find_gap<N: NodeLookup, F: OrderOf>(nodes: &N, order: &F, node: &Node) -> Gap
    requires new { AreNodes (node.now ∷ N.nodes nodes.now) }
    requires list { F.listed order.now ≡ keyed_order (N.nodes nodes.now) }
    ensures place { node_order (node.now ∷ N.nodes nodes.now)
        ≡ at_gap result node.now.id (ids (F.listed order.now)) }
    ensures beside { IsBeside result (ids (F.listed order.now)) }
    ensures alone { (result ≡ Alone) ↔ (N.nodes nodes.now ≡ []) }
{
    if are_beside(order, node) {
        return gap_between(node);
    }
    gap_by_keys(nodes, order, node)
}

/// The gap of a new node, by the siblings in its slot.
fn gap_by_keys<N: NodeLookup, F: OrderOf>(nodes: &N, order: &F, node: &Node) -> Gap
    requires new { AreNodes (node.now ∷ N.nodes nodes.now) }
    requires list { F.listed order.now ≡ keyed_order (N.nodes nodes.now) }
    ensures gap { result ≡ gap_by_keys_in (F.listed order.now)
        (slot_by (as_ops (N.nodes nodes.now)) node.now.left node.now.right)
        (slot_key_of (as_ops (N.nodes nodes.now))
        (slot_by (as_ops (N.nodes nodes.now)) node.now.left node.now.right))
        (is_earlier_sibling (N.nodes nodes.now) node.now) }
    ensures fit { All IsFit (F.listed order.now) }
{
    let slot = find_slot(nodes, node.left, node.right);
    let key = slot_key(order, &slot);
    let Some(part) = slot_part(order, &slot, key) else {
        return no_earlier_gap(order, &slot, key);
    };
    match last_earlier_sibling(nodes, order, node, &part) {
        Some(earlier_sibling) => Gap::After(block_end(order, part.key.depth, earlier_sibling)),
        None => no_earlier_gap(order, &slot, key),
    }
}

/// The gap of a new child of the slot, whose element has this key, where no sibling goes before it.
fn no_earlier_gap<F: OrderOf>(order: &F, slot: &Slot, key: Key) -> Gap
    requires held { HoldsElement (ids (F.listed order.now)) slot.now }
    ensures { result ≡ no_earlier_gap_in (F.listed order.now) slot.now key }
{
    match slot {
        Slot::RightOf(None) => before_all(order.behind(None)),
        Slot::RightOf(Some(left)) => Gap::After(*left),
        Slot::LeftOf(right) => Gap::Before(block_start(order, key, *right)),
    }
}

/// The gap before all, the first of which this is.
fn before_all(first: Option<ElementId>) -> Gap
    ensures { result ≡ before_all_in first }
{
    match first {
        Some(first) => Gap::Before(first),
        None => Gap::Alone,
    }
}

/// Whether the right origin of the node directly follows the left one.
fn are_beside<F: OrderOf>(order: &F, node: &Node) -> bool
    ensures { (result ≡ true) ↔ (first_id (rest_of node.now.left (F.listed order.now)) ≡ node.now.right) }
{
    order.behind(node.left) == node.right
}

/// The gap between the origins of the node, which stand next to each other.
fn gap_between(node: &Node) -> Gap
    ensures { result ≡ gap_between_in node.now.left node.now.right }
{
    match node.left {
        Some(left) => Gap::After(left),
        None => before_all(node.right),
    }
}

/// The greatest key of a depth: the keys up to it are those of elements that are no deeper.
pub(crate) fn widest(depth: u32) -> Key
    ensures { result ≡ widest_of depth }
{
    Key {
        depth,
        forest: u32::MAX,
    }
}

/// The last element of the block of this one, which has the depth.
fn block_end<F: OrderOf>(order: &F, depth: u32, id: ElementId) -> ElementId
    requires { Contains (ids (F.listed order.now)) id }
    ensures { result ≡ block_end_in (F.listed order.now) depth id }
{
    let behind = order.first_low(Some(id), widest(depth));
    order.before(behind).unwrap_or(id)
}

/// The first element of the block of this one, which has the key.
fn block_start<F: OrderOf>(order: &F, key: Key, id: ElementId) -> ElementId
    requires { Contains (ids (F.listed order.now)) id }
    ensures { result ≡ block_start_in (F.listed order.now) key id }
{
    let before = order.last_low(Some(id), key);
    order.first_low(before, widest(key.depth)).unwrap_or(id)
}
