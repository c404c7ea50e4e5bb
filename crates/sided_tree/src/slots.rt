//! Where in the order a list of children stands, and the last of them that goes before a new one.
ghost use Rattle.std.specs.Prelude.{◌≡◌, ◌↔◌, ◌⊎◌, ◌≤◌, ◌^◌, ◌≢◌, All, IfSome, IsNone, None, ◌∷◌};
ghost use Rattle.fugue_ids.specs.Keys.{IsFit, ids};
ghost use Rattle.fugue_ids.specs.Passing.{Falls, last_passing};
ghost use Rattle.origin_model.specs.declared.sides.Slot.TheVariants.{RightOf};
ghost use Rattle.origin_model.specs.sides.KeyLaws.{HoldsElement};
ghost use Rattle.origin_model.specs.sides.KeyedGap.{child_key as child_key_of, part_from, part_to};
ghost use Rattle.sided_tree.specs.SlotKeys.{IsSlotKey};
ghost use Rattle.origin_model.specs.sides.Keys.{keyed_order};
ghost use Rattle.origin_model.specs.sides.Node.{AreNodes};
ghost use Rattle.sided_tree.specs.EarlierSiblings.{BeginsLow, EndsLow, is_earlier_sibling, siblings_in};

use crate::gaps::widest;
use crate::node_lookup::NodeLookup;
use crate::part::Part;
use crate::siblings::goes_before;
use fugue_ids::{ElementId, Key, OrderOf};
use origin_model::{Node, Slot};

/// The key of the element of the slot; the start has the least one.
pub(crate) fn slot_key<F: OrderOf>(order: &F, slot: &Slot) -> Key
    requires held { HoldsElement (ids (F.listed order.now)) slot.now }
    ensures key { IsSlotKey (F.listed order.now) slot.now result }
    ensures fit { slot.now ≢ RightOf None → All IsFit (F.listed order.now) }
{
    match slot {
        Slot::RightOf(None) => Key {
            depth: 0,
            forest: 0,
        },
        Slot::RightOf(Some(element)) | Slot::LeftOf(element) => order.key(*element),
    }
}

/// The key of the children of the slot, whose element has this one; None where it is too great for a key, so that there
/// are none.
fn child_key(slot: &Slot, key: Key) -> Option<Key>
    ensures some { IfSome result (λ child. child ≡ child_key_of slot.now key) }
    ensures none { IsNone result
        ↔ ((2 ^ 32 ≤ (child_key_of slot.now key).depth) ⊎ (2 ^ 32 ≤ (child_key_of slot.now key).forest)) }
{
    match slot {
        Slot::RightOf(_) => Some(Key {
            depth: key.depth.checked_add(1)?,
            forest: 0,
        }),
        Slot::LeftOf(_) => Some(Key {
            depth: key.depth,
            forest: key.forest.checked_add(1)?,
        }),
    }
}

/// The part of the order in which the children of the slot stand, whose element has this key; None where their key is
/// too great, so that there are none.
pub(crate) fn slot_part<F: OrderOf>(order: &F, slot: &Slot, key: Key) -> Option<Part>
    requires held { HoldsElement (ids (F.listed order.now)) slot.now }
    ensures some { IfSome result
        (λ part. (part.from ≡ part_from (F.listed order.now) slot.now key)
        × (part.to ≡ part_to (F.listed order.now) slot.now key)
        × (part.key ≡ child_key_of slot.now key)) }
    ensures none { IsNone result
        ↔ ((2 ^ 32 ≤ (child_key_of slot.now key).depth) ⊎ (2 ^ 32 ≤ (child_key_of slot.now key).forest)) }
{
    let child = child_key(slot, key)?;
    let (from, to) = slot_ends(order, slot, key);
    Some(Part {
        from,
        to,
        key: child,
    })
}

/// What stands directly before and directly after that part.
fn slot_ends<F: OrderOf>(order: &F, slot: &Slot, key: Key) -> (Option<ElementId>, Option<ElementId>)
    requires held { HoldsElement (ids (F.listed order.now)) slot.now }
    ensures from { result.0 ≡ part_from (F.listed order.now) slot.now key }
    ensures to { result.1 ≡ part_to (F.listed order.now) slot.now key }
{
    match slot {
        Slot::RightOf(None) => (None, None),
        Slot::RightOf(Some(left)) => (Some(*left), order.first_low(Some(*left), widest(key.depth))),
        Slot::LeftOf(right) => (order.last_low(Some(*right), key), Some(*right)),
    }
}

/// The last of the siblings in a part that goes before a new node. Those that do stand first.
pub(crate) fn last_earlier_sibling<N: NodeLookup, F: OrderOf>(
    nodes: &N,
    order: &F,
    node: &Node,
    part: &Part,
) -> Option<ElementId>
    requires new { AreNodes (node.now ∷ N.nodes nodes.now) }
    requires list { F.listed order.now ≡ keyed_order (N.nodes nodes.now) }
    requires from { BeginsLow (F.listed order.now) part.now }
    requires to { EndsLow (F.listed order.now) part.now }
    requires falls { All IsFit (F.listed order.now)
        → Falls (is_earlier_sibling (N.nodes nodes.now) node.now) (siblings_in (F.listed order.now) part.now) }
    ensures earlier_sibling { result
        ≡ last_passing (is_earlier_sibling (N.nodes nodes.now) node.now) (siblings_in (F.listed order.now) part.now) }
    ensures fit { All IsFit (F.listed order.now) }
{
    let earlier_sibling = |sibling|
        requires new { AreNodes (node.now ∷ N.nodes nodes.now) }
        requires list { F.listed order.now ≡ keyed_order (N.nodes nodes.now) }
        ensures { result ≡ is_earlier_sibling (N.nodes nodes.entry.now) node.entry.now sibling }
    { goes_before(nodes, order, sibling, node) };
    order.last_passing(part.from, part.to, part.key, earlier_sibling)
}
