//! Making and refilling the entries of a rope.

// What becomes of the items of a rope's parts.
ghost use Rattle.std.specs.Prelude.{◌≡◌, ◌<◌, ◌≤◌, ◌^◌, None, Some, OnOk, IfErr};
ghost use Rattle.block_map.specs.Contents.{value_of};
ghost use Rattle.node_rope.specs.Made.{made_count};
ghost use Rattle.node_rope.specs.Items.{IsRope, rope_items_of, value_under, own_of as counts_for};
ghost use Rattle.node_rope.specs.Beside.{placed_beside, put_under};

use crate::attach::attach;
use crate::balance::rebalance;
use crate::cells::{Link, Own, Weigh};
use crate::climb::set_own;
use crate::links::{KeyMap, keep_at_hand};
use crate::rope::Back;
use crate::store::Store;
use crate::turn::Side;
use fugue_ids::{ElementId, MOST_OPERATIONS};

// What the value counts for.
pub(crate) fn own_of<T: Weigh>(value: &T) -> Own
    ensures own { result ≡ counts_for T.weight_of T.rank_of value.now }
    ensures light { result.weight ≤ MOST_OPERATIONS }
    ensures fits { result.rank < 2 ^ 64 }
{
    Own {
        weight: value.weight() as u32,
        rank: value.rank(),
    }
}

// A new item directly at the side of the one with the key `at`, which the node `link` has. After an allocation failure
// the items are as before.
pub(crate) fn grow<T: Weigh>(
    store: &mut Store<T>,
    map: &mut KeyMap,
    root: &mut Option<Link>,
    side: Side,
    at: ElementId,
    link: Link,
    key: ElementId,
    value: T,
) -> Result<(), Back<T>>
    requires rope { IsRope (counts_for T.weight_of T.rank_of) store.old root.old map.old.links }
    requires held { value_of map.old.links at ≡ Some link }
    requires fresh { value_of map.old.links key ≡ None }
    requires room { made_count store.old < MOST_OPERATIONS }
    ensures rope { IsRope (counts_for T.weight_of T.rank_of) store.new root.new map.new.links }
    ensures placed { OnOk result (rope_items_of store.new root.new
        ≡ placed_beside side at (key, value) (rope_items_of store.old root.old)) }
    ensures held { OnOk result (value_of map.new.links at ≡ Some link) }
    ensures refused { IfErr result
        (λ b. (b.value ≡ value) × (rope_items_of store.new root.new ≡ rope_items_of store.old root.old)) }
{
    // The contract alone needs this key.
    let _ = at;
    let own = own_of(&value);
    let node = match attach(store, map, *root, side, link, key, own, value) {
        Ok(node) => node,
        Err(back) => return Err(back),
    };
    let top = rebalance(store, *root, node);
    *root = top;
    Ok(())
}

// Another value in the node `link`, which has the key. The old one is the answer.
pub(crate) fn refill<T: Weigh>(
    store: &mut Store<T>,
    map: &mut KeyMap,
    root: Option<Link>,
    key: ElementId,
    link: Link,
    value: T,
) -> T
    requires rope { IsRope (counts_for T.weight_of T.rank_of) store.old root map.old.links }
    requires held { value_of map.old.links key ≡ Some link }
    ensures rope { IsRope (counts_for T.weight_of T.rank_of) store.new root map.new.links }
    ensures old { value_under key (rope_items_of store.old root) ≡ Some result }
    ensures put { rope_items_of store.new root ≡ put_under key value (rope_items_of store.old root) }
{
    let own = own_of(&value);
    keep_at_hand(map, key, link);
    let old = store.set_value(link, value);
    set_own(store, root, link, own);
    old
}
