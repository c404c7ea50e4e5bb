//! The map from a rope's keys to its nodes.

// The map from keys to nodes.
ghost use Rattle.std.specs.Prelude.{◌≡◌, None, Some, IfSome, IsTrue, IsFalse, option_map};
ghost use Rattle.fugue_ids.specs.Keyed.{IsReplaced};
ghost use Rattle.block_map.specs.Contents.{HasSameValues, IsEmpty, value_of};
ghost use Rattle.block_map.specs.Floors.{IsFloorKey};
ghost use Rattle.block_map.specs.Renames.{IsRenamed};

use crate::cells::Link;
use crate::pile;
use block_map::BlockMap;
use fugue_ids::ElementId;
use std::alloc::Global;

/// The node of each key. The one that was used last is at hand.
#[derive(Drop)]
pub struct KeyMap {
    pub(crate) links: BlockMap<Link>,
    recent: Option<ElementId>,
    at_hand: Link,
    ghost found: { option_map (value_of links) recent ≡ option_map (λ k. Some at_hand) recent },
}

// Leads to no node.
fn nowhere() -> Link {
    Link {
        spot: pile::nowhere(),
        number: 0,
    }
}

pub(crate) fn no_links(alloc: Global) -> KeyMap
    ensures { IsEmpty result.links }
{
    KeyMap {
        links: BlockMap::new(alloc),
        recent: None,
        at_hand: nowhere(),
    }
}

// The node of a key that may not be at hand. A search in the blocks is so long that `find_link` would not be inlined
// with it, and most look-ups end at the key at hand.
#[inline(never)]
fn look_up(map: &KeyMap, key: ElementId) -> Option<Link>
    ensures { result ≡ value_of map.now.links key }
{
    map.links.get(key)
}

// The node of the key.
#[inline]
pub(crate) fn find_link(map: &KeyMap, key: ElementId) -> Option<Link>
    ensures { result ≡ value_of map.now.links key }
{
    if let Some(recent) = map.recent {
        if recent == key {
            return Some(map.at_hand);
        }
    }
    look_up(map, key)
}

// The key whose node is at hand.
pub(crate) fn recent_key(map: &KeyMap) -> Option<ElementId> {
    map.recent
}

// The key's node is looked for again soon.
pub(crate) fn keep_at_hand(map: &mut KeyMap, key: ElementId, link: Link)
    requires { value_of map.old.links key ≡ Some link }
    ensures { map.new.links ≡ map.old.links }
{
    map.recent = Some(key);
    map.at_hand = link;
}

// False for lack of memory, which only a new key can meet.
pub(crate) fn set_link(map: &mut KeyMap, key: ElementId, link: Link) -> bool
    ensures set { IsTrue result → IsReplaced (value_of map.old.links) (value_of map.new.links) key (Some link) }
    ensures refused { IsFalse result → HasSameValues map.old.links map.new.links }
    ensures absent { IsFalse result → value_of map.old.links key ≡ None }
{
    match map.links.insert(key, link) {
        Ok(()) => {
            map.recent = Some(key);
            map.at_hand = link;
            true
        }
        Err(_) => false,
    }
}

// Another key for the node, which is at hand then. False for lack of memory, and then each key leads where it did.
pub(crate) fn rename_link(map: &mut KeyMap, key: ElementId, new_key: ElementId, link: Link) -> bool
    requires held { value_of map.old.links key ≡ Some link }
    requires fresh { value_of map.old.links new_key ≡ None }
    ensures renamed { IsTrue result → IsRenamed (value_of map.old.links) (value_of map.new.links) key new_key }
    ensures refused { IsFalse result → HasSameValues map.old.links map.new.links }
{
    match map.links.rename(key, new_key, link) {
        Ok(()) => {
            map.recent = Some(new_key);
            map.at_hand = link;
            true
        }
        Err(_) => false,
    }
}

// The greatest key that is not above this one, and its node.
pub(crate) fn floor_link(map: &KeyMap, key: ElementId) -> Option<(ElementId, Link)>
    ensures floor { IsFloorKey (value_of map.now.links) key (option_map (λ x. x.0) result) }
    ensures link { IfSome result (λ x. value_of map.now.links x.0 ≡ Some x.1) }
{
    map.links.floor(key)
}

pub(crate) fn floor_key(map: &KeyMap, key: ElementId) -> Option<ElementId>
    ensures { IsFloorKey (value_of map.now.links) key result }
{
    match floor_link(map, key) {
        Some((k, _)) => Some(k),
        None => None,
    }
}
