//! The first and the last node whose rank is low enough, by the least rank of each subtree.

// The first node after a place, and the last one before it, whose rank is low. The least rank of a subtree tells
// whether it has one. Both are one search: the last one is the first as seen from the right.
ghost use Rattle.std.specs.Prelude.{◌≡◌, Some, drop, take};
ghost use Rattle.node_rope.specs.Made.{IsMade, shapes_of};
ghost use Rattle.node_rope.specs.Shapes.{AreMade, AreRanksFit, HasRightLinks, link_number, nodes_in_order, ranks};
ghost use Rattle.node_rope.specs.Low.{first_low, last_low, low_at, low_below, low_from, or_else, seen_order};

use crate::cells::Link;
use crate::climb::count_below;
use crate::store::Store;
use crate::turn::{Side, facing};

/// Whether a node below the link is low.
fn is_low<T: Drop>(store: &Store<T>, link: Option<Link>, most: u64) -> bool
    requires { AreMade store.now link }
    ensures { result ≡ low_at (shapes_of store.now) most link }
{
    match link {
        Some(l) => store.shape(l).least <= most,
        None => false,
    }
}

/// The first low node below `from`, as seen from the side.
fn nearest_below<T: Drop>(
    store: &Store<T>,
    root: Option<Link>,
    side: Side,
    from: Option<Link>,
    most: u64,
) -> Option<Link>
    requires sound { HasRightLinks store.now root }
    requires fits { AreRanksFit (shapes_of store.now) }
    requires made { AreMade store.now from }
    ensures found { link_number result ≡ low_below (shapes_of store.now) most side from }
    ensures made { AreMade store.now result }
{
    // The contract alone needs the root.
    let _ = root;
    let mut cur = from;
    'down: while let Some(link) = cur {
        let shape = facing(store.shape(link), side);
        if is_low(store, shape.left, most) {
            cur = shape.left;
        } else if shape.own.rank <= most {
            return Some(link);
        } else {
            cur = shape.right;
        }
    }
    None
}

/// The link, if it or a node below its other side is low; else the other one.
fn low_from_or<T: Drop>(
    store: &Store<T>,
    root: Option<Link>,
    side: Side,
    link: Link,
    most: u64,
    other: Option<Link>,
) -> Option<Link>
    requires sound { HasRightLinks store.now root }
    requires fits { AreRanksFit (shapes_of store.now) }
    requires made { IsMade store.now link }
    requires made_other { AreMade store.now other }
    ensures found { low_from (shapes_of store.now) most side result
        ≡ or_else (low_from (shapes_of store.now) most side (Some link))
        (low_from (shapes_of store.now) most side other) }
    ensures made { AreMade store.now result }
{
    // The contract alone needs the root.
    let _ = root;
    let shape = facing(store.shape(link), side);
    if shape.own.rank <= most {
        Some(link)
    } else if is_low(store, shape.right, most) {
        Some(link)
    } else {
        other
    }
}

/// The first low node at a place or after it, as seen from the side. `near` has it in itself, or below its other side.
fn low_node<T: Drop>(
    store: &Store<T>,
    root: Option<Link>,
    side: Side,
    from: usize,
    most: u64,
) -> Option<Link>
    requires sound { HasRightLinks store.now root }
    requires fits { AreRanksFit (shapes_of store.now) }
    ensures found { link_number result
        ≡ first_low (ranks (shapes_of store.now)) most (drop from (seen_order side store.now root)) }
    ensures made { AreMade store.now result }
{
    let mut near = None;
    let mut cur = root;
    let mut rest = from;
    'down: while let Some(link) = cur {
        let shape = facing(store.shape(link), side);
        let left = count_below(store, shape.left) as usize;
        if rest <= left {
            near = low_from_or(store, root, side, link, most, near);
            cur = shape.left;
        } else {
            rest = rest - left - 1;
            cur = shape.right;
        }
    }
    let link = near?;
    let shape = facing(store.shape(link), side);
    if shape.own.rank <= most {
        Some(link)
    } else {
        nearest_below(store, root, side, shape.right, most)
    }
}

/// The first low node at a place or after it.
pub(crate) fn first_low_node<T: Drop>(
    store: &Store<T>,
    root: Option<Link>,
    from: usize,
    most: u64,
) -> Option<Link>
    requires fits { AreRanksFit (shapes_of store.now) }
    requires sound { HasRightLinks store.now root }
    ensures found { link_number result
        ≡ first_low (ranks (shapes_of store.now)) most (drop from (nodes_in_order store.now root)) }
    ensures made { AreMade store.now result }
{
    low_node(store, root, Side::Left, from, most)
}

/// The last low node before a place.
pub(crate) fn last_low_node<T: Drop>(
    store: &Store<T>,
    root: Option<Link>,
    to: usize,
    most: u64,
) -> Option<Link>
    requires sound { HasRightLinks store.now root }
    requires fits { AreRanksFit (shapes_of store.now) }
    ensures found { link_number result ≡ last_low (ranks (shapes_of store.now)) most (take to (nodes_in_order store.now root)) }
    ensures made { AreMade store.now result }
{
    let behind = (count_below(store, root) as usize).saturating_sub(to);
    low_node(store, root, Side::Right, behind, most)
}
