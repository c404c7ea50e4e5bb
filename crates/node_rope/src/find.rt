//! Finding a node by weight or by index, and the node after another one.

// The node that holds a unit of weight, and the one at a place, found by descending from the top.
ghost use Rattle.std.specs.Prelude.{◌≡◌, ◌≤◌, ◌<◌, length, slice_index_or, IfSome, IfNone, None, Some, slice_get};
ghost use Rattle.node_rope.specs.Made.{IsMade, shapes_of};
ghost use Rattle.node_rope.specs.Shapes.{HasRightLinks, nodes_in_order, weigh, AreMade, link_number, shape_at, tree_of};
ghost use Rattle.node_rope.specs.Found.{IsFound, IsFollowed};
ghost use Rattle.node_rope.specs.Walk.{all_nodes};

use crate::cells::Link;
use crate::climb::{count_below, leads_to, weight_below};
use crate::store::Store;

// A node, and how many of its units stand before the one that was asked for.
#[derive(Clone, Copy)]
pub(crate) struct Unit {
    pub(crate) link: Link,
    pub(crate) inside: u64,
}

pub(crate) fn find_weight<T: Drop>(store: &Store<T>, root: Option<Link>, w: u64) -> Option<Unit>
    requires { HasRightLinks store.now root }
    ensures found { IfSome result (λ u. IsFound (shapes_of store.now) (nodes_in_order store.now root) w u.link u.inside) }
    ensures made { IfSome result (λ u. IsMade store.now u.link) }
    ensures none { IfNone result (weigh (shapes_of store.now) (nodes_in_order store.now root) ≤ w) }
{
    let mut cur = root;
    let mut rest = w;
    'down: while let Some(link) = cur {
        let shape = store.shape(link);
        let left = weight_below(store, shape.left);
        if rest < left {
            cur = shape.left;
        } else if rest - left < shape.own.weight as u64 {
            return Some(Unit {
                link,
                inside: rest - left,
            });
        } else {
            rest = rest - left - shape.own.weight as u64;
            cur = shape.right;
        }
    }
    None
}

pub(crate) fn node_at<T: Drop>(store: &Store<T>, root: Option<Link>, place: usize) -> Option<Link>
    requires { HasRightLinks store.now root }
    ensures inside { IfSome result (λ l. place < length (nodes_in_order store.now root)) }
    ensures found { IfSome result (λ l. slice_index_or (nodes_in_order store.now root) place 0 ≡ l.number) }
    ensures made { IfSome result (λ l. IsMade store.now l) }
    ensures none { IfNone result (length (nodes_in_order store.now root) ≤ place) }
{
    let mut cur = root;
    let mut rest = place;
    'down: while let Some(link) = cur {
        let shape = store.shape(link);
        let left = count_below(store, shape.left) as usize;
        if rest < left {
            cur = shape.left;
        } else if rest == left {
            return Some(link);
        } else {
            rest = rest - left - 1;
            cur = shape.right;
        }
    }
    None
}

// A node, and how many others stand before it.
#[derive(Clone, Copy)]
pub(crate) struct Placed {
    pub(crate) link: Link,
    pub(crate) place: usize,
}

// Of the nodes at the places from `from` on and before `to` the one that stands highest, which no clause says: the
// descent ends there.
pub(crate) fn node_within<T: Drop>(
    store: &Store<T>,
    root: Option<Link>,
    from: usize,
    to: usize,
) -> Option<Placed>
    requires { HasRightLinks store.now root }
    ensures from { IfSome result (λ p. from ≤ p.place) }
    ensures to { IfSome result (λ p. p.place < to) }
    ensures inside { IfSome result (λ p. p.place < length (nodes_in_order store.now root)) }
    ensures found { IfSome result (λ p. slice_index_or (nodes_in_order store.now root) p.place 0 ≡ p.link.number) }
    ensures made { IfSome result (λ p. IsMade store.now p.link) }
    ensures none { IfNone result (from < to → length (nodes_in_order store.now root) ≤ from) }
{
    if to <= from {
        return None;
    }
    let mut cur = root;
    let mut rest = from;
    'down: while let Some(link) = cur {
        let shape = store.shape(link);
        let left = count_below(store, shape.left) as usize;
        if left < rest {
            rest = rest - left - 1;
            cur = shape.right;
        } else if left - rest < to - from {
            return Some(Placed {
                link,
                place: from + (left - rest),
            });
        } else {
            cur = shape.left;
        }
    }
    None
}

// The node after another one, found from that one: no descent from the top.

/// The first node of a subtree.
fn first_node<T: Drop>(store: &Store<T>, root: Option<Link>, from: Link) -> Link
    requires sound { HasRightLinks store.now root }
    requires made { IsMade store.now from }
    ensures first { slice_get (all_nodes (tree_of (shapes_of store.now)) (Some from.number)) 0 ≡ Some result.number }
    ensures made { IsMade store.now result }
{
    // The contract alone needs the root.
    let _ = root;
    let mut cur = from;
    let mut shape = store.shape(from);
    'down: while let Some(left) = shape.left {
        cur = left;
        shape = store.shape(left);
    }
    cur
}

/// The first node above that has this one to its left. With nothing to the right of this one, it stands after it.
fn node_above<T: Drop>(store: &Store<T>, root: Option<Link>, at: Link) -> Option<Link>
    requires sound { HasRightLinks store.now root }
    requires made { IsMade store.now at }
    requires last { (shape_at (shapes_of store.now) at.number).right ≡ None }
    ensures behind { IsFollowed (nodes_in_order store.now root) at.number (link_number result) }
    ensures made { AreMade store.now result }
{
    // The contract alone needs the root.
    let _ = root;
    let mut cur = at;
    let mut shape = store.shape(at);
    'up: while let Some(up) = shape.parent {
        let above = store.shape(up);
        if leads_to(above.left, cur) {
            return Some(up);
        }
        cur = up;
        shape = above;
    }
    None
}

/// The node after this one.
pub(crate) fn node_after<T: Drop>(store: &Store<T>, root: Option<Link>, at: Link) -> Option<Link>
    requires sound { HasRightLinks store.now root }
    requires made { IsMade store.now at }
    ensures behind { IsFollowed (nodes_in_order store.now root) at.number (link_number result) }
    ensures made { AreMade store.now result }
{
    match store.shape(at).right {
        Some(right) => Some(first_node(store, root, right)),
        None => node_above(store, root, at),
    }
}
