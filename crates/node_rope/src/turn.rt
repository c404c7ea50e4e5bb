//! Rotations of the tree: a child rises above its parent.

// Rotations.
ghost use Rattle.std.specs.Prelude.{◌≡◌, ◌+◌, ◌-◌, ◌^◌, ◌<◌, ◌≤◌, Some};
ghost use Rattle.node_rope.specs.Made.{IsMade, KeepsMade, made_count, shapes_of, values_of};
ghost use Rattle.node_rope.specs.Shapes.{HasRightLinks, AreMade, shape_at, link_number, weight_at};
ghost use Rattle.node_rope.specs.Turned.{tree_count_at, relinked_child, with_child, lifted_shapes, IsRisen, side_of as side_at};
ghost use Rattle.node_rope.specs.Sides.{facing_shape};

use crate::attach::set_parent;
use crate::cells::{Link, Shape};
use crate::climb::{count_below, leads_to, least_below, weight_below};
use crate::store::Store;

// `above` is the shape of `p`, and `below` that of its child `c`, as seen from the side of the child.
fn lift<T: Drop>(store: &mut Store<T>, side: Side, p: Link, c: Link, above: Shape, below: Shape)
    requires made_p { IsMade store.old p }
    requires made_c { IsMade store.old c }
    requires made_right { AreMade store.old below.right }
    requires made_other { AreMade store.old above.right }
    requires counts { below.count ≤ above.count }
    requires small { above.count - below.count + tree_count_at (shapes_of store.old) below.right < 2 ^ 32 }
    requires weights { below.weight ≤ above.weight }
    requires light { above.weight - below.weight + weight_at (shapes_of store.old) below.right < 2 ^ 64 }
    ensures shapes { shapes_of store.new ≡ lifted_shapes side (shapes_of store.old) p c above below }
    ensures values { values_of store.new ≡ values_of store.old }
    ensures count { made_count store.new ≡ made_count store.old }
    ensures kept { KeepsMade store.old store.new }
{
    let inner = count_below(store, below.right);
    let sum = weight_below(store, below.right);
    let other = least_below(store, above.right);
    let least = least_below(store, below.right).min(above.own.rank.min(other));
    set_parent(store, below.right, Some(p));
    let lower = Shape {
        left: below.right,
        parent: Some(c),
        count: above.count - below.count + inner,
        weight: above.weight - below.weight + sum,
        least,
        ..above
    };
    store.set_shape(p, facing(lower, side));
    let upper = Shape {
        right: Some(p),
        parent: above.parent,
        count: above.count,
        weight: above.weight,
        least: above.least,
        ..below
    };
    store.set_shape(c, facing(upper, side));
}

// The link, or where it leads to `p`, one to `c`.
fn relink(link: Option<Link>, p: Link, c: Link) -> Option<Link>
    ensures { result ≡ relinked_child link p.number c }
{
    match link {
        Some(l) => { if l.number == p.number { Some(c) } else { link } }
        None => None,
    }
}

// In the node `over`, `c` takes the place of its child `p`.
fn set_child<T: Drop>(store: &mut Store<T>, over: Option<Link>, p: Link, c: Link)
    requires { AreMade store.old over }
    ensures shapes { shapes_of store.new ≡ with_child (shapes_of store.old) over p.number c }
    ensures values { values_of store.new ≡ values_of store.old }
    ensures count { made_count store.new ≡ made_count store.old }
    ensures kept { KeepsMade store.old store.new }
{
    if let Some(g) = over {
        let shape = store.shape(g);
        let left = relink(shape.left, p, c);
        let right = relink(shape.right, p, c);
        store.set_shape(
            g,
            Shape {
                left,
                right,
                ..shape
            },
        );
    }
}

// `c` comes above its parent `p`. Returns the top.
pub(crate) fn rise<T: Drop>(
    store: &mut Store<T>,
    root: Option<Link>,
    p: Link,
    c: Link,
) -> Option<Link>
    requires sound { HasRightLinks store.old root }
    requires made_p { IsMade store.old p }
    requires made_c { IsMade store.old c }
    requires child { link_number (shape_at (shapes_of store.old) c.number).parent ≡ Some p.number }
    ensures { IsRisen store.old store.new root result p c }
{
    let shape = store.shape(p);
    let side = side_of(shape.left, c);
    let above = facing(shape, side);
    let below = facing(store.shape(c), side);
    let over = above.parent;
    lift(store, side, p, c, above, below);
    set_child(store, over, p, c);
    match over {
        Some(_g) => root,
        None => Some(c),
    }
}

// What is the same on both sides is written once, for the left: a node is faced from its side.

/// A side of a node, and of an item.
#[derive(Clone, Copy)]
pub enum Side {
    Left,
    Right,
}

// The node as it is seen from the side: what stands there is at its left.
pub(crate) fn facing(shape: Shape, side: Side) -> Shape
    ensures { result ≡ facing_shape side shape }
{
    match side {
        Side::Left => shape,
        Side::Right => Shape {
            left: shape.right,
            right: shape.left,
            ..shape
        },
    }
}

// The side of a node at which its child stands, by what stands at its left.
pub(crate) fn side_of(left: Option<Link>, child: Link) -> Side
    ensures { result ≡ side_at left child.number }
{
    if leads_to(left, child) {
        Side::Left
    } else {
        Side::Right
    }
}
