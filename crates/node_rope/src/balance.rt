//! Balancing of a rope's tree by weight, with single and double rotations.

// Balance by weight: no child weighs more than three times its sibling, where a subtree weighs its count and one more.
// A child that comes to weigh more rises, or its inner child does where that weighs at least twice the outer one. With
// three and two this restores the balance after one node more (Hirai and Yamamoto, Balancing weight-balanced trees). No
// proof rests on the choice.
ghost use Rattle.std.specs.Prelude.{◌≡◌, ◌⊎◌, ◌<◌, IfSome, Some};
ghost use Rattle.node_rope.specs.Made.{IsMade, shapes_of};
ghost use Rattle.node_rope.specs.Shapes.{HasRightLinks, AreMade, shape_at, link_number, tree_of};
ghost use Rattle.node_rope.specs.Turned.{IsRearranged};
ghost use Rattle.node_rope.specs.Walk.{IsLinked};

use crate::cells::{Link, Shape};
use crate::climb::count_below;
use crate::store::Store;
use crate::turn::{Side, facing, rise, side_of};

// A child of the node.
fn child_of(shape: Shape) -> Option<Link>
    ensures { IfSome result (λ c. (shape.left ≡ Some c) ⊎ (shape.right ≡ Some c)) }
{
    match shape.left {
        Some(left) => Some(left),
        None => shape.right,
    }
}

// Lets a new node sink below all that it took over from its neighbour. Returns the top.
fn sink<T: Drop>(store: &mut Store<T>, root: Option<Link>, node: Link) -> Option<Link>
    requires sound { HasRightLinks store.old root }
    requires made { IsMade store.old node }
    ensures { IsRearranged store.old store.new root result }
{
    let mut top = root;
    let mut shape = store.shape(node);
    'down: while let Some(below) = child_of(shape) {
        top = rise(store, top, node, below);
        shape = store.shape(node);
    }
    top
}

// Whether a child weighs too much beside the other one, by its count and that of their parent.
fn is_too_heavy(child: u32, parent: u32) -> bool {
    child / 3 > parent.saturating_sub(child).saturating_sub(1)
}

// The inner child, where it weighs at least twice the outer one. `count` is that of their parent.
fn if_heavy<T: Drop>(store: &Store<T>, inner: Option<Link>, count: u32) -> Option<Link>
    requires inner { AreMade store.now inner }
    ensures { IfSome result (λ m. inner ≡ Some m) }
{
    let inside = count_below(store, inner);
    let outer = count.saturating_sub(inside).saturating_sub(1);
    if inside.saturating_sub(outer) > outer {
        inner
    } else {
        None
    }
}

// The inner child of `c`, which stands at the side of its parent, where it must rise first.
fn heavy_inner<T: Drop>(store: &Store<T>, side: Side, c: Link) -> Option<Link>
    requires made { IsMade store.now c }
    requires linked { IsLinked (tree_of (shapes_of store.now)) }
    requires left { AreMade store.now (shape_at (shapes_of store.now) c.number).left }
    requires right { AreMade store.now (shape_at (shapes_of store.now) c.number).right }
    ensures child { IfSome result (λ m. link_number (shape_at (shapes_of store.now) m.number).parent ≡ Some c.number) }
    ensures made { IfSome result (λ m. IsMade store.now m) }
{
    let below = facing(store.shape(c), side);
    if_heavy(store, below.right, below.count)
}

// The top, and the node from which a climb goes on, with its count and its parent.
#[derive(Clone, Copy)]
struct Stage {
    top: Option<Link>,
    at: Link,
    count: u32,
    above: Option<Link>,
}

fn stage_at<T: Drop>(store: &Store<T>, top: Option<Link>, at: Link) -> Stage
    requires { IsMade store.now at }
    ensures top { result.top ≡ top }
    ensures at { result.at ≡ at }
    ensures count { result.count ≡ (shape_at (shapes_of store.now) at.number).count }
    ensures above { result.above ≡ (shape_at (shapes_of store.now) at.number).parent }
{
    let shape = store.shape(at);
    Stage {
        top,
        at,
        count: shape.count,
        above: shape.parent,
    }
}

// `c`, which weighs too much, rises above its parent `p`, or its inner child does where that is heavy. The climb goes on
// from what rose.
fn turn_up<T: Drop>(store: &mut Store<T>, root: Option<Link>, p: Link, c: Link) -> Stage
    requires sound { HasRightLinks store.old root }
    requires made_p { IsMade store.old p }
    requires made_c { IsMade store.old c }
    requires child { link_number (shape_at (shapes_of store.old) c.number).parent ≡ Some p.number }
    ensures same { IsRearranged store.old store.new root result.top }
    ensures made { IsMade store.new result.at }
    ensures count { result.count ≡ (shape_at (shapes_of store.new) result.at.number).count }
    ensures above { result.above ≡ (shape_at (shapes_of store.new) result.at.number).parent }
    ensures higher { (shape_at (shapes_of store.old) c.number).count < result.count }
{
    let side = side_of(store.shape(p).left, c);
    match heavy_inner(store, side, c) {
        Some(inner) => {
            let half = rise(store, root, c, inner);
            let top = rise(store, half, p, inner);
            stage_at(store, top, inner)
        }
        None => {
            let top = rise(store, root, p, c);
            stage_at(store, top, c)
        }
    }
}

// Brings `p` in balance, whose child has grown. The nodes beside the path are read only where one must turn.
fn restore<T: Drop>(store: &mut Store<T>, stage: Stage, p: Link) -> Stage
    requires sound { HasRightLinks store.old stage.top }
    requires made_p { IsMade store.old p }
    requires made { IsMade store.old stage.at }
    requires child { link_number (shape_at (shapes_of store.old) stage.at.number).parent ≡ Some p.number }
    ensures same { IsRearranged store.old store.new stage.top result.top }
    ensures made { IsMade store.new result.at }
    ensures count { result.count ≡ (shape_at (shapes_of store.new) result.at.number).count }
    ensures above { result.above ≡ (shape_at (shapes_of store.new) result.at.number).parent }
    ensures higher { (shape_at (shapes_of store.old) stage.at.number).count < result.count }
{
    let over = stage_at(store, stage.top, p);
    if is_too_heavy(stage.count, over.count) {
        turn_up(store, stage.top, p, stage.at)
    } else {
        over
    }
}

// Brings each node above a new leaf in balance. Returns the top.
fn restore_above<T: Drop>(store: &mut Store<T>, root: Option<Link>, leaf: Link) -> Option<Link>
    requires sound { HasRightLinks store.old root }
    requires made { IsMade store.old leaf }
    ensures { IsRearranged store.old store.new root result }
{
    let mut stage = stage_at(store, root, leaf);
    'up: while let Some(above) = stage.above {
        stage = restore(store, stage, above);
    }
    stage.top
}

// Brings the tree in balance around a new node. Returns the top.
pub(crate) fn rebalance<T: Drop>(
    store: &mut Store<T>,
    root: Option<Link>,
    node: Link,
) -> Option<Link>
    requires sound { HasRightLinks store.old root }
    requires made { IsMade store.old node }
    ensures { IsRearranged store.old store.new root result }
{
    let top = sink(store, root, node);
    restore_above(store, top, node)
}
