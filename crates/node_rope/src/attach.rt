//! Adding a new node beside another one.

// A new node beside another.
ghost use Rattle.std.specs.Prelude.{◌≡◌, ◌+◌, ◌-◌, ◌^◌, ◌<◌, ◌≤◌, [], ◌∷◌, ◌++◌, flat_map, IfOk, IfErr, Some};
ghost use Rattle.node_rope.specs.Entered.{IsGivenBack, LeadsTo};
ghost use Rattle.node_rope.specs.Made.{IsMade, KeepsMade, IsMore, made_count, shapes_of, values_of};
ghost use Rattle.node_rope.specs.Shapes.{HasRightLinks, AreMade, shape_at, nodes_in_order};
ghost use Rattle.node_rope.specs.Sides.{facing_shape, beside};
ghost use Rattle.node_rope.specs.Rising.{AreSmall};
ghost use Rattle.node_rope.specs.Grown.{with_parent, new_beside, joined_beside, IsGrown};

use crate::cells::{Link, Own, Shape};
use crate::climb::{count_below, least_below, raise, weight_below};
use crate::links::{KeyMap, set_link};
use crate::rope::Back;
use crate::store::Store;
use crate::turn::{Side, facing};
use fugue_ids::ElementId;

pub(crate) fn set_parent<T: Drop>(store: &mut Store<T>, link: Option<Link>, parent: Option<Link>)
    requires { AreMade store.old link }
    ensures shapes { shapes_of store.new ≡ with_parent (shapes_of store.old) link parent }
    ensures values { values_of store.new ≡ values_of store.old }
    ensures count { made_count store.new ≡ made_count store.old }
    ensures kept { KeepsMade store.old store.new }
{
    if let Some(l) = link {
        let shape = store.shape(l);
        store.set_shape(l, Shape { parent, ..shape });
    }
}

// A node for beside `at`, which takes over what is below the side of that one.
fn new_shape<T: Drop>(store: &Store<T>, side: Side, at: Link, key: ElementId, own: Own) -> Shape
    requires made { IsMade store.now at }
    requires near { AreMade store.now (facing_shape side (shape_at (shapes_of store.now) at.number)).left }
    requires small { AreSmall (shapes_of store.now) (own.weight + own.weight) }
    ensures { result ≡ new_beside side (shapes_of store.now) at key own }
{
    let below = facing(store.shape(at), side).left;
    let shape = Shape {
        key,
        left: below,
        right: None,
        parent: Some(at),
        count: count_below(store, below) + 1,
        weight: weight_below(store, below) + own.weight as u64,
        least: least_below(store, below).min(own.rank),
        own,
    };
    facing(shape, side)
}

// Makes a node and enters its key. After an allocation failure both are as before.
pub(crate) fn enter<T: Drop>(
    store: &mut Store<T>,
    map: &mut KeyMap,
    shape: Shape,
    value: T,
) -> Result<Link, Back<T>>
    requires { made_count store.old < 2 ^ 32 - 1 }
    ensures made { IfOk result
        (IsMore store.old store.new (shapes_of store.old ++ (shape ∷ [])) value) }
    ensures set { IfOk result (LeadsTo map.old map.new shape.key) }
    ensures refused { IfErr result (IsGivenBack store.old store.new map.old map.new value) }
    ensures kept { KeepsMade store.old store.new }
{
    let key = shape.key;
    let link = store.make(shape, value)?;
    if !set_link(map, key, link) {
        let value = store.unmake();
        return Err(Back { value });
    }
    Ok(link)
}

// The sums above the new node are not yet raised.
fn join<T: Drop>(
    store: &mut Store<T>,
    map: &mut KeyMap,
    side: Side,
    at: Link,
    shape: Shape,
    value: T,
) -> Result<Link, Back<T>>
    requires made { IsMade store.old at }
    requires near { AreMade store.old (facing_shape side (shape_at (shapes_of store.old) at.number)).left }
    requires few { made_count store.old < 2 ^ 32 - 1 }
    ensures joined { IfOk result
        (λ l. IsMore store.old store.new (joined_beside side (shapes_of store.old) at l shape) value l) }
    ensures set { IfOk result (LeadsTo map.old map.new shape.key) }
    ensures refused { IfErr result (IsGivenBack store.old store.new map.old map.new value) }
    ensures kept { KeepsMade store.old store.new }
{
    let next = facing(store.shape(at), side);
    let link = enter(store, map, shape, value)?;
    set_parent(store, next.left, Some(link));
    let over = Shape {
        left: Some(link),
        ..next
    };
    store.set_shape(at, facing(over, side));
    Ok(link)
}

// A new node that stands directly at the side of `at`.
pub(crate) fn attach<T: Drop>(
    store: &mut Store<T>,
    map: &mut KeyMap,
    root: Option<Link>,
    side: Side,
    at: Link,
    key: ElementId,
    own: Own,
    value: T,
) -> Result<Link, Back<T>>
    requires made { IsMade store.old at }
    requires sound { HasRightLinks store.old root }
    requires few { made_count store.old < 2 ^ 32 - 1 }
    requires fits { own.rank < 2 ^ 64 }
    requires small { AreSmall (shapes_of store.old) (own.weight + own.weight) }
    ensures grown { IfOk result (λ l. IsGrown store.old store.new root key own value l) }
    ensures walk { IfOk result
        (λ l. nodes_in_order store.new root ≡ flat_map (beside side at.number l.number) (nodes_in_order store.old root)) }
    ensures set { IfOk result (LeadsTo map.old map.new key) }
    ensures refused { IfErr result (IsGivenBack store.old store.new map.old map.new value) }
    ensures kept { KeepsMade store.old store.new }
{
    let shape = new_shape(store, side, at, key, own);
    let link = join(store, map, side, at, shape, value)?;
    raise(store, Some(at), own);
    Ok(link)
}
