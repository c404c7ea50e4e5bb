//! Walks from a node to the root: index and weight before it, and the sums that a change renews.

// Where a node stands, found by climbing from it.
ghost use Rattle.std.specs.Prelude.{◌≡◌, ◌+◌, ◌-◌, ◌^◌, ◌<◌, ◌≤◌, length, take, slice_index_or, IsTrue, ◌↔◌, Some};
ghost use Rattle.std.specs.Prelude.{None, ◌≢◌, ℕ};
ghost use Rattle.node_rope.specs.Made.{IsMade, KeepsMade, made_count, shapes_of, values_of};
ghost use Rattle.node_rope.specs.Shapes.{HasRightLinks, AreMade, shape_at, link_number, tree_of, nodes_in_order, weigh};
ghost use Rattle.node_rope.specs.Shapes.{weight_at, least_at, IsWeighed, IsRanked};
ghost use Rattle.node_rope.specs.Walk.{count_of, HasCounts};
ghost use Rattle.node_rope.specs.Rising.{IsRising, IsRaised, SameLinks, AreSmall};
ghost use Rattle.node_rope.specs.Reweighed.{IsMended, IsSoundBut, AreOff, AreStill, summed_node};

use crate::cells::{Link, Own, Shape};
use crate::store::Store;

pub(crate) fn count_below<T: Drop>(store: &Store<T>, link: Option<Link>) -> u32
    requires { AreMade store.now link }
    ensures { result ≡ count_of (tree_of (shapes_of store.now)) (link_number link) }
{
    match link {
        Some(l) => store.shape(l).count,
        None => 0,
    }
}

pub(crate) fn weight_below<T: Drop>(store: &Store<T>, link: Option<Link>) -> u64
    requires { AreMade store.now link }
    ensures { result ≡ weight_at (shapes_of store.now) link }
{
    match link {
        Some(l) => store.shape(l).weight,
        None => 0,
    }
}

pub(crate) fn least_below<T: Drop>(store: &Store<T>, link: Option<Link>) -> u64
    requires { AreMade store.now link }
    ensures { result ≡ least_at (shapes_of store.now) link }
{
    match link {
        Some(l) => store.shape(l).least,
        None => u64::MAX,
    }
}

pub(crate) fn leads_to(link: Option<Link>, to: Link) -> bool
    ensures { IsTrue result ↔ (link_number link ≡ Some to.number) }
{
    match link {
        Some(l) => l.number == to.number,
        None => false,
    }
}

// How many nodes stand before one, and their weight.
#[derive(Clone, Copy)]
pub(crate) struct Standing {
    pub(crate) count: usize,
    pub(crate) weight: u64,
}

pub(crate) fn before<T: Drop>(store: &Store<T>, root: Option<Link>, at: Link) -> Standing
    requires made { IsMade store.now at }
    requires sound { HasRightLinks store.now root }
    requires few { made_count store.now < 2 ^ 62 }
    ensures inside { result.count < length (nodes_in_order store.now root) }
    ensures at { slice_index_or (nodes_in_order store.now root) result.count 0 ≡ at.number }
    ensures weight { result.weight ≡ weigh (shapes_of store.now) (take result.count (nodes_in_order store.now root)) }
{
    let mut cur = at;
    let mut shape = store.shape(at);
    let mut count = count_below(store, shape.left) as usize;
    let mut weight = weight_below(store, shape.left);
    'up: while let Some(up) = shape.parent {
        let above = store.shape(up);
        if leads_to(above.right, cur) {
            // All of `above` but what is below `cur` stands before that.
            count += (above.count - shape.count) as usize;
            weight += above.weight - shape.weight;
        }
        cur = up;
        shape = above;
    }
    Standing { count, weight }
}

// The sums above a new node.

// Adds one node, which counts for `own`, to the sums of each node from `from` up to the top.
pub(crate) fn raise<T: Drop>(store: &mut Store<T>, from: Option<Link>, own: Own)
    requires rising { IsRising store.old own from }
    requires small { AreSmall (shapes_of store.old) own.weight }
    ensures counted { HasCounts (tree_of (shapes_of store.new)) }
    ensures weighed { IsWeighed (shapes_of store.new) }
    ensures ranked { IsRanked (shapes_of store.new) }
    ensures links { SameLinks (shapes_of store.old) (shapes_of store.new) }
    ensures raised { IsRaised (shapes_of store.old) (shapes_of store.new) own None }
    ensures values { values_of store.new ≡ values_of store.old }
    ensures count { made_count store.new ≡ made_count store.old }
    ensures kept { KeepsMade store.old store.new }
{
    let mut cur = from;
    'up: while let Some(l) = cur {
        cur = store.raise(l, own);
    }
}

// What a node's value counts for is set anew.

// The node with the weight and the least rank of what is below it.
fn with_sums<T: Drop>(store: &Store<T>, shape: Shape) -> Shape
    requires left { AreMade store.now shape.left }
    requires right { AreMade store.now shape.right }
    requires fits { weight_at (shapes_of store.now) shape.left +
        (shape.own.weight + weight_at (shapes_of store.now) shape.right) < 2 ^ 64 }
    ensures { result ≡ summed_node (shapes_of store.now) shape }
{
    let Own { weight, rank } = shape.own;
    Shape {
        weight: weight_below(store, shape.left)
            + (weight as u64 + weight_below(store, shape.right)),
        least: least_below(store, shape.left).min(rank.min(least_below(store, shape.right))),
        ..shape
    }
}

// Sums the weights and the least ranks anew of each node from `from` up to the top.
fn sum_up<T: Drop>(store: &mut Store<T>, root: Option<Link>, from: Option<Link>)
    requires { IsSoundBut store.old root from }
    ensures { IsMended store.old store.new root }
{
    // The contract alone needs the root.
    let _ = root;
    let mut cur = from;
    'up: while let Some(l) = cur {
        let shape = store.shape(l);
        let up = shape.parent;
        store.set_shape(l, with_sums(store, shape));
        cur = up;
    }
}

// The same where the least ranks are right and each weight lacks `more` and has `less` too much: no node beside the path
// is read.
fn reweigh<T: Drop>(
    store: &mut Store<T>,
    root: Option<Link>,
    from: Option<Link>,
    less: u32,
    more: u32,
)
    requires but { IsSoundBut store.old root from }
    requires off { AreOff (shapes_of store.old) less more from }
    ensures { IsMended store.old store.new root }
{
    // The contract alone needs the root.
    let _ = root;
    let mut cur = from;
    'up: while let Some(l) = cur {
        cur = store.shift(l, less, more);
    }
}

// The same after a node's own weight and rank were `old` and became `new`.
fn mend<T: Drop>(store: &mut Store<T>, root: Option<Link>, at: Link, old: Own, new: Own)
    requires but { IsSoundBut store.old root (Some at) }
    requires off { old.rank ≡ new.rank → AreOff (shapes_of store.old) old.weight new.weight (Some at) }
    ensures { IsMended store.old store.new root }
{
    if old.rank == new.rank {
        reweigh(store, root, Some(at), old.weight, new.weight)
    } else {
        sum_up(store, root, Some(at))
    }
}

pub(crate) fn set_own<T: Drop>(store: &mut Store<T>, root: Option<Link>, at: Link, own: Own)
    requires made { IsMade store.old at }
    requires sound { HasRightLinks store.old root }
    requires few { made_count store.old < 4194305 }
    requires light { (i : ℕ) → (shape_at (shapes_of store.old) i).own.weight < 4194305 }
    requires own { own.weight < 4194305 }
    ensures sound { HasRightLinks store.new root }
    ensures still { AreStill (shapes_of store.old) (shapes_of store.new) }
    ensures here { (shape_at (shapes_of store.new) at.number).own ≡ own }
    ensures others { (i : ℕ) → i ≢ at.number
        → (shape_at (shapes_of store.new) i).own ≡ (shape_at (shapes_of store.old) i).own }
    ensures values { values_of store.new ≡ values_of store.old }
    ensures count { made_count store.new ≡ made_count store.old }
    ensures kept { KeepsMade store.old store.new }
{
    let shape = store.shape(at);
    let old = shape.own;
    if old.weight == own.weight && old.rank == own.rank {
        // No sum above changes.
        return;
    }
    store.set_shape(at, Shape { own, ..shape });
    mend(store, root, at, old, own);
}
