//! The calls of the store: making nodes, reading and changing them, freeing all.

// What a store does.
ghost use Rattle.std.specs.Prelude.{◌≡◌, ◌<◌, ◌≤◌, ◌+◌, ◌-◌, ◌^◌, [], ◌∷◌, ◌++◌, length, slice_set, slice_index_or};
ghost use Rattle.std.specs.Prelude.{MatchResult, IfOk, IfErr};
ghost use Rattle.node_rope.specs.Made.{IsMade, KeepsMade, IsLess, IsMore, made_count, shapes_of, values_of};
ghost use Rattle.node_rope.specs.Shapes.{shape_at};
ghost use Rattle.node_rope.specs.Filed.{IsFiled};
ghost use Rattle.node_rope.specs.Rising.{more};
ghost use Rattle.node_rope.specs.Reweighed.{reweighed_node};

use super::Store;
use crate::cells::{Link, Node, Own, Shape};
use crate::packed::Packed;
use crate::pile::{self, Pile, Spot};
use crate::rope::Back;
use std::alloc::Global;
use std::mem::replace;

impl<T: Drop> Store<T> {
    pub(crate) fn new(alloc: Global) -> Store<T>
        ensures shapes { shapes_of result ≡ [] }
        ensures values { values_of result ≡ [] }
    {
        Store {
            pile: Pile::new(),
            newest: pile::nowhere(),
            count: 0,
            alloc,
        }
    }

    pub(crate) fn shape(&self, link: Link) -> Shape
        requires { IsMade self.now link }
        ensures { result ≡ shape_at (shapes_of self.now) link.number }
    {
        self.pile.at(link.spot, link.number as usize).shape.shape()
    }

    pub(crate) fn set_shape(&mut self, link: Link, shape: Shape)
        requires { IsMade self.old link }
        ensures shapes { shapes_of self.new ≡ slice_set (shapes_of self.old) link.number shape }
        ensures values { values_of self.new ≡ values_of self.old }
        ensures count { made_count self.new ≡ made_count self.old }
        ensures kept { KeepsMade self.old self.new }
    {
        self.pile.at_mut(link.spot, link.number as usize).shape = Packed::new(shape);
    }

    // One more node below that of the link, which counts for `own`. Returns its parent.
    pub(crate) fn raise(&mut self, link: Link, own: Own) -> Option<Link>
        requires made { IsMade self.old link }
        requires counts { (shape_at (shapes_of self.old) link.number).count < 2 ^ 32 - 1 }
        requires weights { (shape_at (shapes_of self.old) link.number).weight + own.weight < 2 ^ 64 }
        ensures parent { result ≡ (shape_at (shapes_of self.old) link.number).parent }
        ensures shapes { shapes_of self.new ≡ slice_set (shapes_of self.old) link.number
            (more own (shape_at (shapes_of self.old) link.number)) }
        ensures values { values_of self.new ≡ values_of self.old }
        ensures count { made_count self.new ≡ made_count self.old }
        ensures kept { KeepsMade self.old self.new }
    {
        let node = self.pile.at_mut(link.spot, link.number as usize);
        let up = node.shape.parent();
        node.shape.raise(own);
        up
    }

    // The weight at the link gains `more` and loses `less`. Returns the parent.
    pub(crate) fn shift(&mut self, link: Link, less: u32, more: u32) -> Option<Link>
        requires made { IsMade self.old link }
        requires fits { (shape_at (shapes_of self.old) link.number).weight + more < 2 ^ 64 }
        requires covers { less ≤ (shape_at (shapes_of self.old) link.number).weight + more }
        ensures parent { result ≡ (shape_at (shapes_of self.old) link.number).parent }
        ensures shapes { shapes_of self.new ≡ slice_set (shapes_of self.old) link.number
            (reweighed_node less more (shape_at (shapes_of self.old) link.number)) }
        ensures values { values_of self.new ≡ values_of self.old }
        ensures count { made_count self.new ≡ made_count self.old }
        ensures kept { KeepsMade self.old self.new }
    {
        let node = self.pile.at_mut(link.spot, link.number as usize);
        let up = node.shape.parent();
        node.shape.shift(less, more);
        up
    }

    pub(crate) fn value(&self, link: Link) -> &T
        requires { IsMade self.now link }
        ensures { result.now ≡ slice_index_or (values_of self.now) link.number result.now }
    {
        &self.pile.at(link.spot, link.number as usize).value
    }

    pub(crate) fn set_value(&mut self, link: Link, value: T) -> T
        requires { IsMade self.old link }
        ensures shapes { shapes_of self.new ≡ shapes_of self.old }
        ensures values { values_of self.new ≡ slice_set (values_of self.old) link.number value }
        ensures result { result ≡ slice_index_or (values_of self.old) link.number result }
        ensures kept { KeepsMade self.old self.new }
    {
        replace(
            &mut self.pile.at_mut(link.spot, link.number as usize).value,
            value,
        )
    }

    // The room is taken first.
    pub(crate) fn make(&mut self, shape: Shape, value: T) -> Result<Link, Back<T>>
        requires { made_count self.old < 2 ^ 32 - 1 }
        ensures made { IfOk result
            (IsMore self.old self.new (shapes_of self.old ++ (shape ∷ [])) value) }
        ensures refused { IfErr result (λ b. (b.value ≡ value) × (self.new ≡ self.old)) }
        ensures kept { KeepsMade self.old self.new }
    {
        let node = Node {
            shape: Packed::new(shape),
            older: self.newest,
            value,
        };
        let boxed = match Box::new(self.alloc, node) {
            Ok(boxed) => boxed,
            Err(refused) => {
                return Err(Back {
                    value: refused.value.value,
                });
            }
        };
        let link = Link {
            spot: self.pile.add(boxed),
            number: self.count,
        };
        self.newest = link.spot;
        self.count += 1;
        Ok(link)
    }

    // Takes the node back that was made last. Returns its value.
    pub(crate) fn unmake(&mut self) -> T
        requires { 0 < made_count self.old }
        ensures { IsLess self.old self.new result }
    {
        let Node { older, value, .. } = self.pile.take(self.newest, self.alloc);
        self.newest = older;
        self.count -= 1;
        value
    }
}

// Frees each node, the newest first. Nothing is left of the pile.
pub(super) fn free_all<T: Drop>(
    pile: Pile<Node<T>, Global>,
    newest: Spot,
    count: u32,
    alloc: Global,
)
    requires counted { count ≡ length pile.values }
    requires filed { IsFiled newest pile.values pile.moorings }
{
    let mut pile = pile;
    let mut newest = newest;
    let mut left = count;
    'nodes: while left > 0 {
        let node = pile.take(newest, alloc);
        newest = node.older;
        left -= 1;
    }
    pile.finish();
}
