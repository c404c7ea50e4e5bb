//! A node's links, key and sums, packed into few bytes.

ghost use Rattle.std.specs.Prelude.{◌≡◌, ◌+◌, ◌-◌, ◌^◌, ◌<◌, ◌≤◌};
ghost use Rattle.node_rope.specs.Packing.{link_if};
ghost use Rattle.node_rope.specs.Rising.{more};
ghost use Rattle.node_rope.specs.Reweighed.{reweighed_node};

use crate::cells::{Link, Own, Shape};
use crate::pile::{self, Spot};
use fugue_ids::ElementId;
use std::marker::Model;
use std::mem::size_of;

/// A shape as a node keeps it: an `Option<Link>` takes 24 bytes, and its parts that stand here 13.
///
/// A climb that changes sums (`raise`, `shift`) reads fields from `parent` to `has_parent` alone, which are mostly in one
/// line of the cache, since they lie close together.
#[derive(Drop)]
pub struct Packed {
    key: ElementId,
    left: Spot,
    right: Spot,
    own_rank: u64,
    parent: Spot,
    weight: u64,
    least: u64,
    count: u32,
    has_parent: bool,
    has_left: bool,
    has_right: bool,
    parent_number: u32,
    left_number: u32,
    right_number: u32,
    own_weight: u32,
}

const _: () = prove!(size_of::<Packed>() == 80);

impl Model for Packed {
    ghost use Rattle.node_rope.specs.Packing.{link_if};
    ghost use Rattle.node_rope.specs.declared.cells.Shape.{Shape};

    ghost Value = { Shape };

    ghost view = { λ p. record {
      key = p.key;
      left = link_if p.has_left p.left p.left_number;
      right = link_if p.has_right p.right p.right_number;
      parent = link_if p.has_parent p.parent p.parent_number;
      count = p.count;
      weight = p.weight;
      least = p.least;
      own = record { weight = p.own_weight; rank = p.own_rank };
    } };
}

impl Packed {
    pub(crate) fn new(shape: Shape) -> Packed
        ensures { result ≡ shape }
    {
        let left = parts_of(shape.left);
        let right = parts_of(shape.right);
        let parent = parts_of(shape.parent);
        Packed {
            key: shape.key,
            left: left.spot,
            right: right.spot,
            own_rank: shape.own.rank,
            parent: parent.spot,
            weight: shape.weight,
            least: shape.least,
            count: shape.count,
            has_parent: parent.there,
            has_left: left.there,
            has_right: right.there,
            parent_number: parent.number,
            left_number: left.number,
            right_number: right.number,
            own_weight: shape.own.weight,
        }
    }

    pub(crate) fn shape(&self) -> Shape
        ensures { result ≡ self.now }
    {
        Shape {
            key: self.key,
            left: link_of(self.has_left, self.left, self.left_number),
            right: link_of(self.has_right, self.right, self.right_number),
            parent: link_of(self.has_parent, self.parent, self.parent_number),
            count: self.count,
            weight: self.weight,
            least: self.least,
            own: Own {
                weight: self.own_weight,
                rank: self.own_rank,
            },
        }
    }
}

// Climbs change a few fields of each node, and leave the others where they are.
impl Packed {
    pub(crate) fn parent(&self) -> Option<Link>
        ensures { result ≡ self.now.parent }
    {
        link_of(self.has_parent, self.parent, self.parent_number)
    }

    // One more node below, which counts for `own`.
    pub(crate) fn raise(&mut self, own: Own)
        requires count { self.old.count < 2 ^ 32 - 1 }
        requires weight { self.old.weight + own.weight < 2 ^ 64 }
        ensures { self.new ≡ more own self.old }
    {
        self.count += 1;
        self.weight += own.weight as u64;
        self.least = self.least.min(own.rank);
    }

    // The weight gains `more` and loses `less`.
    pub(crate) fn shift(&mut self, less: u32, more: u32)
        requires fits { self.old.weight + more < 2 ^ 64 }
        requires covers { less ≤ self.old.weight + more }
        ensures { self.new ≡ reweighed_node less more self.old }
    {
        self.weight = self.weight + more as u64 - less as u64;
    }
}

// The parts of a link, if there is one.
#[derive(Clone, Copy)]
struct Parts {
    there: bool,
    spot: Spot,
    number: u32,
}

fn parts_of(link: Option<Link>) -> Parts
    ensures { link_if result.there result.spot result.number ≡ link }
{
    match link {
        Some(link) => Parts {
            there: true,
            spot: link.spot,
            number: link.number,
        },
        None => Parts {
            there: false,
            spot: pile::nowhere(),
            number: 0,
        },
    }
}

fn link_of(there: bool, spot: Spot, number: u32) -> Option<Link>
    ensures { result ≡ link_if there spot number }
{
    if there {
        Some(Link { spot, number })
    } else {
        None
    }
}
