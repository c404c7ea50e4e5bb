//! The tree of sides of one sequence, with a node store of its own; the program searches runs instead.
ghost use Rattle.std.specs.Prelude.{◌≡◌, ◌↔◌, ◌∷◌, [], false, true, IsOk, OnErr, OnOk};
ghost use Rattle.fugue_ids.specs.Keys.{ids};
ghost use Rattle.fugue_ids.specs.declared.key.Gap.TheVariants.{Alone};
ghost use Rattle.fugue_ids.specs.declared.key.Side.TheVariants.{Left};
ghost use Rattle.origin_model.specs.sides.Detached.{NoOrigin, without};
ghost use Rattle.origin_model.specs.sides.Keys.{keyed_order};
ghost use Rattle.origin_model.specs.sides.Node.{AreNodes, has_node, has_origin, node_order};
ghost use Rattle.origin_model.specs.sides.Slot.{IsBeside, at_gap};
ghost use Rattle.sided_tree.specs.Nodes.{IsTyped};
ghost use Rattle.sided_tree.specs.Side.{HangsLeft};

use crate::gaps::find_gap;
use crate::node_lookup::NodeLookup;
use crate::nodes::Nodes;
use crate::siblings::find_slot;
use fugue_ids::{ElementId, Gap, NoMemory, OrderOf, Side};
use origin_model::{Node, Slot};
use std::alloc::Global;
use std::marker::Model;

/// The sided tree of one place with a store of its own, seen as the list of its nodes, the newest first: each node's
/// origins are older than it. Where another store has the origins, `find_gap` asks that one.
///
/// A node hangs as a left child of its right origin where the two have the same left origin, and as a right child of
/// its left origin otherwise. There is no table of children: the keys of the elements tell where in the order those of
/// a slot stand. A gap is found by searches in the order, whose number grows with the logarithm of the number of
/// elements in the slot's part, and by none where the right origin directly follows the left one, as in all typing.
/// Nodes that were typed in one go are one entry, and a look-up costs a number of steps that grows with the logarithm
/// of the number of entries; a letter that is typed on makes none.
#[derive(Drop)]
pub struct SidedTree {
    nodes: Nodes,
}

impl Model for SidedTree {
    ghost use Rattle.std.specs.Prelude.{List};
    ghost use Rattle.origin_model.specs.sides.Node.{AreNodes};
    ghost use Rattle.origin_model.specs.declared.operations.node.Node.{Node};

    ghost Value = { List Node };

    ghost view = { λ t. t.nodes };

    ghost invariant = { λ t. AreNodes t.nodes };
}

impl SidedTree {
    /// It takes no memory.
    pub fn new(alloc: Global) -> SidedTree
        ensures { result ≡ [] }
    {
        SidedTree {
            nodes: Nodes::new(alloc),
        }
    }

    /// Whether a node has the identifier.
    pub fn holds(&self, id: ElementId) -> bool
        ensures held { result ≡ has_node self.now id }
        ensures are_nodes { AreNodes self.now }
    {
        self.nodes.find(id).is_some()
    }

    /// On which side of its parent a node with these origins hangs.
    pub fn side(&self, left: Option<ElementId>, right: Option<ElementId>) -> Side
        requires left { has_origin self.now left ≡ true }
        requires right { has_origin self.now right ≡ true }
        ensures side { (result ≡ Left) ↔ HangsLeft self.now left right }
        ensures are_nodes { AreNodes self.now }
    {
        match find_slot(&self.nodes, left, right) {
            Slot::LeftOf(_) => Side::Left,
            Slot::RightOf(_) => Side::Right,
        }
    }

    /// The gap of the order into which a new node with these origins goes.
    pub fn find_gap<F: OrderOf>(
        &self,
        id: ElementId,
        left: Option<ElementId>,
        right: Option<ElementId>,
        order: &F,
    ) -> Gap
        requires fresh { has_node self.now id ≡ false }
        requires left { has_origin self.now left ≡ true }
        requires right { has_origin self.now right ≡ true }
        requires list { F.listed order.now ≡ keyed_order self.now }
        ensures place { node_order (record { id = id; left = left; right = right } ∷ self.now)
            ≡ at_gap result id (ids (F.listed order.now)) }
        ensures beside { IsBeside result (ids (F.listed order.now)) }
        ensures alone { (result ≡ Alone) ↔ (self.now ≡ []) }
        ensures are_nodes { AreNodes self.now }
    {
        let node = Node { id, left, right };
        find_gap(&self.nodes, order, &node)
    }

    /// One node more. After an allocation failure the tree is as before. Of all calls, this one alone takes memory, and
    /// none for a node that was typed after the one before it.
    ///
    /// The order is not looked at: where the node stands is specified by its key.
    pub fn attach<F: OrderOf>(
        &mut self,
        id: ElementId,
        left: Option<ElementId>,
        right: Option<ElementId>,
        order: &F,
    ) -> Result<(), NoMemory>
        requires fresh { has_node self.old id ≡ false }
        requires left { has_origin self.old left ≡ true }
        requires right { has_origin self.old right ≡ true }
        requires list { F.listed order.now ≡ keyed_order self.old }
        ensures ok { OnOk result (self.new ≡ record { id = id; left = left; right = right } ∷ self.old) }
        ensures err { OnErr result (self.new ≡ self.old) }
        ensures sure { IsTyped self.old (record { id = id; left = left; right = right }) → IsOk result }
        ensures are_nodes { AreNodes self.new }
    {
        let _ = order;
        self.nodes.push(Node { id, left, right })
    }

    /// One node less. It takes no memory, and costs a few look-ups.
    pub fn detach(&mut self, id: ElementId)
        requires held { has_node self.old id ≡ true }
        requires no_origin { NoOrigin id self.old }
        ensures others { self.new ≡ without id self.old }
        ensures are_nodes { AreNodes self.new }
    {
        self.nodes.remove(id);
    }
}
