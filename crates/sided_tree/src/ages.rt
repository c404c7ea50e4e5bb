//! The order of arrival of the nodes, which exists in proofs alone, and nodes that were typed in a row.
ghost use Rattle.std.specs.Prelude.{◌≡◌, ◌∷◌, [], List};
ghost use Rattle.std.specs.Borrow.{ftrue};
ghost use Rattle.origin_model.specs.declared.operations.node.Node.{Node};
ghost use Rattle.origin_model.specs.sides.Detached.{without};
ghost use Rattle.sided_tree.specs.Rows.{run_nodes};

use fugue_ids::ElementId;
use origin_model::Node;
use std::marker::Model;

/// In which order nodes came. It is there in proofs alone, and takes no memory. What a store keeps of the nodes agrees
/// with it by the invariant of the struct that has both.
#[derive(Drop)]
pub struct Ages {
    /// The nodes, the newest first.
    pub ghost nodes: { List Node },
}

/// Nodes that were typed in a row: the first, and how many there are. Each other one has the one before it as its left
/// origin, and all have one right origin.
#[derive(Clone, Copy)]
pub struct NodeRun {
    pub first: Node,
    pub count: usize,
}

impl Model for Ages {
    ghost also_owns = { λ _. ftrue };
}

impl Ages {
    /// Without nodes.
    pub fn new() -> Ages
        ensures { result.nodes ≡ [] }
    {
        Ages {}
    }

    /// With a newer one.
    pub fn with(&self, _node: &Node) -> Ages
        ensures { result.nodes ≡ _node.now ∷ self.now.nodes }
    {
        Ages {}
    }

    /// With those of a run, each newer than the one before it.
    pub fn with_run(&self, _run: &NodeRun) -> Ages
        ensures { result.nodes ≡ run_nodes _run.now.first _run.now.count self.now.nodes }
    {
        Ages {}
    }

    /// Without the one of this identifier.
    pub fn without(&self, _id: &ElementId) -> Ages
        ensures { result.nodes ≡ without _id.now self.now.nodes }
    {
        Ages {}
    }
}
