//! The nodes of one sequence in a map of ranges, where those that were typed in a row are one entry.
ghost use Rattle.std.specs.Prelude.{◌≡◌, ◌∷◌, [], false, IsOk, OnErr, OnOk};
ghost use Rattle.origin_model.specs.sides.Detached.{NoOrigin, without};
ghost use Rattle.origin_model.specs.sides.Node.{has_node};
ghost use Rattle.sided_tree.specs.Nodes.{IsTyped};

use crate::ages::Ages;
use crate::node_lookup::NodeLookup;
use fugue_ids::{ElementId, NoMemory};
use origin_model::Node;
use std::alloc::Global;
use std::marker::Model;
use stretch_map::{StretchMap, Typed};

/// The nodes of one place, seen as the list of them, the newest first. Nodes that were typed in one go are one entry.
#[derive(Drop)]
pub(crate) struct Nodes {
    origins: StretchMap<Typed>,
    ages: Ages,
}

impl Model for Nodes {
    ghost use Rattle.std.specs.Prelude.{List};
    ghost use Rattle.origin_model.specs.declared.operations.node.Node.{Node};
    ghost use Rattle.sided_tree.specs.Nodes.{IsNodeMap};

    ghost Value = { List Node };

    ghost view = { λ n. n.ages.nodes };

    ghost invariant = { λ n. IsNodeMap n.origins.values n.ages.nodes };
}

impl NodeLookup for Nodes {
    ghost nodes = { λ nodes. nodes };

    fn find(&self, id: ElementId) -> Option<Node> {
        match self.origins.get(id) {
            Some(origins) => Some(Node {
                id,
                left: origins.left,
                right: origins.right,
            }),
            None => None,
        }
    }
}

impl Nodes {
    pub fn new(alloc: Global) -> Nodes
        ensures { result ≡ [] }
    {
        Nodes {
            origins: StretchMap::new(alloc),
            ages: Ages::new(),
        }
    }

    /// One node more. After an allocation failure the nodes are as before. None is wanted for a node that was typed
    /// after the one before it.
    pub fn push(&mut self, node: Node) -> Result<(), NoMemory>
        requires fresh { has_node self.old node.id ≡ false }
        ensures ok { OnOk result (self.new ≡ node ∷ self.old) }
        ensures err { OnErr result (self.new ≡ self.old) }
        ensures sure { IsTyped self.old node → IsOk result }
    {
        let origins = Typed {
            left: node.left,
            right: node.right,
        };
        self.origins.insert(node.id, origins)?;
        self.ages = self.ages.with(&node);
        Ok(())
    }

    /// One node less. This wants no memory: what follows an identifier in a stretch has it as an origin.
    pub fn remove(&mut self, id: ElementId)
        requires { NoOrigin id self.old }
        ensures { self.new ≡ without id self.old }
    {
        let _origins = self.origins.remove(id);
        self.ages = self.ages.without(&id);
    }
}
