//! What the search asks of a store of nodes: the node, with its two origins, that has an identifier.
ghost use Rattle.std.specs.Prelude.{◌≡◌, List};
ghost use Rattle.origin_model.specs.declared.operations.node.Node.{Node};
ghost use Rattle.origin_model.specs.sides.Node.{find_node};

use fugue_ids::ElementId;
use origin_model::Node;

/// The nodes of one place, each of which is found by its identifier.
pub trait NodeLookup {
    /// The nodes, the newest first.
    ghost nodes: { Self → List Node };

    /// The node with this identifier.
    fn find(&self, id: ElementId) -> Option<Node>
        ensures { result ≡ find_node (nodes self.now) id };
}
