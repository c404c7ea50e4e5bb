//! The accepted operations of a replica, in which certificates are made and checked.

ghost use Rattle.origin_model.specs.operations.History.{accepted};

use fugue_ids::ElementId;
use op_runs::OpRef;
use order_proof::Positions;
use replica_core::Replica;

/// What a replica holds, by the positions of its operations.
#[derive(Clone, Copy)]
pub(crate) struct Held<'a> {
    pub replica: &'a Replica,
}

impl Positions for Held<'_> {
    ghost operations = { λ held. accepted held.replica.now.held.history };

    fn count(&self) -> usize {
        self.replica.accepted().len()
    }

    fn operation(&self, position: usize) -> Option<OpRef<'_>> {
        self.replica.operation(position)
    }

    fn position(&self, id: ElementId) -> Option<usize> {
        self.replica.position(id)
    }
}
