//! The command `sync`: a relay is told all that a file holds, and what it answers is taken in.
ghost use Rattle.command_kinds.specs.Sync.{LeavesWire, reply};
ghost use Rattle.command_kinds.specs.Changes.{change};

use crate::counts::{Counts, Note};
use crate::giving::Gives;
use crate::kept::Kept;
use crate::refusal::Refusal;
use outer_ports::Wire;
use relay_sync::sync;
use replica_core::Replica;
use std::alloc::Global;

/// The reply of the relay on the port to all that the replica holds.
#[derive(Clone, Copy)]
pub struct Reply {
    pub port: u16,
    /// Where the last exchange with this relay ended, 0 at first.
    pub cursor: u32,
}

impl<W: Wire> Gives<W> for Reply {
    ghost ops_source = { λ what home before after finding. reply what.cursor home (change (W.seen before) (W.seen after)) };

    ghost Leaves = { λ what home before after end.
        LeavesWire what.port what.cursor home (change (W.seen before) (W.seen after)) end };

    fn give(
        &self,
        alloc: Global,
        from: &mut W,
        replica: &mut Replica,
        kept: &mut Kept,
    ) -> Result<Note, Refusal> {
        let mut ops = Vec::new(alloc);
        let answered = sync(alloc, replica, from, self.port, self.cursor, &mut ops)?;
        kept.put(ops);
        Ok(Note::Counted(Counts::of_exchange(replica, answered.tally, answered.cursor)))
    }

    fn laws(&self) {}
}
