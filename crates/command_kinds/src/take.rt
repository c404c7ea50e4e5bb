//! The command `take`: the operations of a stream are taken in.
ghost use Rattle.command_kinds.specs.Saving.{ReadsInput};
ghost use Rattle.command_kinds.specs.Take.{stream};
ghost use Rattle.command_kinds.specs.Changes.{change};

use crate::counts::{Counts, Note};
use crate::giving::Gives;
use crate::kept::Kept;
use crate::refusal::Refusal;
use crate::take_in::take_in;
use outer_ports::Source;
use replica_core::Replica;
use std::alloc::Global;

/// The frames that the input has left.
pub struct Stream;

impl<S: Source> Gives<S> for Stream {
    ghost ops_source = { λ what home before after finding. stream (change (S.seen before) (S.seen after)) };

    ghost Leaves = { λ what home before after end. ReadsInput (S.seen before) (S.seen after) end };

    fn give(
        &self,
        alloc: Global,
        from: &mut S,
        replica: &mut Replica,
        kept: &mut Kept,
    ) -> Result<Note, Refusal> {
        let tally = take_in(alloc, replica, from, kept)?;
        Ok(Note::Counted(Counts::of(replica, tally)))
    }

    fn laws(&self) {}
}
