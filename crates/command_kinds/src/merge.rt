//! The command `merge`: what another file holds is taken in.
ghost use Rattle.std.specs.Prelude.{◌≡◌, [], Some};
ghost use Rattle.replica_file.specs.Loading.{CanTake};
ghost use Rattle.command_kinds.specs.Files.{LeavesFile};
ghost use Rattle.command_kinds.specs.Giving.{GivesTo};
ghost use Rattle.command_kinds.specs.Take.{all_held_by, other_file};
ghost use Rattle.command_kinds.specs.Changes.{change};

use crate::copying::take_copies;
use crate::counts::{Counts, Note};
use crate::giving::Gives;
use crate::kept::Kept;
use crate::refusal::Refusal;
use fugue_ids::MOST_OPERATIONS;
use op_runs::OpSlice;
use origin_model::Tally;
use outer_ports::Disk;
use replica_core::Replica;
use replica_file::load;
use std::alloc::Global;

/// What the replica of another file holds.
pub struct OtherFile;

impl<G: Disk> Gives<G> for OtherFile {
    ghost ops_source = { λ what home before after finding. other_file (change (G.seen before) (G.seen after)) };

    ghost Leaves = { λ what home before after end. LeavesFile (change (G.seen before) (G.seen after)) end };

    fn give(
        &self,
        alloc: Global,
        from: &mut G,
        replica: &mut Replica,
        kept: &mut Kept,
    ) -> Result<Note, Refusal> {
        let (other, _) = load(alloc, from, MOST_OPERATIONS)?;
        let given = give_all(alloc, &other, replica, kept);
        other.discard();
        given
    }

    fn laws(&self) {}
}

/// Gives copies of all that another replica holds: of what it accepted, and then of what waits.
fn give_all(
    alloc: Global,
    other: &Replica,
    replica: &mut Replica,
    kept: &mut Kept,
) -> Result<Note, Refusal>
    requires ready { CanTake replica.old }
    requires none_kept { kept.old ≡ Some [] }
    ensures gives { GivesTo (all_held_by other.now) replica.old replica.new kept.new result }
{
    let mut tally = Tally::default();
    take_copies(alloc, replica, other.accepted(), &mut tally, kept)?;
    let waiting = OpSlice::of(other.waiting());
    take_copies(alloc, replica, waiting, &mut tally, kept)?;
    Ok(Note::Counted(Counts::of(replica, tally)))
}
