//! The moments of a file: how many operations the replica had accepted after each batch.
ghost use Rattle.std.specs.Prelude.{◌≡◌, ◌<◌, ◌++◌, length, vec_len, vec_capacity, OnOk};
ghost use Rattle.origin_model.specs.edits.State.{IsSound};
ghost use Rattle.replica_file.specs.Moments.{new_moment};

use fugue_ids::NoMemory;
use replica_core::Replica;

/// How many operations the replica has accepted.
pub(crate) fn accepted_count(replica: &Replica) -> u32
    ensures count { result ≡ length replica.now.held.history }
    ensures sound { IsSound replica.now }
{
    replica.accepted().len() as u32
}

/// Makes room for a moment more.
pub(crate) fn make_room(moments: &mut Vec<u32>) -> Result<(), NoMemory>
    ensures room { OnOk result (vec_len moments.new < vec_capacity moments.new) }
    ensures same { OnOk result (moments.new.items ≡ moments.old.items) }
{
    moments.reserve(1)?;
    Ok(())
}

/// Notes how many operations are accepted, where they are more than before.
pub(crate) fn note_moment(moments: &mut Vec<u32>, before: u32, now: u32)
    requires { vec_len moments.old < vec_capacity moments.old }
    ensures { moments.new.items ≡ moments.old.items ++ new_moment before now }
{
    if before < now && moments.push(now).is_err() {
        unreachable!()
    }
}
