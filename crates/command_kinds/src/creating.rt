//! The command `new`: creates the file of a replica without operations.
ghost use Rattle.std.specs.Prelude.{◌≤◌};
ghost use Rattle.fugue_ids.specs.declared.limits.TheConstants.{GREATEST_HOLD as greatest_hold};
ghost use Rattle.command_kinds.specs.New.{Creates};
ghost use Rattle.command_kinds.specs.Changes.{change};

use crate::Status;
use crate::refusal::{Refusal, tell};
use outer_ports::{Disk, Sink};
use replica_file::create;

/// Makes the file of a replica that holds nothing. It takes no memory.
pub fn new_file<N: Sink, H: Disk>(replica: u32, hold: u32, home: &mut H, notes: &mut N) -> Status
    requires some_replica { 1 ≤ replica }
    requires from { 1 ≤ hold }
    requires to { hold ≤ greatest_hold }
    ensures { Creates replica hold (change (H.seen home.old) (H.seen home.new))
        (change (N.seen notes.old) (N.seen notes.new)) result }
{
    match create(home, replica, hold) {
        Ok(()) => Status::Done,
        Err(fault) => tell(notes, Refusal::from(fault)),
    }
}
