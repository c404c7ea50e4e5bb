//! The command `show`: prints the manuscript of a stream of frames, without any file.
ghost use Rattle.std.specs.Prelude.{◌≡◌, ◌≤◌};
ghost use Rattle.fugue_ids.specs.declared.limits.TheConstants.{GREATEST_HOLD as greatest_hold};
ghost use Rattle.command_kinds.specs.Show.{reader, Shows};

use crate::Status;
use crate::kept::Kept;
use crate::printing::print;
use crate::refusal::tell;
use crate::take_in::take_in;
use fugue_ids::MOST_OPERATIONS;
use outer_ports::{Sink, Source};
use replica_core::Replica;
use std::alloc::Global;

/// The number of a replica that only reads: it makes no operations.
const READER: u32 = 1;

/// Prints the manuscript of the frames that the input has left, and the counts to the notes.
pub fn show<S: Source, O: Sink, N: Sink>(
    alloc: Global,
    hold: u32,
    input: &mut S,
    output: &mut O,
    notes: &mut N,
) -> Status
    requires from { 1 ≤ hold }
    requires to { hold ≤ greatest_hold }
    ensures { Shows hold
        (record { input = S.seen input.old; output = O.seen output.old; notes = N.seen notes.old })
        (record { input = S.seen input.new; output = O.seen output.new; notes = N.seen notes.new }) result }
{
    let mut replica = new_reader(alloc, hold);
    let status = show_by(alloc, &mut replica, input, output, notes);
    replica.discard();
    status
}

/// Shows by a replica that holds nothing yet.
fn show_by<S: Source, O: Sink, N: Sink>(
    alloc: Global,
    replica: &mut Replica,
    input: &mut S,
    output: &mut O,
    notes: &mut N,
) -> Status
    requires { replica.old ≡ reader replica.old.hold }
    ensures { Shows replica.old.hold
        (record { input = S.seen input.old; output = O.seen output.old; notes = N.seen notes.old })
        (record { input = S.seen input.new; output = O.seen output.new; notes = N.seen notes.new }) result }
{
    let taken = take_in(alloc, replica, input, &mut Kept::forgotten());
    match taken {
        Ok(tally) => print(replica, tally, output, notes),
        Err(why) => tell(notes, why),
    }
}

fn new_reader(alloc: Global, hold: u32) -> Replica
    requires from { 1 ≤ hold }
    requires to { hold ≤ greatest_hold }
    ensures { result ≡ reader hold }
{
    match Replica::new(alloc, READER, hold, MOST_OPERATIONS) {
        Ok(replica) => replica,
        Err(_) => unreachable!(),
    }
}
