//! The command `send`: the frames of all accepted and pending operations of a file, as a report.
ghost use Rattle.std.specs.Prelude.{◌≡◌, IfOk};
ghost use Rattle.command_kinds.specs.Report.{frames_held, send_reports};

use crate::refusal::Refusal;
use crate::report::{Report, ReportResult};
use crate::text_out::gone_out;
use fugue_ids::{NoMemory, write_whole};
use op_frame::encode_all;
use op_runs::OpSlice;
use outer_ports::Sink;
use replica_core::Replica;
use std::alloc::Global;

/// The frames of all that is held.
pub struct Frames;

impl Report for Frames {
    ghost Tells = { λ what. send_reports };

    fn write<O: Sink>(&self, alloc: Global, replica: &Replica, output: &mut O) -> ReportResult {
        let frames = frames_of(alloc, replica)?;
        gone_out(write_whole(output, &frames))
    }

    fn laws(&self) {}
}

/// The frames of all that a replica holds. They are made before any of them goes out, so that an allocation failure
/// leaves the output as it was.
fn frames_of(alloc: Global, replica: &Replica) -> Result<Vec<u8>, NoMemory>
    ensures { IfOk result (λ frames. frames.items ≡ frames_held replica.now) }
{
    let mut frames = Vec::new(alloc);
    encode_all(replica.accepted(), &mut frames)?;
    encode_all(OpSlice::of(replica.waiting()), &mut frames)?;
    Ok(frames)
}
