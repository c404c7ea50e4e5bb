//! The command `moments`: what came when.
ghost use Rattle.command_kinds.specs.Changes.{change};
ghost use Rattle.manuscript_cli.specs.Moments.{ReportsMoments, moments_reports};

use batch_moments::moments_text;
use command_kinds::{Refusal, Report, ReportResult, Status, gone_out, tell, write_held};
use fugue_ids::{MOST_OPERATIONS, write_whole};
use outer_ports::{Disk, Sink};
use replica_core::Replica;
use replica_file::load_moments;
use std::alloc::Global;

/// Loads a file, and writes what came with each of its batches.
pub(crate) fn write_moments<O: Sink, N: Sink, H: Disk>(
    alloc: Global,
    home: &mut H,
    output: &mut O,
    notes: &mut N,
) -> Status
    ensures { ReportsMoments (change (H.seen home.old) (H.seen home.new))
        (change (O.seen output.old) (O.seen output.new)) (change (N.seen notes.old) (N.seen notes.new)) result }
{
    match load_moments(alloc, home, MOST_OPERATIONS) {
        Ok((replica, _, moments)) => {
            let what = Moments { moments };
            let status = write_held(alloc, &what, &replica, output, notes);
            drop(what);
            replica.discard();
            status
        }
        Err(fault) => tell(notes, Refusal::from(fault)),
    }
}

/// What came between these moments.
#[derive(Drop)]
struct Moments {
    moments: Vec<u32>,
}

impl Report for Moments {
    ghost Tells = { λ what. moments_reports what.moments.items };

    fn write<O: Sink>(&self, alloc: Global, replica: &Replica, output: &mut O) -> ReportResult {
        let text = moments_text(alloc, &self.moments, replica.accepted())?;
        gone_out(write_whole(output, text.as_slice()))
    }

    fn laws(&self) {}
}
