//! `Report`: the kind of command that loads a file and writes one text about its replica.
ghost use Rattle.std.specs.Prelude.{◌≡◌, List, ℕ};
ghost use Rattle.origin_model.specs.operations.Verdict.{Lawful};
ghost use Rattle.origin_model.specs.edits.State.{State as AnyReplica};
ghost use Rattle.command_kinds.specs.Findings.{Finding};
ghost use Rattle.command_kinds.specs.Report.{Reports};
ghost use Rattle.command_kinds.specs.TextOut.{ReportGoesOut, WritesReport};
ghost use Rattle.command_kinds.specs.Changes.{change};

use crate::Status;
use crate::refusal::{Refusal, tell};
use crate::text_out::ended;
use fugue_ids::MOST_OPERATIONS;
use outer_ports::{Disk, Sink};
use replica_core::Replica;
use replica_file::load;
use std::alloc::Global;

/// Whether a text was written, or why there is none.
pub type ReportResult = Result<(), Refusal>;

/// What a command reports of what a file's replica holds.
pub trait Report {
    /// The text that it is, or why there is none.
    ghost Tells: { Self → AnyReplica → Finding (List ℕ) → Type 0 };

    /// Writes the text. Where there is none, or memory runs out, nothing goes out.
    fn write<O: Sink>(&self, alloc: Global, replica: &Replica, output: &mut O) -> ReportResult
        ensures { ReportGoesOut (Tells self.now replica.now)
            (change (O.seen output.old) (O.seen output.new)) result };

    /// The law of a report: of a lawful history one thing is reported.
    fn laws(&self)
        ensures { (replica : AnyReplica) → Lawful replica.held.history → (a b : Finding (List ℕ))
            → Tells self.now replica a → Tells self.now replica b → a ≡ b };
}

/// Loads a file, and writes the report of what its replica holds to the output.
pub fn write_report<R: Report, O: Sink, N: Sink, H: Disk>(
    alloc: Global,
    what: &R,
    home: &mut H,
    output: &mut O,
    notes: &mut N,
) -> Status
    ensures { Reports (R.Tells what.now) (change (H.seen home.old) (H.seen home.new))
        (change (O.seen output.old) (O.seen output.new)) (change (N.seen notes.old) (N.seen notes.new)) result }
{
    what.laws();
    match load(alloc, home, MOST_OPERATIONS) {
        Ok((replica, _)) => {
            let status = write_held(alloc, what, &replica, output, notes);
            replica.discard();
            status
        }
        Err(fault) => tell(notes, Refusal::from(fault)),
    }
}

/// Writes the report of what the replica of a file that was loaded holds.
pub fn write_held<R: Report, O: Sink, N: Sink>(
    alloc: Global,
    what: &R,
    replica: &Replica,
    output: &mut O,
    notes: &mut N,
) -> Status
    ensures { WritesReport (R.Tells what.now replica.now)
        (change (O.seen output.old) (O.seen output.new)) (change (N.seen notes.old) (N.seen notes.new)) result }
{
    ended(what.write(alloc, replica, output), notes)
}
