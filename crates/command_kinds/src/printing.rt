//! How a command ends: the manuscript printed, the counts written as diagnostics, the status returned.
ghost use Rattle.std.specs.Prelude.{◌≤◌, List, ℕ, length};
ghost use Rattle.fugue_ids.specs.Outs.{OutView, WritesBytes};
ghost use Rattle.command_kinds.specs.Acts.{Performs};
ghost use Rattle.command_kinds.specs.Counts.{counts_text, status_by};
ghost use Rattle.command_kinds.specs.Printing.{NoteMeets, NotesBlameless};
ghost use Rattle.command_kinds.specs.TextOut.{printing};
ghost use Rattle.command_kinds.specs.Changes.{CountsNoFault, change, notes_room};

use crate::Status;
use crate::counts::{Counts, status_of, write_counts};
use crate::refusal::{Refusal, tell};
use crate::text_out::gone_out;
use fugue_ids::Failed;
use origin_model::Tally;
use outer_ports::Sink;
use replica_core::Replica;

/// Writes the manuscript to the output, and then the counts to the notes.
pub(crate) fn print<O: Sink, N: Sink>(
    replica: &Replica,
    tally: Tally,
    output: &mut O,
    notes: &mut N,
) -> Status
    ensures { Performs (printing replica.now.held tally (change (O.seen output.old) (O.seen output.new)))
        (change (N.seen notes.old) (N.seen notes.new)) result }
{
    match gone_out(replica.write_manuscript(output)) {
        Ok(()) => note(&Counts::of(replica, tally), notes),
        Err(why) => tell(notes, why),
    }
}

/// Writes the counts to the notes.
pub(crate) fn note<N: Sink>(counts: &Counts, notes: &mut N) -> Status
    ensures meets { NoteMeets (counts_text counts.now.tally counts.now.waiting counts.now.cursor)
        (status_by counts.now.tally counts.now.waiting) (N.seen notes.old) (N.seen notes.new) result }
    ensures counts_no_fault { CountsNoFault notes_room (N.seen notes.old) (N.seen notes.new) }
    ensures blameless { NotesBlameless (change (N.seen notes.old) (N.seen notes.new)) result }
{
    let written = write_counts(notes, counts);
    noted(written, status_of(counts), notes)
}

/// The status, where the line of notes was written. Where it was not, that is reported as a fault outside.
pub fn noted<N: Sink>(written: Result<(), Failed>, status: Status, notes: &mut N) -> Status
    ensures meets { (before : OutView) (line : List ℕ) → WritesBytes before (N.seen notes.old) written line
        → length line ≤ notes_room → NoteMeets line status before (N.seen notes.new) result }
    ensures counts_no_fault { (before : OutView) (line : List ℕ) → WritesBytes before (N.seen notes.old) written line
        → length line ≤ notes_room → CountsNoFault notes_room before (N.seen notes.new) }
    ensures blameless { (before : OutView) (line : List ℕ) → WritesBytes before (N.seen notes.old) written line
        → NotesBlameless (change before (N.seen notes.new)) result }
{
    match written {
        Ok(()) => status,
        Err(_) => tell(notes, Refusal::Outside),
    }
}
