//! The command `arrange`: the sections of a file as they are arranged, under their headings, as a report.
ghost use Rattle.catalogue_notes.specs.Arranged.{arranged_text};
ghost use Rattle.command_kinds.specs.Changes.{change};
ghost use Rattle.command_kinds.specs.TextOut.{GoesOut};
ghost use Rattle.manuscript_cli.specs.Arrange.{arrange_reports};

use catalogue_notes::{ArrangeFault, write_arranged};
use command_kinds::{Refusal, Report, ReportResult, gone_out};
use fugue_ids::Failed;
use outer_ports::Sink;
use replica_core::Replica;
use std::alloc::Global;

/// The sections as they are arranged, under their headings.
pub(crate) struct Arrangement;

impl Report for Arrangement {
    ghost Tells = { λ what. arrange_reports };

    fn write<O: Sink>(&self, alloc: Global, replica: &Replica, output: &mut O) -> ReportResult {
        put_arrangement(alloc, replica, output)
    }

    fn laws(&self) {}
}

/// Writes the sections as they are arranged, under their headings.
pub(crate) fn put_arrangement<O: Sink>(
    alloc: Global,
    replica: &Replica,
    output: &mut O,
) -> ReportResult
    ensures { GoesOut (arranged_text replica.now.held.history)
        (change (O.seen output.old) (O.seen output.new)) result }
{
    match write_arranged(alloc, replica, output) {
        Ok(()) => gone_out(Ok(())),
        Err(ArrangeFault::SinkFault) => gone_out(Err(Failed)),
        Err(ArrangeFault::NoMemory) => Err(Refusal::NoMemory),
    }
}
