//! The commands `changes` and `authors`: what changed since a moment, and who wrote what.
ghost use Rattle.change_marks.specs.Changes.{IsLater, changes_text};
ghost use Rattle.command_kinds.specs.Changes.{change};
ghost use Rattle.command_kinds.specs.TextOut.{GoesOut};
ghost use Rattle.manuscript_cli.specs.Changed.{authors_reports, changes_reports};

use catalogue_notes::ArrangeFault;
use change_marks::{write_authors, write_changes};
use command_kinds::{Refusal, Report, ReportResult, gone_out};
use fugue_ids::Failed;
use outer_ports::Sink;
use replica_core::Replica;
use std::alloc::Global;
use version_views::front;

/// What changed since so many operations were accepted.
#[derive(Clone, Copy)]
pub(crate) struct Changes {
    pub count: u32,
}

impl Report for Changes {
    ghost Tells = { λ what. changes_reports what.count };

    fn write<O: Sink>(&self, alloc: Global, replica: &Replica, output: &mut O) -> ReportResult {
        let Some(then) = front(alloc, replica, self.count as usize)? else {
            return Err(Refusal::NoMoment(self.count));
        };
        let reported = put_changes(alloc, &then, replica, output);
        then.discard();
        reported
    }

    fn laws(&self) {}
}

/// Writes what changed since the replica was the other one.
fn put_changes<O: Sink>(
    alloc: Global,
    then: &Replica,
    now: &Replica,
    output: &mut O,
) -> ReportResult
    requires { IsLater then.now.held.history now.now.held.history }
    ensures { GoesOut (changes_text then.now.held.history now.now.held.history)
        (change (O.seen output.old) (O.seen output.new)) result }
{
    match write_changes(alloc, then, now, output) {
        Ok(()) => gone_out(Ok(())),
        Err(ArrangeFault::SinkFault) => gone_out(Err(Failed)),
        Err(ArrangeFault::NoMemory) => Err(Refusal::NoMemory),
    }
}

/// Who wrote what is shown.
pub(crate) struct Authors;

impl Report for Authors {
    ghost Tells = { λ what. authors_reports };

    fn write<O: Sink>(&self, alloc: Global, replica: &Replica, output: &mut O) -> ReportResult {
        match write_authors(alloc, replica, output) {
            Ok(()) => gone_out(Ok(())),
            Err(ArrangeFault::SinkFault) => gone_out(Err(Failed)),
            Err(ArrangeFault::NoMemory) => Err(Refusal::NoMemory),
        }
    }

    fn laws(&self) {}
}
