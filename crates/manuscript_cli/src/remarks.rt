//! The commands `remarks` and `withdraw`: comments as a reader comes to them, and one of them is withdrawn.
ghost use Rattle.std.specs.Prelude.{◌≡◌};
ghost use Rattle.command_kinds.specs.Changes.{change};
ghost use Rattle.command_kinds.specs.Notes.{note_source};
ghost use Rattle.command_kinds.specs.Saving.{SavesGiven};
ghost use Rattle.manuscript_cli.specs.Remarks.{remarks_reports, withdraw_on, withdraw_refused};

use catalogue_notes::ArrangeFault;
use command_kinds::{
    Gives, Kept, Note, Refusal, Report, ReportResult, Status, gone_out, save_given,
};
use fugue_ids::Failed;
use outer_ports::{Disk, Sink};
use passage_remarks::{WithdrawFault, withdraw, write_remarks};
use replica_core::Replica;
use std::alloc::Global;

/// The comments as remarks.
pub(crate) struct Remarks;

impl Report for Remarks {
    ghost Tells = { λ what. remarks_reports };

    fn write<O: Sink>(&self, alloc: Global, replica: &Replica, output: &mut O) -> ReportResult {
        match write_remarks(alloc, replica, output) {
            Ok(()) => gone_out(Ok(())),
            Err(ArrangeFault::SinkFault) => gone_out(Err(Failed)),
            Err(ArrangeFault::NoMemory) => Err(Refusal::NoMemory),
        }
    }

    fn laws(&self) {}
}

/// The remark whose comment is withdrawn, counted from 1.
#[derive(Clone, Copy)]
struct Withdrawal {
    number: u32,
}

impl Gives<()> for Withdrawal {
    ghost ops_source = { λ what home before after finding. note_source (withdraw_on what.number) };

    ghost Leaves = { λ what home before after end. Unit {0} };

    fn give(
        &self,
        alloc: Global,
        _from: &mut (),
        replica: &mut Replica,
        _kept: &mut Kept,
    ) -> Result<Note, Refusal> {
        match withdraw(alloc, replica, self.number) {
            Ok(()) => Ok(Note::Made(1)),
            Err(fault) => Err(refusal_of(fault, self.number)),
        }
    }

    fn laws(&self) {}
}

/// The refusal that a fault is, where the words ask for the remark of this number.
fn refusal_of(fault: WithdrawFault, number: u32) -> Refusal
    ensures { result ≡ withdraw_refused number fault }
{
    match fault {
        WithdrawFault::NoComment => Refusal::NoComment(number),
        WithdrawFault::TooMany(held) => Refusal::TooMany(held),
        WithdrawFault::NoMemory => Refusal::NoMemory,
    }
}

/// Withdraws a comment of the home file, saves that by one append, and notes it.
pub(crate) fn withdraw_remark<H: Disk, N: Sink>(
    alloc: Global,
    number: u32,
    home: &mut H,
    notes: &mut N,
) -> Status
    ensures { SavesGiven (note_source (withdraw_on number)) (change (H.seen home.old) (H.seen home.new))
        (change (N.seen notes.old) (N.seen notes.new)) result }
{
    save_given(alloc, &Withdrawal { number }, &mut (), home, notes)
}
