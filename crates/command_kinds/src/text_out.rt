//! A text that goes to the output, and how a command ends that writes no more than that.
ghost use Rattle.std.specs.Prelude.{List, ℕ};
ghost use Rattle.fugue_ids.specs.Outs.{OutView, WritesBytes};
ghost use Rattle.command_kinds.specs.Acts.{ReportsResult, all_done, no_line};
ghost use Rattle.command_kinds.specs.TextOut.{GoesOut};
ghost use Rattle.command_kinds.specs.Changes.{change};

use crate::Status;
use crate::refusal::{Refusal, tell};
use fugue_ids::Failed;
use outer_ports::Sink;

/// The answer of a call that wrote a text, with the refusal that a failure is.
pub fn gone_out(written: Result<(), Failed>) -> Result<(), Refusal>
    ensures { (old new : OutView) (text : List ℕ) → WritesBytes old new written text
        → GoesOut text (change old new) result }
{
    match written {
        Ok(()) => Ok(()),
        Err(_) => Err(Refusal::Outside),
    }
}

/// Done, where a text went out. Where it did not, why is reported.
pub fn ended<N: Sink>(gone: Result<(), Refusal>, notes: &mut N) -> Status
    ensures { ReportsResult no_line all_done gone (change (N.seen notes.old) (N.seen notes.new)) result }
{
    match gone {
        Ok(()) => Status::Done,
        Err(why) => tell(notes, why),
    }
}
