//! The command `edit`: a script is run.
ghost use Rattle.command_kinds.specs.Counts.{made_line, revised_text};
ghost use Rattle.command_kinds.specs.Edit.{script};
ghost use Rattle.command_kinds.specs.Printing.{NoteMeets, NotesBlameless};
ghost use Rattle.command_kinds.specs.Saving.{ReadsInput};
ghost use Rattle.command_kinds.specs.Changes.{change, CountsNoFault, notes_room};
ghost use Rattle.command_kinds.specs.declared.status.Status.TheVariants.{Done};

use crate::Status;
use crate::counts::{Note, SectionCounts, write_made, write_revised};
use crate::giving::Gives;
use crate::kept::Kept;
use crate::printing::noted;
use crate::refusal::Refusal;
use edit_script::run_script;
use outer_ports::{Sink, Source};
use replica_core::Replica;
use std::alloc::Global;

/// The script on the input.
pub struct Script;

impl<S: Source> Gives<S> for Script {
    ghost Leaves = { λ what home before after end. ReadsInput (S.seen before) (S.seen after) end };

    ghost ops_source = { λ what home before after finding. script (change (S.seen before) (S.seen after)) };

    fn give(
        &self,
        alloc: Global,
        from: &mut S,
        replica: &mut Replica,
        _kept: &mut Kept,
    ) -> Result<Note, Refusal> {
        let made = run_script(alloc, replica, from)?;
        Ok(Note::Made(made))
    }

    fn laws(&self) {}
}

/// Writes to the notes how many operations a script made.
pub(crate) fn note_made<N: Sink>(made: u32, notes: &mut N) -> Status
    ensures meets { NoteMeets (made_line made) Done (N.seen notes.old) (N.seen notes.new) result }
    ensures counts_no_fault { CountsNoFault notes_room (N.seen notes.old) (N.seen notes.new) }
    ensures blameless { NotesBlameless (change (N.seen notes.old) (N.seen notes.new)) result }
{
    let written = write_made(notes, made);
    noted(written, Status::Done, notes)
}

/// Writes to the notes how many operations a draft took, and how many of them were made on sections.
pub(crate) fn note_revised<N: Sink>(made: u32, sections: &SectionCounts, notes: &mut N) -> Status
    ensures meets { NoteMeets (revised_text made sections.now) Done (N.seen notes.old) (N.seen notes.new) result }
    ensures counts_no_fault { CountsNoFault notes_room (N.seen notes.old) (N.seen notes.new) }
    ensures blameless { NotesBlameless (change (N.seen notes.old) (N.seen notes.new)) result }
{
    let written = write_revised(notes, made, sections);
    noted(written, Status::Done, notes)
}
