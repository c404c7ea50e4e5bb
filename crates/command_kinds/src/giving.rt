//! The commands that save: something is given to the replica of the home file, and what came of it is saved and noted.
ghost use Rattle.std.specs.Prelude.{◌≡◌, ◌≢◌, ◌-◌, [], drop, length, Some, IfSome};
ghost use Rattle.origin_model.specs.operations.History.{accepted};
ghost use Rattle.outer_ports.specs.disk.Disks.{DiskIsSpecified, DiskView};
ghost use Rattle.replica_file.specs.declared.load_file.End.{End as FileEnd};
ghost use Rattle.replica_file.specs.Ends.{EndsAtGate, IsWithinReach};
ghost use Rattle.replica_file.specs.Loading.{CanTake};
ghost use Rattle.command_kinds.specs.Crashes.{IsFinished};
ghost use Rattle.command_kinds.specs.Files.{FileHolds, FileRefuses};
ghost use Rattle.command_kinds.specs.Giving.{GivenNoted, GivesTo, MayEnd, SavesNoted};
ghost use Rattle.command_kinds.specs.Giving.{note_line, note_status, to_save as ops_to_save};
ghost use Rattle.command_kinds.specs.Printing.{NoteMeets, NotesBlameless};
ghost use Rattle.command_kinds.specs.Findings.{Finding};
ghost use Rattle.command_kinds.specs.Saving.{OpsSource, GivesOnce, Outcome, SavesGiven};
ghost use Rattle.command_kinds.specs.Changes.{IsSpecified, CountsNoFault, change, notes_room};
ghost use Rattle.command_kinds.specs.declared.refusal.Refusal.{Refusal as AnyRefusal};
ghost use Rattle.command_kinds.specs.declared.refusal.Refusal.TheVariants.{Outside};
ghost use Rattle.command_kinds.specs.declared.status.Status.{Status as AnyStatus};

use crate::Status;
use crate::counts::Note;
use crate::edit::{note_made, note_revised};
use crate::kept::Kept;
use crate::printing::note as note_counts;
use crate::refusal::{Refusal, tell};
use fugue_ids::MOST_OPERATIONS;
use op_runs::OpSlice;
use outer_ports::{Disk, Sink};
use replica_core::Replica;
use replica_file::{End, append, load};
use std::alloc::Global;

/// What a command gives to the replica of its home file, from an object of the outside.
pub trait Gives<F> {
    /// What is given, by the home file at entry, by the object before and after, and by the finding that giving came to:
    /// where several are right, the source is of the one that came.
    ghost ops_source: { Self → DiskView → F → F → Finding Outcome → OpsSource };

    /// How the object is left, where the command ends so.
    ghost Leaves: { Self → DiskView → F → F → AnyStatus → Type 0 };

    /// Gives to a replica that was loaded. What is to be saved goes into `kept`, except what the replica itself made.
    fn give(
        &self,
        alloc: Global,
        from: &mut F,
        replica: &mut Replica,
        kept: &mut Kept,
    ) -> Result<Note, Refusal>
        requires ready { CanTake replica.old }
        requires none_kept { kept.old ≡ Some [] }
        ensures gives { (home : DiskView) (last : FileEnd) → FileHolds home replica.old last
            → (finding : Finding Outcome)
            × GivesTo (ops_source self.now home from.old from.new finding) replica.old replica.new kept.new result }
        ensures leaves { (home : DiskView) (last : FileEnd) → FileHolds home replica.old last
            → (end : AnyStatus) → MayEnd result end → Leaves self.now home from.old from.new end };

    /// The laws of a source of operations: one that is specified gives one thing, and an object that is not used is
    /// left as it should be.
    fn laws(&self)
        ensures once { (home : DiskView) (before after : F) (finding : Finding Outcome)
            → GivesOnce (ops_source self.now home before after finding) }
        ensures idle { (home : DiskView) (from : F) (end : AnyStatus) → (IsFinished end → ⊥)
            → Leaves self.now home from from end };
}

/// Loads the home file, lets the source give to its replica, saves what came of it by one append, and notes it.
pub fn save_given<F, T: Gives<F>, H: Disk, N: Sink>(
    alloc: Global,
    ops_source: &T,
    from: &mut F,
    home: &mut H,
    notes: &mut N,
) -> Status
    ensures saves { (finding : Finding Outcome)
        × SavesGiven (T.ops_source ops_source.now (H.seen home.old) from.old from.new finding)
        (change (H.seen home.old) (H.seen home.new)) (change (N.seen notes.old) (N.seen notes.new)) result }
    ensures leaves { T.Leaves ops_source.now (H.seen home.old) from.old from.new result }
    ensures unused { IsSpecified (H.seen home.old) → (why : AnyRefusal) → FileRefuses (H.seen home.old) why
        → from.new ≡ from.old }
{
    ops_source.laws();
    match load_and_save(alloc, ops_source, from, home) {
        Ok(note) => note_down(&note, notes),
        Err(why) => tell(notes, why),
    }
}

/// Loads the home file, and saves what was given to its replica. Returns what is to be noted.
fn load_and_save<F, T: Gives<F>, H: Disk>(
    alloc: Global,
    ops_source: &T,
    from: &mut F,
    home: &mut H,
) -> Result<Note, Refusal>
    ensures saves { (finding : Finding Outcome)
        × SavesNoted (T.ops_source ops_source.now (H.seen home.old) from.old from.new finding)
        (change (H.seen home.old) (H.seen home.new)) result }
    ensures specified { DiskIsSpecified (H.seen home.old) → result ≢ Err Outside
        → (H.seen home.new).faults ≡ (H.seen home.old).faults }
    ensures leaves { (end : AnyStatus) → MayEnd result end
        → T.Leaves ops_source.now (H.seen home.old) from.old from.new end }
    ensures unused { IsSpecified (H.seen home.old) → (why : AnyRefusal) → FileRefuses (H.seen home.old) why
        → from.new ≡ from.old }
{
    ops_source.laws();
    let (mut replica, end) = load(alloc, home, MOST_OPERATIONS)?;
    let mut kept = Kept::copied(alloc);
    let saved = give_and_save(alloc, ops_source, from, &mut replica, end, home, &mut kept);
    replica.discard();
    saved
}

/// Saves what was given to the replica of the home file, which was loaded and ends there.
fn give_and_save<F, T: Gives<F>, H: Disk>(
    alloc: Global,
    ops_source: &T,
    from: &mut F,
    replica: &mut Replica,
    end: End,
    home: &mut H,
    kept: &mut Kept,
) -> Result<Note, Refusal>
    requires ready { CanTake replica.old }
    requires reaches { IsWithinReach end }
    requires ends { IfSome (H.seen home.old).past (λ h. EndsAtGate h.last end) }
    requires none_kept { kept.old ≡ Some [] }
    ensures given { (file : DiskView) → FileHolds file replica.old end → (finding : Finding Outcome)
        × GivenNoted (T.ops_source ops_source.now file from.old from.new finding) replica.old end
        (change (H.seen home.old) (H.seen home.new)) result }
    ensures specified { DiskIsSpecified (H.seen home.old) → result ≢ Err Outside
        → (H.seen home.new).faults ≡ (H.seen home.old).faults }
    ensures leaves { (file : DiskView) → FileHolds file replica.old end
        → (status : AnyStatus) → MayEnd result status → T.Leaves ops_source.now file from.old from.new status }
{
    let before = replica.accepted().len();
    let note = ops_source.give(alloc, from, replica, kept)?;
    append(alloc, home, end, to_save(&note, before, replica, kept))?;
    Ok(note)
}

/// What is to be saved, where so many operations were accepted before something was given.
fn to_save<'a>(note: &Note, before: usize, replica: &'a Replica, kept: &'a Kept) -> OpSlice<'a>
    ensures { result ≡ ops_to_save note.now before replica.now kept.now }
{
    match note {
        Note::Counted(_) => kept.ops(),
        Note::Made(_) => replica.accepted_from(before),
        Note::Revised(made, _) => last_of(replica, *made),
    }
}

/// The operations that the replica accepted last, so many.
pub fn last_of(replica: &Replica, count: u32) -> OpSlice<'_>
    ensures { result ≡ drop (length (accepted replica.now.held.history) - count) (accepted replica.now.held.history) }
{
    let all = replica.accepted().len();
    replica.accepted_from(all.saturating_sub(count as usize))
}

fn note_down<N: Sink>(note: &Note, notes: &mut N) -> Status
    ensures meets { NoteMeets (note_line note.now) (note_status note.now) (N.seen notes.old) (N.seen notes.new) result }
    ensures counts_no_fault { CountsNoFault notes_room (N.seen notes.old) (N.seen notes.new) }
    ensures blameless { NotesBlameless (change (N.seen notes.old) (N.seen notes.new)) result }
{
    match note {
        Note::Counted(counts) => note_counts(counts, notes),
        Note::Made(made) => note_made(*made, notes),
        Note::Revised(made, sections) => note_revised(*made, sections, notes),
    }
}
