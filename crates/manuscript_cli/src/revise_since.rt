//! The command `revise` with a number: a draft of what a file showed when so many operations were accepted.
ghost use Rattle.std.specs.Prelude.{◌≡◌, ◌≢◌, ◌⊎◌, IfErr, IfOk, None, OnOk, Some};
ghost use Rattle.op_runs.specs.Finding.{op_of};
ghost use Rattle.origin_model.specs.edits.Refusal.{next_of_own};
ghost use Rattle.origin_model.specs.taking.Taking.{MeetsNoLimit, IsSettled, TooMany as AnswersTooMany, answer, intake};
ghost use Rattle.replica_file.specs.Loading.{CanTake};
ghost use Rattle.version_views.specs.Fronts.{replica_at};
ghost use Rattle.command_kinds.specs.Changes.{IsSpecified, change};
ghost use Rattle.command_kinds.specs.Files.{FileRefuses};
ghost use Rattle.command_kinds.specs.Findings.{Finding};
ghost use Rattle.command_kinds.specs.Intake.{FeedsNot};
ghost use Rattle.command_kinds.specs.Saving.{Outcome, ReadsInput, SavesGiven};
ghost use Rattle.command_kinds.specs.declared.refusal.Refusal.{Refusal as AnyRefusal};
ghost use Rattle.command_kinds.specs.declared.refusal.Refusal.TheVariants.{NoMemory as NoMemoryFound};
ghost use Rattle.manuscript_cli.specs.Revising.{LooksAtBase};
ghost use Rattle.manuscript_cli.specs.RevisingSince.{BringsRevision, FindsNoRoom, HasNoPlaceFor, MomentDecidesAlone, moment_refusal};
ghost use Rattle.manuscript_cli.specs.RevisingSince.{revision_since, same_next, refusal_of_whole as reported_of};

use crate::revise::{DraftSources, Revised, revise_by, too_many};
use command_kinds::{Gives, Kept, Note, Refusal, Status, last_of, save_given};
use op_runs::{OpRef, OpSlice};
use origin_model::Tally;
use outer_ports::{Disk, Sink, Source};
use replica_core::{FeedFault, Replica};
use std::alloc::Global;
use std::mem::replace;
use version_views::front;

/// A draft of what was shown when so many operations were accepted.
#[derive(Clone, Copy)]
struct RevisionSince {
    count: u32,
}

impl<'a, G: Disk, S: Source> Gives<DraftSources<'a, G, S>> for RevisionSince {
    ghost ops_source = { λ what home before after finding. revision_since what.count
        (change (G.seen before.base.now) (G.seen after.base.now))
        (change (S.seen before.draft.now) (S.seen after.draft.now)) finding };

    // The references stay the same.
    ghost Leaves = { λ what home before after end.
        (after.base.ghost_name ≡ before.base.ghost_name)
        × (after.draft.ghost_name ≡ before.draft.ghost_name)
        × LooksAtBase (change (G.seen before.base.now) (G.seen after.base.now)) end
        × ReadsInput (S.seen before.draft.now) (S.seen after.draft.now) end
        × MomentDecidesAlone what.count home (change (G.seen before.base.now) (G.seen after.base.now))
        (change (S.seen before.draft.now) (S.seen after.draft.now)) };

    fn give(
        &self,
        alloc: Global,
        from: &mut DraftSources<'a, G, S>,
        replica: &mut Replica,
        _kept: &mut Kept,
    ) -> Result<Note, Refusal> {
        let mut past = past_of(alloc, replica, self.count)?;
        let given = revise_by(alloc, from.base, from.draft, &mut past);
        let revised = bring(alloc, replica, past, given)?;
        Ok(Note::Revised(revised.made, revised.sections))
    }

    fn laws(&self) {}
}

/// Revises what the home file showed when so many operations were accepted until that is the draft on the input, and
/// saves the operations that took after all that the file has. The other file has the text that the draft was written
/// from.
pub(crate) fn revise_file_since<S: Source, N: Sink, H: Disk, G: Disk>(
    alloc: Global,
    count: u32,
    input: &mut S,
    home: &mut H,
    base: &mut G,
    notes: &mut N,
) -> Status
    ensures saves { (finding : Finding Outcome)
        × SavesGiven (revision_since count (change (G.seen base.old) (G.seen base.new))
        (change (S.seen input.old) (S.seen input.new)) finding)
        (change (H.seen home.old) (H.seen home.new)) (change (N.seen notes.old) (N.seen notes.new)) result }
    ensures looks { LooksAtBase (change (G.seen base.old) (G.seen base.new)) result }
    ensures reads { ReadsInput (S.seen input.old) (S.seen input.new) result }
    ensures unused { IsSpecified (H.seen home.old) → (why : AnyRefusal) → FileRefuses (H.seen home.old) why
        → (S.seen input.new ≡ S.seen input.old) × (G.seen base.new ≡ G.seen base.old) }
    ensures moment { MomentDecidesAlone count (H.seen home.old) (change (G.seen base.old) (G.seen base.new))
        (change (S.seen input.old) (S.seen input.new)) }
{
    let mut sources = DraftSources { base, draft: input };
    save_given(alloc, &RevisionSince { count }, &mut sources, home, notes)
}

/// The replica as it was when so many operations were accepted, where it made none since.
fn past_of(alloc: Global, replica: &Replica, count: u32) -> Result<Replica, Refusal>
    ensures past { IfOk result (λ past. past ≡ replica_at count replica.now) }
    ensures ready { IfOk result CanTake }
    ensures may { OnOk result (moment_refusal count replica.now ≡ None) }
    ensures err { IfErr result (λ why. (why ≡ NoMemoryFound) ⊎ (moment_refusal count replica.now ≡ Some why)) }
{
    let Some(past) = front(alloc, replica, count as usize)? else {
        return Err(Refusal::NoMoment(count));
    };
    if !have_same_next(replica, &past) {
        past.discard();
        return Err(Refusal::OwnSince(count));
    }
    Ok(past)
}

/// Whether the next operations of two replicas would have the same counter.
fn have_same_next(one: &Replica, other: &Replica) -> bool
    ensures { result ≡ same_next one.now other.now }
{
    next_of(one) == next_of(other)
}

/// The counter of the replica's next operation.
fn next_of(replica: &Replica) -> u64
    ensures { result ≡ next_of_own replica.now }
{
    match replica.greatest_counter() {
        Some(greatest) => u64::from(greatest) + 1,
        None => 0,
    }
}

/// Takes what was made on the replica as it was into the whole, and leaves the former in its place: what was made stands
/// last there.
fn bring(
    alloc: Global,
    replica: &mut Replica,
    past: Replica,
    given: Result<Revised, Refusal>,
) -> Result<Revised, Refusal>
    requires settled { IsSettled replica.old.held }
    ensures brings { BringsRevision replica.old replica.new past given result }
{
    match given {
        Ok(revised) => {
            let taken = take_made(alloc, replica, last_of(&past, revised.made));
            match taken {
                Ok(()) => {
                    replace(replica, past).discard();
                    Ok(revised)
                }
                Err(why) => {
                    past.discard();
                    Err(why)
                }
            }
        }
        Err(why) => {
            past.discard();
            Err(refusal_of_whole(replica, why))
        }
    }
}

/// A refusal as it is reported of the whole.
fn refusal_of_whole(replica: &Replica, why: Refusal) -> Refusal
    ensures { result ≡ reported_of replica.now why }
{
    match why {
        Refusal::TooMany(_) => too_many(replica),
        other => other,
    }
}

/// Takes copies of the operations in.
fn take_made(alloc: Global, replica: &mut Replica, ops: OpSlice<'_>) -> Result<(), Refusal>
    requires settled { IsSettled replica.old.held }
    ensures ok { OnOk result (MeetsNoLimit replica.old.hold replica.old.most replica.old.held ops.entry) }
    ensures err { IfErr result (λ why. FindsNoRoom why replica.old ops.entry) }
{
    let full = too_many(replica);
    match take_all(alloc, replica, ops) {
        Ok(()) => Ok(()),
        Err(FeedFault::TooMany(_)) => Err(full),
        Err(FeedFault::NoMemory) => Err(Refusal::NoMemory),
    }
}

/// The same, where one that finds no place is reported by the replica.
fn take_all(alloc: Global, replica: &mut Replica, ops: OpSlice<'_>) -> Result<(), FeedFault>
    requires settled { IsSettled replica.old.held }
    ensures ok { OnOk result (MeetsNoLimit replica.old.hold replica.old.most replica.old.held ops.entry) }
    ensures err { IfErr result (λ fault. HasNoPlaceFor fault replica.old ops.entry) }
{
    let mut rest = ops;
    'ops: while let Some(op) = rest.next_op() {
        take_copy(alloc, replica, &op)?;
    }
    Ok(())
}

/// Takes a copy of the operation in.
fn take_copy(alloc: Global, replica: &mut Replica, op: &OpRef<'_>) -> Result<(), FeedFault>
    requires settled { IsSettled replica.old.held }
    ensures ok { OnOk result (replica.new ≡ record replica.old {
      held = intake replica.old.hold replica.old.most replica.old.held (op_of op.now);
    }) }
    ensures place { OnOk result (answer replica.old.hold replica.old.most replica.old.held (op_of op.now) ≢ AnswersTooMany) }
    ensures settled { OnOk result (IsSettled replica.new.held) }
    ensures err { IfErr result (λ fault. FeedsNot fault replica.old (op_of op.now)) }
{
    let copy = op.copy_in(alloc)?;
    let mut tally = Tally::default();
    replica.feed(copy, &mut tally)?;
    Ok(())
}
