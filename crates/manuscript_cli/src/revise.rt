//! The command `revise`: a draft is what the replica comes to show.
ghost use Rattle.std.specs.Prelude.{◌≡◌, ◌≢◌, ◌↔◌, ℕ, Ok, None, IfErr, IfOk, IsTrue, OnOk, Option, false, List};
ghost use Rattle.fugue_ids.specs.declared.op.Op.{Op};
ghost use Rattle.origin_model.specs.edits.Refusal.{held_count};
ghost use Rattle.origin_model.specs.edits.State.{IsSound};
ghost use Rattle.catalogue_notes.specs.Arranged.{arranged_text};
ghost use Rattle.draft_plan.specs.Drafts.{Part, parts};
ghost use Rattle.replica_file.specs.Loading.{CanTake};
ghost use Rattle.replica_file.specs.Looks.{LooksOnly};
ghost use Rattle.manuscript_cli.specs.Revising.{BaseStops, HasBytes, IsRevisedTo, LooksAtBase, TextStops};
ghost use Rattle.manuscript_cli.specs.Revising.{base_refusal, empties, is_too_large, parts_fault_refusal, revise_refusal, revision};
ghost use Rattle.manuscript_cli.specs.RevisingSince.{noted_revision};
ghost use Rattle.command_kinds.specs.Findings.{Finding};
ghost use Rattle.command_kinds.specs.Giving.{GivesTo, MayEnd};
ghost use Rattle.command_kinds.specs.declared.status.Status.{Status as AnyStatus};
ghost use Rattle.command_kinds.specs.Files.{FileRefuses};
ghost use Rattle.command_kinds.specs.Saving.{Outcome, ReadsInput, SavesGiven};
ghost use Rattle.command_kinds.specs.Changes.{IsSpecified, change};
ghost use Rattle.command_kinds.specs.declared.refusal.Refusal.{Refusal as AnyRefusal};
ghost use Rattle.command_kinds.specs.declared.refusal.Refusal.TheVariants.{Outside, TooMany};

use crate::check::read_text;
use crate::draft_size;
use crate::section_counts::section_counts;
use catalogue_notes::{MoveFault, write_arranged};
use command_kinds::{Gives, Kept, Note, Refusal, SectionCounts, Status, save_given};
use draft_plan::{Draft, DraftFault, ReviseFault, arranged_reads, first_difference, revise};
use fugue_ids::{BUFFER, NoMemory};
use origin_model::EditFault;
use outer_ports::{Disk, MemSink, Sink, Source};
use replica_core::Replica;
use replica_file::read_piece;
use std::alloc::Global;

/// The draft on the input.
struct Revision;

/// What a draft is taken from: the file with the text that it was written from, and the input.
#[derive(Drop)]
pub(crate) struct DraftSources<'a, G, S> {
    pub base: &'a mut G,
    pub draft: &'a mut S,
}

impl<'a, G: Disk, S: Source> Gives<DraftSources<'a, G, S>> for Revision {
    ghost ops_source = { λ what home before after finding. revision
        (change (G.seen before.base.now) (G.seen after.base.now))
        (change (S.seen before.draft.now) (S.seen after.draft.now)) finding };

    // The references stay the same.
    ghost Leaves = { λ what home before after end.
        (after.base.ghost_name ≡ before.base.ghost_name)
        × (after.draft.ghost_name ≡ before.draft.ghost_name)
        × LooksAtBase (change (G.seen before.base.now) (G.seen after.base.now)) end
        × ReadsInput (S.seen before.draft.now) (S.seen after.draft.now) end };

    fn give(
        &self,
        alloc: Global,
        from: &mut DraftSources<'a, G, S>,
        replica: &mut Replica,
        _kept: &mut Kept,
    ) -> Result<Note, Refusal> {
        let revised = revise_by(alloc, from.base, from.draft, replica)?;
        Ok(Note::Revised(revised.made, revised.sections))
    }

    fn laws(&self) {}
}

/// Revises the replica of the home file until it shows the draft on the input, and saves the operations that took. The
/// other file has the text that the draft was written from.
pub(crate) fn revise_file<S: Source, N: Sink, H: Disk, G: Disk>(
    alloc: Global,
    input: &mut S,
    home: &mut H,
    base: &mut G,
    notes: &mut N,
) -> Status
    ensures saves { (finding : Finding Outcome)
        × SavesGiven (revision (change (G.seen base.old) (G.seen base.new)) (change (S.seen input.old) (S.seen input.new))
        finding) (change (H.seen home.old) (H.seen home.new)) (change (N.seen notes.old) (N.seen notes.new)) result }
    ensures looks { LooksAtBase (change (G.seen base.old) (G.seen base.new)) result }
    ensures reads { ReadsInput (S.seen input.old) (S.seen input.new) result }
    ensures unused { IsSpecified (H.seen home.old) → (why : AnyRefusal) → FileRefuses (H.seen home.old) why
        → (S.seen input.new ≡ S.seen input.old) × (G.seen base.new ≡ G.seen base.old) }
{
    let mut sources = DraftSources { base, draft: input };
    save_given(alloc, &Revision, &mut sources, home, notes)
}

/// How many operations a draft took, and how many of them were made on sections.
#[derive(Clone, Copy)]
pub(crate) struct Revised {
    pub made: u32,
    pub sections: SectionCounts,
}

impl Revised {
    /// Nothing was made.
    const NOTHING: Revised = Revised {
        made: 0,
        sections: SectionCounts {
            added: 0,
            dropped: 0,
            moved: 0,
            retitled: 0,
        },
    };
}

/// Revises the replica until it shows the draft, where the other file has what it shows.
pub(crate) fn revise_by<G: Disk, S: Source>(
    alloc: Global,
    base: &mut G,
    draft: &mut S,
    replica: &mut Replica,
) -> Result<Revised, Refusal>
    requires ready { CanTake replica.old }
    ensures gives { (kept : Option (List Op)) → (finding : Finding Outcome)
        × GivesTo (revision (change (G.seen base.old) (G.seen base.new)) (change (S.seen draft.old) (S.seen draft.new))
        finding) replica.old replica.new kept (noted_revision result) }
    ensures looks { (end : AnyStatus) → MayEnd (noted_revision result) end
        → LooksAtBase (change (G.seen base.old) (G.seen base.new)) end }
    ensures reads { (end : AnyStatus) → MayEnd (noted_revision result) end
        → ReadsInput (S.seen draft.old) (S.seen draft.new) end }
    ensures sound { OnOk result (IsSound replica.new) }
{
    let shown = check_base(alloc, replica, base)?;
    let text = read_text(alloc, draft)?;
    let draft = text.as_slice();
    if is_same(shown.written(), draft) {
        return Ok(Revised::NOTHING);
    }
    let before = replica.accepted().len();
    let made = revise_to(alloc, replica, draft)?;
    let sections = section_counts(replica, before);
    Ok(Revised { made, sections })
}

/// What the replica shows as it is arranged.
fn shown_text(alloc: Global, replica: &Replica) -> Result<MemSink, NoMemory>
    ensures { IfOk result (λ text. text.written ≡ arranged_text replica.now.held.history) }
{
    let mut text = MemSink::new(alloc, BUFFER, Vec::new(alloc));
    match write_arranged(alloc, replica, &mut text) {
        Ok(()) => Ok(text),
        Err(_) => Err(NoMemory),
    }
}

/// What the replica shows, where a file has that. No more of the file is read than that takes.
fn check_base<G: Disk>(alloc: Global, replica: &Replica, base: &mut G) -> Result<MemSink, Refusal>
    ensures shown { IfOk result (λ shown. shown.written ≡ arranged_text replica.now.held.history) }
    ensures ok { OnOk result ((bytes : List ℕ) × HasBytes (G.seen base.old) bytes
        × (base_refusal replica.now.held.history bytes ≡ None)) }
    ensures err { IfErr result (λ why. BaseStops why (G.seen base.old) replica.now.held.history) }
    ensures looks { LooksOnly (G.seen base.old) (G.seen base.new) (result ≡ Err Outside) }
{
    let text = shown_text(alloc, replica)?;
    let shown = text.written();
    let bytes = read_piece(alloc, base, 0, shown.len() + 1)?;
    if let Some(at) = first_difference(shown, &bytes) {
        return Err(Refusal::BaseDiffers(at as u64));
    }
    Ok(text)
}

fn is_same(shown: &[u8], text: &[u8]) -> bool
    ensures { IsTrue result ↔ (text.now ≡ shown.now) }
{
    text == shown
}

/// Whether the draft has nothing, and sections are shown.
fn drops_all(replica: &Replica, draft: &Draft<'_>) -> bool
    ensures drops { result ≡ empties replica.now.held.history draft.now }
    ensures sound { IsSound replica.now }
{
    let shown = replica.section_count();
    draft.parts().is_empty() && shown > 0
}

/// Revises the replica until it shows the draft that the bytes are. Answers how many operations that took.
fn revise_to(alloc: Global, replica: &mut Replica, text: &[u8]) -> Result<u32, Refusal>
    requires ready { CanTake replica.old }
    requires other { text.now ≢ arranged_text replica.old.held.history }
    ensures made { IfOk result (λ n. (ps : List Part) × (parts text.now ≡ Ok ps)
        × (empties replica.old.held.history ps ≡ false) × (is_too_large ps ≡ false)
        × IsRevisedTo replica.old replica.new ps n) }
    ensures err { IfErr result (λ why. TextStops why replica.old text.now) }
{
    // What is printed then is the draft in its form by this law.
    arranged_reads();
    let draft = Draft::read(alloc, text).map_err(refusal_of_draft)?;
    if drops_all(replica, &draft) {
        return Err(Refusal::EmptyDraft);
    }
    if draft_size::is_too_large(draft.parts()) {
        return Err(too_many(replica));
    }
    let made = revise(alloc, replica, &draft).map_err(refusal_of_limit)?;
    Ok(made)
}

/// No operation more has a place.
pub(crate) fn too_many(replica: &Replica) -> Refusal
    ensures { result ≡ TooMany (held_count replica.now) }
{
    let held = replica.accepted().len() + replica.waiting().len();
    Refusal::TooMany(held as u32)
}

/// The refusal that a fault of a draft is.
fn refusal_of_draft(fault: DraftFault) -> Refusal
    ensures { result ≡ parts_fault_refusal fault }
{
    match fault {
        DraftFault::BadDraft(line) => Refusal::BadDraft(line as u64),
        DraftFault::NoMemory => Refusal::NoMemory,
    }
}

/// The refusal that a fault on the way to a draft is.
fn refusal_of_limit(fault: ReviseFault) -> Refusal
    ensures { result ≡ revise_refusal fault }
{
    match fault {
        ReviseFault::Edit(EditFault::IdsSpent(count)) => Refusal::IdsSpent(count),
        ReviseFault::Edit(EditFault::TooMany(count)) => Refusal::TooMany(count),
        ReviseFault::Edit(_) => Refusal::NoMemory,
        ReviseFault::Move(MoveFault::StampsSpent) => Refusal::StampsSpent,
        ReviseFault::Move(MoveFault::IdsSpent(count)) => Refusal::IdsSpent(count),
        ReviseFault::Move(MoveFault::TooMany(count)) => Refusal::TooMany(count),
        ReviseFault::Move(_) => Refusal::NoMemory,
    }
}
