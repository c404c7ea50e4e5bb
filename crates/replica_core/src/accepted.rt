//! The applied operations, with the manuscript that they make and the notes that were deleted.
ghost use Rattle.std.specs.Prelude.{◌≡◌, ◌<◌, ◌≤◌, ◌+◌, ◌^◌, ◌∷◌, [], drop, length, option_map, slice_get, All, IfErr, IfNone, IfSome, IsSome, None, IsTrue, OnErr, OnOk, take, true, ◌↔◌};
ghost use Rattle.std.specs.FinMap.{get};
ghost use Rattle.fugue_ids.specs.Outs.{WritesBytes};
ghost use Rattle.fugue_ids.specs.Runs.{run_from};
ghost use Rattle.fugue_ids.specs.declared.op.Op.TheVariants.{Delete as DeleteOf};
ghost use Rattle.op_runs.specs.Finding.{op_of};
ghost use Rattle.op_runs.specs.Parts.{IsOther};
ghost use Rattle.op_runs.specs.Deletions.{deletes_up};
ghost use Rattle.origin_model.specs.edits.Edits.{ReadyInTurn, history_with};
ghost use Rattle.origin_model.specs.operations.History.{accepted as accepted_list, has_op, holder as holder_on, holds as holds_on, is_own, place as place_in};
ghost use Rattle.origin_model.specs.operations.Counters.{counters, IsGreatest};
ghost use Rattle.origin_model.specs.order.Printed.{manuscript as manuscript_on, shown};
ghost use Rattle.origin_model.specs.operations.Verdict.{verdict as verdict_on, Lawful};
ghost use Rattle.origin_model.specs.declared.operations.Place.TheVariants.{Catalogue as catalogue};
ghost use Rattle.origin_model.specs.declared.operations.Verdict.TheVariants.{Ready};
ghost use Rattle.replica_core.specs.Deleting.{AreWithin, ids_from};
ghost use Rattle.replica_core.specs.Due.{newest_id as newest_id_of};
ghost use Rattle.replica_core.specs.Feeding.{AreUnheld};
ghost use Rattle.replica_core.specs.Index.{newest_position, sections_and_notes as positions_in};
ghost use Rattle.replica_core.specs.Withdrawn.{StandsIn, WithdrawsBy};
ghost use Rattle.section_catalogue.specs.Contents.{place_at, place_count};
ghost use Rattle.section_catalogue.specs.Manuscript.{GrowsBy, IsOrderedPlace, IsReadyOn, IsTextOf, Represents, RepresentsSame};
ghost use Rattle.section_catalogue.specs.Place.{place_held};

use crate::history::History;
use crate::look_ups::ShownSection;
use fugue_ids::{ElementId, Failed, MOST_OPERATIONS, NoMemory, Op, RunStart, read_text};
use op_runs::{OpRef, OpSlice};
use origin_model::{Lookup, NoMemoryFor, Place, Role, Verdict, fits_at, verdict_in};
use outer_ports::Sink;
use section_catalogue::Manuscript;
use section_list::{SectionList, StoppedAfter};
use std::alloc::Global;
use std::marker::Model;
use stretch_map::{Same, StretchMap};

/// The value of each withdrawn note in their map: only whether there is one is read. It is the same for all, so that notes
/// whose identifiers follow one another are one entry where they are withdrawn in that order.
const MARK: Same = Same {
    of: ElementId {
        replica: 1,
        counter: 0,
    },
};

/// The accepted operations and the manuscript that they make. They are seen as the list of them, the newest first.
#[derive(Drop)]
pub(crate) struct Accepted {
    history: History,
    manuscript: Manuscript,
    /// The notes that a Delete names. A deleted element is marked where it stands, and a note stands in no place.
    withdrawn: StretchMap<Same>,
}

impl Model for Accepted {
    ghost use Rattle.std.specs.Prelude.{List};
    ghost use Rattle.fugue_ids.specs.declared.op.Op.{Op};
    ghost use Rattle.replica_core.specs.Withdrawn.{HasWithdrawn};
    ghost use Rattle.section_catalogue.specs.Manuscript.{Represents};

    ghost Value = { List Op };

    ghost view = { λ accepted. accepted.history };

    ghost invariant = { λ accepted. record {
      represents : Represents accepted.manuscript accepted.history;
      withdrawn_are : HasWithdrawn accepted.withdrawn.values accepted.history;
    } };
}

/// Takes an operation that stands in a place and is Ready into the manuscript. After an allocation failure that is as
/// before.
fn take_in(manuscript: &mut Manuscript, op: &OpRef<'_>) -> Result<(), NoMemory>
    requires placed { IsSome (place_in (op_of op.now)) }
    requires ready { IsReadyOn manuscript.old (op_of op.now) }
    requires room { place_count manuscript.old (op_of op.now) < MOST_OPERATIONS }
    ensures ok { OnOk result (GrowsBy manuscript.old manuscript.new (op_of op.now)) }
    ensures err { OnErr result (RepresentsSame manuscript.old manuscript.new) }
{
    match op {
        OpRef::Letter(start, ch) => manuscript.insert(&start.text(*ch)),
        OpRef::Deletion(_target) => Ok(()),
        OpRef::Whole(op) => manuscript.insert(op),
    }
}

/// Takes in a Delete that is Ready: an element is hidden in its place, and a note, which stands in none, joins the
/// withdrawn ones. After an allocation failure all is as before.
fn take_in_delete(
    manuscript: &mut Manuscript,
    withdrawn: &mut StretchMap<Same>,
    target: ElementId,
) -> Result<(), NoMemory>
    requires ready { IsReadyOn manuscript.old (DeleteOf target) }
    requires free { place_at manuscript.old target ≡ None → get withdrawn.old.values target ≡ None }
    ensures ok { OnOk result (GrowsBy manuscript.old manuscript.new (DeleteOf target)) }
    ensures ok_withdrawn { OnOk result (WithdrawsBy manuscript.old withdrawn.old.values withdrawn.new.values target) }
    ensures err { OnErr result (RepresentsSame manuscript.old manuscript.new) }
    ensures err_withdrawn { OnErr result (withdrawn.new ≡ withdrawn.old) }
{
    match manuscript.place_of(target) {
        Some(_) => manuscript.hide(target),
        None => withdrawn.insert(target, MARK),
    }
}

impl Lookup for Accepted {
    ghost history = { λ accepted. accepted };

    fn equals(&self, id: ElementId, op: &Op) -> Option<bool> {
        self.history.equals(id, op)
    }

    /// An element that a Delete names is marked where it stands. A note stands in no place.
    fn has_delete(&self, target: ElementId) -> bool {
        match self.list_with(target) {
            Some(list) => list.is_hidden(target),
            None => self.withdrawn.get(target).is_some(),
        }
    }

    /// An element fits by its place, which is found without its operation. What has no place is a note, or is not
    /// there.
    fn fits(&self, id: ElementId, role: Role) -> Option<bool> {
        match self.manuscript.place_of(id) {
            Some(place) => Some(fits_at(role, &place)),
            None => self.history.fits(id, role),
        }
    }
}

impl Accepted {
    pub fn new(alloc: Global) -> Accepted
        ensures { result ≡ [] }
    {
        Accepted {
            history: History::new(alloc),
            manuscript: Manuscript::new(alloc),
            withdrawn: StretchMap::new(alloc),
        }
    }

    /// The accepted operations, the oldest first.
    pub fn ops(&self) -> OpSlice<'_>
        ensures accepted { result ≡ accepted_list self.now }
        ensures lawful { Lawful self.now }
    {
        self.history.ops()
    }

    /// Those that were accepted after so many others.
    pub fn from(&self, position: usize) -> OpSlice<'_>
        ensures { result ≡ drop position (accepted_list self.now) }
    {
        self.history.from(position)
    }

    /// How many there are.
    pub fn len(&self) -> usize
        ensures { result ≡ length self.now }
    {
        self.history.len()
    }

    /// The one that was accepted after so many others.
    pub fn get(&self, position: usize) -> Option<OpRef<'_>>
        ensures { option_map op_of result ≡ slice_get (accepted_list self.now) position }
    {
        self.history.get(position)
    }

    /// The one that has the identifier.
    pub fn holder(&self, id: ElementId) -> Option<OpRef<'_>>
        ensures { option_map op_of result ≡ holder_on self.now id }
    {
        self.history.holder(id)
    }

    /// The identifier of the newest one, where it has one of its own.
    pub fn newest_id(&self) -> Option<ElementId>
        ensures { result ≡ newest_id_of self.now }
    {
        self.history.newest_id()
    }

    /// What an operation is against the accepted ones.
    pub fn verdict(&self, op: &Op) -> Verdict
        ensures { result ≡ verdict_on self.now op.now }
    {
        verdict_in(self, op)
    }

    /// Whether an accepted operation has the identifier.
    pub fn holds(&self, id: ElementId) -> bool
        ensures { result ≡ holds_on self.now id }
    {
        self.history.holds(id)
    }

    /// Whether none of so many identifiers, from this one on, is held.
    pub fn is_free(&self, first: ElementId, count: u32) -> bool
        requires { first.counter + count ≤ 2 ^ 32 }
        ensures { IsTrue result ↔ AreUnheld self.now first count }
    {
        self.history.is_free(first, count)
    }

    /// How many Texts at the front of a run are accepted already, one after the other.
    pub fn repeats(&self, start: &RunStart, text: &[char]) -> usize
        requires { start.now.id.counter + length text.now ≤ 2 ^ 32 }
        ensures within { result ≤ length text.now }
        ensures there { All (λ op. has_op self.now op ≡ true) (run_from start.now (take result text.now)) }
    {
        self.history.repeats(start, text)
    }

    /// How many operations are older than the one that has the identifier.
    pub fn position(&self, id: ElementId) -> Option<usize>
        ensures { result ≡ newest_position (is_own id) self.now }
    {
        self.history.position(id)
    }

    /// The positions of the Sections and Notes, ascending.
    pub fn sections_and_notes(&self) -> &[usize]
        ensures { result.now ≡ positions_in self.now }
    {
        self.history.sections_and_notes()
    }

    /// How many sections are shown.
    pub fn section_count(&self) -> usize
        ensures { result ≡ length (shown catalogue self.now) }
    {
        self.manuscript.section_count()
    }

    /// The sections, hidden ones too.
    pub fn catalogue(&self) -> &SectionList
        ensures { IsOrderedPlace catalogue self.now result.now }
    {
        self.manuscript.catalogue()
    }

    /// The section with k shown ones before it that is shown itself.
    pub fn section(&self, k: usize) -> Option<ShownSection<'_>>
        ensures id { option_map (λ s. s.id) result ≡ slice_get (shown catalogue self.now) k }
        ensures text { IfSome result (λ s. IsTextOf s.id self.now s.text.now) }
    {
        let Some(id) = self.manuscript.section_at(k) else {
            return None;
        };
        let text = self.manuscript.section(id).unwrap();
        Some(ShownSection { id, text })
    }

    /// All places.
    pub fn places(&self) -> &Manuscript
        ensures { Represents result.now self.now }
    {
        &self.manuscript
    }

    /// The list of the place in which the element stands, hidden or not.
    pub fn list_with(&self, id: ElementId) -> Option<&SectionList>
        ensures some { IfSome result (λ list. StandsIn self.now id list.now) }
        ensures none { IfNone result (place_held (holder_on self.now id) ≡ None) }
    {
        match self.manuscript.place_of(id)? {
            Place::Catalogue => Some(self.manuscript.catalogue()),
            Place::Section(section) => self.manuscript.section(section),
        }
    }

    /// Takes in an operation that is Ready.
    pub fn accept(&mut self, op: Op) -> Result<(), NoMemoryFor>
        requires ready { verdict_on self.old op ≡ Ready }
        requires room { length self.old < MOST_OPERATIONS }
        ensures ok { OnOk result (self.new ≡ op ∷ self.old) }
        ensures err { OnErr result (self.new ≡ self.old) }
        ensures op_back { IfErr result (λ e. e.op ≡ op) }
    {
        match &op {
            Op::Text { .. } => {
                let (start, ch) = read_text(&op).unwrap();
                match self.accept_run(&start, &[ch]) {
                    Ok(()) => Ok(()),
                    Err(NoMemory) => Err(NoMemoryFor { op }),
                }
            }
            Op::Delete { target } => match self.accept_delete(*target) {
                Ok(()) => Ok(()),
                Err(NoMemory) => Err(NoMemoryFor { op }),
            },
            Op::Section { .. } => self.accept_section(op),
            // A note stands in no place, so the manuscript stays as it is.
            Op::Note { .. } => self.history.push(op),
        }
    }

    /// Takes in a Delete that is Ready. After an allocation failure all is as before.
    fn accept_delete(&mut self, target: ElementId) -> Result<(), NoMemory>
        requires ready { verdict_on self.old (DeleteOf target) ≡ Ready }
        requires room { length self.old < MOST_OPERATIONS }
        ensures ok { OnOk result (self.new ≡ DeleteOf target ∷ self.old) }
        ensures err { OnErr result (self.new ≡ self.old) }
    {
        // That the counter fits is told where it is read.
        let _counter = target.counter;
        self.history.push_deletes(target, 1)?;
        match take_in_delete(&mut self.manuscript, &mut self.withdrawn, target) {
            Ok(()) => Ok(()),
            Err(NoMemory) => {
                self.history.pop_all(1);
                Err(NoMemory)
            }
        }
    }

    /// Takes in a Section that is Ready.
    #[tactic(auto, using(section_catalogue::proofs::BoundLemmas::places_bounded))]
    fn accept_section(&mut self, op: Op) -> Result<(), NoMemoryFor>
        requires other { IsOther op }
        requires placed { IsSome (place_in op) }
        requires ready { verdict_on self.old op ≡ Ready }
        requires room { length self.old < MOST_OPERATIONS }
        ensures ok { OnOk result (self.new ≡ op ∷ self.old) }
        ensures err { OnErr result (self.new ≡ self.old) }
        ensures op_back { IfErr result (λ e. e.op ≡ op) }
    {
        self.history.push(op)?;
        let Some(newest) = self.history.newest() else {
            return Ok(());
        };
        match take_in(&mut self.manuscript, &newest) {
            Ok(()) => Ok(()),
            Err(NoMemory) => {
                let op = self.history.take_newest().unwrap();
                Err(NoMemoryFor { op })
            }
        }
    }

    /// Takes in a run whose Texts are Ready in their turn, by one call on the places. After an allocation failure all
    /// is as before.
    pub fn accept_run(&mut self, start: &RunStart, text: &[char]) -> Result<(), NoMemory>
        requires some { 0 < length text.now }
        requires counters { start.now.id.counter + length text.now ≤ 2 ^ 32 }
        requires ready { ReadyInTurn self.old (run_from start.now text.now) }
        requires room { length self.old + length text.now ≤ MOST_OPERATIONS }
        ensures ok { OnOk result (self.new ≡ history_with self.old (run_from start.now text.now)) }
        ensures err { OnErr result (self.new ≡ self.old) }
    {
        self.history.push_run(start, text)?;
        match self.manuscript.insert_run(start, text) {
            Ok(()) => Ok(()),
            Err(NoMemory) => {
                self.history.pop_all(text.len());
                Err(NoMemory)
            }
        }
    }

    /// Takes in the Deletes of so many elements of a section, from this identifier on, which are Ready in their turn,
    /// by one call on the places. An allocation failure leaves fewer taken in, and tells how many.
    pub fn accept_deletes(
        &mut self,
        section: &ElementId,
        first: ElementId,
        count: u32,
    ) -> Result<(), StoppedAfter>
        requires some { 0 < count }
        requires counters { first.counter + count ≤ 2 ^ 32 }
        requires room { length self.old + count ≤ MOST_OPERATIONS }
        requires ready { ReadyInTurn self.old (deletes_up first count) }
        requires within { AreWithin section.now self.old (ids_from first count) }
        ensures ok { OnOk result (self.new ≡ history_with self.old (deletes_up first count)) }
        ensures err { IfErr result (λ e. self.new ≡ history_with self.old (deletes_up first e.done)) }
        ensures fewer { IfErr result (λ e. e.done < count) }
    {
        let Ok(()) = self.history.push_deletes(first, count) else {
            return Err(StoppedAfter { done: 0 });
        };
        match self.manuscript.hide_run(section, first, count) {
            Ok(()) => Ok(()),
            Err(stopped) => {
                self.history.pop_all((count - stopped.done) as usize);
                Err(stopped)
            }
        }
    }

    /// The greatest counter of the replica among the identifiers that the operations have or name.
    pub fn greatest(&self, replica: u32) -> Option<u32>
        requires { 0 < replica }
        ensures { IsGreatest (counters replica self.now) result }
    {
        self.history.greatest(replica)
    }

    /// Writes the sections that are shown, each with its title and its text.
    pub fn write_manuscript<O: Sink>(&self, output: &mut O) -> Result<(), Failed>
        ensures { WritesBytes (O.seen output.old) (O.seen output.new) result (manuscript_on self.now) }
    {
        self.manuscript.write_all(output)
    }
}
