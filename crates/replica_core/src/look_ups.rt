//! What a replica shows, and what it holds.
ghost use Rattle.std.specs.Prelude.{◌≡◌, drop, length, option_and_then, option_copied, option_map, slice_get, string_bytes, IfOk, IfSome};
ghost use Rattle.std.specs.Str.{encode_utf8_all};
ghost use Rattle.op_runs.specs.Finding.{op_of};
ghost use Rattle.origin_model.specs.operations.History.{accepted as accepted_list, holder as holder_on, holds as holds_on, is_own};
ghost use Rattle.origin_model.specs.order.Printed.{is_withdrawn as withdrawn_in, shown, text as text_on};
ghost use Rattle.origin_model.specs.declared.operations.Place.TheVariants.{Catalogue as catalogue, Section as within};
ghost use Rattle.replica_core.specs.Index.{if_section_or_note, newest_position, section_or_note_at, sections_and_notes as positions_in};
ghost use Rattle.run_store.specs.Cells.{cell_text};
ghost use Rattle.section_catalogue.specs.Manuscript.{IsOrderedPlace, IsTextOf, LookUpsAgree, Represents};
ghost use Rattle.origin_model.specs.edits.Refusal.{section_shown};
ghost use Rattle.origin_model.specs.edits.State.{IsSound};

use crate::Replica;
use fugue_ids::{ElementId, NoMemory, Op};
use op_runs::{OpRef, OpSlice};
use origin_model::Lookup;
use outer_ports::MemSink;
use section_catalogue::Manuscript;
use section_list::SectionList;
use std::alloc::Global;

/// A section that is shown, with its elements.
#[derive(Drop)]
pub(crate) struct ShownSection<'a> {
    pub id: ElementId,
    pub text: &'a SectionList,
}

impl Replica {
    /// The sections, hidden ones too.
    pub(crate) fn catalogue(&self) -> &SectionList
        ensures catalogue { IsOrderedPlace catalogue self.now.held.history result.now }
        ensures sound { IsSound self.now }
    {
        self.inner.accepted.catalogue()
    }

    /// The section with so many shown ones before it that is shown itself.
    pub(crate) fn shown_section(&self, section: usize) -> Option<ShownSection<'_>>
        ensures id { option_map (λ s. s.id) result ≡ section_shown self.now section }
        ensures text { IfSome result (λ s. IsTextOf s.id self.now.held.history s.text.now) }
        ensures sound { IsSound self.now }
    {
        self.inner.accepted.section(section)
    }

    /// All places: the list of each, hidden elements too, is its order.
    pub fn places(&self) -> &Manuscript
        ensures places { Represents result.now self.now.held.history }
        ensures lists { LookUpsAgree result.now self.now.held.history }
        ensures sound { IsSound self.now }
    {
        self.inner.accepted.places()
    }

    /// Whether an accepted operation has the identifier.
    pub fn holds(&self, id: ElementId) -> bool
        ensures holds { result ≡ holds_on self.now.held.history id }
        ensures sound { IsSound self.now }
    {
        self.inner.accepted.holds(id)
    }

    /// How many operations were accepted before the one that has the identifier.
    pub fn position(&self, id: ElementId) -> Option<usize>
        ensures position { result ≡ newest_position (is_own id) self.now.held.history }
        ensures sound { IsSound self.now }
    {
        self.inner.accepted.position(id)
    }

    /// The positions of the Sections and Notes among the accepted operations, ascending. Where letters are many and these
    /// are few, all of them are found without a walk over the letters.
    pub fn sections_and_notes(&self) -> &[usize]
        ensures positions { result.now ≡ positions_in self.now.held.history }
        ensures sound { IsSound self.now }
    {
        self.inner.accepted.sections_and_notes()
    }

    /// The Section or Note that was accepted after so many operations: None where another operation stands there, or
    /// none.
    pub fn section_or_note(&self, position: usize) -> Option<&Op>
        ensures found { option_copied result ≡ section_or_note_at (accepted_list self.now.held.history) position }
        ensures sound { IsSound self.now }
    {
        match self.inner.accepted.get(position) {
            Some(OpRef::Whole(op)) => section_or_note(op),
            _ => None,
        }
    }

    /// The operation that was accepted after so many others.
    pub fn operation(&self, position: usize) -> Option<OpRef<'_>>
        ensures operation { option_map op_of result ≡ slice_get (accepted_list self.now.held.history) position }
        ensures sound { IsSound self.now }
    {
        self.inner.accepted.get(position)
    }

    /// The operations that were accepted after so many others, in order.
    pub fn accepted_from(&self, position: usize) -> OpSlice<'_>
        ensures operations { result ≡ drop position (accepted_list self.now.held.history) }
        ensures sound { IsSound self.now }
    {
        self.inner.accepted.from(position)
    }

    /// The accepted operation that has the identifier.
    pub fn holder(&self, id: ElementId) -> Option<OpRef<'_>>
        ensures holder { option_map op_of result ≡ holder_on self.now.held.history id }
        ensures sound { IsSound self.now }
    {
        self.inner.accepted.holder(id)
    }

    /// Whether an accepted Delete names the note.
    pub fn is_withdrawn(&self, note: ElementId) -> bool
        ensures withdrawn { result ≡ withdrawn_in self.now.held.history note }
        ensures sound { IsSound self.now }
    {
        self.inner.accepted.has_delete(note)
    }

    /// How many sections are shown.
    pub fn section_count(&self) -> usize
        ensures count { result ≡ length (shown catalogue self.now.held.history) }
        ensures sound { IsSound self.now }
    {
        self.inner.accepted.section_count()
    }

    /// How many scalars are shown of the section with so many shown ones before it.
    pub fn text_len(&self, section: usize) -> Option<usize>
        ensures len { result ≡ option_map (λ s. length (text_on self.now.held.history s))
            (section_shown self.now section) }
        ensures sound { IsSound self.now }
    {
        match self.shown_section(section) {
            Some(section) => Some(section.text.visible_count()),
            None => None,
        }
    }

    /// The element of the scalar with so many shown ones before it, in the section with so many shown ones before it.
    pub fn scalar_at(&self, section: usize, at: usize) -> Option<ElementId>
        ensures scalar { result ≡ option_and_then (λ s. slice_get (shown (within s) self.now.held.history) at)
            (section_shown self.now section) }
        ensures sound { IsSound self.now }
    {
        match self.shown_section(section) {
            Some(section) => section.text.nth_visible(at),
            None => None,
        }
    }

    /// What is shown of the section with so many shown ones before it.
    pub fn text_of(&self, section: usize) -> Result<Option<String>, NoMemory>
        ensures text { IfOk result (λ text. option_map (λ t. string_bytes t) text
            ≡ option_map (λ s. encode_utf8_all (text_on self.now.held.history s)) (section_shown self.now section)) }
        ensures none { section_shown self.now section ≡ None → result ≡ Ok None }
        ensures sound { IsSound self.now }
    {
        match self.shown_section(section) {
            Some(section) => Ok(Some(shown_text(self.inner.alloc, section.text)?)),
            None => Ok(None),
        }
    }
}

/// The operation, where it is a Section or a Note.
fn section_or_note(op: &Op) -> Option<&Op>
    ensures { option_copied result ≡ if_section_or_note op.now }
{
    match op {
        Op::Section { .. } | Op::Note { .. } => Some(op),
        Op::Text { .. } | Op::Delete { .. } => None,
    }
}

/// The scalars that are not hidden, in order.
fn shown_text(alloc: Global, place: &SectionList) -> Result<String, NoMemory>
    ensures { IfOk result (λ text. string_bytes text ≡ encode_utf8_all (cell_text place.now.cells)) }
{
    let mut sink = MemSink::new(alloc, usize::MAX, Vec::new(alloc));
    let Ok(()) = place.write_text(&mut sink) else {
        return Err(NoMemory);
    };
    // Scalars are written in UTF-8, so nothing but memory runs out.
    match std::str::from_utf8(sink.written()) {
        Ok(text) => Ok(String::from_str(alloc, text)?),
        Err(_) => Err(NoMemory),
    }
}
