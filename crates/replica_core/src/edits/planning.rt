//! What an edit makes, decided before it changes anything.
ghost use Rattle.std.specs.Prelude.{◌≡◌, ◌∷◌, [], None, Some, IfErr, IfOk, OnOk, length, ◌≤◌, ◌+◌, ◌^◌, ◌<◌, drop, take};
ghost use Rattle.std.specs.Prelude.{vec_len, IsTrue, OnErr, ◌↔◌, IfSome};
ghost use Rattle.std.specs.Str.{chars};
ghost use Rattle.origin_model.specs.edits.Edits.{Put, Cut, Add, DropSection, deletes_of, in_front};
ghost use Rattle.origin_model.specs.edits.Noting.{note_by, note_refusal};
ghost use Rattle.origin_model.specs.edits.Refusal.{made_by, refusal_message};
ghost use Rattle.replica_core.specs.Deleting.{AreWithin};
ghost use Rattle.replica_core.specs.Edits.{IsCauseOf, typed_at};
ghost use Rattle.origin_model.specs.edits.State.{IsSound};
ghost use Rattle.run_store.specs.Cells.{cell_ids, cells_shown};
ghost use Rattle.origin_model.specs.edits.Landing.{following};

use crate::{EditFault, Replica};
use fugue_ids::{Body, ElementId, NoMemory, NoteNames, Op, Title};
use section_list::{SectionList, Shown};
use std::alloc::Global;

/// Where a text comes in: the section, the origins of its first element, the counter of that, and how many
/// elements there are.
#[derive(Clone, Copy)]
pub(crate) struct TextSpot {
    pub section: ElementId,
    pub left: Option<ElementId>,
    pub right: Option<ElementId>,
    pub counter: u64,
    pub count: u32,
}

/// The elements of a section that a cut deletes.
#[derive(Drop)]
pub(crate) struct Targets {
    pub section: ElementId,
    pub ids: Vec<ElementId>,
}

/// How many scalars a text has.
fn scalar_count(text: &str) -> usize
    ensures { result ≡ length (chars text.now) }
{
    text.chars().count()
}

impl Replica {
    /// Where a put inserts its text.
    pub(crate) fn text_spot(
        &self,
        section: usize,
        at: usize,
        text: &str,
    ) -> Result<TextSpot, EditFault>
        ensures ok { IfOk result (λ spot. made_by self.now (Put section at (chars text.now))
            ≡ typed_at self.now.number spot (chars text.now)) }
        ensures counters { IfOk result (λ spot. spot.counter + length (chars text.now) ≤ 2 ^ 32) }
        ensures count { IfOk result (λ spot. spot.count ≡ length (chars text.now)) }
        ensures may { OnOk result (refusal_message self.now (Put section at (chars text.now)) ≡ None) }
        ensures err { IfErr result (λ fault. IsCauseOf fault self.now (Put section at (chars text.now))) }
        ensures sound { IsSound self.now }
    {
        let Some(section) = self.shown_section(section) else {
            return Err(EditFault::NoSection);
        };
        let Some(origins) = origins_at(section.text, at) else {
            return Err(EditFault::OutOfRange);
        };
        let count = scalar_count(text);
        let counter = self.check_elements(count)?;
        Ok(TextSpot {
            section: section.id,
            left: origins.left,
            right: origins.right,
            counter,
            count: count as u32,
        })
    }

    /// The elements that a cut deletes.
    pub(crate) fn targets(&self, section: usize, at: usize, n: usize) -> Result<Targets, EditFault>
        ensures ok { IfOk result (λ targets. made_by self.now (Cut section at n) ≡ deletes_of targets.ids.items) }
        ensures within { IfOk result
            (λ targets. AreWithin targets.section self.now.held.history targets.ids.items) }
        ensures may { OnOk result (refusal_message self.now (Cut section at n) ≡ None) }
        ensures err { IfErr result (λ fault. IsCauseOf fault self.now (Cut section at n)) }
        ensures sound { IsSound self.now }
    {
        let Some(section) = self.shown_section(section) else {
            return Err(EditFault::NoSection);
        };
        if !has_part(section.text.visible_count(), at, n) {
            return Err(EditFault::OutOfRange);
        }
        self.check_room(n)?;
        Ok(Targets {
            section: section.id,
            ids: shown_part(self.inner.alloc, section.text, at, n)?,
        })
    }

    /// The new section.
    pub(crate) fn section_op(&self, at: usize, title: Title) -> Result<Op, EditFault>
        ensures ok { IfOk result (λ op. made_by self.now (Add at title) ≡ op ∷ []) }
        ensures may { OnOk result (refusal_message self.now (Add at title) ≡ None) }
        ensures err { IfErr result (λ fault. IsCauseOf fault self.now (Add at title)) }
        ensures sound { IsSound self.now }
    {
        let Some(origins) = origins_at(self.catalogue(), at) else {
            return Err(EditFault::OutOfRange);
        };
        let counter = self.check_elements(1)?;
        Ok(Op::Section {
            id: self.own_id(counter),
            left: origins.left,
            right: origins.right,
            title,
        })
    }

    /// The Delete of a section.
    pub(crate) fn drop_op(&self, section: usize) -> Result<Op, EditFault>
        ensures ok { IfOk result (λ op. made_by self.now (DropSection section) ≡ op ∷ []) }
        ensures may { OnOk result (refusal_message self.now (DropSection section) ≡ None) }
        ensures err { IfErr result (λ fault. IsCauseOf fault self.now (DropSection section)) }
        ensures sound { IsSound self.now }
    {
        let Some(section) = self.shown_section(section) else {
            return Err(EditFault::NoSection);
        };
        self.check_room(1)?;
        Ok(Op::Delete { target: section.id })
    }

    /// The new note.
    pub(crate) fn note_op(&self, names: NoteNames, code: u8, body: Body) -> Result<Op, EditFault>
        ensures ok { IfOk result (λ op. op ≡ note_by self.now names code body) }
        ensures may { OnOk result (note_refusal self.now ≡ None) }
        ensures err { IfErr result (λ fault. note_refusal self.now ≡ Some fault) }
        ensures sound { IsSound self.now }
    {
        let counter = self.check_elements(1)?;
        Ok(Op::Note {
            id: self.own_id(counter),
            names,
            code,
            body,
        })
    }
}

/// Whether `n` of `count` members stand from the position on.
pub(crate) fn has_part(count: usize, at: usize, n: usize) -> bool
    ensures { IsTrue result ↔ (at + n ≤ count) }
{
    match count.checked_sub(at) {
        Some(rest) => n <= rest,
        None => false,
    }
}

/// The `n` shown elements from the position on.
pub(crate) fn shown_part(
    alloc: Global,
    place: &SectionList,
    at: usize,
    n: usize,
) -> Result<Vec<ElementId>, NoMemory>
    requires { at + n ≤ length (cells_shown place.now.cells) }
    ensures part { IfOk result
        (λ part. part.items ≡ take n (drop at (cell_ids (cells_shown place.now.cells)))) }
    ensures some { OnErr result (0 < n) }
{
    gather(alloc, &mut place.shown_from(at), n)
}

/// The next `count` shown elements.
fn gather(alloc: Global, walk: &mut Shown, count: usize) -> Result<Vec<ElementId>, NoMemory>
    requires { count ≤ length walk.old }
    ensures part { IfOk result (λ part. part.items ≡ take count walk.old) }
    ensures some { OnErr result (0 < count) }
{
    let mut part = Vec::new(alloc);
    'taken: for _ in 0..count {
        part.push(walk.step().unwrap())?;
    }
    Ok(part)
}

/// The origins of a new element: it goes after the left one and before the right one.
#[derive(Clone, Copy)]
pub(crate) struct Origins {
    pub left: Option<ElementId>,
    pub right: Option<ElementId>,
}

/// The origins of an element that comes before the shown one at the position, or after all of them: the right one is
/// the next of all elements, hidden or not. There are none for a position after the end.
pub(crate) fn origins_at(place: &SectionList, at: usize) -> Option<Origins>
    ensures behind { result ≡ None → length (cells_shown place.now.cells) < at }
    ensures inside { IfSome result (λ o. at ≤ length (cells_shown place.now.cells)) }
    ensures left { IfSome result (λ o. o.left ≡ in_front (cell_ids (cells_shown place.now.cells)) at) }
    ensures right { IfSome result (λ o. o.right ≡ following (cell_ids place.now.cells) o.left) }
{
    if at > place.visible_count() {
        return None;
    }
    let left = left_of(place, at);
    let right = right_of(place, &left);
    Some(Origins { left, right })
}

/// The shown element in front of the position.
fn left_of(place: &SectionList, at: usize) -> Option<ElementId>
    ensures { result ≡ in_front (cell_ids (cells_shown place.now.cells)) at }
{
    match at.checked_sub(1) {
        Some(last) => place.nth_visible(last),
        None => None,
    }
}

/// The element after the left origin.
fn right_of(place: &SectionList, left: &Option<ElementId>) -> Option<ElementId>
    ensures { result ≡ following (cell_ids place.now.cells) left.now }
{
    place.after(*left)
}
