//! Elements more, and hidden ones.
ghost use Rattle.std.specs.Prelude.{◌≡◌, ◌<◌, ◌≤◌, ◌+◌, ◌^◌, None, IfErr, IfSome, IsSome, OnErr, OnOk, length, Some, true};
ghost use Rattle.origin_model.specs.sides.Node.{IsNew, has_node};
ghost use Rattle.section_catalogue.specs.Changes.{AddsTyped, AddsSection, AnswersUpTo, AnswersSame, CanFollow, IsUnchanged};
ghost use Rattle.section_catalogue.specs.Changes.{HidesRun, section_with_run, section_with_run_hidden, with_hidden_text};
ghost use Rattle.section_list.specs.SectionList.{AreAllNodes};
ghost use Rattle.section_catalogue.specs.Contents.{contents_of, entry_at, place_at};
ghost use Rattle.fugue_ids.specs.Keyed.{IsReplaced};

use crate::homes::{forget_home, forget_homes, note_home, note_homes};
use crate::tables::{Section, Tables};
use fugue_ids::{ElementId, MOST_OPERATIONS, NoMemory, Title};
use origin_model::{Node, Place};
use section_list::{SectionList, StoppedAfter};
use std::alloc::Global;
use std::collections::BTreeMap;

/// A new section. The maps come first, since they give back what they took after an allocation failure.
pub(crate) fn add_section(
    tables: &mut Tables,
    alloc: Global,
    node: &Node,
    title: &Title,
) -> Result<(), NoMemory>
    requires new { IsNew tables.old.catalogue.nodes node.now }
    requires room { length tables.old.catalogue.cells < MOST_OPERATIONS }
    requires untitled { entry_at tables.old.sections.entries node.now.id ≡ None }
    requires unplaced { place_at (contents_of tables.old) node.now.id ≡ None }
    ensures ok { OnOk result (AddsSection (contents_of tables.old) (contents_of tables.new) node.now title.now) }
    ensures err { OnErr result (IsUnchanged (contents_of tables.old) (contents_of tables.new)) }
{
    let entry = Section {
        title: title.clone_in(alloc)?,
        text: SectionList::new(alloc),
    };
    put(&mut tables.sections, node.id, entry)?;
    if let Err(refused) = note_home(&mut tables.places, node.id, Place::Catalogue) {
        clear(&mut tables.sections, &node.id);
        return Err(refused);
    }
    match tables.catalogue.insert(node.id, node.left, node.right, ' ') {
        Ok(()) => Ok(()),
        Err(refused) => {
            forget_home(&mut tables.places, node.id);
            clear(&mut tables.sections, &node.id);
            Err(refused)
        }
    }
}

/// New elements of a section, one for each letter: the first, and then each typed after the one before it. The places
/// that were noted are forgotten after an allocation failure.
pub(crate) fn add_run(
    tables: &mut Tables,
    section: &ElementId,
    first: &Node,
    text: &[char],
) -> Result<(), NoMemory>
    requires some { 0 < length text.now }
    requires few { length text.now < 2 ^ 32 }
    requires counters { first.now.id.counter + length text.now ≤ 2 ^ 32 }
    requires there { IsSome (entry_at tables.old.sections.entries section.now) }
    requires new { IfSome (entry_at tables.old.sections.entries section.now)
        (λ e. CanFollow e.text.nodes first.now (length text.now)) }
    requires room { IfSome (entry_at tables.old.sections.entries section.now)
        (λ e. length e.text.cells + length text.now ≤ MOST_OPERATIONS) }
    requires unplaced { AnswersUpTo (place_at (contents_of tables.old)) first.now.id (length text.now) None }
    ensures ok { OnOk result (AddsTyped (contents_of tables.old) (contents_of tables.new) section.now first.now text.now) }
    ensures err { OnErr result (IsUnchanged (contents_of tables.old) (contents_of tables.new)) }
{
    let count = text.len() as u32;
    note_homes(
        &mut tables.places,
        first.id,
        count,
        Place::Section(*section),
    )?;
    match insert_text(&mut tables.sections, section, first, text) {
        Ok(()) => Ok(()),
        Err(refused) => {
            forget_homes(&mut tables.places, first.id, count);
            Err(refused)
        }
    }
}

/// The value stands at the identifier now. After an allocation failure the map answers as before.
pub(crate) fn put<V: Drop>(
    map: &mut BTreeMap<ElementId, V>,
    id: ElementId,
    value: V,
) -> Result<(), NoMemory>
    ensures ok { OnOk result (IsReplaced (entry_at map.old.entries) (entry_at map.new.entries) id (Some value)) }
    ensures err { OnErr result (AnswersSame (entry_at map.old.entries) (entry_at map.new.entries)) }
{
    map.insert(id, value)?;
    Ok(())
}

/// Nothing stands at the identifier any more.
pub(crate) fn clear<V: Drop>(map: &mut BTreeMap<ElementId, V>, id: &ElementId)
    ensures { IsReplaced (entry_at map.old.entries) (entry_at map.new.entries) id.now None }
{
    map.remove(id);
}

/// More elements in the text of a section. After an allocation failure all is as before.
pub(crate) fn insert_text(
    sections: &mut BTreeMap<ElementId, Section>,
    section: &ElementId,
    first: &Node,
    text: &[char],
) -> Result<(), NoMemory>
    requires some { 0 < length text.now }
    requires counters { first.now.id.counter + length text.now ≤ 2 ^ 32 }
    requires there { IsSome (entry_at sections.old.entries section.now) }
    requires new { IfSome (entry_at sections.old.entries section.now)
        (λ e. CanFollow e.text.nodes first.now (length text.now)) }
    requires room { IfSome (entry_at sections.old.entries section.now)
        (λ e. length e.text.cells + length text.now ≤ MOST_OPERATIONS) }
    ensures ok { OnOk result (IsReplaced (entry_at sections.old.entries) (entry_at sections.new.entries) section.now
        (section_with_run first.now text.now (entry_at sections.old.entries section.now))) }
    ensures err { OnErr result (AnswersSame (entry_at sections.old.entries) (entry_at sections.new.entries)) }
{
    match sections.get_mut(section) {
        Some(entry) => entry.text.insert_run(first, text),
        None => Ok(()),
    }
}

/// Hides an element in the text of a section.
pub(crate) fn hide_text(
    sections: &mut BTreeMap<ElementId, Section>,
    section: &ElementId,
    id: ElementId,
) -> Result<(), NoMemory>
    requires there { IsSome (entry_at sections.old.entries section.now) }
    requires held { IfSome (entry_at sections.old.entries section.now) (λ e. has_node e.text.nodes id ≡ true) }
    ensures ok { OnOk result (IsReplaced (entry_at sections.old.entries) (entry_at sections.new.entries) section.now
        (with_hidden_text id (entry_at sections.old.entries section.now))) }
    ensures err { OnErr result (AnswersSame (entry_at sections.old.entries) (entry_at sections.new.entries)) }
{
    match sections.get_mut(section) {
        Some(entry) => entry.text.hide(id),
        None => Ok(()),
    }
}

/// Hides so many elements in the text of a section, from this identifier on. An allocation failure leaves fewer hidden.
fn hide_texts(
    sections: &mut BTreeMap<ElementId, Section>,
    section: &ElementId,
    first: ElementId,
    count: u32,
) -> Result<(), StoppedAfter>
    requires counters { first.counter + count ≤ 2 ^ 32 }
    requires there { IsSome (entry_at sections.old.entries section.now) }
    requires held { IfSome (entry_at sections.old.entries section.now) (λ e. AreAllNodes e.text.nodes first count) }
    ensures ok { OnOk result (IsReplaced (entry_at sections.old.entries) (entry_at sections.new.entries) section.now
        (section_with_run_hidden first count (entry_at sections.old.entries section.now))) }
    ensures err { IfErr result (λ f. IsReplaced (entry_at sections.old.entries) (entry_at sections.new.entries) section.now
        (section_with_run_hidden first f.done (entry_at sections.old.entries section.now))) }
    ensures fewer { IfErr result (λ f. f.done < count) }
{
    match sections.get_mut(section) {
        Some(entry) => entry.text.hide_run(first, count),
        None => Ok(()),
    }
}

/// Hides elements of a section.
pub(crate) fn hide_run(
    tables: &mut Tables,
    section: &ElementId,
    first: ElementId,
    count: u32,
) -> Result<(), StoppedAfter>
    requires counters { first.counter + count ≤ 2 ^ 32 }
    requires there { IsSome (entry_at tables.old.sections.entries section.now) }
    requires held { IfSome (entry_at tables.old.sections.entries section.now)
        (λ e. AreAllNodes e.text.nodes first count) }
    ensures ok { OnOk result (HidesRun (contents_of tables.old) (contents_of tables.new) section.now first count) }
    ensures err { IfErr result
        (λ f. HidesRun (contents_of tables.old) (contents_of tables.new) section.now first f.done) }
    ensures fewer { IfErr result (λ f. f.done < count) }
{
    hide_texts(&mut tables.sections, section, first, count)
}
