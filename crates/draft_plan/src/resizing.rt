//! Sections dropped and added, until there is one for each part of a draft.

ghost use Rattle.std.specs.Prelude.{◌≡◌, ◌⊎◌, ◌+◌, ◌<◌, ◌≤◌, ℕ, [], ◌∷◌, ◌++◌, IfErr, IfOk, IfSome, Ok, OnOk, Some, length, map, slice_get};
ghost use Rattle.std.specs.List.{Contains};
ghost use Rattle.fugue_ids.specs.Identifiers.{Identifier};
ghost use Rattle.origin_model.specs.declared.operations.Place.TheVariants.{Catalogue as catalogue};
ghost use Rattle.origin_model.specs.edits.State.{IsSound};
ghost use Rattle.origin_model.specs.order.Printed.{shown};
ghost use Rattle.origin_model.specs.taking.Taking.{IsSettled};
ghost use Rattle.catalogue_notes.specs.Arranged.{arranged};
ghost use Rattle.catalogue_notes.specs.Outlining.{IsOutline, entry_sections};
ghost use Rattle.section_plan.specs.Matching.{IsMatching, section_of};
ghost use Rattle.draft_plan.specs.Limits.{CostsShaping, LacksRoom, cost};
ghost use Rattle.draft_plan.specs.Plans.{added_count, dropped_count, unmatched_count};
ghost use Rattle.draft_plan.specs.Readings.{seen_part};
ghost use Rattle.draft_plan.specs.Resizing.{AreDistinct, AreLeft, AreTargets, IsAdded, IsAfter, IsPartTaken, IsWithout};
ghost use Rattle.draft_plan.specs.Revision.{StopsAtLimit};
ghost use Rattle.draft_plan.specs.Shaping.{KeepsPlaces, Reshapes, Shapes};

use crate::fault::ReviseFault;
use crate::titles::title_of;
use catalogue_notes::Entry;
use fugue_ids::{ElementId, NoMemory};
use replica_core::Replica;
use section_plan::{Pairs, Part, longest_rise};
use std::alloc::Global;

/// The number of a shown section in the catalogue.
fn number_of(replica: &Replica, section: ElementId) -> usize
    requires { Contains (shown catalogue replica.now.held.history) section }
    ensures { slice_get (shown catalogue replica.now.held.history) result ≡ Some section }
{
    match replica.places().catalogue().visible_before(section) {
        Some(before) => before,
        None => 0,
    }
}

/// Drops a shown section.
fn drop_one(replica: &mut Replica, section: ElementId) -> Result<u32, ReviseFault>
    requires settled { IsSettled replica.old.held }
    requires sound { IsSound replica.old }
    requires there { Contains (shown catalogue replica.old.held.history) section }
    ensures shapes { Reshapes replica.old replica.new result }
    ensures costs { CostsShaping replica.old replica.new (cost 1 0 0) result }
    ensures places { OnOk result (KeepsPlaces replica.old.held.history replica.new.held.history) }
    ensures gone { OnOk result (IsWithout section (shown catalogue replica.old.held.history) (shown catalogue replica.new.held.history)) }
    ensures settled { IsSettled replica.new.held }
    ensures sound { IsSound replica.new }
{
    let number = number_of(replica, section);
    Ok(replica.drop_section(number)?)
}

/// Drops the sections without a part.
fn drop_free(replica: &mut Replica, entries: &[Entry], pairs: &Pairs) -> Result<u32, ReviseFault>
    requires settled { IsSettled replica.old.held }
    requires sound { IsSound replica.old }
    requires outline { IsOutline replica.old.held.history entries.now }
    ensures shapes { Reshapes replica.old replica.new result }
    ensures costs { CostsShaping replica.old replica.new (cost (dropped_count pairs.now (length entries.now)) 0 0) result }
    ensures places { OnOk result (KeepsPlaces replica.old.held.history replica.new.held.history) }
    ensures left { OnOk result (AreLeft (entry_sections entries.now) pairs.now (length entries.now) (shown catalogue replica.new.held.history)) }
    ensures settled { IsSettled replica.new.held }
    ensures sound { IsSound replica.new }
{
    let mut made = 0;
    'entries: for (place, entry) in entries.iter().enumerate() {
        if pairs.part_of(place).is_none() {
            made += drop_one(replica, entry.section)?;
        }
    }
    Ok(made)
}

/// The number after that of a section, or the first number.
fn number_after(replica: &Replica, section: Option<ElementId>) -> usize
    requires { IfSome section (λ s. Contains (shown catalogue replica.now.held.history) s) }
    ensures { IsAfter (shown catalogue replica.now.held.history) section result }
{
    let Some(section) = section else {
        return 0;
    };
    let number = number_of(replica, section);
    replica.section_count().min(number.wrapping_add(1))
}

/// Adds a section.
fn add_one(
    alloc: Global,
    replica: &mut Replica,
    number: usize,
    title: &str,
) -> Result<ElementId, ReviseFault>
    requires settled { IsSettled replica.old.held }
    requires sound { IsSound replica.old }
    requires within { number ≤ length (shown catalogue replica.old.held.history) }
    ensures added { IfOk result (λ section. IsAdded replica.old replica.new number title.now section) }
    ensures stops { IfErr result (λ why. StopsAtLimit replica.old replica.new why) }
    ensures costs { OnOk result (CostsShaping replica.old replica.new (cost 1 1 0) (Ok 1)) }
    ensures lacks { IfErr result (λ why. LacksRoom replica.old (cost 1 1 0) why) }
    ensures settled { IsSettled replica.new.held }
    ensures sound { IsSound replica.new }
{
    let title = title_of(alloc, title)?;
    replica.add(number, title)?;
    match replica.places().section_at(number) {
        Some(section) => Ok(section),
        None => Err(ReviseFault::from(NoMemory)),
    }
}

fn keep_section(sections: &mut Vec<ElementId>, section: ElementId) -> Result<(), NoMemory>
    ensures { OnOk result (sections.new.items ≡ sections.old.items ++ section ∷ []) }
{
    Ok(sections.push(section)?)
}

/// The parts whose sections stay where they are: a longest series of those that stand in order.
fn staying_parts(alloc: Global, pairs: &Pairs, parts: usize) -> Result<Vec<bool>, NoMemory>
    ensures { IfOk result (λ stays. length stays.items ≡ parts) }
{
    let mut places = Vec::new(alloc);
    'parts: for part in 0..parts {
        places.push(pairs.section_of(part))?;
    }
    let stays = longest_rise(alloc, places.as_slice())?;
    Ok(stays)
}

/// What the next section is added after, once a part has its section: that, if it stays where it is.
fn next_anchor(
    stays: &[bool],
    part: usize,
    section: ElementId,
    anchor: Option<ElementId>,
) -> Option<ElementId>
    requires { part < length stays.now }
    ensures { (result ≡ Some section) ⊎ (result ≡ anchor) }
{
    if stays[part] {
        return Some(section);
    }
    anchor
}

/// Adds a section for a part, unless it has one: after the last section of the parts before it that stays or was added,
/// so that it stands at its place once the others are moved.
fn take_part(
    alloc: Global,
    replica: &mut Replica,
    entries: &[Entry],
    pairs: &Pairs,
    stays: &[bool],
    part: usize,
    title: &str,
    sections: &mut Vec<ElementId>,
    anchor: &mut Option<ElementId>,
) -> Result<u32, ReviseFault>
    requires settled { IsSettled replica.old.held }
    requires sound { IsSound replica.old }
    requires there { (s : Identifier) → Contains sections.old.items s → Contains (shown catalogue replica.old.held.history) s }
    requires anchor { IfSome anchor.old (λ s. Contains sections.old.items s) }
    requires within { (i : ℕ) → section_of pairs.now part ≡ Some i → i < length entries.now }
    requires staying { part < length stays.now }
    ensures shapes { Shapes replica.old replica.new result }
    ensures costs { CostsShaping replica.old replica.new
        (cost (unmatched_count (section_of pairs.now part)) (unmatched_count (section_of pairs.now part)) 0) result }
    ensures taken { OnOk result (IsPartTaken replica.old replica.new (entry_sections entries.now) (section_of pairs.now part) anchor.old title.now
        sections.old.items sections.new.items) }
    ensures anchor { OnOk result (IfSome anchor.new (λ s. Contains sections.new.items s)) }
    ensures settled { IsSettled replica.new.held }
    ensures sound { IsSound replica.new }
{
    if let Some(place) = pairs.section_of(part) {
        let section = entries[place].section;
        keep_section(sections, section)?;
        *anchor = next_anchor(stays, part, section, *anchor);
        return Ok(0);
    }
    let number = number_after(replica, *anchor);
    let section = add_one(alloc, replica, number, title)?;
    keep_section(sections, section)?;
    *anchor = Some(section);
    Ok(1)
}

/// Adds a section for each part without one. Answers the sections of the parts.
fn add_missing(
    alloc: Global,
    replica: &mut Replica,
    entries: &[Entry],
    parts: &[Part<'_>],
    pairs: &Pairs,
    sections: &mut Vec<ElementId>,
) -> Result<u32, ReviseFault>
    requires settled { IsSettled replica.old.held }
    requires sound { IsSound replica.old }
    requires matching { IsMatching (length entries.now) (length parts.now) pairs.now }
    requires left { AreLeft (entry_sections entries.now) pairs.now (length entries.now) (shown catalogue replica.old.held.history) }
    requires once { AreDistinct (entry_sections entries.now) }
    requires none { sections.old.items ≡ [] }
    ensures shapes { Shapes replica.old replica.new result }
    ensures costs { CostsShaping replica.old replica.new
        (cost (added_count pairs.now (length parts.now)) (added_count pairs.now (length parts.now)) 0) result }
    ensures places { OnOk result (KeepsPlaces replica.old.held.history replica.new.held.history) }
    ensures targets { OnOk result (AreTargets replica.old replica.new (entry_sections entries.now) pairs.now (map seen_part parts.now) sections.new.items) }
    ensures settled { IsSettled replica.new.held }
    ensures sound { IsSound replica.new }
{
    let stays = staying_parts(alloc, pairs, parts.len())?;
    let mut anchor = None;
    let mut made = 0;
    'parts: for (place, part) in parts.iter().enumerate() {
        made += take_part(
            alloc,
            replica,
            entries,
            pairs,
            stays.as_slice(),
            place,
            part.title,
            sections,
            &mut anchor,
        )?;
    }
    Ok(made)
}

/// Drops the sections without a part, and adds one for each part without a section. Answers the sections of the parts, and
/// how many operations that took.
pub(crate) fn resize(
    alloc: Global,
    replica: &mut Replica,
    entries: &[Entry],
    parts: &[Part<'_>],
    pairs: &Pairs,
    sections: &mut Vec<ElementId>,
) -> Result<u32, ReviseFault>
    requires settled { IsSettled replica.old.held }
    requires sound { IsSound replica.old }
    requires outline { IsOutline replica.old.held.history entries.now }
    requires matching { IsMatching (length entries.now) (length parts.now) pairs.now }
    requires none { sections.old.items ≡ [] }
    ensures shapes { Reshapes replica.old replica.new result }
    ensures costs { CostsShaping replica.old replica.new
        (cost (dropped_count pairs.now (length entries.now) + added_count pairs.now (length parts.now))
        (added_count pairs.now (length parts.now)) 0) result }
    ensures places { OnOk result (KeepsPlaces replica.old.held.history replica.new.held.history) }
    ensures targets { OnOk result (AreTargets replica.old replica.new (arranged replica.old.held.history) pairs.now (map seen_part parts.now) sections.new.items) }
    ensures settled { IsSettled replica.new.held }
    ensures sound { IsSound replica.new }
{
    let dropped = drop_free(replica, entries, pairs)?;
    let added = add_missing(alloc, replica, entries, parts, pairs, sections)?;
    Ok(dropped + added)
}
