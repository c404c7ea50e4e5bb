//! Sections moved until they stand in the order of a draft's parts.

ghost use Rattle.std.specs.Prelude.{◌≡◌, ◌+◌, ◌<◌, ◌↔◌, IfOk, IsTrue, OnOk, Some, length, slice_get};
ghost use Rattle.std.specs.List.{Contains};
ghost use Rattle.fugue_ids.specs.Identifiers.{Identifier};
ghost use Rattle.origin_model.specs.declared.operations.Place.TheVariants.{Catalogue as catalogue};
ghost use Rattle.origin_model.specs.edits.State.{IsSound};
ghost use Rattle.origin_model.specs.order.Printed.{shown};
ghost use Rattle.origin_model.specs.taking.Taking.{IsSettled};
ghost use Rattle.catalogue_notes.specs.Arranged.{arranged};
ghost use Rattle.catalogue_notes.specs.Arranging.{Arranges};
ghost use Rattle.catalogue_notes.specs.Moving.{IsMoveMade};
ghost use Rattle.catalogue_notes.specs.Outlining.{entry_sections};
ghost use Rattle.section_plan.specs.Orders.{ArePlaced, IsOrder};
ghost use Rattle.draft_plan.specs.Arranging.{ArePlacesTo, AreStaying, ArrangesFew, IsOrderOf, MovesPart, PutsPlace};
ghost use Rattle.draft_plan.specs.Limits.{CostsShaping, cost};
ghost use Rattle.draft_plan.specs.Plans.{CostsArranging, move_count};
ghost use Rattle.draft_plan.specs.Resizing.{AreDistinct};
ghost use Rattle.draft_plan.specs.Shaping.{Shapes};

use crate::fault::ReviseFault;
use catalogue_notes::{Arranger, Entry, outline};
use fugue_ids::{ElementId, NoMemory};
use replica_core::Replica;
use section_plan::{Pairs, Step, longest_rise, place_next};
use std::alloc::Global;
use std::collections::BTreeMap;

/// The number of each section among these.
fn ranks_of(alloc: Global, sections: &[ElementId]) -> Result<BTreeMap<ElementId, usize>, NoMemory> {
    let mut ranks = BTreeMap::new(alloc);
    'sections: for (rank, section) in sections.iter().enumerate() {
        ranks.insert(*section, rank)?;
    }
    Ok(ranks)
}

/// Where a section stands among these.
fn place_of(sections: &[ElementId], section: ElementId) -> usize
    requires { Contains sections.now section }
    ensures { slice_get sections.now result ≡ Some section }
{
    'sections: for (place, other) in sections.iter().enumerate() {
        if *other == section {
            return place;
        }
    }
    0
}

/// Whether the section stands there.
fn stands_at(sections: &[ElementId], place: usize, section: ElementId) -> bool
    ensures { IsTrue result ↔ (slice_get sections.now place ≡ Some section) }
{
    place < sections.len() && sections[place] == section
}

/// The number of a section among these: by the map, where it is right.
fn rank_of(ranks: &BTreeMap<ElementId, usize>, sections: &[ElementId], section: ElementId) -> usize
    requires { Contains sections.now section }
    ensures { slice_get sections.now result ≡ Some section }
{
    let rank = match ranks.get(&section) {
        Some(rank) => *rank,
        None => 0,
    };
    if stands_at(sections, rank, section) {
        return rank;
    }
    place_of(sections, section)
}

/// The order in which these sections are arranged.
fn order_of(
    alloc: Global,
    replica: &Replica,
    sections: &[ElementId],
) -> Result<Vec<usize>, NoMemory>
    requires { (s : Identifier) → Contains (arranged replica.now.held.history) s → Contains sections.now s }
    ensures order { IfOk result (λ order. IsOrderOf sections.now (arranged replica.now.held.history) order.items) }
    ensures sound { IsSound replica.now }
{
    let outline = outline(alloc, replica)?;
    Ok(numbers_of(alloc, outline.entries(), sections)?)
}

/// The numbers of the sections of an outline among these.
fn numbers_of(
    alloc: Global,
    entries: &[Entry],
    sections: &[ElementId],
) -> Result<Vec<usize>, NoMemory>
    requires { (s : Identifier) → Contains (entry_sections entries.now) s → Contains sections.now s }
    ensures { IfOk result (λ order. IsOrderOf sections.now (entry_sections entries.now) order.items) }
{
    let ranks = ranks_of(alloc, sections)?;
    let mut order = Vec::new(alloc);
    'entries: for entry in entries {
        order.push(rank_of(&ranks, sections, entry.section))?;
    }
    Ok(order)
}

/// Notes where a part stands.
fn put_place(places: &mut Vec<Option<usize>>, part: usize, place: usize)
    ensures { PutsPlace places.old.items places.new.items part place }
{
    if part < places.len() {
        places[part] = Some(place);
    }
}

/// Where the section of each part that has one stands.
fn places_of(alloc: Global, pairs: &Pairs, order: &[usize]) -> Result<Vec<Option<usize>>, NoMemory>
    requires { IsOrder order.now }
    ensures { IfOk result (λ places. ArePlacesTo order.now pairs.now (length order.now) places.items) }
{
    let mut places = vec![in alloc; None; order.len()]?;
    'order: for (place, part) in order.iter().enumerate() {
        if pairs.section_of(*part).is_some() {
            put_place(&mut places, *part, place);
        }
    }
    Ok(places)
}

/// The parts whose sections stay where they are: a longest series of those that stand in order.
fn stays_of(alloc: Global, pairs: &Pairs, order: &[usize]) -> Result<Vec<bool>, NoMemory>
    requires { IsOrder order.now }
    ensures long { IfOk result (λ stays. length stays.items ≡ length order.now) }
    ensures staying { IfOk result (λ stays. AreStaying order.now pairs.now stays.items) }
    ensures placed { IfOk result (λ stays. ArePlaced order.now stays.items 0) }
{
    let places = places_of(alloc, pairs, order)?;
    let stays = longest_rise(alloc, places.as_slice())?;
    Ok(stays)
}

/// Moves one section.
fn move_one(
    alloc: Global,
    replica: &mut Replica,
    arranger: &mut Arranger,
    step: Step,
) -> Result<u32, ReviseFault>
    requires settled { IsSettled replica.old.held }
    requires sound { IsSound replica.old }
    requires arranges { Arranges replica.old.held.history arranger.old }
    requires from_within { step.from < length (arranged replica.old.held.history) }
    requires to_within { step.to < length (arranged replica.old.held.history) }
    ensures shapes { Shapes replica.old replica.new result }
    ensures costs { CostsShaping replica.old replica.new (cost 1 1 1) result }
    ensures moved { IfOk result (λ n. IsMoveMade replica.old replica.new step.from step.to n) }
    ensures shown { OnOk result (shown catalogue replica.new.held.history ≡ shown catalogue replica.old.held.history) }
    ensures arranges { Arranges replica.new.held.history arranger.new }
    ensures settled { IsSettled replica.new.held }
    ensures sound { IsSound replica.new }
{
    Ok(arranger.move_section(alloc, replica, step.from, step.to)?)
}

/// Moves the section of the next part after that of the part before it, unless it stands there or stays.
fn move_next(
    alloc: Global,
    replica: &mut Replica,
    arranger: &mut Arranger,
    order: &mut Vec<usize>,
    near: &mut usize,
    stays: &[bool],
    part: usize,
    sections: &[ElementId],
) -> Result<u32, ReviseFault>
    requires settled { IsSettled replica.old.held }
    requires sound { IsSound replica.old }
    requires arranges { Arranges replica.old.held.history arranger.old }
    requires order { IsOrder order.old.items }
    requires arranged { IsOrderOf sections.now (arranged replica.old.held.history) order.old.items }
    requires placed { ArePlaced order.old.items stays.now part }
    requires within { part < length order.old.items }
    requires long { length stays.now ≡ length order.old.items }
    ensures shapes { Shapes replica.old replica.new result }
    ensures costs { CostsShaping replica.old replica.new
        (cost (move_count stays.now part) (move_count stays.now part) (move_count stays.now part)) result }
    ensures order { OnOk result (IsOrder order.new.items) }
    ensures placed { OnOk result (ArePlaced order.new.items stays.now (part + 1)) }
    ensures moved { OnOk result (MovesPart replica.old.held.history replica.new.held.history stays.now sections.now part) }
    ensures long { OnOk result (length order.new.items ≡ length order.old.items) }
    ensures arranged { OnOk result (IsOrderOf sections.now (arranged replica.new.held.history) order.new.items) }
    ensures shown { OnOk result (shown catalogue replica.new.held.history ≡ shown catalogue replica.old.held.history) }
    ensures arranges { Arranges replica.new.held.history arranger.new }
    ensures settled { IsSettled replica.new.held }
    ensures sound { IsSound replica.new }
{
    let step = place_next(order, stays, part, near)?;
    let Some(step) = step else {
        return Ok(0);
    };
    let made = move_one(alloc, replica, arranger, step)?;
    Ok(made)
}

/// Moves sections until they stand in this order. As many as can be stay where they are.
pub(crate) fn arrange(
    alloc: Global,
    replica: &mut Replica,
    pairs: &Pairs,
    sections: &[ElementId],
) -> Result<u32, ReviseFault>
    requires settled { IsSettled replica.old.held }
    requires sound { IsSound replica.old }
    requires shown { (s : Identifier) → Contains (shown catalogue replica.old.held.history) s ↔ Contains sections.now s }
    requires once { AreDistinct sections.now }
    ensures shapes { Shapes replica.old replica.new result }
    ensures costs { CostsArranging replica.old replica.new pairs.now sections.now result }
    ensures arranged { OnOk result (arranged replica.new.held.history ≡ sections.now) }
    ensures few { OnOk result (ArrangesFew replica.old.held.history replica.new.held.history pairs.now sections.now) }
    ensures settled { IsSettled replica.new.held }
    ensures sound { IsSound replica.new }
{
    let mut order = order_of(alloc, replica, sections)?;
    let stays = stays_of(alloc, pairs, order.as_slice())?;
    let mut arranger = Arranger::new();
    let mut near = 0;
    let mut made = 0;
    'parts: for part in 0..sections.len() {
        made += move_next(
            alloc,
            replica,
            &mut arranger,
            &mut order,
            &mut near,
            stays.as_slice(),
            part,
            sections,
        )?;
    }
    Ok(made)
}
