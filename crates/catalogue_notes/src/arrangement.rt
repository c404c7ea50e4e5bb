//! The sections as they are arranged.
ghost use Rattle.std.specs.Prelude.{◌≡◌, ◌↔◌, ◌<◌, Some, IfOk, OnOk, flat_map, insert, length, option_to_list, slice_get};
ghost use Rattle.std.specs.List.{Contains};
ghost use Rattle.std.specs.BTreeMap.{get};
ghost use Rattle.fugue_ids.specs.Identifiers.{Identifier, id_cmp};
ghost use Rattle.origin_model.specs.edits.State.{IsSound};
ghost use Rattle.run_store.specs.Cells.{cell_ids, cells_shown};
ghost use Rattle.catalogue_notes.specs.Arranging.{IsAfterNote};
ghost use Rattle.catalogue_notes.specs.Lifting.{IsLiftOf};
ghost use Rattle.catalogue_notes.specs.Making.{without_member};
ghost use Rattle.catalogue_notes.specs.Placing.{HaveOwnPositions, AreWinners, IsArranged, IsPlacing, candidate_position, position_in};

use crate::lifting::{Lifted, lift_at};
use crate::reading::Candidate;
use crate::winning::{take_candidate, winners_among};
use fugue_ids::{ElementId, NoMemory};
use replica_core::Replica;
use section_list::SectionList;
use std::alloc::Global;
use std::collections::BTreeMap;

/// What the moves of a history come to.
#[derive(Drop)]
pub(crate) struct Arrangement {
    /// The shown sections in their order.
    pub sections: Vec<ElementId>,
    pub lifted: Lifted,
    pub winners: BTreeMap<ElementId, Candidate>,
}

/// The element at which a section stands.
pub(crate) fn position_of(winners: &BTreeMap<ElementId, Candidate>, section: ElementId) -> ElementId
    ensures { result ≡ position_in (get id_cmp winners.now) section }
{
    match winners.get(&section) {
        Some(candidate) => candidate.id,
        None => section,
    }
}

/// The section that stands at each element, of those that are visible.
fn placing_of(
    alloc: Global,
    winners: &BTreeMap<ElementId, Candidate>,
    catalogue: &SectionList,
) -> Result<BTreeMap<ElementId, ElementId>, NoMemory>
    requires { HaveOwnPositions (position_in (get id_cmp winners.now)) (cell_ids (cells_shown catalogue.now.cells)) }
    ensures { IfOk result (λ placing. IsPlacing (position_in (get id_cmp winners.now))
        (cell_ids (cells_shown catalogue.now.cells)) (get id_cmp placing)) }
{
    let mut placing = BTreeMap::new(alloc);
    let mut shown = catalogue.shown();
    'sections: while let Some(section) = shown.step() {
        placing.insert(position_of(winners, section), section)?;
    }
    Ok(placing)
}

/// What stands at the elements, in order.
fn arranged_in(
    alloc: Global,
    list: &SectionList,
    placing: &BTreeMap<ElementId, ElementId>,
) -> Result<Vec<ElementId>, NoMemory>
    ensures { IfOk result (λ found. found.items ≡ flat_map (λ x. option_to_list (get id_cmp placing.now x))
        (cell_ids (cells_shown list.now.cells))) }
{
    let mut found = Vec::new(alloc);
    let mut shown = list.shown();
    'walk: while let Some(x) = shown.step() {
        if let Some(section) = placing.get(&x) {
            found.push(*section)?;
        }
    }
    Ok(found)
}

impl Arrangement {
    /// That of the accepted operations.
    pub fn of(alloc: Global, replica: &Replica) -> Result<Arrangement, NoMemory>
        ensures arranged { IfOk result (λ a. IsArranged replica.now.held.history a) }
        ensures sound { IsSound replica.now }
    {
        let lifted = Lifted::of(alloc, replica)?;
        let winners = winners_among(alloc, replica, &lifted.moves)?;
        let placing = placing_of(alloc, &winners, replica.places().catalogue())?;
        let sections = arranged_in(alloc, &lifted.list, &placing)?;
        Ok(Arrangement {
            sections,
            lifted,
            winners,
        })
    }

    /// Takes in the newest operation, a note. The list of the sections stays as it is.
    pub fn take_note(&mut self, replica: &Replica) -> Result<(), NoMemory>
        requires { IsAfterNote replica.now.held.history self.old }
        ensures lifted { OnOk result
            (IsLiftOf replica.now.held.history self.new.lifted.list self.new.lifted.moves.items) }
        ensures winners { OnOk result
            (AreWinners replica.now.held.history self.new.lifted.moves.items (get id_cmp self.new.winners)) }
        ensures sections { self.new.sections ≡ self.old.sections }
    {
        let newest = replica.accepted().len() - 1;
        let Some(lift) = lift_at(&self.lifted.list, replica, newest) else {
            return Ok(());
        };
        let candidate = lift.candidate;
        self.lifted.take(lift)?;
        if let Some(candidate) = candidate {
            take_candidate(&mut self.winners, candidate)?;
        }
        Ok(())
    }

    /// The section that stands at k goes to j.
    pub fn put(&mut self, k: usize, j: usize) -> Result<(), NoMemory>
        requires section { k < length self.old.sections.items }
        requires place { j < length self.old.sections.items }
        ensures sections { (s : Identifier) → slice_get self.old.sections.items k ≡ Some s
            → OnOk result (self.new.sections.items ≡ insert (without_member self.old.sections.items k) j s) }
        ensures lifted { self.new.lifted ≡ self.old.lifted }
        ensures winners { self.new.winners ≡ self.old.winners }
    {
        let section = self.sections.remove(k);
        self.sections.insert(j, section)?;
        Ok(())
    }
}
