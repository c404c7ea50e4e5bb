//! What is printed: the sections as they are arranged, and which operations give their titles.
ghost use Rattle.std.specs.Prelude.{◌≡◌, IfOk, option_map};
ghost use Rattle.std.specs.BTreeMap.{get};
ghost use Rattle.fugue_ids.specs.Identifiers.{id_cmp};
ghost use Rattle.op_runs.specs.Finding.{op_of};
ghost use Rattle.origin_model.specs.edits.State.{IsSound};
ghost use Rattle.origin_model.specs.operations.History.{holder};
ghost use Rattle.catalogue_notes.specs.Printing.{IsLayout, title_source as title_source_in};

use crate::arrangement::Arrangement;
use crate::reading::Candidate;
use crate::retitles::retitles_of;
use crate::winning::winners_among;
use fugue_ids::{ElementId, NoMemory};
use op_runs::OpRef;
use replica_core::Replica;
use std::alloc::Global;
use std::collections::BTreeMap;

#[derive(Drop)]
pub(crate) struct Layout {
    pub arrangement: Arrangement,
    /// The winning retitle of each section that has one.
    pub winners: BTreeMap<ElementId, Candidate>,
}

impl Layout {
    /// That of the accepted operations.
    pub(crate) fn of(alloc: Global, replica: &Replica) -> Result<Layout, NoMemory>
        ensures layout { IfOk result (λ l. IsLayout replica.now.held.history l) }
        ensures sound { IsSound replica.now }
    {
        let arrangement = Arrangement::of(alloc, replica)?;
        let candidates = retitles_of(alloc, replica)?;
        let winners = winners_among(alloc, replica, &candidates)?;
        Ok(Layout {
            arrangement,
            winners,
        })
    }

    /// The operation that gives a section its title.
    pub(crate) fn title_source<'a>(
        &self,
        replica: &'a Replica,
        section: ElementId,
    ) -> Option<OpRef<'a>>
        ensures { option_map op_of result ≡ title_source_in replica.now.held.history self.now section }
    {
        match self.winners.get(&section) {
            Some(candidate) => replica.holder(candidate.id),
            None => replica.holder(section),
        }
    }
}
