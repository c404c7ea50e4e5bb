//! The sections of a replica dropped, added and moved, until they stand as the parts of a draft do.

ghost use Rattle.std.specs.Prelude.{OnOk, length, map};
ghost use Rattle.origin_model.specs.edits.State.{IsSound};
ghost use Rattle.origin_model.specs.taking.Taking.{IsSettled};
ghost use Rattle.catalogue_notes.specs.Outlining.{IsOutline};
ghost use Rattle.section_plan.specs.Matching.{IsMatching};
ghost use Rattle.draft_plan.specs.Keeping.{MovesFew};
ghost use Rattle.draft_plan.specs.Plans.{CostsStanding};
ghost use Rattle.draft_plan.specs.Readings.{seen_part};
ghost use Rattle.draft_plan.specs.Shaping.{Reshapes, StandsAs};

use crate::arranging::arrange;
use crate::fault::ReviseFault;
use crate::resizing::resize;
use catalogue_notes::Entry;
use replica_core::Replica;
use section_plan::{Pairs, Part};
use std::alloc::Global;

/// Drops, adds and moves sections until each stands where its part does. Answers how many operations that took.
pub(crate) fn shape(
    alloc: Global,
    replica: &mut Replica,
    entries: &[Entry],
    parts: &[Part<'_>],
    pairs: &Pairs,
) -> Result<u32, ReviseFault>
    requires settled { IsSettled replica.old.held }
    requires sound { IsSound replica.old }
    requires outline { IsOutline replica.old.held.history entries.now }
    requires matching { IsMatching (length entries.now) (length parts.now) pairs.now }
    ensures shapes { Reshapes replica.old replica.new result }
    ensures costs { CostsStanding replica.old replica.new pairs.now (length entries.now) (length parts.now) result }
    ensures stand_as { OnOk result (StandsAs replica.old.held.history replica.new.held.history pairs.now (map seen_part parts.now)) }
    ensures moves { OnOk result (MovesFew replica.old.held.history replica.new.held.history) }
    ensures settled { IsSettled replica.new.held }
    ensures sound { IsSound replica.new }
{
    let mut sections = Vec::new(alloc);
    let resized = resize(alloc, replica, entries, parts, pairs, &mut sections)?;
    let moved = arrange(alloc, replica, pairs, sections.as_slice())?;
    Ok(resized + moved)
}
