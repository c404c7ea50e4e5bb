//! Where a moved section goes, and the names and the body of the move.
ghost use Rattle.std.specs.Prelude.{◌≡◌, ◌<◌, IfOk, List, Some, length, option_map, slice_get};
ghost use Rattle.std.specs.BTreeMap.{get};
ghost use Rattle.fugue_ids.specs.Identifiers.{id_cmp};
ghost use Rattle.fugue_ids.specs.declared.op.Op.{Op as OpOf};
ghost use Rattle.origin_model.specs.edits.Edits.{in_front};
ghost use Rattle.origin_model.specs.edits.Landing.{following};
ghost use Rattle.run_store.specs.Cells.{cell_ids};
ghost use Rattle.catalogue_notes.specs.Lift.{stamp as stamp_on};
ghost use Rattle.catalogue_notes.specs.Making.{form_of, move_body, move_names, origins_for, without_member};
ghost use Rattle.catalogue_notes.specs.Placing.{IsArranged, position_in};
ghost use Rattle.catalogue_notes.specs.Readings.{read_origins};

use crate::arrangement::{Arrangement, position_of};
use crate::reading::Gap;
use crate::retitles::{greatest_stamp, retitles_of};
use fugue_ids::{Body, ElementId, NoMemory, NoteNames};
use replica_core::Replica;
use std::alloc::Global;

/// The greatest stamp of a valid move or retitle.
pub(crate) fn stamp_of(
    alloc: Global,
    replica: &Replica,
    arrangement: &Arrangement,
) -> Result<u32, NoMemory>
    requires { IsArranged replica.now.held.history arrangement.now }
    ensures { IfOk result (λ stamp. stamp ≡ stamp_on replica.now.held.history) }
{
    let retitles = retitles_of(alloc, replica)?;
    let moved = greatest_stamp(&arrangement.lifted.moves);
    Ok(moved.max(greatest_stamp(&retitles)))
}

/// The left origin of section k if it moves to j: the element at which the section before it then stands.
fn left_for(arrangement: &Arrangement, k: usize, j: usize) -> Option<ElementId>
    requires section { k < length arrangement.now.sections.items }
    requires place { j < length arrangement.now.sections.items }
    ensures { result ≡ option_map (position_in (get id_cmp arrangement.now.winners))
        (in_front (without_member arrangement.now.sections.items k) j) }
{
    if j == 0 {
        return None;
    }
    // The moved section is not counted.
    let before = if j <= k { j - 1 } else { j };
    let section = arrangement.sections[before];
    Some(position_of(&arrangement.winners, section))
}

/// The right origin: the element after the left one, whatever it stands for.
fn right_for(arrangement: &Arrangement, left: &Option<ElementId>) -> Option<ElementId>
    ensures { result ≡ following (cell_ids arrangement.now.lifted.list.cells) left.now }
{
    arrangement.lifted.list.after(*left)
}

/// The origins of section k if it moves to j.
pub(crate) fn gap_for(arrangement: &Arrangement, k: usize, j: usize) -> Gap
    requires section { k < length arrangement.now.sections.items }
    requires place { j < length arrangement.now.sections.items }
    ensures { (h : List OpOf) → IsArranged h arrangement.now → read_origins result ≡ origins_for h k j }
{
    let left = left_for(arrangement, k, j);
    let right = right_for(arrangement, &left);
    Gap { left, right }
}

/// The section that stands at k.
pub(crate) fn section_at(arrangement: &Arrangement, k: usize) -> ElementId
    requires { k < length arrangement.now.sections.items }
    ensures { slice_get arrangement.now.sections.items k ≡ Some result }
{
    arrangement.sections[k]
}

pub(crate) fn names_of(section: ElementId, gap: &Gap) -> NoteNames
    ensures { result ≡ move_names section (read_origins gap.now) }
{
    match (gap.left, gap.right) {
        (None, None) => NoteNames::read(&[section]).unwrap(),
        (Some(left), None) => NoteNames::read(&[section, left]).unwrap(),
        (None, Some(right)) => NoteNames::read(&[section, right]).unwrap(),
        (Some(left), Some(right)) => NoteNames::read(&[section, left, right]).unwrap(),
    }
}

/// The last byte of a move's body: which origins its names have.
fn form(gap: &Gap) -> u8
    ensures { result ≡ form_of gap.now.left gap.now.right }
{
    match (gap.left, gap.right) {
        (None, None) => 0,
        (Some(_), None) => 1,
        (None, Some(_)) => 2,
        (Some(_), Some(_)) => 3,
    }
}

pub(crate) fn body_of(alloc: Global, stamp: u32, gap: &Gap) -> Result<Body, NoMemory>
    ensures { IfOk result (λ body. body ≡ move_body stamp (read_origins gap.now)) }
{
    let [a, b, c, d] = stamp.to_be_bytes();
    match Body::read(alloc, &[a, b, c, d, form(gap)]) {
        Ok(body) => Ok(body),
        Err(_) => Err(NoMemory),
    }
}
