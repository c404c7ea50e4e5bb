//! The comments of visible sections, in the order in which they are listed.
ghost use Rattle.std.specs.Prelude.{◌≡◌, IfOk, map, option_and_then, option_map, reverse, slice_get};
ghost use Rattle.origin_model.specs.edits.State.{IsSound};
ghost use Rattle.section_catalogue.specs.Manuscript.{OnEach};
ghost use Rattle.margin_notes.specs.Listing.{HasFew, line_of_entry, listed_line, lines_in, listed_comments, section_number};

use crate::placing::place_at;
use fugue_ids::{ElementId, NoMemory};
use replica_core::Replica;
use section_catalogue::Manuscript;
use std::alloc::Global;

/// A comment that is listed: the number of its section, the two ends of its span, and the position of its operation.
/// Entries are ordered as they are listed.
#[derive(Clone, Copy, PartialEq, Eq, PartialOrd, Ord)]
pub(crate) struct Entry {
    pub number: usize,
    pub id: ElementId,
    pub from: usize,
    pub to: usize,
    pub at: usize,
}

/// The number of a visible section, counted from 1.
fn number_of(places: &Manuscript, section: ElementId) -> Option<usize>
    requires { HasFew places.now }
    ensures { OnEach places.now (λ h. result ≡ section_number h section) }
{
    let catalogue = places.catalogue();
    let before = catalogue.visible_before(section)?;
    if catalogue.is_hidden(section) {
        None
    } else {
        Some(before + 1)
    }
}

/// The entry of the operation at the position, where it is a comment that is listed.
fn entry_at(replica: &Replica, at: usize) -> Option<Entry>
    ensures { option_map (line_of_entry (reverse replica.now.held.history)) result
        ≡ option_and_then (listed_line replica.now.held.history) (slice_get (reverse replica.now.held.history) at) }
{
    let place = place_at(replica, at)?;
    let number = number_of(replica.places(), place.section)?;
    Some(Entry {
        number,
        id: place.id,
        from: place.from,
        to: place.to,
        at: place.at,
    })
}

/// The entries of all comments that are listed, as their operations were accepted.
fn entries_of(alloc: Global, replica: &Replica) -> Result<Vec<Entry>, NoMemory>
    ensures entries { IfOk result (λ entries. map (line_of_entry (reverse replica.now.held.history)) entries.items
        ≡ lines_in replica.now.held.history (reverse replica.now.held.history)) }
    ensures sound { IsSound replica.now }
{
    let mut entries = Vec::new(alloc);
    'walk: for at in replica.sections_and_notes() {
        if let Some(entry) = entry_at(replica, *at) {
            entries.push(entry)?;
        }
    }
    Ok(entries)
}

/// The entries in the order in which they are listed.
pub(crate) fn listed_entries(alloc: Global, replica: &Replica) -> Result<Vec<Entry>, NoMemory>
    ensures entries { IfOk result (λ entries. map (line_of_entry (reverse replica.now.held.history)) entries.items
        ≡ listed_comments replica.now.held.history) }
    ensures sound { IsSound replica.now }
{
    let mut entries = entries_of(alloc, replica)?;
    entries.sort_unstable();
    Ok(entries)
}
