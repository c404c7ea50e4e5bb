//! The remarks on a manuscript, in order.
ghost use Rattle.std.specs.Prelude.{◌≡◌, ◌≢◌, IfOk, List, flat_map, map, option_map, option_to_list, reverse};
ghost use Rattle.std.specs.BTreeMap.{get};
ghost use Rattle.std.specs.List.{AllPairs};
ghost use Rattle.fugue_ids.specs.Identifiers.{Identifier, id_cmp};
ghost use Rattle.fugue_ids.specs.declared.op.Op.{Op as AnyOp};
ghost use Rattle.origin_model.specs.edits.State.{IsSound};
ghost use Rattle.catalogue_notes.specs.Outlining.{IsOutline, entry_sections};
ghost use Rattle.margin_notes.specs.Listing.{number_from};
ghost use Rattle.margin_notes.specs.Placing.{comment_placed};
ghost use Rattle.passage_remarks.specs.Listing.{entry_remark};
ghost use Rattle.passage_remarks.specs.Remarks.{remark_at, remarks};

use crate::entry::Entry;
use catalogue_notes::Entry as Section;
use fugue_ids::{ElementId, NoMemory};
use margin_notes::{CommentPlace, comment_places};
use replica_core::Replica;
use std::alloc::Global;
use std::collections::BTreeMap;

/// The places of sections, counted from 1.
fn places_of(alloc: Global, sections: &[Section]) -> Result<BTreeMap<ElementId, usize>, NoMemory>
    requires apart { AllPairs (λ s t. s ≢ t) (entry_sections sections.now) }
    ensures { IfOk result (λ places. (s : Identifier) → get id_cmp places s
        ≡ number_from 1 (entry_sections sections.now) s) }
{
    let mut places = BTreeMap::new(alloc);
    'sections: for (at, section) in sections.iter().enumerate() {
        places.insert(section.section, at + 1)?;
    }
    Ok(places)
}

/// The entries of comments whose sections have places.
fn entries_of(
    alloc: Global,
    places: &BTreeMap<ElementId, usize>,
    comments: &[CommentPlace],
) -> Result<Vec<Entry>, NoMemory>
    ensures { IfOk result (λ entries. (ops : List AnyOp) → map (entry_remark ops) entries.items
        ≡ flat_map (λ p. option_to_list (option_map (remark_at p) (get id_cmp places.now p.section)))
        (map (comment_placed ops) comments.now)) }
{
    let mut entries = Vec::new(alloc);
    'comments: for comment in comments {
        if let Some(entry) = Entry::of(places, comment) {
            entries.push(entry)?;
        }
    }
    Ok(entries)
}

/// The entries of the remarks, where these are the sections as they are arranged.
pub(crate) fn remark_entries(
    alloc: Global,
    replica: &Replica,
    sections: &[Section],
) -> Result<Vec<Entry>, NoMemory>
    requires { IsOutline replica.now.held.history sections.now }
    ensures entries { IfOk result (λ entries. map (entry_remark (reverse replica.now.held.history)) entries.items
        ≡ remarks replica.now.held.history) }
    ensures sound { IsSound replica.now }
{
    let comments = comment_places(alloc, replica)?;
    let places = places_of(alloc, sections)?;
    let mut entries = entries_of(alloc, &places, comments.as_slice())?;
    entries.sort_unstable();
    Ok(entries)
}
