//! `Entry`: a comment on an arranged section, ordered as a reader comes to the comments.
ghost use Rattle.std.specs.Prelude.{◌≡◌, ℕ, List, option_map};
ghost use Rattle.std.specs.BTreeMap.{get};
ghost use Rattle.fugue_ids.specs.Identifiers.{id_cmp};
ghost use Rattle.fugue_ids.specs.declared.op.Op.{Op as AnyOp};
ghost use Rattle.margin_notes.specs.Placing.{comment_placed};
ghost use Rattle.passage_remarks.specs.Listing.{entry_remark};
ghost use Rattle.passage_remarks.specs.Remarks.{remark_at};

use fugue_ids::ElementId;
use margin_notes::CommentPlace;
use std::collections::BTreeMap;

/// A remark: the place of its section, the two ends of its passage in scalars, and the position of its operation.
/// Entries are ordered as they are listed.
#[derive(Clone, Copy, PartialEq, Eq, PartialOrd, Ord)]
pub(crate) struct Entry {
    pub place: usize,
    pub from: usize,
    pub id: ElementId,
    pub section: ElementId,
    pub to: usize,
    pub at: usize,
}

impl Entry {
    /// The entry of a comment, where its section has a place.
    pub(crate) fn of(places: &BTreeMap<ElementId, usize>, comment: &CommentPlace) -> Option<Entry>
        ensures { (ops : List AnyOp) → option_map (entry_remark ops) result
            ≡ option_map (remark_at (comment_placed ops comment.now)) (get id_cmp places.now comment.now.section) }
    {
        let place = places.get(&comment.section)?;
        Some(Entry {
            place: *place,
            from: comment.from,
            id: comment.id,
            section: comment.section,
            to: comment.to,
            at: comment.at,
        })
    }
}
