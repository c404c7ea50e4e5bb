//! Where comments stand: the section and the span of each.
ghost use Rattle.std.specs.Prelude.{◌≡◌, ◌||◌, IfOk, Some, map, option_and_then, option_map, reverse, slice_get};
ghost use Rattle.fugue_ids.specs.Identifiers.{id_eq};
ghost use Rattle.origin_model.specs.declared.operations.Place.TheVariants.{Section as within};
ghost use Rattle.origin_model.specs.edits.State.{IsSound};
ghost use Rattle.origin_model.specs.operations.History.{holder};
ghost use Rattle.origin_model.specs.order.Laws.{IsIn};
ghost use Rattle.origin_model.specs.order.Order.{before};
ghost use Rattle.section_catalogue.specs.Manuscript.{OnEach};
ghost use Rattle.margin_notes.specs.Comments.{Comment};
ghost use Rattle.margin_notes.specs.Listing.{HasFew, anchors_of};
ghost use Rattle.margin_notes.specs.Listing.{commented_section as section_on, text_section as text_section_on};
ghost use Rattle.margin_notes.specs.Margins.{margin_span};
ghost use Rattle.margin_notes.specs.Placing.{comment_placed, placed_comments, placed_in};

use crate::reading::{Anchors, anchors_in};
use fugue_ids::{ElementId, NoMemory, Op};
use origin_model::Place;
use replica_core::Replica;
use section_catalogue::Manuscript;
use std::alloc::Global;

/// Where a comment stands: its section, which may be hidden, the two ends of its span, in scalars, and the position of
/// its operation among those that were accepted.
#[derive(Clone, Copy)]
pub struct CommentPlace {
    pub section: ElementId,
    pub id: ElementId,
    pub from: usize,
    pub to: usize,
    pub at: usize,
}

/// The section of which the element is a Text.
fn text_section(places: &Manuscript, id: ElementId) -> Option<ElementId>
    ensures { OnEach places.now (λ h. result ≡ text_section_on (holder h id)) }
{
    let place = places.place_of(id)?;
    match place {
        Place::Section(section) => Some(section),
        Place::Catalogue => None,
    }
}

/// Whether a is b or stands before it. They are elements of the section.
fn is_in_order(places: &Manuscript, section: ElementId, a: ElementId, b: ElementId) -> bool
    ensures { OnEach places.now (λ h. IsIn (within section) h a → IsIn (within section) h b
        → result ≡ (id_eq a b || before (within section) h a b)) }
{
    if a == b {
        return true;
    }
    match places.section(section) {
        Some(list) => list.is_before(a, b),
        None => false,
    }
}

/// The section that has the comment.
fn section_of(places: &Manuscript, anchors: &Anchors) -> Option<ElementId>
    ensures { OnEach places.now (λ h. (c : Comment) → anchors.now ≡ anchors_of c → result ≡ section_on h c) }
{
    let section = text_section(places, anchors.first)?;
    let other = text_section(places, anchors.last)?;
    if other != section {
        return None;
    }
    if is_in_order(places, section, anchors.first, anchors.last) {
        Some(section)
    } else {
        None
    }
}

/// How many visible elements stand before the first anchor.
fn start_of(places: &Manuscript, section: ElementId, first: ElementId, last: ElementId) -> usize
    ensures { OnEach places.now (λ h. IsIn (within section) h first → result ≡ (margin_span h section first last).from) }
{
    match places.section(section) {
        Some(list) => match list.visible_before(first) {
            Some(before) => before,
            None => 0,
        },
        None => 0,
    }
}

/// How many visible elements stand before the last anchor or are it.
fn end_of(places: &Manuscript, section: ElementId, first: ElementId, last: ElementId) -> usize
    requires { HasFew places.now }
    ensures { OnEach places.now (λ h. IsIn (within section) h last → result ≡ (margin_span h section first last).to) }
{
    match places.section(section) {
        Some(list) => match list.visible_before(last) {
            Some(before) => {
                if list.is_hidden(last) {
                    before
                } else {
                    before + 1
                }
            }
            None => 0,
        },
        None => 0,
    }
}

/// Where the operation at the position stands, if it is a comment of a section that is not withdrawn.
fn place_of(replica: &Replica, at: usize, op: &Op) -> Option<CommentPlace>
    requires { slice_get (reverse replica.now.held.history) at ≡ Some op.now }
    ensures { option_map (comment_placed (reverse replica.now.held.history)) result
        ≡ placed_in replica.now.held.history op.now }
{
    let anchors = anchors_in(op)?;
    if replica.is_withdrawn(anchors.id) {
        return None;
    }
    let places = replica.places();
    let section = section_of(places, &anchors)?;
    Some(CommentPlace {
        section,
        id: anchors.id,
        from: start_of(places, section, anchors.first, anchors.last),
        to: end_of(places, section, anchors.first, anchors.last),
        at,
    })
}

/// The same, whatever operation stands at the position.
pub(crate) fn place_at(replica: &Replica, at: usize) -> Option<CommentPlace>
    ensures { option_map (comment_placed (reverse replica.now.held.history)) result
        ≡ option_and_then (placed_in replica.now.held.history) (slice_get (reverse replica.now.held.history) at) }
{
    match replica.section_or_note(at) {
        Some(op) => place_of(replica, at, op),
        None => None,
    }
}

/// Where all comments stand that have a section and are not withdrawn, as they were accepted.
pub fn comment_places(alloc: Global, replica: &Replica) -> Result<Vec<CommentPlace>, NoMemory>
    ensures places { IfOk result (λ places. map (comment_placed (reverse replica.now.held.history)) places.items
        ≡ placed_comments replica.now.held.history) }
    ensures sound { IsSound replica.now }
{
    let mut places = Vec::new(alloc);
    'walk: for at in replica.sections_and_notes() {
        if let Some(place) = place_at(replica, *at) {
            places.push(place)?;
        }
    }
    Ok(places)
}
