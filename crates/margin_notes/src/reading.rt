//! Which operations are comments.
ghost use Rattle.std.specs.Prelude.{◌≡◌, option_map, slice_get};
ghost use Rattle.origin_model.specs.operations.History.{accepted as accepted_list};
ghost use Rattle.margin_notes.specs.Comments.{comment_in, comment_of, is_text as is_text_of};
ghost use Rattle.margin_notes.specs.Listing.{anchors_of, body_in as body_on, body_of};

use crate::COMMENT_CODE;
use fugue_ids::{ElementId, LONGEST_BODY, Op, is_line};
use replica_core::Replica;

/// A comment, without its text.
#[derive(Clone, Copy, PartialEq, Eq)]
pub(crate) struct Anchors {
    pub id: ElementId,
    pub first: ElementId,
    pub last: ElementId,
}

/// Whether the bytes are the text of a comment: UTF-8 of 1 to 1,024 bytes without LF and CR.
pub fn is_text(bytes: &[u8]) -> bool
    ensures { result ≡ is_text_of bytes.now }
{
    is_line(bytes, LONGEST_BODY)
}

fn anchors_with(id: ElementId, names: &[ElementId], body: &[u8]) -> Option<Anchors>
    ensures { result ≡ option_map anchors_of (comment_of id names.now body.now) }
{
    let [first, last] = names else {
        return None;
    };
    if !is_text(body) {
        return None;
    }
    Some(Anchors {
        id,
        first: *first,
        last: *last,
    })
}

/// What the operation says but the text, where it has the shape of a comment.
pub(crate) fn anchors_in(op: &Op) -> Option<Anchors>
    ensures { result ≡ option_map anchors_of (comment_in op.now) }
{
    match op {
        Op::Note {
            code,
            id,
            names,
            body,
        } if *code == COMMENT_CODE => anchors_with(*id, names.as_slice(), body.as_slice()),
        _ => None,
    }
}

/// The body of a note: nothing of another operation.
fn body_in(op: &Op) -> &[u8]
    ensures { result.now ≡ body_on op.now }
{
    match op {
        Op::Note { body, .. } => body.as_slice(),
        _ => &[],
    }
}

/// The body of the accepted note at the position: nothing where no note stands there.
pub fn body_at(replica: &Replica, at: usize) -> &[u8]
    ensures { result.now ≡ body_of (slice_get (accepted_list replica.now.held.history) at) }
{
    match replica.section_or_note(at) {
        Some(op) => body_in(op),
        None => &[],
    }
}
