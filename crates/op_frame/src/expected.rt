//! Compares the first bytes with the frame of an expected Text or Delete, instead of decoding them.
ghost use Rattle.std.specs.Prelude.{◌≡◌, ◌++◌, ◌∷◌, IfSome};
ghost use Rattle.fugue_ids.specs.Runs.{text_by};
ghost use Rattle.fugue_ids.specs.declared.op.Op.TheVariants.{Delete as DeleteOf};
ghost use Rattle.origin_model.specs.frames.Frames.{id_bytes, origin_bytes};
ghost use Rattle.op_frame.specs.NextRuns.{IsOpFront};

use crate::framed::{has_delete_frame, has_text_frame};
use crate::letter::{SCALAR_LEN, scalar};
use crate::number::number;
use crate::protocol::{DELETE, TEXT};
use fugue_ids::{ElementId, RunStart};

/// The scalar and the length of the frame at the front of the bytes, where it is whole and that of a Text that says
/// this. The other fields are compared with those expected, which is faster than to read a Text and compare it.
pub(crate) fn expected_text(next: &RunStart, bytes: &[u8]) -> Option<(char, usize)>
    ensures { IfSome result (λ found. IsOpFront (text_by next.now found.0) found.1 bytes.now) }
{
    let rest = after_kind(bytes, TEXT)?;
    let rest = after_identifier(rest, next.id)?;
    let rest = after_identifier(rest, next.section)?;
    let rest = after_origin(rest, next.left)?;
    let rest = after_origin(rest, next.right)?;
    let ch = scalar(rest)?;
    has_text_frame(next, ch);
    Some((ch, bytes.len() - rest.len() + SCALAR_LEN))
}

/// The length of the frame at the front of the bytes, where it is whole and that of the Delete of this target.
pub(crate) fn expected_delete(target: ElementId, bytes: &[u8]) -> Option<usize>
    ensures { IfSome result (λ len. IsOpFront (DeleteOf target) len bytes.now) }
{
    let rest = after_kind(bytes, DELETE)?;
    let rest = after_identifier(rest, target)?;
    has_delete_frame(target);
    Some(bytes.len() - rest.len())
}

/// The bytes after the first one, where it is that of a frame of this kind.
fn after_kind(bytes: &[u8], kind: u8) -> Option<&[u8]>
    ensures { IfSome result (λ rest. bytes.now ≡ kind ∷ rest.now) }
{
    if bytes.is_empty() || bytes[0] != kind {
        return None;
    }
    Some(&bytes[1..])
}

/// The bytes after this identifier, where it stands at the front.
fn after_identifier(bytes: &[u8], id: ElementId) -> Option<&[u8]>
    ensures { IfSome result (λ rest. bytes.now ≡ id_bytes id ++ rest.now) }
{
    if bytes.len() < 8 || number(bytes) != id.replica || number(&bytes[4..]) != id.counter {
        return None;
    }
    Some(&bytes[8..])
}

/// The bytes after this origin, where it stands at the front.
fn after_origin(bytes: &[u8], origin: Option<ElementId>) -> Option<&[u8]>
    ensures { IfSome result (λ rest. bytes.now ≡ origin_bytes origin ++ rest.now) }
{
    match origin {
        None => after_kind(bytes, 0),
        Some(id) => after_identifier(after_kind(bytes, 1)?, id),
    }
}
