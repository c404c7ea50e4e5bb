//! Reads the frame of a Text or a Delete, by far the most common ones, at once and without the parser.
ghost use Rattle.std.specs.Prelude.{◌≡◌, ◌∷◌, ◌++◌, drop, IfNone, IfSome};
ghost use Rattle.std.specs.Char.{IsScalar};
ghost use Rattle.origin_model.specs.frames.Frames.{scalar_bytes};
ghost use Rattle.op_frame.specs.Firsts.{IsLetter, IsLetterFrame, StartsWith};
ghost use Rattle.op_frame.specs.FrameFronts.{IsScalarBytes};
ghost use Rattle.op_frame.specs.NextRuns.{IsOpFront};

use crate::fields::Fields;
use crate::number::scalar_of;
use crate::protocol::{DELETE, TEXT};
use fugue_ids::Op;

/// The length of a Delete's frame: its kind and its target.
const DELETE_LEN: usize = 1 + 8;

/// The length of a scalar, the last field of a Text's frame.
pub(crate) const SCALAR_LEN: usize = 3;

/// The Text or the Delete whose frame stands at the front of the bytes, and the frame's length; None if no whole frame
/// of either stands there.
pub(crate) fn read_letter(bytes: &[u8]) -> Option<(Op, usize)>
    ensures none { IfNone result (StartsWith IsLetterFrame bytes.now → ⊥) }
    ensures letter { IfSome result (λ found. IsLetter found.0) }
    ensures front { IfSome result (λ found. IsOpFront found.0 found.1 bytes.now) }
{
    if bytes.is_empty() {
        return None;
    }
    match bytes[0] {
        TEXT => text(&bytes[1..]),
        DELETE => delete(&bytes[1..]),
        _ => None,
    }
}

/// The Text whose frame, but for its first byte, stands at the front of the bytes, and the length of the whole frame.
fn text(bytes: &[u8]) -> Option<(Op, usize)>
    ensures none { IfNone result (StartsWith IsLetterFrame (TEXT ∷ bytes.now) → ⊥) }
    ensures letter { IfSome result (λ found. IsLetter found.0) }
    ensures front { IfSome result (λ found. IsOpFront found.0 found.1 (TEXT ∷ bytes.now)) }
{
    let mut fields = Fields { rest: bytes };
    let id = fields.try_identifier()?;
    let section = fields.try_identifier()?;
    let left = fields.try_origin()?;
    let right = fields.try_origin()?;
    let ch = scalar(fields.rest)?;
    let op = Op::Text {
        ch,
        id,
        section,
        left,
        right,
    };
    Some((op, 1 + bytes.len() - fields.rest.len() + SCALAR_LEN))
}

/// The Delete whose frame, but for its first byte, stands at the front of the bytes, and the length of the whole frame.
fn delete(bytes: &[u8]) -> Option<(Op, usize)>
    ensures none { IfNone result (StartsWith IsLetterFrame (DELETE ∷ bytes.now) → ⊥) }
    ensures letter { IfSome result (λ found. IsLetter found.0) }
    ensures front { IfSome result (λ found. IsOpFront found.0 found.1 (DELETE ∷ bytes.now)) }
{
    let mut fields = Fields { rest: bytes };
    let target = fields.try_identifier()?;
    Some((Op::Delete { target }, DELETE_LEN))
}

/// The scalar at the front of the bytes.
pub(crate) fn scalar(bytes: &[u8]) -> Option<char>
    ensures none { IfNone result (StartsWith IsScalarBytes bytes.now → ⊥) }
    ensures is { IfSome result IsScalar }
    ensures split { IfSome result (λ ch. bytes.now ≡ scalar_bytes ch ++ drop 3 bytes.now) }
{
    if bytes.len() < SCALAR_LEN {
        return None;
    }
    scalar_of(bytes[0], bytes[1], bytes[2])
}
