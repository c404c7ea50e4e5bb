//! Reads identifiers, origins, the identifiers that a note names, and scalars from the start of bytes.
ghost use Rattle.std.specs.Prelude.{◌≡◌, ◌++◌, drop, IfNone, IfSome};
ghost use Rattle.std.specs.Char.{IsScalar};
ghost use Rattle.origin_model.specs.frames.Frames.{AreNames, IsIdentifier, IsFrameOrigin};
ghost use Rattle.origin_model.specs.frames.Frames.{id_bytes, names_bytes, origin_bytes, scalar_bytes};
ghost use Rattle.op_frame.specs.Firsts.{StartsWith};
ghost use Rattle.op_frame.specs.FrameFronts.{AreNamesBytes, IsIdentifierBytes, IsOriginBytes, IsScalarBytes};

use crate::number::{number, scalar_of};
use fugue_ids::{ElementId, MOST_NAMES, NoteNames};

/// What stands where no identifier was read yet.
const UNREAD: ElementId = ElementId {
    replica: 1,
    counter: 0,
};

/// Takes fields off the front of bytes.
#[derive(Drop)]
pub(crate) struct Fields<'a> {
    pub(crate) rest: &'a [u8],
}

impl<'a> Fields<'a> {
    /// The identifier at the front, where one stands there: there is no replica 0.
    pub(crate) fn try_identifier(&mut self) -> Option<ElementId>
        ensures none { IfNone result (StartsWith IsIdentifierBytes self.old.rest.now → ⊥) }
        ensures is { IfSome result IsIdentifier }
        ensures split { IfSome result (λ id. self.old.rest.now ≡ id_bytes id ++ self.new.rest.now) }
    {
        if self.rest.len() < 8 {
            return None;
        }
        let replica = number(self.rest);
        if replica == 0 {
            return None;
        }
        let counter = number(&self.rest[4..]);
        self.rest = &self.rest[8..];
        Some(ElementId { replica, counter })
    }

    /// The origin at the front, where one stands there. At None `rest` is left without its first byte, if it had one.
    pub(crate) fn try_origin(&mut self) -> Option<Option<ElementId>>
        ensures none { IfNone result (StartsWith IsOriginBytes self.old.rest.now → ⊥) }
        ensures is { IfSome result IsFrameOrigin }
        ensures split { IfSome result (λ origin. self.old.rest.now ≡ origin_bytes origin ++ self.new.rest.now) }
    {
        if self.rest.is_empty() {
            return None;
        }
        let tag = self.rest[0];
        self.rest = &self.rest[1..];
        match tag {
            0 => Some(None),
            1 => {
                let id = self.try_identifier()?;
                Some(Some(id))
            }
            _ => None,
        }
    }

    pub(crate) fn identifier(&mut self) -> ElementId
        requires { StartsWith IsIdentifierBytes self.old.rest.now }
        ensures split { self.old.rest.now ≡ id_bytes result ++ self.new.rest.now }
        ensures is { IsIdentifier result }
    {
        let Some(id) = self.try_identifier() else {
            unreachable!()
        };
        id
    }

    pub(crate) fn origin(&mut self) -> Option<ElementId>
        requires { StartsWith IsOriginBytes self.old.rest.now }
        ensures split { self.old.rest.now ≡ origin_bytes result ++ self.new.rest.now }
        ensures is { IsFrameOrigin result }
    {
        let Some(origin) = self.try_origin() else {
            unreachable!()
        };
        origin
    }

    pub(crate) fn names(&mut self) -> NoteNames
        requires { StartsWith AreNamesBytes self.old.rest.now }
        ensures split { self.old.rest.now ≡ names_bytes result ++ self.new.rest.now }
        ensures are { AreNames result }
    {
        let count = self.rest[0] as usize;
        self.rest = &self.rest[1..];
        let mut ids = [UNREAD; MOST_NAMES];
        for place in 0..count {
            ids[place] = self.identifier();
        }
        let Some(names) = NoteNames::read(&ids[..count]) else {
            unreachable!()
        };
        names
    }
}

/// The scalar in the first three bytes.
pub(crate) fn first_scalar(bytes: &[u8]) -> char
    requires { StartsWith IsScalarBytes bytes.now }
    ensures split { bytes.now ≡ scalar_bytes result ++ drop 3 bytes.now }
    ensures is { IsScalar result }
{
    let Some(ch) = scalar_of(bytes[0], bytes[1], bytes[2]) else {
        unreachable!()
    };
    ch
}
