//! Shorthands for the identifiers and the `Text` operations that the tests use.
ghost use Rattle.std.specs.Prelude.{◌≡◌, ◌<◌};

use fugue_ids::{ElementId, Op};

/// The element of a replica with a counter.
pub fn id(replica: u32, counter: u32) -> ElementId
    requires { 0 < replica }
    ensures replica { result.replica ≡ replica }
    ensures counter { result.counter ≡ counter }
{
    ElementId { replica, counter }
}

/// A Text of the section (9, 0).
pub fn text(own: ElementId, left: Option<ElementId>, right: Option<ElementId>, ch: char) -> Op {
    Op::Text {
        id: own,
        section: id(9, 0),
        left,
        right,
        ch,
    }
}
