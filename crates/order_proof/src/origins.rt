//! What an operation says of its element.

ghost use Rattle.std.specs.Prelude.{◌≡◌};
ghost use Rattle.op_runs.specs.Finding.{op_of};
ghost use Rattle.origin_model.specs.operations.History.{left_of as left_origin, place, right_of as right_origin};

use fugue_ids::ElementId;
use op_runs::OpRef;
use origin_model::{Place, element_of};

/// The sequence in which the operation's element stands.
pub fn place_of(op: &OpRef<'_>) -> Option<Place>
    ensures { result ≡ place (op_of op.now) }
{
    match op {
        OpRef::Letter(start, _) => Some(Place::Section(start.section)),
        OpRef::Deletion(_) => None,
        OpRef::Whole(op) => match element_of(op) {
            Some((place, _)) => Some(place),
            None => None,
        },
    }
}

pub fn left_of(op: &OpRef<'_>) -> Option<ElementId>
    ensures { result ≡ left_origin (op_of op.now) }
{
    match op {
        OpRef::Letter(start, _) => start.left,
        OpRef::Deletion(_) => None,
        OpRef::Whole(op) => origin_model::left_of(op),
    }
}

pub fn right_of(op: &OpRef<'_>) -> Option<ElementId>
    ensures { result ≡ right_origin (op_of op.now) }
{
    match op {
        OpRef::Letter(start, _) => start.right,
        OpRef::Deletion(_) => None,
        OpRef::Whole(op) => origin_model::right_of(op),
    }
}
