//! What an operation has to be where another one names it.

ghost use Rattle.std.specs.Prelude.{◌≡◌, Some};
ghost use Rattle.fugue_ids.specs.declared.op.Op.{Op as AnyOp};
ghost use Rattle.origin_model.specs.operations.History.{place as place_in};
ghost use Rattle.origin_model.specs.operations.Verdict.{fits as fits_role};

use crate::operations::element::stands_at;
use crate::{Place, Role};
use fugue_ids::Op;

/// Whether the operation stands where the role asks for it.
pub fn fits(role: Role, op: &Op) -> bool
    ensures { result ≡ fits_role role op.now }
{
    match role {
        Role::Any => true,
        Role::Section => stands_at(op, &Place::Catalogue),
        Role::TextOf(section) => stands_at(op, &Place::Section(section)),
    }
}

/// Whether an operation that stands in the place fits the role.
pub fn fits_at(role: Role, place: &Place) -> bool
    ensures { (op : AnyOp) → place_in op ≡ Some place.now → result ≡ fits_role role op }
{
    match role {
        Role::Any => true,
        Role::Section => *place == Place::Catalogue,
        Role::TextOf(section) => *place == Place::Section(section),
    }
}
