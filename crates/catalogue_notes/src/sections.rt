//! The accepted Sections.
ghost use Rattle.std.specs.Prelude.{◌≡◌};
ghost use Rattle.op_runs.specs.Finding.{op_of};
ghost use Rattle.origin_model.specs.declared.operations.Role.TheVariants.{Section as section_role};
ghost use Rattle.origin_model.specs.operations.Verdict.{fits as fits_role};
ghost use Rattle.catalogue_notes.specs.Lift.{is_section as is_section_in};

use fugue_ids::ElementId;
use op_runs::OpRef;
use origin_model::{Role, fits};
use replica_core::Replica;

/// Whether the operation is a Section.
fn is_section_op(op: &OpRef<'_>) -> bool
    ensures { result ≡ fits_role section_role (op_of op.now) }
{
    match op {
        OpRef::Letter(_, _) => false,
        OpRef::Deletion(_) => false,
        OpRef::Whole(op) => fits(Role::Section, op),
    }
}

/// Whether an accepted Section has the identifier.
pub(crate) fn is_section(replica: &Replica, id: ElementId) -> bool
    ensures { result ≡ is_section_in replica.now.held.history id }
{
    match replica.holder(id) {
        Some(op) => is_section_op(&op),
        None => false,
    }
}
