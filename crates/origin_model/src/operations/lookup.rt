//! Look-ups in accepted operations, and how a slice is searched, the newest operation of which is last.

ghost use Rattle.std.specs.Prelude.{◌≡◌, List, reverse, option_copied, option_map};
ghost use Rattle.fugue_ids.specs.Ops.{op_eq};
ghost use Rattle.fugue_ids.specs.declared.op.Op.{Op as AnyOp};
ghost use Rattle.fugue_ids.specs.declared.op.Op.TheVariants.{Delete};
ghost use Rattle.origin_model.specs.operations.History.{has_op, holder as holder_in};
ghost use Rattle.origin_model.specs.operations.Verdict.{fits as fits_role, Lawful};

use crate::Role;
use fugue_ids::{ElementId, Op};

/// Accepted operations in which others are looked up.
pub trait Lookup {
    /// The operations, the newest first.
    ghost history: { Self → List AnyOp };

    /// Whether the operation with this identifier of its own is equal to another one: None where there is none.
    fn equals(&self, id: ElementId, op: &Op) -> Option<bool>
        ensures held { result ≡ option_map (λ holder. op_eq holder op.now) (holder_in (history self.now) id) }
        ensures lawful { Lawful (history self.now) };

    /// Whether a Delete of this target is there.
    fn has_delete(&self, target: ElementId) -> bool
        ensures { result ≡ has_op (history self.now) (Delete target) };

    /// Whether the operation with this identifier fits the role: None where there is none. Those who know where an
    /// element stands need not read the operation.
    fn fits(&self, id: ElementId, role: Role) -> Option<bool>
        ensures { result ≡ option_map (fits_role role) (holder_in (history self.now) id) };
}

/// Whether an equal operation is among them.
pub fn contains_op(ops: &[Op], op: &Op) -> bool
    ensures { result ≡ has_op (reverse ops.now) op.now }
{
    let mut i = ops.len();
    'scan: while i > 0 {
        i -= 1;
        if ops[i] == *op {
            return true;
        }
    }
    false
}

/// The newest operation with this identifier of its own.
pub fn find_holder(ops: &[Op], id: ElementId) -> Option<&Op>
    ensures { option_copied result ≡ holder_in (reverse ops.now) id }
{
    let mut i = ops.len();
    'scan: while i > 0 {
        i -= 1;
        if ops[i].id() == Some(id) {
            return Some(&ops[i]);
        }
    }
    None
}
