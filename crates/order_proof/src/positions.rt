//! Accepted operations by their positions.

ghost use Rattle.std.specs.Prelude.{◌≡◌, ◌≤◌, [], length, List, option_map, reverse, slice_get, Some, IfSome, IsNone};
ghost use Rattle.fugue_ids.specs.declared.op.Op.{Op as AnyOp};
ghost use Rattle.op_runs.specs.Finding.{op_of};
ghost use Rattle.origin_model.specs.operations.Verdict.{Lawful};
ghost use Rattle.order_proof.specs.Positions.{as_of, history_at, IsAtPosition, position_of};

use fugue_ids::ElementId;
use op_runs::OpRef;

/// Accepted operations, of which one is found by its identifier without a walk over the others.
pub trait Positions {
    /// The operations, the oldest first.
    ghost operations: { Self → List AnyOp };

    /// How many operations there are.
    fn count(&self) -> usize
        ensures count { result ≡ length (operations self.now) }
        ensures lawful { Lawful (reverse (operations self.now)) };

    /// The operation that is so many after the oldest.
    fn operation(&self, position: usize) -> Option<OpRef<'_>>
        ensures { option_map op_of result ≡ slice_get (operations self.now) position };

    /// How many operations are older than the one that has the identifier.
    fn position(&self, id: ElementId) -> Option<usize>
        ensures { result ≡ position_of id (reverse (operations self.now)) };
}

/// The operation of an element among the first `end` ones, and its position.
pub fn find<P: Positions>(held: &P, end: usize, x: ElementId) -> Option<(usize, OpRef<'_>)>
    ensures some { IfSome result (λ (at, op). IsAtPosition (P.operations held.now) end x at (op_of op)) }
    ensures none { IsNone result → as_of (history_at (P.operations held.now) end) x ≡ [] }
{
    // This call tells that the operations are lawful.
    let _count = held.count();
    match held.position(x) {
        Some(at) => { if at < end { op_at(held, at) } else { None } }
        None => None,
    }
}

/// The operation at a position, with the position.
fn op_at<P: Positions>(held: &P, at: usize) -> Option<(usize, OpRef<'_>)>
    ensures some { IfSome result (λ (place, op). (place ≡ at) × (slice_get (P.operations held.now) at ≡ Some (op_of op))) }
    ensures none { IsNone result → length (P.operations held.now) ≤ at }
{
    match held.operation(at) {
        Some(op) => Some((at, op)),
        None => None,
    }
}
