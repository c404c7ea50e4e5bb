//! Where the chains of left origins of two elements part.

ghost use Rattle.std.specs.Prelude.{◌≡◌, ◌++◌, ◌∷◌, ◌⊎◌, ◌≢◌, ◌<◌, ◌≤◌, [], false, suc, length, IfOk, IfSome, IsNone, IsTrue, OnOk, Some};
ghost use Rattle.op_runs.specs.Finding.{op_of};
ghost use Rattle.origin_model.specs.operations.History.{left_of as left_origin};
ghost use Rattle.order_proof.specs.Parting.{AreDowns, IsUnpassed, IsOneWay, IsPassedMember, age};
ghost use Rattle.order_proof.specs.Positions.{history_at};

use crate::origins::left_of;
use crate::positions::{Positions, find};
use fugue_ids::ElementId;
use op_runs::OpRef;
use std::alloc::{AllocError, Global};

/// A chain of left origins on the way up: the members that were passed, the lowest first, and the next one.
#[derive(Drop)]
struct Ascent {
    passed: Vec<ElementId>,
    next: Option<ElementId>,
}

impl Ascent {
    fn new(alloc: Global, x: ElementId) -> Ascent
        ensures passed { result.passed.items ≡ [] }
        ensures next { result.next ≡ Some x }
    {
        Ascent {
            passed: Vec::new(alloc),
            next: Some(x),
        }
    }

    /// Passes a member, whose operation this is.
    fn pass(&mut self, member: ElementId, op: &OpRef<'_>) -> Result<(), AllocError>
        ensures passed { OnOk result (self.new.passed.items ≡ self.old.passed.items ++ member ∷ []) }
        ensures next { OnOk result (self.new.next ≡ left_origin (op_of op.now)) }
    {
        self.passed.push(member)?;
        self.next = left_of(op);
        Ok(())
    }
}

/// Whether a member is newer than the operation at a position.
fn is_newer<P: Positions>(held: &P, below: usize, rival: Option<ElementId>, at: usize) -> bool
    ensures newer { IsTrue result → suc (length (history_at (P.operations held.now) at)) < age (history_at (P.operations held.now) below) rival }
    ensures older { result ≡ false → age (history_at (P.operations held.now) below) rival ≤ suc (length (history_at (P.operations held.now) at)) }
{
    let Some(rival) = rival else {
        return false;
    };
    match find(held, below, rival) {
        Some((place, _)) => place > at,
        None => false,
    }
}

/// Passes the next member of an ascent, where it is there and no other one is newer. Answers its position.
fn pass_newest<P: Positions>(
    held: &P,
    below: usize,
    ascent: &mut Ascent,
    rival: Option<ElementId>,
) -> Result<Option<usize>, AllocError>
    ensures passed { IfOk result (λ r. IfSome r (λ at. IsPassedMember (P.operations held.now) below at ascent.old ascent.new rival)) }
    ensures left { IfOk result (λ r. IsNone r → IsUnpassed (history_at (P.operations held.now) below) ascent.old ascent.new rival) }
{
    let Some(member) = ascent.next else {
        return Ok(None);
    };
    let Some((at, op)) = find(held, below, member) else {
        return Ok(None);
    };
    if is_newer(held, below, rival, at) {
        return Ok(None);
    }
    ascent.pass(member, &op)?;
    Ok(Some(at))
}

/// Passes the newer one of two next members, and answers its position: what comes above is older. 0 where neither is
/// there.
fn rise<P: Positions>(
    held: &P,
    below: usize,
    one: &mut Ascent,
    other: &mut Ascent,
) -> Result<usize, AllocError>
    requires some { 0 < below }
    requires apart { one.old.next ≢ other.old.next }
    ensures less { IfOk result (λ at. at < below) }
    ensures way { IfOk result (λ at. IsOneWay (P.operations held.now) below at one.old other.old one.new other.new) }
{
    if let Some(at) = pass_newest(held, below, one, other.next)? {
        return Ok(at);
    }
    if let Some(at) = pass_newest(held, below, other, one.next)? {
        return Ok(at);
    }
    Ok(0)
}

/// The chains of left origins of x and y from where they part down, among the first `end` operations. What they have in
/// common is not passed: of two members the newer one is in no chain of the older one, so it goes first.
pub fn downs_of<P: Positions>(
    alloc: Global,
    held: &P,
    end: usize,
    x: ElementId,
    y: ElementId,
) -> Result<(Vec<ElementId>, Vec<ElementId>), AllocError>
    ensures { IfOk result (λ (down_x, down_y). AreDowns (history_at (P.operations held.now) end) x y down_x.items down_y.items) }
{
    // This call tells that the operations are lawful.
    let _count = held.count();
    let mut one = Ascent::new(alloc, x);
    let mut other = Ascent::new(alloc, y);
    let mut below = end;
    'members: while below > 0 && one.next != other.next {
        below = rise(held, below, &mut one, &mut other)?;
    }
    let mut down_x = one.passed;
    let mut down_y = other.passed;
    down_x.reverse();
    down_y.reverse();
    Ok((down_x, down_y))
}
