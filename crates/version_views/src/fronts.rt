//! A replica as it was when it had accepted so many operations.
ghost use Rattle.std.specs.Prelude.{◌≡◌, ◌<◌, ◌≤◌, IfOk, IfSome, None, Ok, length};
ghost use Rattle.fugue_ids.specs.declared.limits.TheConstants.{MOST_OPERATIONS as most_operations};
ghost use Rattle.origin_model.specs.edits.State.{IsSound};
ghost use Rattle.origin_model.specs.taking.Taking.{IsSettled, nothing_held};
ghost use Rattle.version_views.specs.Fronts.{front_at, front_most as front_most_of, replica_at};

use crate::accepting::accept_all;
use fugue_ids::{MOST_OPERATIONS, NoMemory};
use replica_core::Replica;
use std::alloc::Global;

/// How many operations the front of so many may hold.
fn front_most(replica: &Replica, count: usize) -> u32
    requires { count ≤ length replica.now.held.history }
    ensures most { result ≡ front_most_of count replica.now }
    ensures some { 0 < result }
    ensures within { result ≤ most_operations }
    ensures sound { IsSound replica.now }
{
    let besides = replica.accepted().len() - count + replica.waiting().len();
    (MOST_OPERATIONS - besides as u32).max(1)
}

/// What the front of so many was before it accepted anything.
fn new_front(alloc: Global, replica: &Replica, count: usize) -> Replica
    requires { count ≤ length replica.now.held.history }
    ensures new { result ≡ record (replica_at count replica.now) { held = nothing_held } }
    ensures sound { IsSound result }
{
    let most = front_most(replica, count);
    match Replica::new(alloc, replica.number(), replica.hold(), most) {
        Ok(front) => front,
        Err(_) => unreachable!(),
    }
}

/// The replica as it was when it had accepted so many operations, with nothing pending.
pub(crate) fn front_of(alloc: Global, replica: &Replica, count: usize) -> Result<Replica, NoMemory>
    requires { count ≤ length replica.now.held.history }
    ensures front { IfOk result (λ front. front ≡ replica_at count replica.now) }
    ensures front_stands { IfOk result IsSound }
    ensures sound { IsSound replica.now }
{
    let mut front = new_front(alloc, replica, count);
    match accept_all(alloc, &mut front, replica.accepted(), count) {
        Ok(()) => Ok(front),
        Err(NoMemory) => {
            front.discard();
            Err(NoMemory)
        }
    }
}

/// The same, for any number: Returns None where the replica did not accept so many.
///
/// It has the number and the hold of the whole, and leaves room for what the whole holds besides, so that the whole has
/// room for what is made on it. Where the whole has no room and `count` is 0, it may hold one operation nevertheless.
pub fn front(alloc: Global, replica: &Replica, count: usize) -> Result<Option<Replica>, NoMemory>
    ensures front { IfOk result (λ front. front ≡ front_at count replica.now) }
    ensures none { result ≡ Ok None → length replica.now.held.history < count }
    ensures some { IfOk result (λ front. IfSome front (λ f. f ≡ replica_at count replica.now)) }
    ensures within { IfOk result (λ front. IfSome front (λ f. count ≤ length replica.now.held.history)) }
    ensures settled { IfOk result (λ front. IfSome front (λ f. IsSettled f.held)) }
    ensures fronts_stand { IfOk result (λ front. IfSome front (λ f. IsSound f)) }
    ensures sound { IsSound replica.now }
{
    if replica.accepted().len() < count {
        return Ok(None);
    }
    Ok(Some(front_of(alloc, replica, count)?))
}
