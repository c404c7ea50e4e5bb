//! The elements of all places in one list, and one more element in it.
ghost use Rattle.std.specs.Prelude.{◌≡◌, ◌≤◌, reverse, IfOk, OnOk, OnErr, length, take, min, count_by};
ghost use Rattle.origin_model.specs.operations.History.{place_eq};
ghost use Rattle.origin_model.specs.operations.Verdict.{Lawful};
ghost use Rattle.origin_model.specs.order.Order.{IsOrderedBy, before_in, older_of};
ghost use Rattle.origin_model.specs.order.Listed.{elements_at, ListsAll};

use crate::Place;
use crate::operations::element::element_of;
use crate::order::comparison::{is_before, lefts_of};
use fugue_ids::{ElementId, Op};
use std::alloc::{AllocError, Global};

/// An element with its place.
#[derive(Clone, Copy)]
pub struct Listed {
    pub place: Place,
    pub id: ElementId,
}

pub fn is_at(e: &Listed, place: &Place) -> bool
    ensures { result ≡ place_eq e.now.place place.now }
{
    e.place == *place
}

/// The elements of the place, in order.
pub fn elements_in(
    alloc: Global,
    listed: &[Listed],
    place: &Place,
) -> Result<Vec<ElementId>, AllocError>
    ensures { IfOk result (λ found. found.items ≡ elements_at place.now listed.now) }
{
    let mut found = Vec::new(alloc);
    'scan: for e in listed {
        if is_at(e, place) {
            found.push(e.id)?;
        }
    }
    Ok(found)
}

/// How many elements of the finished list stand before x, which is new.
fn count_before(
    alloc: Global,
    finished: &[ElementId],
    ops: &[Op],
    x: ElementId,
) -> Result<usize, AllocError>
    requires { IsOrderedBy (before_in finished.now (reverse ops.now)) finished.now }
    ensures { IfOk result (λ count. count ≡ count_by (λ e. before_in finished.now (reverse ops.now) e x) finished.now) }
{
    let chain = lefts_of(alloc, ops, x)?;
    let mut low = 0;
    let mut high = finished.len();
    'halving: while low < high {
        let middle = low + (high - low) / 2;
        if is_before(alloc, finished, ops, finished[middle], chain.as_slice())? {
            low = middle + 1;
        } else {
            high = middle;
        }
    }
    Ok(low)
}

/// Where the first `count` elements of the place end.
#[tactic(auto, using(crate::proofs::order::ListingLemmas::end_steps))]
fn end_of(listed: &[Listed], place: &Place, count: usize) -> usize
    ensures within { result ≤ length listed.now }
    ensures cut { length (elements_at place.now (take result listed.now))
        ≡ min count (length (elements_at place.now listed.now)) }
{
    let mut seen = 0;
    let mut i = 0;
    'scan: while i < listed.len() && seen < count {
        if is_at(&listed[i], place) {
            seen += 1;
        }
        i += 1;
    }
    i
}

/// Puts the newest operation's element at its place.
pub fn list_newest(alloc: Global, ops: &[Op], listed: &mut Vec<Listed>) -> Result<(), AllocError>
    requires lawful { Lawful (reverse ops.now) }
    requires older { ListsAll (older_of (reverse ops.now)) listed.old.items }
    ensures ok { OnOk result (ListsAll (reverse ops.now) listed.new.items) }
    ensures err { OnErr result (listed.new.items ≡ listed.old.items) }
{
    let Some(op) = ops.last() else {
        return Ok(());
    };
    let Some((place, node)) = element_of(op) else {
        return Ok(());
    };
    let id = node.id;
    let finished = elements_in(alloc, listed.as_slice(), &place)?;
    let count = count_before(alloc, finished.as_slice(), ops, id)?;
    let at = end_of(listed.as_slice(), &place, count);
    listed.insert(at, Listed { place, id })?;
    Ok(())
}
