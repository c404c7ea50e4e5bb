//! Chains of origins, each member by one look-up.

ghost use Rattle.std.specs.Prelude.{◌≡◌, reverse, IfOk};
ghost use Rattle.origin_model.specs.order.Order.{rights};
ghost use Rattle.order_proof.specs.Chains.{beside_up, chain_eq, ends_with};
ghost use Rattle.order_proof.specs.Chains.{is_down as is_down_in, is_rights as is_rights_in};
ghost use Rattle.order_proof.specs.Positions.{history_at};

use crate::look_ups::left_at;
use crate::origins::{left_of, right_of};
use crate::positions::{Positions, find};
use fugue_ids::ElementId;
use std::alloc::{AllocError, Global};

/// The chain of right origins from x up, as long as elements have this left origin.
fn climb<P: Positions>(
    alloc: Global,
    held: &P,
    end: usize,
    left: Option<ElementId>,
    x: ElementId,
) -> Result<Vec<ElementId>, AllocError>
    ensures { IfOk result (λ found. found.items
        ≡ beside_up (history_at (P.operations held.now) end) left x) }
{
    let mut found = Vec::new(alloc);
    let mut current = x;
    let mut below = end;
    'scan: while let Some((at, op)) = find(held, below, current) {
        if left_of(&op) != left {
            return Ok(found);
        }
        found.push(current)?;
        below = at;
        match right_of(&op) {
            Some(next) => current = next,
            None => return Ok(found),
        }
    }
    Ok(found)
}

/// The chain of right origins within one left origin, down to x, among the first `end` operations.
pub fn rights_of<P: Positions>(
    alloc: Global,
    held: &P,
    end: usize,
    x: ElementId,
) -> Result<Vec<ElementId>, AllocError>
    ensures { IfOk result (λ found. found.items ≡ rights (history_at (P.operations held.now) end) x) }
{
    let mut found = climb(alloc, held, end, left_at(held, end, x), x)?;
    found.reverse();
    Ok(found)
}

/// Whether the chain of left origins of x ends with this one.
fn ends_in<P: Positions>(held: &P, end: usize, x: ElementId, down: &[ElementId]) -> bool
    ensures { result ≡ ends_with (history_at (P.operations held.now) end) x (reverse down.now) }
{
    let mut current = x;
    let mut below = end;
    let mut k = down.len();
    'scan: while k > 0 {
        let Some((at, op)) = find(held, below, current) else {
            return false;
        };
        k -= 1;
        if down[k] != current {
            return false;
        }
        below = at;
        match left_of(&op) {
            Some(next) => current = next,
            None => return k == 0,
        }
    }
    true
}

/// Whether the chain of left origins of x ends with this one, which has a member.
pub fn is_down<P: Positions>(held: &P, end: usize, x: ElementId, down: &[ElementId]) -> bool
    ensures { result ≡ is_down_in (history_at (P.operations held.now) end) x down.now }
{
    match down.first() {
        Some(_) => ends_in(held, end, x, down),
        None => false,
    }
}

/// Whether the chain of right origins from x up, as long as elements have this left origin, is this one, which is
/// given down to x.
fn goes_up<P: Positions>(
    held: &P,
    end: usize,
    left: Option<ElementId>,
    x: ElementId,
    chain: &[ElementId],
) -> bool
    ensures { result ≡ chain_eq (beside_up (history_at (P.operations held.now) end) left x) (reverse chain.now) }
{
    let mut current = x;
    let mut below = end;
    let mut k = chain.len();
    'scan: while let Some((at, op)) = find(held, below, current) {
        if left_of(&op) != left {
            return k == 0;
        }
        if k == 0 || chain[k - 1] != current {
            return false;
        }
        k -= 1;
        below = at;
        match right_of(&op) {
            Some(next) => current = next,
            None => return k == 0,
        }
    }
    k == 0
}

/// Whether this is the chain of right origins of x, among the first `end` operations.
pub fn is_rights<P: Positions>(held: &P, end: usize, x: ElementId, chain: &[ElementId]) -> bool
    ensures { result ≡ is_rights_in (history_at (P.operations held.now) end) x chain.now }
{
    goes_up(held, end, left_at(held, end, x), x, chain)
}
