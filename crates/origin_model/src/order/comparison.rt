//! Chains of origins, and the comparison of two elements by them.
ghost use Rattle.std.specs.Prelude.{◌≡◌, reverse, IfOk, true, false};
ghost use Rattle.fugue_ids.specs.Listed.{index_of as member_index};
ghost use Rattle.origin_model.specs.order.Order.{chain as chain_by, lefts, rights, has_left as has_left_on};
ghost use Rattle.origin_model.specs.order.Order.{index_of_origin as origin_index, right_at as right_origin};
ghost use Rattle.origin_model.specs.order.Order.{fork_before, sibling, chain_before};
ghost use Rattle.origin_model.specs.order.Chain.{next_of};
ghost use Rattle.origin_model.specs.order.Fork.{fork_of, by_fork};

use crate::operations::element::{left_of, right_of};
use crate::operations::lookup::find_holder;
use fugue_ids::{ElementId, Op};
use std::alloc::{AllocError, Global};

/// Where two chains part.
#[derive(Clone, Copy)]
pub enum Fork {
    Same,
    FirstEnds,
    SecondEnds,
    At(ElementId, ElementId),
}

/// Which origins a chain follows.
#[derive(Clone, Copy)]
pub enum Chain {
    Lefts,
    Rights,
}

fn has_left(ops: &[Op], r: ElementId, origin: Option<ElementId>) -> bool
    ensures { result ≡ has_left_on (reverse ops.now) r origin }
{
    match find_holder(ops, r) {
        Some(op) => left_of(op) == origin,
        None => false,
    }
}

/// The origin of the operation that the chain goes on with, where there is one.
fn next_in(chain: Chain, ops: &[Op], op: &Op) -> Option<ElementId>
    ensures { result ≡ next_of chain (reverse ops.now) op.now }
{
    match chain {
        Chain::Lefts => left_of(op),
        Chain::Rights => right_of(op).filter(|r| has_left(ops, *r, left_of(op))),
    }
}

/// The chain from x on.
#[tactic(auto, unfolding(crate::specs::order::Order::chain))]
fn climb(
    alloc: Global,
    chain: Chain,
    ops: &[Op],
    x: ElementId,
) -> Result<Vec<ElementId>, AllocError>
    ensures { IfOk result (λ found. reverse found.items ≡ chain_by (next_of chain) (reverse ops.now) x) }
{
    let mut found = Vec::new(alloc);
    let mut current = x;
    let mut i = ops.len();
    'scan: while i > 0 {
        i -= 1;
        let op = &ops[i];
        if op.id() == Some(current) {
            found.push(current)?;
            match next_in(chain, &ops[..i], op) {
                Some(next) => current = next,
                None => return Ok(found),
            }
        }
    }
    Ok(found)
}

/// The chain down to x.
fn chain_down(
    alloc: Global,
    chain: Chain,
    ops: &[Op],
    x: ElementId,
) -> Result<Vec<ElementId>, AllocError>
    ensures { IfOk result (λ found. found.items ≡ chain_by (next_of chain) (reverse ops.now) x) }
{
    let mut found = climb(alloc, chain, ops, x)?;
    found.reverse();
    Ok(found)
}

/// The chain of left origins down to x.
pub fn lefts_of(alloc: Global, ops: &[Op], x: ElementId) -> Result<Vec<ElementId>, AllocError>
    ensures { IfOk result (λ found. found.items ≡ lefts (reverse ops.now) x) }
{
    chain_down(alloc, Chain::Lefts, ops, x)
}

/// The chain of right origins within one left origin, down to x.
fn rights_of(alloc: Global, ops: &[Op], x: ElementId) -> Result<Vec<ElementId>, AllocError>
    ensures { IfOk result (λ found. found.items ≡ rights (reverse ops.now) x) }
{
    chain_down(alloc, Chain::Rights, ops, x)
}

#[tactic(auto, using(crate::proofs::order::ForkLemmas::fork_ends))]
fn first_fork(xs: &[ElementId], ys: &[ElementId]) -> Fork
    ensures { result ≡ fork_of xs.now ys.now }
{
    let mut i = 0;
    'scan: while i < xs.len() {
        if i == ys.len() {
            return Fork::SecondEnds;
        }
        if xs[i] != ys[i] {
            return Fork::At(xs[i], ys[i]);
        }
        i += 1;
    }
    if i < ys.len() {
        Fork::FirstEnds
    } else {
        Fork::Same
    }
}

fn index_of(finished: &[ElementId], x: ElementId) -> usize
    ensures { result ≡ member_index finished.now x }
{
    let mut i = 0;
    'scan: while i < finished.len() {
        if finished[i] == x {
            return i;
        }
        i += 1;
    }
    i
}

fn index_of_origin(finished: &[ElementId], origin: Option<ElementId>) -> usize
    ensures { result ≡ origin_index finished.now origin }
{
    match origin {
        Some(x) => index_of(finished, x),
        None => finished.len(),
    }
}

/// The right origin of an element.
pub fn right_at(ops: &[Op], x: ElementId) -> Option<ElementId>
    ensures { result ≡ right_origin (reverse ops.now) x }
{
    match find_holder(ops, x) {
        Some(op) => right_of(op),
        None => None,
    }
}

fn goes_first(finished: &[ElementId], ops: &[Op], a: ElementId, b: ElementId) -> bool
    ensures { result ≡ fork_before finished.now (reverse ops.now) a b }
{
    let here = index_of_origin(finished, right_at(ops, a));
    let there = index_of_origin(finished, right_at(ops, b));
    there < here || (there == here && a < b)
}

fn earlier_at(finished: &[ElementId], ops: &[Op], fork: Fork) -> bool
    ensures { result ≡ by_fork false (fork_before finished.now (reverse ops.now)) fork }
{
    match fork {
        Fork::Same | Fork::FirstEnds => false,
        Fork::SecondEnds => true,
        Fork::At(a, b) => goes_first(finished, ops, a, b),
    }
}

/// Whether u stands before v, which has the same left origin.
fn is_earlier_sibling(
    alloc: Global,
    finished: &[ElementId],
    ops: &[Op],
    u: ElementId,
    v: ElementId,
) -> Result<bool, AllocError>
    ensures { IfOk result (λ first. first ≡ sibling finished.now (reverse ops.now) u v) }
{
    let first = rights_of(alloc, ops, u)?;
    let second = rights_of(alloc, ops, v)?;
    let fork = first_fork(first.as_slice(), second.as_slice());
    Ok(earlier_at(finished, ops, fork))
}

fn before_at(
    alloc: Global,
    finished: &[ElementId],
    ops: &[Op],
    fork: Fork,
) -> Result<bool, AllocError>
    ensures { IfOk result (λ first. first ≡ by_fork true (sibling finished.now (reverse ops.now)) fork) }
{
    match fork {
        Fork::Same | Fork::SecondEnds => Ok(false),
        Fork::FirstEnds => Ok(true),
        Fork::At(a, b) => is_earlier_sibling(alloc, finished, ops, a, b),
    }
}

/// Whether x stands before the element whose chain of left origins is `chain`.
pub fn is_before(
    alloc: Global,
    finished: &[ElementId],
    ops: &[Op],
    x: ElementId,
    chain: &[ElementId],
) -> Result<bool, AllocError>
    ensures { IfOk result (λ first. first
        ≡ chain_before true (sibling finished.now (reverse ops.now)) (lefts (reverse ops.now) x) chain.now) }
{
    let own = lefts_of(alloc, ops, x)?;
    before_at(alloc, finished, ops, first_fork(own.as_slice(), chain))
}
