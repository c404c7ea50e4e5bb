//! The certificate of two elements is made from their chains.

ghost use Rattle.std.specs.Prelude.{◌≡◌, reverse, IfOk, drop, ◌∷◌, Some};
ghost use Rattle.origin_model.specs.operations.Verdict.{Lawful};
ghost use Rattle.origin_model.specs.order.Order.{rights};
ghost use Rattle.order_proof.specs.Certificates.{IsValid, Claims, IsOrderedBefore};
ghost use Rattle.order_proof.specs.Making.{common_count as common_in, reason_of as reason_by};
ghost use Rattle.order_proof.specs.Making.{reason_at as reason_at_in, reason_between as reason_between_in};
ghost use Rattle.order_proof.specs.Positions.{history_at};
ghost use Rattle.order_proof.specs.Making.{certificate_made, certificate_made_at, rests_on, certificate};

use crate::chains::rights_of;
use crate::look_ups::right_at;
use crate::parting::downs_of;
use crate::positions::Positions;
use crate::{Chain, Proof, Reason, Step};
use fugue_ids::{ElementId, NoMemory};
use std::alloc::{AllocError, Global};

/// How many members two chains have in common at their beginning.
#[tactic(auto, using(crate::proofs::MakingLemmas::common_ends))]
fn common_count(xs: &[ElementId], ys: &[ElementId]) -> usize
    ensures { result ≡ common_in xs.now ys.now }
{
    let mut i = 0;
    'scan: while i < xs.len() && i < ys.len() && xs[i] == ys[i] {
        i += 1;
    }
    i
}

/// A slice after its first members.
fn behind(chain: &[ElementId], count: usize) -> &[ElementId]
    ensures { result.now ≡ drop count chain.now }
{
    if count < chain.len() {
        &chain[count..]
    } else {
        &[]
    }
}

fn reason_of(one: Option<ElementId>, other: Option<ElementId>) -> Reason
    ensures { result ≡ reason_by one other }
{
    match (one, other) {
        (None, Some(_)) => Reason::End,
        (Some(p), Some(q)) => later_or_tie(p, q),
        _ => Reason::Tie,
    }
}

fn later_or_tie(p: ElementId, q: ElementId) -> Reason
    ensures { result ≡ reason_by (Some p) (Some q) }
{
    if p == q {
        Reason::Tie
    } else {
        Reason::Later(p, q)
    }
}

fn reason_at<P: Positions>(held: &P, end: usize, xs: &[ElementId], ys: &[ElementId]) -> Reason
    ensures { result ≡ reason_at_in (history_at (P.operations held.now) end) xs.now ys.now }
{
    match (xs.first(), ys.first()) {
        (Some(c), Some(d)) => reason_of(right_at(held, end, *c), right_at(held, end, *d)),
        _ => Reason::Inner,
    }
}

fn reason_between<P: Positions>(held: &P, end: usize, xs: &[ElementId], ys: &[ElementId]) -> Reason
    ensures { result ≡ reason_between_in (history_at (P.operations held.now) end) xs.now ys.now }
{
    let count = common_count(xs, ys);
    reason_at(held, end, behind(xs, count), behind(ys, count))
}

fn chain_of(alloc: Global, ids: &[ElementId]) -> Result<Chain, AllocError>
    ensures { IfOk result (λ chain. chain ≡ ids.now) }
{
    Ok(Chain::new(Vec::from_slice(alloc, ids)?))
}

/// An element and then a chain.
fn headed(alloc: Global, x: ElementId, chain: &[ElementId]) -> Result<Chain, AllocError>
    ensures { IfOk result (λ all. all ≡ x ∷ chain.now) }
{
    let mut all = Vec::new(alloc);
    all.push(x)?;
    all.extend_from_slice(chain)?;
    Ok(Chain::new(all))
}

/// The step of x and y whose chains of left origins part at the siblings a and b.
fn sibling_step<P: Positions>(
    alloc: Global,
    held: &P,
    end: usize,
    claim: (ElementId, ElementId),
    siblings: (ElementId, ElementId),
    downs: (Chain, Chain),
) -> Result<Step, AllocError>
    ensures { IfOk result (λ step. step
        ≡ record {
          x = claim.0;
          y = claim.1;
          down_x = downs.0;
          down_y = downs.1;
          right_x = rights (history_at (P.operations held.now) end) siblings.0;
          right_y = rights (history_at (P.operations held.now) end) siblings.1;
          reason = reason_between_in (history_at (P.operations held.now) end)
              (rights (history_at (P.operations held.now) end) siblings.0) (rights (history_at (P.operations held.now) end) siblings.1);
        }) }
{
    let (x, y) = claim;
    let (down_x, down_y) = downs;
    let right_x = rights_of(alloc, held, end, siblings.0)?;
    let right_y = rights_of(alloc, held, end, siblings.1)?;
    let reason = reason_between(held, end, right_x.as_slice(), right_y.as_slice());
    Ok(Step {
        x,
        y,
        down_x,
        down_y,
        right_x: Chain::new(right_x),
        right_y: Chain::new(right_y),
        reason,
    })
}

/// The step of x and y whose chains of left origins go on with these from where they part.
fn step_at<P: Positions>(
    alloc: Global,
    held: &P,
    end: usize,
    x: ElementId,
    y: ElementId,
    down_x: &[ElementId],
    down_y: &[ElementId],
) -> Result<Step, AllocError>
    ensures { IfOk result (λ step. step ≡ certificate_made_at (history_at (P.operations held.now) end) x y down_x.now down_y.now) }
{
    match (down_x.first(), down_y.first()) {
        (Some(a), Some(b)) => {
            let downs = (chain_of(alloc, down_x)?, chain_of(alloc, down_y)?);
            sibling_step(alloc, held, end, (x, y), (*a, *b), downs)
        }
        _ => Ok(Step::by_prefix(alloc, x, y, headed(alloc, x, down_y)?)),
    }
}

fn make_step<P: Positions>(
    alloc: Global,
    held: &P,
    end: usize,
    x: ElementId,
    y: ElementId,
) -> Result<Step, AllocError>
    ensures { IfOk result (λ step. step ≡ certificate_made (history_at (P.operations held.now) end) x y) }
{
    let (down_x, down_y) = downs_of(alloc, held, end, x, y)?;
    step_at(alloc, held, end, x, y, down_x.as_slice(), down_y.as_slice())
}

fn claim_below(step: &Step) -> Option<(ElementId, ElementId)>
    ensures { result ≡ rests_on step.now.reason }
{
    match step.reason {
        Reason::Later(p, q) => Some((q, p)),
        _ => None,
    }
}

/// Each step rests on what was so before an operation more.
fn make<P: Positions>(
    alloc: Global,
    held: &P,
    x: ElementId,
    y: ElementId,
) -> Result<Vec<Step>, AllocError>
    ensures lawful { Lawful (reverse (P.operations held.now)) }
    ensures steps { IfOk result (λ steps. steps.items ≡ certificate (reverse (P.operations held.now)) x y) }
{
    let mut steps = Vec::new(alloc);
    let mut claim = (x, y);
    let mut end = held.count();
    'steps: while end > 0 {
        let step = make_step(alloc, held, end, claim.0, claim.1)?;
        let below = claim_below(&step);
        steps.push(step)?;
        end -= 1;
        match below {
            Some(next) => claim = next,
            None => return Ok(steps),
        }
    }
    Ok(steps)
}

/// The certificate that x stands before y. The operations are known to be lawful, so a caller need not show it.
pub fn prove<P: Positions>(
    alloc: Global,
    held: &P,
    x: ElementId,
    y: ElementId,
) -> Result<Proof, NoMemory>
    requires before { Lawful (reverse (P.operations held.now)) → IsOrderedBefore (reverse (P.operations held.now)) x y }
    ensures valid { IfOk result (λ proof. IsValid (reverse (P.operations held.now)) proof) }
    ensures claims { IfOk result (λ proof. Claims x y proof) }
{
    let steps = make(alloc, held, x, y)?;
    Ok(Proof::new(steps))
}
