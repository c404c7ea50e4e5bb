//! Certificates are checked by look-ups of their elements.

ghost use Rattle.std.specs.Prelude.{◌≡◌, ◌↔◌, reverse, true, IfOk};
ghost use Rattle.origin_model.specs.order.Order.{right_at as right_origin};
ghost use Rattle.order_proof.specs.Certificates.{IsValid};
ghost use Rattle.order_proof.specs.Positions.{history_at};
ghost use Rattle.order_proof.specs.Readings.{IsValidText};
ghost use Rattle.order_proof.specs.Checks.{same_place as places_same, origins_decide, chains_decide, siblings_at};
ghost use Rattle.order_proof.specs.Checks.{sibling_test, continues_chain, is_inner as is_inner_reason, rests_on_none, prefix_test};
ghost use Rattle.order_proof.specs.Checks.{reason_test, step_test, rests_test, test};

use crate::chains::{is_down, is_rights};
use crate::look_ups::{left_at, place_at, right_at};
use crate::positions::Positions;
use crate::{Proof, Reason, Step};
use fugue_ids::{ElementId, NoMemory};
use origin_model::Place;
use std::alloc::Global;

fn same_place(one: Option<Place>, other: Option<Place>) -> bool
    ensures { result ≡ places_same one other }
{
    match (one, other) {
        (Some(p), Some(q)) => p == q,
        _ => false,
    }
}

/// Whether the right origins of c and d decide so.
fn by_origins<P: Positions>(
    held: &P,
    end: usize,
    c: ElementId,
    d: ElementId,
    reason: Reason,
) -> bool
    ensures { result
        ≡ origins_decide (right_origin (history_at (P.operations held.now) end) c) (right_origin (history_at (P.operations held.now) end) d) c d reason }
{
    let one = right_at(held, end, c);
    let other = right_at(held, end, d);
    match reason {
        Reason::End => one.is_none() && other.is_some(),
        Reason::Later(p, q) => one == Some(p) && other == Some(q) && p != q,
        Reason::Tie => one == other && c < d,
        Reason::Prefix | Reason::Inner => false,
    }
}

fn is_inner(reason: Reason) -> bool
    ensures { result ≡ is_inner_reason reason }
{
    match reason {
        Reason::Inner => true,
        _ => false,
    }
}

/// Whether two chains of right origins decide so.
#[tactic(auto, using(crate::proofs::CheckLemmas::decide_ends))]
fn by_chains<P: Positions>(
    held: &P,
    end: usize,
    reason: Reason,
    xs: &[ElementId],
    ys: &[ElementId],
) -> bool
    ensures { result ≡ chains_decide (history_at (P.operations held.now) end) reason xs.now ys.now }
{
    let mut i = 0;
    'scan: while i < xs.len() {
        if i == ys.len() {
            return is_inner(reason);
        }
        if xs[i] != ys[i] {
            return by_origins(held, end, xs[i], ys[i], reason);
        }
        i += 1;
    }
    false
}

/// Whether two chains begin with distinct siblings, which have these chains of right origins.
fn are_siblings<P: Positions>(
    held: &P,
    end: usize,
    down_x: &[ElementId],
    down_y: &[ElementId],
    right_x: &[ElementId],
    right_y: &[ElementId],
) -> bool
    ensures { result ≡ siblings_at (history_at (P.operations held.now) end) down_x.now down_y.now right_x.now right_y.now }
{
    match (down_x.first(), down_y.first()) {
        (Some(a), Some(b)) => {
            *a != *b
                && left_at(held, end, *a) == left_at(held, end, *b)
                && is_rights(held, end, *a, right_x)
                && is_rights(held, end, *b, right_y)
        }
        _ => false,
    }
}

fn holds_at_siblings<P: Positions>(held: &P, end: usize, step: &Step) -> bool
    ensures { result ≡ sibling_test (history_at (P.operations held.now) end) step.now step.now.reason }
{
    let (down_x, down_y) = (step.down_x.as_slice(), step.down_y.as_slice());
    let (right_x, right_y) = (step.right_x.as_slice(), step.right_y.as_slice());
    are_siblings(held, end, down_x, down_y, right_x, right_y)
        && is_down(held, end, step.x, down_x)
        && is_down(held, end, step.y, down_y)
        && by_chains(held, end, step.reason, right_x, right_y)
}

fn begins_with(x: ElementId, chain: &[ElementId]) -> bool
    ensures { result ≡ continues_chain x chain.now }
{
    chain.len() > 1 && chain[0] == x
}

fn holds_by_prefix<P: Positions>(held: &P, end: usize, step: &Step) -> bool
    ensures { result ≡ prefix_test (history_at (P.operations held.now) end) step.now }
{
    let down_y = step.down_y.as_slice();
    begins_with(step.x, down_y)
        && is_down(held, end, step.y, down_y)
        && step.down_x.as_slice().is_empty()
        && step.right_x.as_slice().is_empty()
        && step.right_y.as_slice().is_empty()
}

fn holds<P: Positions>(held: &P, end: usize, step: &Step) -> bool
    ensures { result ≡ reason_test (history_at (P.operations held.now) end) step.now step.now.reason }
{
    match step.reason {
        Reason::Prefix => holds_by_prefix(held, end, step),
        _ => holds_at_siblings(held, end, step),
    }
}

fn is_step<P: Positions>(held: &P, end: usize, step: &Step) -> bool
    ensures { result ≡ step_test (history_at (P.operations held.now) end) step.now }
{
    same_place(place_at(held, end, step.x), place_at(held, end, step.y)) && holds(held, end, step)
}

fn rests_on(step: &Step, next: &Step) -> bool
    ensures { result ≡ rests_test step.now.reason next.now }
{
    match step.reason {
        Reason::Later(p, q) => next.y == p && next.x == q,
        _ => false,
    }
}

/// Whether the step rests on no other.
fn ends_here(step: &Step) -> bool
    ensures { result ≡ rests_on_none step.now.reason }
{
    match step.reason {
        Reason::Later(_, _) => false,
        _ => true,
    }
}

#[tactic(auto, using(crate::proofs::CheckLemmas::test_ends))]
fn passes<P: Positions>(held: &P, end: usize, steps: &[Step]) -> bool
    ensures { result ≡ test (history_at (P.operations held.now) end) steps.now }
{
    let mut i = 0;
    'scan: while i < steps.len() {
        let step = &steps[i];
        if !is_step(held, end, step) {
            return false;
        }
        i += 1;
        if i == steps.len() {
            return ends_here(step);
        }
        if !rests_on(step, &steps[i]) {
            return false;
        }
    }
    false
}

/// Whether the certificate is valid. It takes no memory.
pub fn check<P: Positions>(held: &P, proof: &Proof) -> bool
    ensures valid { (result ≡ true) ↔ IsValid (reverse (P.operations held.now)) proof.now }
{
    passes(held, held.count(), proof.as_slice())
}

/// Whether the text is that of a valid certificate.
pub fn check_text<P: Positions>(alloc: Global, held: &P, text: &[u8]) -> Result<bool, NoMemory>
    ensures valid { IfOk result (λ valid. (valid ≡ true) ↔ IsValidText (reverse (P.operations held.now)) text.now) }
{
    match Proof::read(alloc, text)? {
        Some(proof) => Ok(check(held, &proof)),
        None => Ok(false),
    }
}
