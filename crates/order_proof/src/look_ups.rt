//! Elements looked up among the first accepted operations.

ghost use Rattle.std.specs.Prelude.{◌≡◌};
ghost use Rattle.origin_model.specs.order.Order.{left_at as left_origin, right_at as right_origin};
ghost use Rattle.order_proof.specs.Checks.{place_holding as place_in};
ghost use Rattle.order_proof.specs.Positions.{history_at};

use crate::origins::{left_of, place_of, right_of};
use crate::positions::{Positions, find};
use fugue_ids::ElementId;
use origin_model::Place;

pub fn place_at<P: Positions>(held: &P, end: usize, x: ElementId) -> Option<Place>
    ensures { result ≡ place_in (history_at (P.operations held.now) end) x }
{
    match find(held, end, x) {
        Some((_, op)) => place_of(&op),
        None => None,
    }
}

pub fn left_at<P: Positions>(held: &P, end: usize, x: ElementId) -> Option<ElementId>
    ensures { result ≡ left_origin (history_at (P.operations held.now) end) x }
{
    match find(held, end, x) {
        Some((_, op)) => left_of(&op),
        None => None,
    }
}

pub fn right_at<P: Positions>(held: &P, end: usize, x: ElementId) -> Option<ElementId>
    ensures { result ≡ right_origin (history_at (P.operations held.now) end) x }
{
    match find(held, end, x) {
        Some((_, op)) => right_of(&op),
        None => None,
    }
}
