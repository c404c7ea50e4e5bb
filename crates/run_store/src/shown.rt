//! A walk along the visible elements of a store; a step within a run needs no search.
ghost use Rattle.std.specs.Prelude.{◌≡◌, ◌<◌, ◌^◌, IfNone, IfSome, None, drop, slice_get, suc};
ghost use Rattle.run_store.specs.Cells.{cell_ids, cells_shown};
ghost use Rattle.run_store.specs.Shown.{IsInHand};

use crate::find::Spot;
use crate::parts::cell_at;
use crate::store::RunStore;
use fugue_ids::ElementId;
use std::marker::Model;

/// A walk along the visible cells of a store, seen as those that are still to come. Within a run a step costs no
/// search.
#[derive(Drop)]
pub struct Shown<'a> {
    store: &'a RunStore,
    passed: usize,
    hand: Option<Spot>,
}

impl<'a> Model for Shown<'a> {
    ghost use Rattle.std.specs.Prelude.{IfSome, List, drop};
    ghost use Rattle.fugue_ids.specs.Identifiers.{Identifier};
    ghost use Rattle.run_store.specs.Cells.{cell_ids, cells_shown};
    ghost use Rattle.run_store.specs.Shown.{IsInHand};

    ghost Value = { List Identifier };

    ghost view = { λ s. drop s.passed (cell_ids (cells_shown s.store.now.cells)) };

    ghost invariant = { λ s. IfSome s.hand
        (λ h. IsInHand (cell_ids (cells_shown s.store.now.cells)) s.passed h.run h.offset) };
}

/// Where the next cell is: it is in hand, or looked for.
fn next_spot(store: &RunStore, passed: usize, hand: Option<Spot>) -> Option<Spot>
    requires { IfSome hand (λ h. IsInHand (cell_ids (cells_shown store.now.cells)) passed h.run h.offset) }
    ensures some { IfSome result (λ h. IsInHand (cell_ids (cells_shown store.now.cells)) passed h.run h.offset) }
    ensures none { IfNone result (slice_get (cell_ids (cells_shown store.now.cells)) passed ≡ None) }
{
    match hand {
        Some(spot) => Some(spot),
        None => store.visible_spot(passed),
    }
}

/// The next cell of the run.
fn behind(spot: &Spot) -> Option<Spot>
    requires inside { spot.now.offset < spot.now.run.len }
    requires fits { spot.now.run.len < 2 ^ 32 }
    ensures { IfSome result (λ h. (h.run ≡ spot.now.run) × (h.offset ≡ suc spot.now.offset)
        × (suc spot.now.offset < spot.now.run.len)) }
{
    let offset = spot.offset + 1;
    if offset < spot.run.len {
        Some(Spot {
            run: spot.run,
            offset,
        })
    } else {
        None
    }
}

impl<'a> Shown<'a> {
    /// A walk that has passed this many.
    pub(crate) fn new(store: &'a RunStore, passed: usize) -> Shown<'a>
        ensures { result ≡ drop passed (cell_ids (cells_shown store.now.cells)) }
    {
        Shown {
            store,
            passed,
            hand: None,
        }
    }

    /// The next one. It takes no memory.
    pub fn step(&mut self) -> Option<ElementId>
        ensures first { result ≡ slice_get self.old 0 }
        ensures rest { self.new ≡ drop 1 self.old }
    {
        if self.passed >= self.store.visible_count() {
            return None;
        }
        let spot = next_spot(self.store, self.passed, self.hand)?;
        self.passed += 1;
        self.hand = behind(&spot);
        Some(cell_at(&spot.run, spot.offset).id)
    }
}
