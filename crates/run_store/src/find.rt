//! Finding an element by its identifier: its run and its offset there; the run used last is tried first.
ghost use Rattle.std.specs.Prelude.{◌≡◌, ◌<◌, ◌≤◌, ◌+◌, ◌-◌, Contains, IfNone, IfSome, Some, length, option_map};
ghost use Rattle.std.specs.Prelude.{slice_get};
ghost use Rattle.fugue_ids.specs.Identifiers.{Identifier};
ghost use Rattle.node_rope.specs.Items.{value_under};
ghost use Rattle.run_store.specs.Cells.{cell_of, cell_ids};
ghost use Rattle.run_store.specs.Heads.{run_head_of};
ghost use Rattle.run_store.specs.Runs.{IsCellSpot, cells_in};

use crate::cell::Head;
use crate::parts::cell_at;
use crate::run::{Run, Runs};
use fugue_ids::ElementId;

/// A run, and how many of its cells stand before the one that was asked for.
#[derive(Clone, Copy)]
pub(crate) struct Spot {
    pub(crate) run: Run,
    pub(crate) offset: u32,
}

/// How many cells of the run under the key stand before the one of this identifier, if that is among them.
fn offset_in(key: ElementId, run: &Run, id: ElementId) -> Option<u32>
    ensures same { IfSome result (λ offset. key.replica ≡ id.replica) }
    ensures behind { IfSome result (λ offset. id.counter ≡ key.counter + offset) }
    ensures inside { IfSome result (λ offset. offset < run.now.len) }
    ensures none { IfNone result
        (key.replica ≡ id.replica → key.counter ≤ id.counter → run.now.len ≤ id.counter - key.counter) }
{
    if key.replica != id.replica || id.counter < key.counter {
        return None;
    }
    let offset = id.counter - key.counter;
    if offset < run.len { Some(offset) } else { None }
}

impl Runs {
    /// The run under its first identifier.
    pub(crate) fn run(&self, key: ElementId) -> Option<Run>
        ensures { result ≡ value_under key self.now.rope }
    {
        self.rope.get(key).copied()
    }

    /// The run after this many others.
    pub(crate) fn run_at(&self, place: usize) -> Option<Run>
        ensures { result ≡ option_map (λ x. x.1) (slice_get self.now.rope place) }
    {
        self.rope.value_at(place).copied()
    }

    /// How many runs stand before this one.
    pub(crate) fn place_of(&self, run: &Run) -> usize
        requires { value_under run.now.id self.now.rope ≡ Some run.now }
        ensures { slice_get self.now.rope result ≡ Some (run.now.id, run.now) }
    {
        match self.rope.place(run.id) {
            Some(place) => place,
            None => 0,
        }
    }

    /// Where the cell of this identifier is, if it is in the run that was used last.
    #[inline]
    fn find_near(&self, id: ElementId) -> Option<Spot>
        ensures { IfSome result (λ s. IsCellSpot self.now.rope id s.run s.offset) }
    {
        let key = self.rope.at_hand()?;
        let run = self.run(key)?;
        let offset = offset_in(key, &run, id)?;
        Some(Spot { run, offset })
    }

    /// Where the cell of this identifier is. In the run that was used last this costs no search.
    #[inline]
    pub(crate) fn find(&self, id: ElementId) -> Option<Spot>
        ensures some { IfSome result (λ s. IsCellSpot self.now.rope id s.run s.offset) }
        ensures none { IfNone result (Contains (cell_ids (cells_in self.now)) id → ⊥) }
    {
        match self.find_near(id) {
            Some(spot) => Some(spot),
            None => self.find_by_key(id),
        }
    }

    /// The run of the cell is at hand from now on.
    pub(crate) fn look_at(&mut self, id: ElementId)
        ensures { self.new ≡ self.old }
    {
        if self.find_near(id).is_none() {
            self.rope.keep_at_hand(id);
        }
    }

    /// Where the cell of this identifier is, by the greatest key that is not above it. It is out of line, so that the look
    /// at the run that was used last can be inlined.
    #[inline(never)]
    fn find_by_key(&self, id: ElementId) -> Option<Spot>
        ensures some { IfSome result (λ s. IsCellSpot self.now.rope id s.run s.offset) }
        ensures none { IfNone result (Contains (cell_ids (cells_in self.now)) id → ⊥) }
    {
        match self.rope.floor_item(id) {
            Some(floor) => {
                let offset = offset_in(floor.0, floor.1, id)?;
                Some(Spot {
                    run: *floor.1,
                    offset,
                })
            }
            None => None,
        }
    }

    /// Where the cell of this identifier is, if it is in the run directly after the one that was used last.
    fn find_next(&self, id: ElementId) -> Option<Spot>
        ensures { IfSome result (λ s. IsCellSpot self.now.rope id s.run s.offset) }
    {
        let key = self.rope.at_hand()?;
        match self.rope.next_item(key) {
            Some(next) => {
                let offset = offset_in(next.0, next.1, id)?;
                Some(Spot {
                    run: *next.1,
                    offset,
                })
            }
            None => None,
        }
    }

    /// Where the cell of this identifier is, if it is in the run that was used last or in the one after it. This costs
    /// no search.
    fn find_close(&self, id: ElementId) -> Option<Spot>
        ensures { IfSome result (λ s. IsCellSpot self.now.rope id s.run s.offset) }
    {
        match self.find_near(id) {
            Some(spot) => Some(spot),
            None => self.find_next(id),
        }
    }

    /// Where the cell of this identifier is, which is looked for close to the run that was used last first.
    fn find_beside(&self, id: ElementId) -> Option<Spot>
        ensures some { IfSome result (λ s. IsCellSpot self.now.rope id s.run s.offset) }
        ensures none { IfNone result (Contains (cell_ids (cells_in self.now)) id → ⊥) }
    {
        match self.find_close(id) {
            Some(spot) => Some(spot),
            None => self.find_by_key(id),
        }
    }

    /// The same for a cell that is to be changed: if it is not close, its run is at hand from now on.
    pub(crate) fn reach(&mut self, id: ElementId) -> Option<Spot>
        ensures some { IfSome result (λ s. IsCellSpot self.old.rope id s.run s.offset) }
        ensures none { IfNone result (Contains (cell_ids (cells_in self.old)) id → ⊥) }
        ensures same { self.new ≡ self.old }
    {
        match self.find_close(id) {
            Some(spot) => Some(spot),
            None => {
                self.rope.keep_at_hand(id);
                self.find(id)
            }
        }
    }

    /// What the cell of this identifier says of itself, by where it was found; None where it was not.
    fn head_at(&self, id: ElementId, spot: Option<Spot>) -> Option<Head>
        requires some { IfSome spot (λ s. IsCellSpot self.now.rope id s.run s.offset) }
        requires none { IfNone spot (Contains (cell_ids (cells_in self.now)) id → ⊥) }
        ensures is { result ≡ option_map run_head_of (cell_of (cells_in self.now) id) }
        ensures depths { IfSome result (λ h. h.key.depth ≤ length (cells_in self.now)) }
        ensures forests { IfSome result (λ h. h.key.forest ≤ length (cells_in self.now)) }
    {
        self.sound();
        // The contract alone needs the identifier.
        let _ = id;
        match spot {
            Some(spot) => Some(cell_at(&spot.run, spot.offset)),
            None => None,
        }
    }

    /// What the cell of this identifier says of itself.
    pub(crate) fn head(&self, id: ElementId) -> Option<Head>
        ensures is { result ≡ option_map run_head_of (cell_of (cells_in self.now) id) }
        ensures depths { IfSome result (λ h. h.key.depth ≤ length (cells_in self.now)) }
        ensures forests { IfSome result (λ h. h.key.forest ≤ length (cells_in self.now)) }
    {
        self.head_at(id, self.find(id))
    }

    /// The same of a cell that mostly stands near the run that was used last.
    pub(crate) fn head_beside(&self, id: ElementId) -> Option<Head>
        ensures is { result ≡ option_map run_head_of (cell_of (cells_in self.now) id) }
        ensures depths { IfSome result (λ h. h.key.depth ≤ length (cells_in self.now)) }
        ensures forests { IfSome result (λ h. h.key.forest ≤ length (cells_in self.now)) }
    {
        self.head_at(id, self.find_beside(id))
    }
}
