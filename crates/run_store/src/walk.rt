//! The neighbours of an element, before and after it, and which of two elements stands before the other.
ghost use Rattle.std.specs.Prelude.{◌≡◌, ◌≤◌, ◌⊎◌, Contains, Some, false, length, nat_lt, take};
ghost use Rattle.fugue_ids.specs.Identifiers.{Identifier};
ghost use Rattle.fugue_ids.specs.Keys.{first_id, front_of, last_id, rest_of};
ghost use Rattle.fugue_ids.specs.Listed.{HoldsOrigin, index_of};
ghost use Rattle.node_rope.specs.Items.{value_under};
ghost use Rattle.run_store.specs.Cells.{cell_ids, keyed_cells};
ghost use Rattle.run_store.specs.Runs.{IsCellSpot, all_cells, cells_in};

use crate::find::Spot;
use crate::parts::cell_at;
use crate::run::Runs;
use fugue_ids::ElementId;

impl Runs {
    /// The cell after this one.
    fn after_cell(&self, id: ElementId) -> Option<ElementId>
        ensures { result ≡ first_id (rest_of (Some id) (keyed_cells (cells_in self.now))) }
    {
        self.sound();
        let spot = self.find(id)?;
        if spot.offset + 1 < spot.run.len {
            Some(cell_at(&spot.run, spot.offset + 1).id)
        } else {
            self.rope.next(spot.run.id)
        }
    }

    /// The cell after this one; the first one after the beginning.
    pub(crate) fn behind(&self, id: Option<ElementId>) -> Option<ElementId>
        ensures { result ≡ first_id (rest_of id (keyed_cells (cells_in self.now))) }
    {
        match id {
            Some(id) => self.after_cell(id),
            None => self.rope.first(),
        }
    }

    /// The last cell of this many runs.
    fn last_of(&self, runs: usize) -> Option<ElementId>
        requires { runs ≤ length self.now.rope }
        ensures { result ≡ last_id (keyed_cells (all_cells self.now.letters (take runs self.now.rope))) }
    {
        self.sound();
        if runs == 0 {
            return None;
        }
        let run = self.run_at(runs - 1)?;
        Some(cell_at(&run, run.len - 1).id)
    }

    /// The cell before this one.
    fn before_cell(&self, id: ElementId) -> Option<ElementId>
        requires { Contains (cell_ids (cells_in self.now)) id }
        ensures { result ≡ last_id (front_of (Some id) (keyed_cells (cells_in self.now))) }
    {
        self.sound();
        let spot = self.find(id)?;
        if spot.offset > 0 {
            Some(cell_at(&spot.run, spot.offset - 1).id)
        } else {
            self.last_of(self.place_of(&spot.run))
        }
    }

    /// The cell before this one; the last one before the end.
    pub(crate) fn before(&self, id: Option<ElementId>) -> Option<ElementId>
        requires { HoldsOrigin (cell_ids (cells_in self.now)) id }
        ensures { result ≡ last_id (front_of id (keyed_cells (cells_in self.now))) }
    {
        match id {
            Some(id) => self.before_cell(id),
            None => self.last_of(self.run_count()),
        }
    }

    /// Whether the cell at a spot stands before that at another. Within a run their offsets tell.
    fn stands_before(&self, x: &Spot, y: &Spot) -> bool
        requires first { value_under x.now.run.id self.now.rope ≡ Some x.now.run }
        requires second { value_under y.now.run.id self.now.rope ≡ Some y.now.run }
        ensures { (a b : Identifier) → IsCellSpot self.now.rope a x.now.run x.now.offset
            → IsCellSpot self.now.rope b y.now.run y.now.offset
            → result ≡ nat_lt (index_of (cell_ids (cells_in self.now)) a)
            (index_of (cell_ids (cells_in self.now)) b) }
    {
        self.sound();
        if x.run.id == y.run.id {
            return x.offset < y.offset;
        }
        self.place_of(&x.run) < self.place_of(&y.run)
    }

    /// Whether a stands before b. Of a cell that is not held the answer is no.
    pub(crate) fn is_before(&self, a: ElementId, b: ElementId) -> bool
        ensures both { Contains (cell_ids (cells_in self.now)) a → Contains (cell_ids (cells_in self.now)) b
            → result ≡ nat_lt (index_of (cell_ids (cells_in self.now)) a)
            (index_of (cell_ids (cells_in self.now)) b) }
        ensures none { ((Contains (cell_ids (cells_in self.now)) a → ⊥)
            ⊎ (Contains (cell_ids (cells_in self.now)) b → ⊥)) → result ≡ false }
    {
        self.sound();
        let Some(x) = self.find(a) else {
            return false;
        };
        let Some(y) = self.find(b) else {
            return false;
        };
        self.stands_before(&x, &y)
    }
}
