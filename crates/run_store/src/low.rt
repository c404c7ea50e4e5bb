//! The nearest element whose search key is low enough; keys rise in a run, so its first has the least.
ghost use Rattle.std.specs.Prelude.{◌≡◌, ◌<◌, ◌≤◌, ◌+◌, ◌^◌, List, ℕ, drop, length, not, take};
ghost use Rattle.fugue_ids.specs.Keys.{first_low as first_low_in, front_of, key_lt, last_low as last_low_in, rest_of};
ghost use Rattle.fugue_ids.specs.Listed.{HoldsOrigin};
ghost use Rattle.run_store.specs.Cells.{cell_ids, keyed_cells};
ghost use Rattle.run_store.specs.Heads.{head_after, typed_cells};
ghost use Rattle.run_store.specs.Runs.{all_cells, cells_in, first_of};

use crate::parts::cell_at;
use crate::run::{Run, Runs, rank_of};
use fugue_ids::{ElementId, Key};

/// Whether a key is at most another.
pub(crate) fn is_at_most(key: Key, most: Key) -> bool
    ensures { result ≡ not (key_lt most key) }
{
    key <= most
}

/// The last of the first `len` cells of a run whose key is at most `most`.
fn last_low_of(run: &Run, len: u32, most: Key) -> Option<ElementId>
    requires within { len ≤ run.now.len }
    requires counters { run.now.id.counter + run.now.len ≤ 2 ^ 32 }
    requires depths { run.now.key.depth + run.now.len ≤ 2 ^ 32 }
    ensures { (letters : List ℕ) → length letters ≡ len
        → result ≡ last_low_in most (keyed_cells (typed_cells (first_of run.now) letters)) }
{
    if len == 0 {
        return None;
    }
    let deeper = most.depth.saturating_sub(run.key.depth).min(len - 1);
    if deeper > 0 {
        return Some(cell_at(run, deeper).id);
    }
    if is_at_most(run.key, most) {
        Some(run.id)
    } else {
        None
    }
}

/// The cell of a run after `from` others, where its key is at most `most`: those after it are deeper.
fn first_low_of(run: &Run, from: u32, most: Key) -> Option<ElementId>
    requires behind { 0 < from }
    requires counters { run.now.id.counter + run.now.len ≤ 2 ^ 32 }
    requires depths { run.now.key.depth + run.now.len ≤ 2 ^ 32 }
    ensures { (letters : List ℕ) → length letters ≡ run.now.len
        → result ≡ first_low_in most
        (keyed_cells (typed_cells (head_after from (first_of run.now)) (drop from letters))) }
{
    if from >= run.len {
        return None;
    }
    if run.key.depth + from <= most.depth {
        Some(cell_at(run, from).id)
    } else {
        None
    }
}

impl Runs {
    /// The first low cell of the runs after this many.
    fn first_low_from(&self, runs: usize, most: Key) -> Option<ElementId>
        ensures { result ≡ first_low_in most (keyed_cells (all_cells self.now.letters (drop runs self.now.rope))) }
    {
        self.rope.first_low(runs, rank_of(most))
    }

    /// The last low cell of this many runs.
    fn last_low_to(&self, runs: usize, most: Key) -> Option<ElementId>
        ensures { result ≡ last_low_in most (keyed_cells (all_cells self.now.letters (take runs self.now.rope))) }
    {
        match self.rope.last_low_item(runs, rank_of(most)) {
            Some(item) => last_low_of(item.1, item.1.len, most),
            None => None,
        }
    }

    /// The first low cell after this one, or after the beginning.
    pub(crate) fn first_low(&self, id: Option<ElementId>, most: Key) -> Option<ElementId>
        requires { HoldsOrigin (cell_ids (cells_in self.now)) id }
        ensures { result ≡ first_low_in most (rest_of id (keyed_cells (cells_in self.now))) }
    {
        self.sound();
        let id = match id {
            Some(id) => id,
            None => return self.first_low_from(0, most),
        };
        let spot = self.find(id)?;
        match first_low_of(&spot.run, spot.offset + 1, most) {
            Some(id) => Some(id),
            None => self.first_low_from(self.place_of(&spot.run) + 1, most),
        }
    }

    /// The last low cell before this one, or before the end.
    pub(crate) fn last_low(&self, id: Option<ElementId>, most: Key) -> Option<ElementId>
        requires { HoldsOrigin (cell_ids (cells_in self.now)) id }
        ensures { result ≡ last_low_in most (front_of id (keyed_cells (cells_in self.now))) }
    {
        self.sound();
        let id = match id {
            Some(id) => id,
            None => return self.last_low_to(self.run_count(), most),
        };
        let spot = self.find(id)?;
        match last_low_of(&spot.run, spot.offset, most) {
            Some(id) => Some(id),
            None => self.last_low_to(self.place_of(&spot.run), most),
        }
    }
}
