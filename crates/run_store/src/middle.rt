//! Where elements stand among the runs, and an element in the middle of a range, for binary search.
ghost use Rattle.std.specs.Prelude.{◌≡◌, ◌↔◌, ◌+◌, ◌≤◌, ◌<◌, ◌^◌, Contains, IfNone, IfSome, IsNone, Some, [], slice_get, ℕ};
ghost use Rattle.std.specs.Prelude.{length};
ghost use Rattle.fugue_ids.specs.Identifiers.{Identifier};
ghost use Rattle.fugue_ids.specs.Keys.{between, rest_of, ids as ids_of};
ghost use Rattle.fugue_ids.specs.Listed.{HoldsOrigin};
ghost use Rattle.run_store.specs.Cells.{cell_ids, keyed_cells};
ghost use Rattle.run_store.specs.Heads.{head_after};
ghost use Rattle.run_store.specs.Standings.{BeginsAfter, EndsBefore, IsBegin, IsEndStanding, IsFoundCell, IsInRun, IsStandingPart, IsMemberWithin};
ghost use Rattle.run_store.specs.Standings.{found_at, index_at};
ghost use Rattle.run_store.specs.Runs.{cells_in, first_of};
ghost use Rattle.run_store.specs.declared.run.Run.{Run};

use crate::parts::cell_at;
use crate::run::{Run, Runs};
use crate::standing::{Found, Part, Standing};
use fugue_ids::ElementId;

/// The cell of a run at a place after `offset` others of it.
fn found_in(run: &Run, place: usize, offset: u32) -> Found
    requires counters { run.now.id.counter + offset < 2 ^ 32 }
    requires depths { run.now.key.depth + offset < 2 ^ 32 }
    ensures { result ≡ found_at place offset (head_after offset (first_of run.now)) }
{
    let cell = cell_at(run, offset);
    Found {
        id: cell.id,
        key: cell.key,
        at: Standing { place, offset },
    }
}

impl Runs {
    /// The cell of this identifier, which is there.
    pub(crate) fn found(&self, id: ElementId) -> Found
        requires { Contains (cell_ids (cells_in self.now)) id }
        ensures found { IsFoundCell self.now.rope result }
        ensures same { result.id ≡ id }
    {
        self.sound();
        match self.find(id) {
            Some(spot) => found_in(&spot.run, self.place_of(&spot.run), spot.offset),
            None => unreachable!(),
        }
    }

    /// Where the cells after this one begin.
    pub(crate) fn begin_of(&self, from: &Option<ElementId>) -> Standing
        requires { HoldsOrigin (cell_ids (cells_in self.now)) from.now }
        ensures { BeginsAfter self.now from.now result }
    {
        self.sound();
        match *from {
            Some(id) => {
                let cell = self.found(id);
                Standing {
                    place: cell.at.place,
                    offset: cell.at.offset + 1,
                }
            }
            None => Standing {
                place: 0,
                offset: 0,
            },
        }
    }

    /// Where the cells before this one end.
    pub(crate) fn end_of(&self, to: Option<ElementId>) -> Standing
        requires { HoldsOrigin (cell_ids (cells_in self.now)) to }
        ensures { EndsBefore self.now to result }
    {
        self.sound();
        match to {
            Some(id) => self.found(id).at,
            None => Standing {
                place: self.run_count(),
                offset: 0,
            },
        }
    }

    /// A cell of the run at the place, in the middle between two offsets.
    fn middle_of_run(&self, place: usize, from: u32, to: u32) -> Option<Found>
        ensures some { IfSome result (λ m. IsInRun self.now.rope place from to m.id) }
        ensures found { IfSome result (IsFoundCell self.now.rope) }
        ensures none { IfNone result
            ((x : Identifier × Run) → slice_get self.now.rope place ≡ Some x → from < to → x.1.len ≤ from) }
    {
        self.sound();
        let run = self.run_at(place)?;
        let to = to.min(run.len);
        if from < to {
            Some(found_in(&run, place, from + (to - from) / 2))
        } else {
            None
        }
    }

    /// The first cell of a run at a place from `from` on and before `to`: of the run that stands highest in the tree, which
    /// no clause says.
    fn head_within(&self, from: usize, to: usize) -> Option<Found>
        ensures from { IfSome result (λ m. from ≤ m.at.place) }
        ensures to { IfSome result (λ m. m.at.place < to) }
        ensures some { IfSome result (λ m. IsInRun self.now.rope m.at.place 0 1 m.id) }
        ensures found { IfSome result (IsFoundCell self.now.rope) }
        ensures none { IfNone result (from < to → length self.now.rope ≤ from) }
    {
        let (place, run) = self.rope.item_within(from, to)?;
        Some(found_in(run, place, 0))
    }

    /// A cell between the two places, if there is one: the first one of a run that stands between theirs, or else one in
    /// the middle of what is left of a run at an end.
    fn middle_between(&self, begin: Standing, end: Standing) -> Option<Found>
        requires from { IsBegin self.now.rope begin.place begin.offset }
        requires to { IsEndStanding self.now.rope end.place end.offset }
        requires order { index_at self.now begin.place begin.offset ≤ index_at self.now end.place end.offset }
        ensures some { IfSome result (λ m. IsMemberWithin (cell_ids (cells_in self.now))
            (index_at self.now begin.place begin.offset) (index_at self.now end.place end.offset) m.id) }
        ensures found { IfSome result (IsFoundCell self.now.rope) }
        ensures none { IfNone result
            (index_at self.now end.place end.offset ≤ index_at self.now begin.place begin.offset) }
    {
        self.sound();
        if begin.place == end.place {
            return self.middle_of_run(begin.place, begin.offset, end.offset);
        }
        if let Some(found) = self.head_within(begin.place + 1, end.place) {
            return Some(found);
        }
        match self.middle_of_run(begin.place, begin.offset, u32::MAX) {
            Some(found) => Some(found),
            None => self.middle_of_run(end.place, 0, end.offset),
        }
    }

    /// A cell of the part, if it has any.
    pub(crate) fn middle(&self, part: &Part) -> Option<Found>
        requires { IsStandingPart self.now part.now }
        ensures none { IsNone result
            ↔ (between part.now.from part.now.to (keyed_cells (cells_in self.now)) ≡ []) }
        ensures some { IfSome result
            (λ m. Contains (ids_of (between part.now.from part.now.to (keyed_cells (cells_in self.now)))) m.id) }
        ensures found { IfSome result (IsFoundCell self.now.rope) }
    {
        self.sound();
        self.middle_between(part.begin, part.end)
    }
}
