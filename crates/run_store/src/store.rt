//! The elements of a sequence, kept in runs: insertion, deletion, and the order that is searched by keys.
ghost use Rattle.std.specs.Prelude.{◌≡◌, ◌≢◌, ◌↔◌, ◌<◌, ◌≤◌, ◌+◌, ◌^◌, ◌*◌, [], AllPairs, Contains, IsTrue, length, map, true, IfErr, OnErr};
ghost use Rattle.std.specs.Prelude.{OnOk, slice_get};
ghost use Rattle.std.specs.List.{insert};
ghost use Rattle.std.specs.Str.{encode_utf8_all};
ghost use Rattle.fugue_ids.specs.Gathers.{GathersText};
ghost use Rattle.fugue_ids.specs.Outs.{WritesBytes};
ghost use Rattle.origin_model.specs.sides.Slot.{IsBeside};
ghost use Rattle.origin_model.specs.sides.KeyedGap.{gap_index};
ghost use Rattle.origin_model.specs.edits.Landing.{following};
ghost use Rattle.run_store.specs.Cells.{cell_hiding, cells_hiding, cell_ids, is_hidden_cell as hidden_in, keyed_cells};
ghost use Rattle.run_store.specs.Hiding.{HaveCells, AreHidden};
ghost use Rattle.run_store.specs.Growth.{AreFresh, inserted_at};
ghost use Rattle.run_store.specs.NewCells.{continues, new_cell, new_cells};
ghost use Rattle.run_store.specs.Stored.{IsAloneWhereEmpty, IsRaisedBy};

use crate::insert::Beginning;
use crate::run::Runs;
use crate::shown::Shown;
use fugue_ids::{
    ElementId, Failed, Gap, Gather, Key, MOST_OPERATIONS, NoMemory, OrderOf, Out, Sink,
};
use std::alloc::Global;
use std::marker::Model;

/// An allocation failure in the midst of several: so many of them were done, from the first on.
#[derive(Clone, Copy, Debug)]
pub struct StoppedAfter {
    pub done: u32,
}

/// The cells of a place in order, kept in runs.
#[derive(Drop)]
pub struct RunStore {
    pub(crate) runs: Runs,
}

impl Model for RunStore {
    ghost use Rattle.std.specs.Prelude.{length};
    ghost use Rattle.run_store.specs.Stored.{Stored};

    ghost Value = { Stored };

    ghost use Rattle.run_store.specs.Runs.{cells_in};

    ghost view = { λ s. record { cells = cells_in s.runs; runs = length s.runs.rope } };
}

impl RunStore {
    /// A store without cells. It takes no memory.
    pub fn new(alloc: Global) -> RunStore
        ensures { result ≡ record { cells = []; runs = 0 } }
    {
        RunStore {
            runs: Runs::new(alloc),
        }
    }

    /// The cell is asked for soon: while it is near, that costs no search.
    pub fn look_at(&mut self, id: ElementId)
        ensures { self.new ≡ self.old }
    {
        self.runs.look_at(id);
    }

    /// One cell more, in the gap, which is not hidden. After an allocation failure a run may be parted.
    pub fn insert(
        &mut self,
        gap: Gap,
        id: ElementId,
        left: Option<ElementId>,
        right: Option<ElementId>,
        ch: char,
    ) -> Result<(), NoMemory>
        requires fresh { Contains (cell_ids self.old.cells) id → ⊥ }
        requires beside { IsBeside gap (cell_ids self.old.cells) }
        requires alone { IsAloneWhereEmpty gap self.old.cells }
        requires room { length self.old.cells < MOST_OPERATIONS }
        ensures ok { OnOk result (self.new.cells
            ≡ insert self.old.cells (gap_index gap (cell_ids self.old.cells))
            (new_cell self.old.cells id left right ch)) }
        ensures err { OnErr result (self.new.cells ≡ self.old.cells) }
        ensures continued { OnOk result
            (continues self.old.cells gap id left right ≡ true → self.new.runs ≡ self.old.runs) }
        ensures raised { OnOk result (IsRaisedBy 2 self.old.runs self.new.runs) }
        ensures refused { OnErr result (IsRaisedBy 1 self.old.runs self.new.runs) }
    {
        let counter = id.counter;
        prove!(counter <= u32::MAX);
        self.insert_run(gap, id, left, right, &[ch])
    }

    /// A run of new cells, in the gap, which are not hidden: each but the first has the identifier after that of the
    /// one before it, which is its left origin, and the right origin of the first. After an allocation failure a run
    /// may be parted.
    pub fn insert_run(
        &mut self,
        gap: Gap,
        id: ElementId,
        left: Option<ElementId>,
        right: Option<ElementId>,
        text: &[char],
    ) -> Result<(), NoMemory>
        requires some { 0 < length text.now }
        requires counters { id.counter + length text.now ≤ 2 ^ 32 }
        requires fresh { AreFresh self.old.cells id (length text.now) }
        requires beside { IsBeside gap (cell_ids self.old.cells) }
        requires alone { IsAloneWhereEmpty gap self.old.cells }
        requires room { length self.old.cells + length text.now ≤ MOST_OPERATIONS }
        ensures ok { OnOk result (self.new.cells
            ≡ inserted_at (gap_index gap (cell_ids self.old.cells))
            (new_cells self.old.cells id left right text.now) self.old.cells) }
        ensures err { OnErr result (self.new.cells ≡ self.old.cells) }
        ensures continued { OnOk result
            (continues self.old.cells gap id left right ≡ true → self.new.runs ≡ self.old.runs) }
        ensures raised { OnOk result (IsRaisedBy 2 self.old.runs self.new.runs) }
        ensures refused { OnErr result (IsRaisedBy 1 self.old.runs self.new.runs) }
    {
        self.runs.sound();
        let head = self.runs.new_head(id, left, right);
        match gap {
            Gap::Alone => self.runs.begin(Beginning::First, &head, text),
            Gap::Before(at) => self.runs.insert_before(at, &head, text),
            Gap::After(at) => self.runs.insert_behind(at, &head, text),
        }
    }

    /// Hides a cell, which may part its run. A hidden cell stays as it is.
    pub fn hide(&mut self, id: ElementId) -> Result<(), NoMemory>
        requires held { Contains (cell_ids self.old.cells) id }
        ensures ok { OnOk result (self.new.cells ≡ map (cell_hiding id) self.old.cells) }
        ensures err { OnErr result (self.new.cells ≡ self.old.cells) }
        ensures raised { OnOk result (IsRaisedBy 2 self.old.runs self.new.runs) }
        ensures refused { OnErr result (IsRaisedBy 1 self.old.runs self.new.runs) }
        ensures again { hidden_in self.old.cells id ≡ true → self.new ≡ self.old }
    {
        let counter = id.counter;
        prove!(counter <= u32::MAX);
        match self.hide_run(id, 1) {
            Ok(()) => Ok(()),
            Err(_) => Err(NoMemory),
        }
    }

    /// Hides the cells of so many identifiers from this one on, those of a run at once. Hidden cells stay as they are.
    /// An allocation failure leaves fewer hidden, and tells how many.
    pub fn hide_run(&mut self, first: ElementId, count: u32) -> Result<(), StoppedAfter>
        requires counters { first.counter + count ≤ 2 ^ 32 }
        requires held { HaveCells self.old.cells first count }
        ensures ok { OnOk result (self.new.cells ≡ cells_hiding first count self.old.cells) }
        ensures err { IfErr result (λ e. self.new.cells ≡ cells_hiding first e.done self.old.cells) }
        ensures fewer { IfErr result (λ e. e.done < count) }
        ensures raised { OnOk result (IsRaisedBy (2 * count) self.old.runs self.new.runs) }
        ensures refused { IfErr result (λ e. IsRaisedBy (2 * e.done + 1) self.old.runs self.new.runs) }
        ensures again { AreHidden self.old.cells first count → self.new ≡ self.old }
    {
        self.runs.hide_run(first, count)
    }
}

// The cells as an order that is searched by keys.

impl OrderOf for RunStore {
    ghost use Rattle.run_store.specs.Cells.{keyed_cells};

    ghost listed = { λ store. keyed_cells store.cells };

    fn earlier(&self, a: ElementId, b: ElementId) -> bool {
        self.runs.is_before(a, b)
    }

    fn key(&self, id: ElementId) -> Key {
        self.runs.sound();
        match self.runs.head(id) {
            Some(head) => head.key,
            None => Key {
                depth: 0,
                forest: 0,
            },
        }
    }

    fn behind(&self, id: Option<ElementId>) -> Option<ElementId> {
        self.runs.behind(id)
    }

    fn before(&self, id: Option<ElementId>) -> Option<ElementId> {
        self.runs.before(id)
    }

    fn first_low(&self, id: Option<ElementId>, most: Key) -> Option<ElementId> {
        self.runs.first_low(id, most)
    }

    fn last_low(&self, id: Option<ElementId>, most: Key) -> Option<ElementId> {
        self.runs.last_low(id, most)
    }

    fn last_passing<P: Fn(ElementId) -> bool>(
        &self,
        from: Option<ElementId>,
        to: Option<ElementId>,
        most: Key,
        test: P,
    ) -> Option<ElementId> {
        self.runs.sound();
        self.runs.last_passing(from, to, most, test)
    }
}
