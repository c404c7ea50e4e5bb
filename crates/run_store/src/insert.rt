//! Inserting new elements, each after the one before it: in the run they continue, or in one of their own.
ghost use Rattle.std.specs.Prelude.{◌≡◌, ◌<◌, ◌≤◌, ◌+◌, ◌^◌, [], Some, IsNone, Contains, IfOk, length, suc, true};
ghost use Rattle.std.specs.Prelude.{false, slice_index_or, OnErr, OnOk};
ghost use Rattle.fugue_ids.specs.Listed.{index_of};
ghost use Rattle.node_rope.specs.Items.{value_under};
ghost use Rattle.run_store.specs.Beginning.{CanBegin, begun_run, placed_at};
ghost use Rattle.run_store.specs.Changes.{MakesCells};
ghost use Rattle.run_store.specs.Cells.{cell_of, cell_ids};
ghost use Rattle.run_store.specs.Growth.{HasMoreLetters, MayComeTo, cells_inserted_before, cells_inserted_after, last_id_of_run};
ghost use Rattle.run_store.specs.Heads.{head_after, cell_with_letter, typed_cells};
ghost use Rattle.run_store.specs.NewCells.{cell_before, is_continued as continues};
ghost use Rattle.run_store.specs.Runs.{cells_in, first_of};

use crate::cell::Head;
use crate::find::Spot;
use crate::letters::Letters;
use crate::new_cells::is_continued;
use crate::parts::{cell_at, run_to};
use crate::run::{Origin, Run, Runs};
use fugue_ids::{ElementId, MOST_OPERATIONS, NoMemory};
use node_rope::{Back, Rope};

/// Where a run begins among the others.
#[derive(Clone, Copy)]
pub(crate) enum Beginning {
    /// There is no other run.
    First,
    /// Directly before the run with this key.
    Before(ElementId),
    /// Directly after this run.
    Behind(Run),
}

/// The run with more letters, which has its letters there.
fn longer_at(run: &Run, stretch: u32, start: u32, count: usize) -> Run
    requires { run.now.len + count < 2 ^ 32 }
    ensures { result ≡ record run.now { stretch = stretch; start = start; len = run.now.len + count } }
{
    Run {
        stretch,
        start,
        len: run.len + count as u32,
        ..*run
    }
}

/// More letters after those of the run. Where another stands there, which is another run's, the run's letters are
/// copied.
fn lengthened(letters: &mut Letters, run: &Run, text: &[char]) -> Result<Run, NoMemory>
    requires some { 0 < run.now.len }
    requires more { 0 < length text.now }
    requires few { run.now.start + run.now.len + length text.now < 2 ^ 31 }
    requires within { run.now.start + run.now.len ≤ length (slice_index_or letters.old run.now.stretch []) }
    requires stretches { length letters.old < 2 ^ 32 }
    ensures ok { IfOk result (λ longer. HasMoreLetters letters.old letters.new run.now text.now longer) }
    ensures err { OnErr result (letters.new ≡ letters.old) }
{
    let end = run.start as usize + run.len as usize;
    if letters.stretch(run.stretch).len() == end {
        letters.extend(run.stretch, text)?;
        Ok(longer_at(run, run.stretch, run.start, text.len()))
    } else {
        let stretch = letters.copy(run.stretch, run.start, run.len, text)?;
        Ok(longer_at(run, stretch, 0, text.len()))
    }
}

/// A run of so many cells, whose letters begin there in the first stretch.
fn alone(head: &Head, start: u32, len: u32) -> Run
    ensures { result ≡ record {
      id = head.now.id;
      left = head.now.left;
      right = head.now.right;
      hidden = head.now.hidden;
      key = head.now.key;
      stretch = 0;
      start = start;
      len = len;
    } }
{
    Run {
        id: head.id,
        left: Origin::new(head.left),
        right: Origin::new(head.right),
        hidden: head.hidden,
        key: head.key,
        stretch: 0,
        start,
        len,
    }
}

/// Puts a run there, under its key.
fn place(rope: &mut Rope<Run>, at: Beginning, key: ElementId, run: Run) -> Result<(), Back<Run>>
    requires held { CanBegin at rope.old }
    requires fresh { IsNone (value_under key rope.old) }
    requires room { length rope.old < MOST_OPERATIONS }
    ensures placed { OnOk result (rope.new ≡ placed_at at (key, run) rope.old) }
    ensures refused { OnErr result (rope.new ≡ rope.old) }
{
    match at {
        Beginning::First => rope.insert_first(key, run),
        Beginning::Before(next) => rope.insert_before(next, key, run),
        Beginning::Behind(front) => rope.insert_after(front.id, key, run),
    }
}

impl Runs {
    /// The run with the cells that continue it.
    fn extend(&mut self, run: &Run, head: &Head, text: &[char]) -> Result<(), NoMemory>
        requires held { value_under run.now.id self.old.rope ≡ Some run.now }
        requires new { MayComeTo (cells_in self.old) head.now (length text.now) }
        requires next { head.now ≡ head_after run.now.len (first_of run.now) }
        ensures ok { OnOk result (cells_in self.new
            ≡ cells_inserted_after (last_id_of_run run.now) (typed_cells head.now text.now) (cells_in self.old)) }
        ensures kept { OnOk result (length self.new.rope ≡ length self.old.rope) }
        ensures err { OnErr result (self.new ≡ self.old) }
    {
        // The contract alone needs the head.
        let _ = head;
        let longer = lengthened(&mut self.letters, run, text)?;
        self.rope.put(run.id, longer);
        self.count += text.len();
        Ok(())
    }

    /// A new run begins there.
    pub(crate) fn begin(
        &mut self,
        at: Beginning,
        head: &Head,
        text: &[char],
    ) -> Result<(), NoMemory>
        requires held { CanBegin at self.old.rope }
        requires new { MayComeTo (cells_in self.old) head.now (length text.now) }
        ensures ok { OnOk result (cells_in self.new ≡ begun_run at (typed_cells head.now text.now) (cells_in self.old)) }
        ensures raised { OnOk result (length self.new.rope ≡ length self.old.rope + 1) }
        ensures err { OnErr result (self.new ≡ self.old) }
    {
        let start = self.letters.begin(text)?;
        match place(
            &mut self.rope,
            at,
            head.id,
            alone(head, start, text.len() as u32),
        ) {
            Ok(()) => {
                self.count += text.len();
                Ok(())
            }
            Err(_) => {
                self.letters.take_back(start);
                Err(NoMemory)
            }
        }
    }

    /// A new run directly after the cell at the spot.
    fn insert_between(&mut self, spot: &Spot, head: &Head, text: &[char]) -> Result<(), NoMemory>
        requires held { value_under spot.now.run.id self.old.rope ≡ Some spot.now.run }
        requires inside { spot.now.offset < spot.now.run.len }
        requires new { MayComeTo (cells_in self.old) head.now (length text.now) }
        ensures { MakesCells result self.old self.new
            (cells_inserted_after (head_after spot.now.offset (first_of spot.now.run)).id (typed_cells head.now text.now)
            (cells_in self.old)) }
    {
        self.sound();
        let end = spot.offset + 1;
        self.cut_after(&spot.run, end)?;
        self.begin(Beginning::Behind(run_to(&spot.run, end)), head, text)
    }

    /// New cells directly after the one at the spot.
    fn insert_at(&mut self, spot: &Spot, head: &Head, text: &[char]) -> Result<(), NoMemory>
        requires held { value_under spot.now.run.id self.old.rope ≡ Some spot.now.run }
        requires inside { spot.now.offset < spot.now.run.len }
        requires new { MayComeTo (cells_in self.old) head.now (length text.now) }
        ensures makes { MakesCells result self.old self.new
            (cells_inserted_after (head_after spot.now.offset (first_of spot.now.run)).id (typed_cells head.now text.now)
            (cells_in self.old)) }
        ensures continued { OnOk result
            (continues (Some (cell_with_letter
            (head_after spot.now.offset (first_of spot.now.run)) 0)) head.now.id head.now.left head.now.right ≡ true
            → length self.new.rope ≡ length self.old.rope) }
    {
        self.sound();
        if is_continued(&cell_at(&spot.run, spot.offset), head) {
            self.extend(&spot.run, head, text)
        } else {
            self.insert_between(spot, head, text)
        }
    }

    /// New cells directly after this one.
    pub(crate) fn insert_behind(
        &mut self,
        at: ElementId,
        head: &Head,
        text: &[char],
    ) -> Result<(), NoMemory>
        requires held { Contains (cell_ids (cells_in self.old)) at }
        requires new { MayComeTo (cells_in self.old) head.now (length text.now) }
        ensures makes { MakesCells result self.old self.new
            (cells_inserted_after at (typed_cells head.now text.now) (cells_in self.old)) }
        ensures continued { OnOk result
            (continues (cell_of (cells_in self.old) at) head.now.id head.now.left head.now.right ≡ true
            → length self.new.rope ≡ length self.old.rope) }
    {
        self.sound();
        match self.find(at) {
            Some(spot) => self.insert_at(&spot, head, text),
            None => unreachable!(),
        }
    }

    /// New cells directly before this one.
    pub(crate) fn insert_before(
        &mut self,
        next: ElementId,
        head: &Head,
        text: &[char],
    ) -> Result<(), NoMemory>
        requires held { Contains (cell_ids (cells_in self.old)) next }
        requires new { MayComeTo (cells_in self.old) head.now (length text.now) }
        ensures makes { MakesCells result self.old self.new
            (cells_inserted_before next (typed_cells head.now text.now) (cells_in self.old)) }
        ensures continued { OnOk result
            (continues (cell_before (cells_in self.old)
            (index_of (cell_ids (cells_in self.old)) next)) head.now.id head.now.left head.now.right ≡ true
            → length self.new.rope ≡ length self.old.rope) }
    {
        self.sound();
        match self.before(Some(next)) {
            Some(behind) => self.insert_behind(behind, head, text),
            None => self.begin(Beginning::Before(next), head, text),
        }
    }
}
