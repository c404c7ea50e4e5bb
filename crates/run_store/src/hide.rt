//! Marking a range of elements as deleted, run by run, and cutting runs in two where that needs it.
ghost use Rattle.std.specs.Prelude.{◌≡◌, ◌<◌, ◌+◌, ◌-◌, ◌^◌, Some, Contains, IsNone, length, true, IfErr, OnErr, OnOk, ◌≤◌};
ghost use Rattle.node_rope.specs.Items.{value_under};
ghost use Rattle.run_store.specs.Changes.{HidesPart, HidesSome, IsHiddenTo, MakesCells};
ghost use Rattle.run_store.specs.Cells.{cell_ids, cells_hiding, is_hidden_cell as hidden_in};
ghost use Rattle.run_store.specs.Hiding.{HaveCells, AreHidden};
ghost use Rattle.run_store.specs.Heads.{head_after};
ghost use Rattle.run_store.specs.Runs.{cells_in, first_of, run_to as front_by, rope_parted, parted_as};
ghost use Rattle.run_store.specs.Stored.{IsRaisedBy};

use crate::find::Spot;
use crate::parts::{key_of, run_after, run_to};
use crate::run::{Run, Runs};
use crate::store::StoppedAfter;
use fugue_ids::{ElementId, MOST_OPERATIONS, NoMemory};
use node_rope::Rope;

/// The same cells, hidden.
fn hidden(run: &Run) -> Run
    ensures { result ≡ record run.now { hidden = true } }
{
    Run {
        hidden: true,
        ..*run
    }
}

/// How many cells of its run stand from the spot on, but at most so many.
fn part_len(spot: &Spot, most: u32) -> u32
    requires inside { spot.now.offset < spot.now.run.len }
    requires some { 0 < most }
    ensures some { 0 < result }
    ensures within { spot.now.offset + result ≤ spot.now.run.len }
    ensures bound { result ≤ most }
{
    let rest = spot.run.len - spot.offset;
    if most < rest { most } else { rest }
}

impl Runs {
    /// Hides the first n cells of a run that has more. Parting them off and hiding them is one step.
    fn hide_front(&mut self, run: &Run, n: u32) -> Result<(), NoMemory>
        requires held { value_under run.now.id self.old.rope ≡ Some run.now }
        requires some { 0 < n }
        requires more { n < run.now.len }
        ensures { HidesPart result self.old self.new run.now.id n }
    {
        part(
            &mut self.rope,
            run,
            hidden(&run_to(run, n)),
            run_after(run, n),
        )
    }

    /// Hides the cells of a run that stand after `offset` others.
    fn hide_rest(&mut self, run: &Run, offset: u32) -> Result<(), NoMemory>
        requires held { value_under run.now.id self.old.rope ≡ Some run.now }
        requires inside { offset < run.now.len }
        ensures { HidesPart result self.old self.new (head_after offset (first_of run.now)).id
            (run.now.len - offset) }
    {
        if offset > 0 {
            return part(
                &mut self.rope,
                run,
                run_to(run, offset),
                hidden(&run_after(run, offset)),
            );
        }
        self.rope.put(key_of(run), hidden(run));
        Ok(())
    }

    /// Hides n cells, from the one at the spot on, in a run of their own.
    fn hide_alone(&mut self, spot: &Spot, n: u32) -> Result<(), NoMemory>
        requires held { value_under spot.now.run.id self.old.rope ≡ Some spot.now.run }
        requires some { 0 < n }
        requires inside { spot.now.offset + n ≤ spot.now.run.len }
        ensures { MakesCells result self.old self.new
            (cells_hiding (head_after spot.now.offset (first_of spot.now.run)).id n (cells_in self.old)) }
    {
        self.sound();
        if spot.offset == 0 && n < spot.run.len {
            return self.hide_front(&spot.run, n);
        }
        let end = spot.offset + n;
        self.cut_after(&spot.run, end)?;
        self.hide_rest(&run_to(&spot.run, end), spot.offset)
    }

    /// Hides n cells, from the one at the spot on: in the hidden run beside their own, or in one that is parted off.
    fn hide_at(&mut self, spot: &Spot, n: u32) -> Result<(), NoMemory>
        requires held { value_under spot.now.run.id self.old.rope ≡ Some spot.now.run }
        requires some { 0 < n }
        requires inside { spot.now.offset + n ≤ spot.now.run.len }
        ensures { MakesCells result self.old self.new
            (cells_hiding (head_after spot.now.offset (first_of spot.now.run)).id n (cells_in self.old)) }
    {
        self.sound();
        match self.boundary(spot, n) {
            Some(boundary) => self.shift(&boundary),
            None => self.hide_alone(spot, n),
        }
    }

    /// Hides a cell and those after it in its run, but at most so many. Returns how many. Those that are hidden stay as
    /// they are.
    fn hide_part(&mut self, id: ElementId, most: u32) -> Result<u32, NoMemory>
        requires held { Contains (cell_ids (cells_in self.old)) id }
        requires some { 0 < most }
        ensures part { HidesSome result self.old self.new id most }
        ensures again { hidden_in (cells_in self.old) id ≡ true → self.new ≡ self.old }
    {
        self.sound();
        let spot = match self.reach(id) {
            Some(spot) => spot,
            None => unreachable!(),
        };
        let n = part_len(&spot, most);
        if spot.run.hidden {
            return Ok(n);
        }
        self.hide_at(&spot, n)?;
        Ok(n)
    }

    /// Hides the cells of so many identifiers from this one on, those of a run at once. Those that are hidden stay as they
    /// are.
    pub(crate) fn hide_run(&mut self, first: ElementId, count: u32) -> Result<(), StoppedAfter>
        requires counters { first.counter + count ≤ 2 ^ 32 }
        requires held { HaveCells (cells_in self.old) first count }
        ensures ok { OnOk result (IsHiddenTo self.old first count 0 self.new) }
        ensures err { IfErr result (λ e. IsHiddenTo self.old first e.done 1 self.new) }
        ensures fewer { IfErr result (λ e. e.done < count) }
        ensures again { AreHidden (cells_in self.old) first count → self.new ≡ self.old }
    {
        let mut done = 0;
        'parts: while done < count {
            match self.hide_part(first.behind(done), count - done) {
                Ok(n) => done += n,
                Err(NoMemory) => return Err(StoppedAfter { done }),
            }
        }
        Ok(())
    }
}

// Runs are cut where a cell goes in between, or is hidden.

/// Two runs with its cells in the place of a run. No letter is copied.
fn part(rope: &mut Rope<Run>, run: &Run, front: Run, back: Run) -> Result<(), NoMemory>
    requires held { value_under run.now.id rope.old ≡ Some run.now }
    requires fresh { IsNone (value_under back.id rope.old) }
    requires room { length rope.old < MOST_OPERATIONS }
    ensures ok { OnOk result (rope.new ≡ parted_as run.now.id front back rope.old) }
    ensures err { OnErr result (rope.new ≡ rope.old) }
{
    match rope.part(key_of(run), front, key_of(&back), back) {
        Ok(()) => Ok(()),
        Err(_) => Err(NoMemory),
    }
}

impl Runs {
    /// Cuts a run in two.
    fn split(&mut self, run: &Run, at: u32) -> Result<(), NoMemory>
        requires held { value_under run.now.id self.old.rope ≡ Some run.now }
        requires behind { 0 < at }
        requires before { at < run.now.len }
        ensures ok { OnOk result (self.new
            ≡ record { rope = rope_parted at run.now self.old.rope; letters = self.old.letters; count = self.old.count }) }
        ensures err { OnErr result (self.new ≡ self.old) }
    {
        part(&mut self.rope, run, run_to(run, at), run_after(run, at))
    }

    /// Cuts off what stands in the run from this place on, if anything does.
    pub(crate) fn cut_after(&mut self, run: &Run, end: u32) -> Result<(), NoMemory>
        requires held { value_under run.now.id self.old.rope ≡ Some run.now }
        requires some { 0 < end }
        requires within { end ≤ run.now.len }
        ensures cells { cells_in self.new ≡ cells_in self.old }
        ensures held { OnOk result (value_under run.now.id self.new.rope ≡ Some (front_by end run.now)) }
        ensures raised { IsRaisedBy 1 (length self.old.rope) (length self.new.rope) }
        ensures err { OnErr result (self.new ≡ self.old) }
    {
        self.sound();
        if end == run.len {
            return Ok(());
        }
        self.split(run, end)
    }
}
