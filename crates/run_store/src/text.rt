//! The visible text, written run by run, and elements by their index among the visible ones.
ghost use Rattle.std.specs.Prelude.{◌<◌, ◌≤◌, ◌+◌, ◌^◌, [], length, slice_index_or, ◌≡◌, Contains, IfNone, IfSome, None, Some, ℕ, if◌then◌else◌, take};
ghost use Rattle.std.specs.Prelude.{slice_get};
ghost use Rattle.std.specs.Str.{encode_utf8_all};
ghost use Rattle.fugue_ids.specs.Gathers.{GathersText};
ghost use Rattle.run_store.specs.Cells.{cell_text, cell_ids, cells_shown, shown_before};
ghost use Rattle.run_store.specs.Runs.{cells_in, cells_of, visible_weight};
ghost use Rattle.run_store.specs.Shown.{IsInHand};
ghost use Rattle.node_rope.specs.Items.{value_under};
ghost use Rattle.node_rope.specs.Places.{StandsAt, weight_sum};
ghost use Rattle.fugue_ids.specs.declared.limits.TheConstants.{MOST_OPERATIONS};

use crate::find::Spot;
use crate::letters::Letters;
use crate::parts::cell_at;
use crate::run::{Run, Runs};
use fugue_ids::{ElementId, Failed, Gather, Out};

/// Puts the letters, in order.
fn put_letters<O: Out>(letters: &[char], gather: &mut Gather, output: &mut O) -> Result<(), Failed>
    ensures { GathersText (O.seen output.old) (O.seen output.new) gather.old gather.new result
        (encode_utf8_all letters.now) }
{
    'letters: for ch in letters {
        gather.put_scalar(output, *ch)?;
    }
    Ok(())
}

/// Puts the letters of a run, if it is not hidden.
fn put_run<O: Out>(
    letters: &Letters,
    run: &Run,
    gather: &mut Gather,
    output: &mut O,
) -> Result<(), Failed>
    requires few { run.now.start + run.now.len < 2 ^ 31 }
    requires within { run.now.start + run.now.len ≤ length (slice_index_or letters.now run.now.stretch []) }
    ensures { GathersText (O.seen output.old) (O.seen output.new) gather.old gather.new result
        (encode_utf8_all (cell_text (cells_of letters.now run.now))) }
{
    if run.hidden {
        return Ok(());
    }
    let start = run.start as usize;
    let end = start + run.len as usize;
    put_letters(&letters.stretch(run.stretch)[start..end], gather, output)
}

/// How many visible cells of its run stand before the cell at the spot.
fn visible_within(spot: &Spot) -> usize
    ensures { result ≡ (if spot.now.run.hidden then 0 else spot.now.offset) }
{
    if spot.run.hidden {
        0
    } else {
        spot.offset as usize
    }
}

impl Runs {
    /// Puts the letters of all runs that are not hidden.
    pub(crate) fn put_text<O: Out>(&self, gather: &mut Gather, output: &mut O) -> Result<(), Failed>
        ensures { GathersText (O.seen output.old) (O.seen output.new) gather.old gather.new result
            (encode_utf8_all (cell_text (cells_in self.now))) }
    {
        let mut walk = self.rope.walk();
        'runs: while let Some(run) = walk.step() {
            put_run(&self.letters, run, gather, output)?;
        }
        Ok(())
    }
}

// Cells by their places among those that are not hidden.

impl Runs {
    pub(crate) fn visible_count(&self) -> usize
        ensures { result ≡ length (cells_shown (cells_in self.now)) }
    {
        self.rope.total() as usize
    }

    /// Where the visible cell after i others is.
    pub(crate) fn visible_spot(&self, i: usize) -> Option<Spot>
        ensures some { IfSome result (λ s. IsInHand (cell_ids (cells_shown (cells_in self.now))) i s.run s.offset) }
        ensures none { IfNone result (slice_get (cell_ids (cells_shown (cells_in self.now))) i ≡ None) }
    {
        match self.rope.find_weight_item(i as u64) {
            Some(unit) => Some(Spot {
                run: *unit.1,
                offset: unit.2 as u32,
            }),
            None => None,
        }
    }

    /// How many visible cells stand before this one, which may be hidden itself.
    pub(crate) fn visible_before(&self, id: ElementId) -> Option<usize>
        ensures some { IfSome result (λ n. n ≡ shown_before (cells_in self.now) id) }
        ensures held { IfSome result (λ n. Contains (cell_ids (cells_in self.now)) id) }
        ensures none { IfNone result (Contains (cell_ids (cells_in self.now)) id → ⊥) }
    {
        self.sound();
        match self.find(id) {
            Some(spot) => Some(self.visible_to(&spot.run) + visible_within(&spot)),
            None => None,
        }
    }

    /// How many visible cells stand before the run.
    fn visible_to(&self, run: &Run) -> usize
        requires { value_under run.now.id self.now.rope ≡ Some run.now }
        ensures visible { (i : ℕ) × StandsAt self.now.rope i run.now.id
            × (result ≡ weight_sum visible_weight (take i self.now.rope)) }
        ensures few { result ≤ MOST_OPERATIONS }
    {
        self.rope.weight_before(run.id).unwrap() as usize
    }

    pub(crate) fn nth_visible(&self, i: usize) -> Option<ElementId>
        ensures { result ≡ slice_get (cell_ids (cells_shown (cells_in self.now))) i }
    {
        let spot = self.visible_spot(i)?;
        Some(cell_at(&spot.run, spot.offset).id)
    }
}
