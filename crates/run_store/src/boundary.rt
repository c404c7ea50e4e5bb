//! Deleting elements at an end of a run by moving the boundary to a deleted run beside it, without a new run.
ghost use Rattle.std.specs.Prelude.{◌≡◌, ◌<◌, ◌≤◌, ◌+◌, ◌-◌, ◌^◌, IfSome, Some, OnErr, OnOk, ℕ};
ghost use Rattle.fugue_ids.specs.Identifiers.{Identifier};
ghost use Rattle.node_rope.specs.Items.{value_under};
ghost use Rattle.run_store.specs.Boundaries.{IsBoundary, IsHiding, run_continues as continues, boundary_shifted};
ghost use Rattle.run_store.specs.Boundaries.{together as both};
ghost use Rattle.run_store.specs.Heads.{head_after};
ghost use Rattle.run_store.specs.Runs.{first_of};

use crate::cell::Head;
use crate::find::Spot;
use crate::new_cells::is_continued;
use crate::parts::{cell_at, first_cell, key_of, run_after, run_to};
use crate::run::{Run, Runs};
use fugue_ids::NoMemory;

/// Two runs that are one passage, but for their marks, and how many cells of it the first one is to have.
#[derive(Clone, Copy)]
pub(crate) struct Boundary {
    front: Run,
    back: Run,
    at: u32,
}

/// The cells of both as one run, with the mark of the second.
fn together(front: &Run, back: &Run) -> Run
    requires { front.now.len + back.now.len < 2 ^ 32 }
    ensures { result ≡ both front.now back.now }
{
    Run {
        id: front.id,
        left: front.left,
        right: front.right,
        hidden: back.hidden,
        key: front.key,
        stretch: front.stretch,
        start: front.start,
        len: front.len + back.len,
    }
}

/// Whether a run goes on from the one before it, whatever their marks: its cells, and its letters too.
fn goes_on(front: &Run, back: &Run) -> bool
    requires some { 0 < front.now.len }
    requires counters { front.now.id.counter + front.now.len ≤ 2 ^ 32 }
    requires depths { front.now.key.depth + front.now.len < 2 ^ 32 }
    requires fits { front.now.start + front.now.len < 2 ^ 32 }
    ensures { result ≡ continues front.now back.now }
{
    let last = Head {
        hidden: false,
        ..cell_at(front, front.len - 1)
    };
    let first = first_cell(back);
    if !is_continued(&last, &first) {
        return false;
    }
    if first.key.depth != last.key.depth + 1 {
        return false;
    }
    if first.key.forest != 0 {
        return false;
    }
    back.stretch == front.stretch && back.start == front.start + front.len
}

impl Runs {
    /// The run directly after this one, if it goes on from it.
    fn continuation(&self, front: &Run) -> Option<Run>
        requires { value_under front.now.id self.now.rope ≡ Some front.now }
        ensures { IfSome result (λ back. IsBoundary self.now.rope front.now back) }
    {
        match self.rope.next_item(front.id) {
            Some(item) if goes_on(front, item.1) => Some(*item.1),
            _ => None,
        }
    }

    /// The boundary over which the first n cells of a run come to a hidden one before it.
    fn boundary_before(&self, run: &Run, n: u32) -> Option<Boundary>
        requires held { value_under run.now.id self.now.rope ≡ Some run.now }
        requires some { 0 < n }
        requires more { n < run.now.len }
        ensures { IfSome result (λ b. IsHiding self.now.rope run.now.id n b.front b.back b.at) }
    {
        self.sound();
        let left = run.left.id()?;
        let spot = self.find(left)?;
        let front = spot.run;
        if !front.hidden {
            return None;
        }
        let back = self.continuation(&front)?;
        if back.id == run.id {
            Some(Boundary {
                front,
                back,
                at: front.len + n,
            })
        } else {
            None
        }
    }

    /// The boundary over which the last n cells of a run come to a hidden one after it.
    fn boundary_after(&self, run: &Run, n: u32) -> Option<Boundary>
        requires held { value_under run.now.id self.now.rope ≡ Some run.now }
        requires some { 0 < n }
        requires more { n < run.now.len }
        ensures { IfSome result (λ b. IsHiding self.now.rope (head_after (run.now.len - n) (first_of run.now)).id n
            b.front b.back b.at) }
    {
        let back = self.continuation(run)?;
        if !back.hidden {
            return None;
        }
        Some(Boundary {
            front: *run,
            back,
            at: run.len - n,
        })
    }

    /// The boundary over which n cells from the spot on come to a hidden run: they stand at an end of their own run,
    /// which has others.
    pub(crate) fn boundary(&self, spot: &Spot, n: u32) -> Option<Boundary>
        requires held { value_under spot.now.run.id self.now.rope ≡ Some spot.now.run }
        requires some { 0 < n }
        requires inside { spot.now.offset + n ≤ spot.now.run.len }
        ensures { IfSome result (λ b. IsHiding self.now.rope
            (head_after spot.now.offset (first_of spot.now.run)).id n b.front b.back b.at) }
    {
        if n == spot.run.len {
            return None;
        }
        if spot.offset == 0 {
            return self.boundary_before(&spot.run, n);
        }
        if spot.offset == spot.run.len - n {
            return self.boundary_after(&spot.run, n);
        }
        None
    }

    /// Moves a boundary. No letter is copied.
    pub(crate) fn shift(&mut self, boundary: &Boundary) -> Result<(), NoMemory>
        requires { (x : Identifier) × (n : ℕ)
            × IsHiding self.old.rope x n boundary.now.front boundary.now.back boundary.now.at }
        ensures ok { OnOk result (self.new
            ≡ record {
              rope = boundary_shifted boundary.now.at boundary.now.front boundary.now.back self.old.rope;
              letters = self.old.letters;
              count = self.old.count;
            }) }
        ensures err { OnErr result (self.new ≡ self.old) }
    {
        self.sound();
        let rest = run_after(&together(&boundary.front, &boundary.back), boundary.at);
        match self.rope.rekey(key_of(&boundary.back), key_of(&rest), rest) {
            Ok(_) => {
                self.rope.put(
                    key_of(&boundary.front),
                    run_to(&boundary.front, boundary.at),
                );
                Ok(())
            }
            Err(_) => Err(NoMemory),
        }
    }
}
