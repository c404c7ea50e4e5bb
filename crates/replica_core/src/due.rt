//! Which pending operations can leave: a mark for each, in order of arrival, and the first that is set.
ghost use Rattle.std.specs.Prelude.{◌≡◌, ◌<◌, ◌≤◌, ◌↔◌, ◌-◌, ◌++◌, ◌∷◌, [], false, if◌then◌else◌, count_by, length};
ghost use Rattle.std.specs.Prelude.{position as first_position, set as with_mark, remove, min, OnOk, OnErr, IsTrue};
ghost use Rattle.std.specs.Prelude.{All};
ghost use Rattle.replica_core.specs.Due.{IsClearBefore};

use causal_inbox::Gapped;
use fugue_ids::NoMemory;
use std::alloc::Global;
use std::marker::Model;

/// Which of the waiting operations can leave: a mark for each of them, in their order.
#[derive(Drop)]
pub(crate) struct Due {
    marks: Gapped<bool>,
    /// How many marks are set, so that nothing is looked through where none is.
    count: usize,
    /// How many marks in front are known not to be set, so that they are looked through once.
    clear: usize,
}

impl Model for Due {
    ghost use Rattle.std.specs.Prelude.{◌≡◌, ◌≤◌, Bool, List, count_by, length};
    ghost use Rattle.replica_core.specs.Due.{IsClearBefore};

    ghost Value = { List Bool };

    ghost view = { λ due. due.marks.items };

    ghost invariant = { λ due. record {
      counted : due.count ≡ count_by (λ mark. mark) due.marks.items;
      front : IsClearBefore due.clear due.marks.items;
      within : due.clear ≤ length due.marks.items;
    } };
}

impl Due {
    pub fn new(alloc: Global) -> Due
        ensures { result ≡ [] }
    {
        Due {
            marks: Gapped::new(alloc),
            count: 0,
            clear: 0,
        }
    }

    /// Whether no mark is set.
    pub fn is_clear(&self) -> bool
        ensures { IsTrue result ↔ All (λ mark. mark ≡ false) self.now }
    {
        self.count == 0
    }

    /// The position of the first mark that is set.
    pub fn first(&mut self) -> Option<usize>
        ensures first { result ≡ first_position (λ mark. mark) self.old }
        ensures same { self.new ≡ self.old }
    {
        if self.is_clear() {
            return None;
        }
        let position = first_after(&self.marks, self.clear)?;
        self.clear = position;
        Some(position)
    }

    /// One more mark, which is not set.
    pub fn push(&mut self) -> Result<(), NoMemory>
        ensures ok { OnOk result (self.new ≡ self.old ++ false ∷ []) }
        ensures err { OnErr result (self.new ≡ self.old) }
    {
        self.marks.push(false)?;
        Ok(())
    }

    /// The mark at the position is set or not, as given.
    pub fn put(&mut self, position: usize, mark: bool)
        requires { position < length self.old }
        ensures { self.new ≡ with_mark self.old position mark }
    {
        // Where none is set, none is set in front of this one.
        let clear = if self.count == 0 {
            position
        } else {
            self.clear
        };
        self.count = count_with(&self.marks, self.count, position, mark);
        self.clear = clear_with(clear, position, mark);
        self.marks.put(position, mark);
    }

    /// One mark less. Those after it close up.
    pub fn remove(&mut self, position: usize)
        requires { position < length self.old }
        ensures { self.new ≡ remove self.old position }
    {
        self.count = count_with(&self.marks, self.count, position, false);
        self.clear = clear_without(self.clear, position);
        self.marks.remove(position, false);
    }
}

/// The position of the first mark that is set.
fn first_set(marks: &[bool]) -> Option<usize>
    ensures { result ≡ first_position (λ mark. mark) marks.now }
{
    marks.iter().position(|mark| *mark)
}

/// The same, where none of the first `clear` is.
fn first_after(marks: &Gapped<bool>, clear: usize) -> Option<usize>
    requires within { clear ≤ length marks.now.items }
    requires front { IsClearBefore clear marks.now.items }
    ensures { result ≡ first_position (λ mark. mark) marks.now.items }
{
    let mut passed = clear;
    'stretches: while passed < marks.len() {
        let stretch = marks.stretch(passed);
        if let Some(position) = first_set(stretch) {
            return Some(passed + position);
        }
        passed += stretch.len();
    }
    None
}

/// How many marks in front are not set, after the one at the position is set or not.
fn clear_with(clear: usize, position: usize, mark: bool) -> usize
    ensures { result ≡ (if mark then min clear position else clear) }
{
    if mark { clear.min(position) } else { clear }
}

/// The same after the one at the position is no more there.
fn clear_without(clear: usize, position: usize) -> usize
    ensures before { position < clear → result ≡ clear - 1 }
    ensures behind { clear ≤ position → result ≡ clear }
{
    if position < clear { clear - 1 } else { clear }
}

/// How many marks are set, after the one at the position is set or not.
fn count_with(marks: &Gapped<bool>, count: usize, position: usize, mark: bool) -> usize
    requires within { position < length marks.now.items }
    requires counted { count ≡ count_by (λ mark. mark) marks.now.items }
    ensures { result ≡ count_by (λ mark. mark) (with_mark marks.now.items position mark) }
{
    // No more are set than there are, so that the count fits.
    let _most = marks.len();
    let was = *marks.get(position);
    if was && !mark {
        return count - 1;
    }
    if mark && !was {
        return count + 1;
    }
    count
}
