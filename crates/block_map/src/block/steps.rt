//! The calls of one block: its counters and values, in two columns.

ghost use Rattle.std.specs.Prelude.{◌≡◌, ℕ, ◌↔◌, ◌-◌, ◌<◌, ◌≤◌, ⊤, [], length, slice_index, vec_len};
ghost use Rattle.std.specs.Prelude.{IfErr, IfNone, IfOk, IfSome, IsFalse, IsTrue, None, OnErr, OnOk, Some};
ghost use Rattle.std.specs.List.{insert as with_one};
ghost use Rattle.std.specs.Ordering.{nat_cmp};
ghost use Rattle.fugue_ids.specs.Keyed.{IsReplaced};
ghost use Rattle.block_map.specs.Blocks.{value_at};
ghost use Rattle.block_map.specs.Columns.{IsFitFor, IsGapFor, IsPlaceOf};
ghost use Rattle.block_map.specs.Floors.{HasNone, IsGreatestKey};
ghost use Rattle.block_map.specs.Renames.{IsRenamed};

use super::Block;
use fugue_ids::NoMemory;
use std::alloc::Global;

/// One entry more at the place. After an allocation failure both columns are as before.
fn insert_beside<V: Copy>(
    counters: &mut Vec<u32>,
    values: &mut Vec<V>,
    at: usize,
    counter: u32,
    value: V,
) -> Result<(), NoMemory>
    requires counters { at ≤ vec_len counters.old }
    requires values { at ≤ vec_len values.old }
    ensures counters { OnOk result (counters.new.items ≡ with_one counters.old.items at counter) }
    ensures values { OnOk result (values.new.items ≡ with_one values.old.items at value) }
    ensures err { OnErr result ((counters.new.items ≡ counters.old.items) × (values.new.items ≡ values.old.items)) }
{
    // With room for the counter, the value alone can find none.
    counters.reserve(1)?;
    values.insert(at, value)?;
    counters.insert(at, counter)?;
    Ok(())
}

impl<V: Copy> Block<V> {
    pub fn new(alloc: Global) -> Block<V>
        ensures { result.counters.items ≡ [] }
    {
        Block {
            counters: Vec::new(alloc),
            values: Vec::new(alloc),
        }
    }

    pub fn is_empty(&self) -> bool
        ensures { IsTrue result ↔ (length self.now.counters.items ≡ 0) }
    {
        self.counters.is_empty()
    }

    // Where the counter is, or where it would go.
    fn place(&self, counter: u32) -> Result<usize, usize>
        ensures found { IfOk result (IsPlaceOf self.now.counters.items counter) }
        ensures absent { IfErr result (IsGapFor self.now.counters.items counter) }
    {
        self.counters.binary_search(&counter)
    }

    /// The value of the counter.
    pub fn get(&self, counter: u32) -> Option<V>
        ensures { result ≡ value_at self.now counter }
    {
        match self.place(counter) {
            Ok(at) => Some(self.values[at]),
            Err(_) => None,
        }
    }

    /// The counter has this value then. Only one without a value can run out of memory, and then each has what it had.
    pub fn insert(&mut self, counter: u32, value: V) -> Result<(), NoMemory>
        ensures ok { OnOk result (IsReplaced (value_at self.old) (value_at self.new) counter (Some value)) }
        ensures some { OnOk result (0 < length self.new.counters.items) }
        ensures err { OnErr result ((c : ℕ) → value_at self.new c ≡ value_at self.old c) }
        ensures length { OnErr result (length self.new.counters.items ≡ length self.old.counters.items) }
        ensures absent { OnErr result (value_at self.old counter ≡ None) }
    {
        match self.place(counter) {
            Ok(at) => {
                self.values[at] = value;
                Ok(())
            }
            Err(at) => insert_beside(&mut self.counters, &mut self.values, at, counter, value),
        }
    }

    /// The counter has no value then.
    pub fn remove(&mut self, counter: u32)
        ensures { IsReplaced (value_at self.old) (value_at self.new) counter None }
    {
        if let Ok(at) = self.place(counter) {
            self.counters.remove(at);
            self.values.remove(at);
        }
    }

    // True only if this counter could stand at the place in the order of the others.
    fn fits(&self, place: usize, counter: u32) -> bool
        requires { place < length self.now.counters.items }
        ensures { IsTrue result → IsFitFor self.now.counters.items counter place }
    {
        let above = place + 1;
        if above < self.counters.len() && self.counters[above] <= counter {
            return false;
        }
        place == 0 || self.counters[place - 1] < counter
    }

    /// The counter's value stands under another then, or each has what it had, as where a neighbour is in the way.
    pub fn rename(&mut self, from: u32, to: u32) -> bool
        requires { value_at self.old to ≡ None }
        ensures renamed { IsTrue result → IsRenamed (value_at self.old) (value_at self.new) from to }
        ensures refused { IsFalse result → (c : ℕ) → value_at self.new c ≡ value_at self.old c }
        ensures length { length self.new.counters.items ≡ length self.old.counters.items }
    {
        let Ok(at) = self.place(from) else {
            return false;
        };
        if !self.fits(at, to) {
            return false;
        }
        self.counters[at] = to;
        true
    }

    // The entry before the place.
    fn before(&self, place: usize) -> Option<(u32, V)>
        requires { place ≤ length self.now.counters.items }
        ensures none { IfNone result (place ≡ 0) }
        ensures some { IfSome result
            (λ e. (0 < place) × (slice_index self.now.counters.items (place - 1) ≡ e.0)
            × (value_at self.now e.0 ≡ Some e.1)) }
    {
        if place == 0 {
            return None;
        }
        Some((self.counters[place - 1], self.values[place - 1]))
    }

    /// The greatest counter with a value that is at most this one, and its value.
    pub fn floor(&self, counter: u32) -> Option<(u32, V)>
        ensures none { IfNone result (HasNone (λ c. c ≤ counter) (value_at self.now)) }
        ensures some { IfSome result (IsGreatestKey nat_cmp (λ c. c ≤ counter) (value_at self.now)) }
    {
        match self.place(counter) {
            Ok(at) => Some((counter, self.values[at])),
            Err(at) => self.before(at),
        }
    }

    /// The greatest counter with a value, and its value.
    pub fn last(&self) -> Option<(u32, V)>
        ensures none { IfNone result (length self.now.counters.items ≡ 0) }
        ensures some { IfSome result (IsGreatestKey nat_cmp (λ _. ⊤) (value_at self.now)) }
    {
        self.before(self.counters.len())
    }
}
