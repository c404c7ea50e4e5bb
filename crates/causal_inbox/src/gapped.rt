//! A list whose items are removed in any order: each leaves a hole, and the holes are closed together.
ghost use Rattle.std.specs.Prelude.{◌≡◌, ◌<◌, ◌≤◌, ◌+◌, ◌++◌, ◌∷◌, [], Some, drop, get_or, take, length, insert};
ghost use Rattle.std.specs.Prelude.{remove as without, set as with_item, slice_get, OnOk, OnErr, IfErr, IsTrue};
ghost use Rattle.std.specs.Prelude.{vec_len, vec_capacity};
ghost use Rattle.causal_inbox.specs.Gap.{AreGaps, AreGapsOfSome, items_around_gap, between_gaps};
ghost use Rattle.causal_inbox.specs.Gap.{gaps_before as count_before};

use crate::queue::drop_gone;
use std::alloc::{AllocFailed, Global};
use std::marker::Model;
use std::mem::replace;

/// So many gaps are noted before they are closed.
const MOST_GAPS: usize = 1024;

/// A list whose items leave in any order, and move no others at once.
///
/// The place of one that left is a gap, with a filler in it. When so many are noted as may be, or on demand, the gaps
/// are closed: what stands between the first and the last one moves, and then the shorter side. To note them takes no
/// memory, since there is room for them from the first item on. The places before `gone` are gone, as in the queue.
#[derive(Drop)]
pub struct Gapped<T> {
    items: Vec<T>,
    gone: usize,
    /// The places of the gaps, in order.
    gaps: Vec<usize>,
}

impl<T> Model for Gapped<T> {
    ghost use Rattle.std.specs.Prelude.{length, vec_capacity};
    ghost use Rattle.causal_inbox.specs.Gap.{IsSpaced, Spaced, between_gaps};

    ghost Value = { Spaced T };

    ghost view = { λ list. record {
      items = between_gaps list.items.items list.gone list.gaps.items;
      gaps = length list.gaps.items;
    } };

    ghost invariant = { λ list. IsSpaced list.items.items list.gone list.gaps.items (vec_capacity list.gaps) };
}

impl<T: Drop> Gapped<T> {
    pub fn new(alloc: Global) -> Gapped<T>
        ensures { result ≡ record { items = []; gaps = 0 } }
    {
        Gapped {
            items: Vec::new(alloc),
            gone: 0,
            gaps: Vec::new(alloc),
        }
    }

    pub fn len(&self) -> usize
        ensures { result ≡ length self.now.items }
    {
        self.items.len() - self.gone - self.gaps.len()
    }

    pub fn get(&self, position: usize) -> &T
        requires { position < length self.now.items }
        ensures { slice_get self.now.items position ≡ Some result.now }
    {
        let at = place_of(&self.items, self.gone, &self.gaps, position);
        &self.items[at]
    }

    /// The items from the position on, up to the next gap.
    pub fn stretch(&self, position: usize) -> &[T]
        requires { position < length self.now.items }
        ensures items { result.now ≡ take (length result.now) (drop position self.now.items) }
        ensures some { 0 < length result.now }
    {
        stretch_of(&self.items, self.gone, &self.gaps, position)
    }

    /// The items in one slice, where there is no gap.
    pub fn as_slice(&self) -> &[T]
        requires { self.now.gaps ≡ 0 }
        ensures { result.now ≡ self.now.items }
    {
        &self.items.as_slice()[self.gone..]
    }

    /// One item more, at the end.
    pub fn push(&mut self, item: T) -> Result<(), AllocFailed<T>>
        ensures ok { OnOk result (self.new ≡ record self.old { items = self.old.items ++ item ∷ [] }) }
        ensures err { OnErr result (self.new ≡ self.old) }
        ensures handed_back { IfErr result (λ refused. refused.value ≡ item) }
    {
        if !has_room(&mut self.gaps) {
            return Err(AllocFailed { value: item });
        }
        if let Err(refused) = self.items.push(item) {
            return Err(refused);
        }
        Ok(())
    }

    /// Another item at the position. Returns the one that stood there.
    pub fn put(&mut self, position: usize, item: T) -> T
        requires { position < length self.old.items }
        ensures before { slice_get self.old.items position ≡ Some result }
        ensures items { self.new ≡ record self.old { items = with_item self.old.items position item } }
    {
        let at = place_of(&self.items, self.gone, &self.gaps, position);
        replace(&mut self.items[at], item)
    }

    /// One item less. The filler lies in the gap.
    pub fn remove(&mut self, position: usize, filler: T) -> T
        requires { position < length self.old.items }
        ensures item { slice_get self.old.items position ≡ Some result }
        ensures rest { self.new.items ≡ without self.old.items position }
    {
        let item = take_out(&mut self.items, self.gone, &mut self.gaps, position, filler);
        if self.gaps.len() == self.gaps.capacity() {
            close_gaps(&mut self.items, &mut self.gone, &mut self.gaps);
        }
        item
    }

    /// No gap is left.
    pub fn close(&mut self)
        ensures { self.new ≡ record { items = self.old.items; gaps = 0 } }
    {
        if self.gaps.len() > 0 {
            close_gaps(&mut self.items, &mut self.gone, &mut self.gaps);
        }
    }
}

/// Where the item at the position lies.
fn place_of<T>(items: &[T], gone: usize, gaps: &[usize], position: usize) -> usize
    requires in_order { AreGaps gone gaps.now (length items.now) }
    requires within { position < length (between_gaps items.now gone gaps.now) }
    ensures place { result ≡ gone + position + count_before gaps.now (gone + position) }
    ensures within { result < length items.now }
{
    let place = gone + position;
    place + gaps_before(gaps, place)
}

/// The items from the position on, up to the next gap.
fn stretch_of<'a, T>(items: &'a [T], gone: usize, gaps: &[usize], position: usize) -> &'a [T]
    requires in_order { AreGaps gone gaps.now (length items.now) }
    requires within { position < length (between_gaps items.now gone gaps.now) }
    ensures items { result.now ≡ take (length result.now) (drop position (between_gaps items.now gone gaps.now)) }
    ensures some { 0 < length result.now }
{
    let at = place_of(items, gone, gaps, position);
    let end = next_gap(items, gone, gaps, position, at);
    &items[at..end]
}

/// The gap after the item at the position, or the end of the items.
fn next_gap<T>(items: &[T], gone: usize, gaps: &[usize], position: usize, at: usize) -> usize
    requires in_order { AreGaps gone gaps.now (length items.now) }
    requires within { position < length (between_gaps items.now gone gaps.now) }
    requires at { at ≡ gone + position + count_before gaps.now (gone + position) }
    ensures gap { result ≡ get_or gaps.now (count_before gaps.now (gone + position)) (length items.now) }
    ensures behind { at < result }
    ensures within { result ≤ length items.now }
{
    let before = at - gone - position;
    if before < gaps.len() {
        gaps[before]
    } else {
        items.len()
    }
}

/// The item at the position leaves: one gap more is noted.
fn take_out<T>(items: &mut [T], gone: usize, gaps: &mut Vec<usize>, position: usize, filler: T) -> T
    requires in_order { AreGaps gone gaps.old.items (length items.old) }
    requires within { position < length (between_gaps items.old gone gaps.old.items) }
    requires room { vec_len gaps.old < vec_capacity gaps.old }
    ensures item { slice_get (between_gaps items.old gone gaps.old.items) position ≡ Some result }
    ensures rest { between_gaps items.new gone gaps.new.items
        ≡ without (between_gaps items.old gone gaps.old.items) position }
    ensures in_order { AreGaps gone gaps.new.items (length items.new) }
    ensures len { length items.new ≡ length items.old }
    ensures noted { length gaps.new.items ≤ vec_capacity gaps.new }
    ensures room { 0 < vec_capacity gaps.new }
{
    let at = place_of(items, gone, gaps, position);
    let item = replace(&mut items[at], filler);
    note_gap(gaps, at - gone - position, at);
    item
}

/// How many gaps an item passes that stands at this place where it passes none.
fn gaps_before(gaps: &[usize], place: usize) -> usize
    requires { AreGapsOfSome gaps.now }
    ensures { result ≡ count_before gaps.now place }
{
    let mut low = 0;
    let mut high = gaps.len();
    'halves: while low < high {
        let middle = low + (high - low) / 2;
        if gaps[middle] - middle <= place {
            low = middle + 1;
        } else {
            high = middle;
        }
    }
    low
}

/// Whether one gap more can be noted: room is made where there is none.
fn has_room(gaps: &mut Vec<usize>) -> bool
    ensures gaps { gaps.new.items ≡ gaps.old.items }
    ensures room { IsTrue result → vec_len gaps.new < vec_capacity gaps.new }
    ensures no_less { vec_capacity gaps.old ≤ vec_capacity gaps.new }
{
    if gaps.len() < gaps.capacity() {
        return true;
    }
    gaps.reserve(MOST_GAPS).is_ok()
}

/// One gap more. It takes no memory.
fn note_gap(gaps: &mut Vec<usize>, position: usize, gap: usize)
    requires within { position ≤ length gaps.old.items }
    requires room { vec_len gaps.old < vec_capacity gaps.old }
    ensures gaps { gaps.new.items ≡ insert gaps.old.items position gap }
    ensures room { vec_capacity gaps.old ≤ vec_capacity gaps.new }
{
    match gaps.insert(position, gap) {
        Ok(()) => {}
        Err(_) => unreachable!(),
    }
}

/// No gap is left among the items after those that are gone.
fn close_gaps<T: Drop>(items: &mut Vec<T>, gone: &mut usize, gaps: &mut Vec<usize>)
    requires { AreGaps gone.old gaps.old.items (length items.old.items) }
    ensures items { drop gone.new items.new.items ≡ between_gaps items.old.items gone.old gaps.old.items }
    ensures within { gone.new ≤ length items.new.items }
    ensures closed { gaps.new.items ≡ [] }
    ensures room { vec_capacity gaps.new ≡ vec_capacity gaps.old }
{
    let at = join_gaps(items, *gone, gaps);
    close_gap(items, gone, at, gaps.len());
    gaps.clear();
    drop_gone(items, gone);
}

/// The gaps become one, which ends where the last of them does. Returns where it begins.
fn join_gaps<T>(items: &mut [T], gone: usize, gaps: &[usize]) -> usize
    requires { AreGaps gone gaps.now (length items.old) }
    ensures items { drop gone (items_around_gap items.new result (length gaps.now)) ≡ between_gaps items.old gone gaps.now }
    ensures after_gone { gone ≤ result }
    ensures within { result + length gaps.now ≤ length items.new }
    ensures len { length items.new ≡ length items.old }
{
    let mut at = gone;
    let mut size = 0;
    'gaps: for gap in gaps {
        let next = *gap - size;
        move_gap(items, size, at, next);
        at = next;
        size += 1;
    }
    at
}

/// No gap is left among the items after those that are gone: the shorter side moves.
fn close_gap<T: Drop>(items: &mut Vec<T>, gone: &mut usize, gap: usize, size: usize)
    requires after_gone { gone.old ≤ gap }
    requires within { gap + size ≤ length items.old.items }
    ensures items { drop gone.new items.new.items ≡ drop gone.old (items_around_gap items.old.items gap size) }
    ensures within { gone.new ≤ length items.new.items }
{
    let left = items.len() - size;
    if gap - *gone <= left - gap {
        move_gap(items, size, gap, *gone);
        *gone += size;
    } else {
        move_gap(items, size, gap, left);
        items.truncate(left);
    }
}

/// Moves a gap of the size to another place: each item that it passes goes to its other side.
fn move_gap<T>(items: &mut [T], size: usize, from: usize, to: usize)
    requires from { from + size ≤ length items.old }
    requires to { to + size ≤ length items.old }
    ensures items { items_around_gap items.new to size ≡ items_around_gap items.old from size }
    ensures len { length items.new ≡ length items.old }
{
    if size == 0 {
        return;
    }
    let mut at = from;
    'on: while at < to {
        items.swap(at, at + size);
        at += 1;
    }
    'back: while at > to {
        at -= 1;
        items.swap(at, at + size);
    }
}
