//! A list in one slice, from both ends of which items are removed in amortized constant time.
ghost use Rattle.std.specs.Prelude.{◌≡◌, ◌<◌, ◌≤◌, ◌+◌, ◌-◌, ◌++◌, ◌∷◌, [], Some, drop, take, length};
ghost use Rattle.std.specs.Prelude.{remove as without, set as with_item, slice_get, OnOk, OnErr, IfErr};

use std::alloc::{AllocFailed, Global};
use std::marker::Model;
use std::mem::replace;

/// A list whose items leave in constant time on average at both ends, and which is one slice.
///
/// One that leaves moves the shorter side. Before the first item lie places that are gone; where they are more than the
/// items, they are dropped.
#[derive(Drop)]
pub struct Queue<T> {
    items: Vec<T>,
    gone: usize,
}

impl<T> Model for Queue<T> {
    ghost use Rattle.std.specs.Prelude.{◌≤◌, ◌+◌, List, drop, length};

    ghost Value = { List T };

    ghost view = { λ queue. drop queue.gone queue.items.items };

    ghost invariant = { λ queue. queue.gone + queue.gone ≤ length queue.items.items };
}

impl<T: Drop> Queue<T> {
    pub fn new(alloc: Global) -> Queue<T>
        ensures { result ≡ [] }
    {
        Queue {
            items: Vec::new(alloc),
            gone: 0,
        }
    }

    pub fn as_slice(&self) -> &[T]
        ensures { result.now ≡ self.now }
    {
        &self.items.as_slice()[self.gone..]
    }

    pub fn len(&self) -> usize
        ensures { result ≡ length self.now }
    {
        self.items.len() - self.gone
    }

    /// One item more, at the end.
    pub fn push(&mut self, item: T) -> Result<(), AllocFailed<T>>
        ensures ok { OnOk result (self.new ≡ self.old ++ item ∷ []) }
        ensures err { OnErr result (self.new ≡ self.old) }
        ensures handed_back { IfErr result (λ refused. refused.value ≡ item) }
    {
        self.items.push(item)
    }

    /// Another item at the position. Returns the one that stood there.
    pub fn put(&mut self, position: usize, item: T) -> T
        requires { position < length self.old }
        ensures before { slice_get self.old position ≡ Some result }
        ensures items { self.new ≡ with_item self.old position item }
    {
        let at = self.gone + position;
        replace(&mut self.items[at], item)
    }

    /// One item less. The filler lies in a place that is gone.
    pub fn remove(&mut self, position: usize, filler: T) -> T
        requires { position < length self.old }
        ensures item { slice_get self.old position ≡ Some result }
        ensures rest { self.new ≡ without self.old position }
    {
        let item = close_up(&mut self.items, &mut self.gone, position, filler);
        drop_gone(&mut self.items, &mut self.gone);
        item
    }
}

/// The item at the position after those that are gone leaves, and the shorter side moves.
fn close_up<T: Drop>(items: &mut Vec<T>, gone: &mut usize, position: usize, filler: T) -> T
    requires { gone.old + position < length items.old.items }
    ensures item { slice_get (drop gone.old items.old.items) position ≡ Some result }
    ensures rest { drop gone.new items.new.items ≡ without (drop gone.old items.old.items) position }
    ensures within { gone.new ≤ length items.new.items }
{
    let first = *gone;
    let at = first + position;
    if position < items.len() - at {
        *gone = first + 1;
        return move_up(items, first, position, filler);
    }
    drop(filler);
    items.remove(at)
}

/// The item after `first` and `position` others leaves, and the `position` others move up by one.
fn move_up<T>(items: &mut [T], first: usize, position: usize, filler: T) -> T
    requires { first + position < length items.old }
    ensures item { slice_get (drop first items.old) position ≡ Some result }
    ensures rest { drop (first + 1) items.new ≡ without (drop first items.old) position }
{
    let moving = &mut items[first..first + position + 1];
    moving.rotate_right(1);
    replace(&mut moving[0], filler)
}

/// Drops the places that are gone where they are more than the items.
pub(crate) fn drop_gone<T: Drop>(items: &mut Vec<T>, gone: &mut usize)
    requires { gone.old ≤ length items.old.items }
    ensures items { drop gone.new items.new.items ≡ drop gone.old items.old.items }
    ensures few { gone.new + gone.new ≤ length items.new.items }
{
    let left = items.len() - *gone;
    if *gone > left {
        items.rotate_left(*gone);
        items.truncate(left);
        *gone = 0;
    }
}
