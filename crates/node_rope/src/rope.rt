//! The rope: a list of entries with keys and weights, in a balanced tree, and how entries are inserted and replaced.

ghost use Rattle.std.specs.Prelude.{◌≡◌, ◌<◌, ◌≤◌, ◌^◌, [], ◌∷◌, OnOk, IfErr, IsSome, IsNone, Some, length, IfOk};
ghost use Rattle.std.specs.Prelude.{IsFalse, IsTrue};
ghost use Rattle.node_rope.specs.Items.{value_under};
ghost use Rattle.node_rope.specs.Beside.{placed_before, placed_after, placed_beside, put_under, items_renamed, items_rekeyed};

use crate::attach::enter;
use crate::cells::{Link, Shape, Weigh};
use crate::items::{grow, own_of, refill};
use crate::links::{KeyMap, find_link, no_links, rename_link};
use crate::store::Store;
use crate::turn::Side;
use fugue_ids::{ElementId, MOST_OPERATIONS};
use std::alloc::Global;
use std::marker::Model;

/// An allocation failure, with the value handed back.
#[derive(Drop)]
pub struct Back<T> {
    pub value: T,
}

/// Values in an order, each under a key of its own.
#[derive(Drop)]
pub struct Rope<T: Weigh> {
    pub(crate) store: Store<T>,
    pub(crate) root: Option<Link>,
    pub(crate) map: KeyMap,
}

impl<T: Weigh> Model for Rope<T> {
    ghost use Rattle.std.specs.Prelude.{List};
    ghost use Rattle.fugue_ids.specs.Identifiers.{Identifier};

    ghost Value = { List (Identifier × T) };

    ghost use Rattle.node_rope.specs.Items.{rope_items_of, own_of, IsRope};

    ghost view = { λ r. rope_items_of r.store r.root };

    ghost invariant = { λ r. IsRope (own_of T.weight_of T.rank_of) r.store r.root r.map.links };
}

impl<T: Weigh> Rope<T> {
    pub fn new(alloc: Global) -> Rope<T>
        ensures { result ≡ [] }
    {
        Rope {
            store: Store::new(alloc),
            root: None,
            map: no_links(alloc),
        }
    }

    // A new item directly at the side of the one with the key `at`.
    fn insert_beside(
        &mut self,
        side: Side,
        at: ElementId,
        key: ElementId,
        value: T,
    ) -> Result<(), Back<T>>
        requires held { IsSome (value_under at self.old) }
        requires fresh { IsNone (value_under key self.old) }
        requires room { length self.old < MOST_OPERATIONS }
        ensures placed { OnOk result (self.new ≡ placed_beside side at (key, value) self.old) }
        ensures refused { IfErr result (λ b. (b.value ≡ value) × (self.new ≡ self.old)) }
    {
        let link = match find_link(&self.map, at) {
            Some(link) => link,
            // The key `at` is held: no call comes here.
            None => return Err(Back { value }),
        };
        grow(
            &mut self.store,
            &mut self.map,
            &mut self.root,
            side,
            at,
            link,
            key,
            value,
        )
    }

    /// A new item directly before the one with the key `at`. After an allocation failure the rope is as before.
    pub fn insert_before(&mut self, at: ElementId, key: ElementId, value: T) -> Result<(), Back<T>>
        requires held { IsSome (value_under at self.old) }
        requires fresh { IsNone (value_under key self.old) }
        requires room { length self.old < MOST_OPERATIONS }
        ensures placed { OnOk result (self.new ≡ placed_before at (key, value) self.old) }
        ensures refused { IfErr result (λ b. (b.value ≡ value) × (self.new ≡ self.old)) }
    {
        self.insert_beside(Side::Left, at, key, value)
    }

    /// A new item directly after the one with the key `at`. After an allocation failure the rope is as before.
    pub fn insert_after(&mut self, at: ElementId, key: ElementId, value: T) -> Result<(), Back<T>>
        requires held { IsSome (value_under at self.old) }
        requires fresh { IsNone (value_under key self.old) }
        requires room { length self.old < MOST_OPERATIONS }
        ensures placed { OnOk result (self.new ≡ placed_after at (key, value) self.old) }
        ensures refused { IfErr result (λ b. (b.value ≡ value) × (self.new ≡ self.old)) }
    {
        self.insert_beside(Side::Right, at, key, value)
    }

    /// Another value for the item with the key `at`, and a new item directly after it, by one look-up less than the two
    /// calls. After an allocation failure the rope is as before, and the new item's value is handed back.
    pub fn part(&mut self, at: ElementId, front: T, key: ElementId, back: T) -> Result<(), Back<T>>
        requires held { IsSome (value_under at self.old) }
        requires fresh { IsNone (value_under key self.old) }
        requires room { length self.old < MOST_OPERATIONS }
        ensures parted { OnOk result (self.new ≡ put_under at front (placed_after at (key, back) self.old)) }
        ensures refused { IfErr result (λ b. (b.value ≡ back) × (self.new ≡ self.old)) }
    {
        let link = match find_link(&self.map, at) {
            Some(link) => link,
            // The key `at` is held: no call comes here.
            None => return Err(Back { value: back }),
        };
        match grow(
            &mut self.store,
            &mut self.map,
            &mut self.root,
            Side::Right,
            at,
            link,
            key,
            back,
        ) {
            Ok(()) => {
                refill(&mut self.store, &mut self.map, self.root, at, link, front);
                Ok(())
            }
            Err(back) => Err(back),
        }
    }

    /// The first item of an empty rope.
    pub fn insert_first(&mut self, key: ElementId, value: T) -> Result<(), Back<T>>
        requires { self.old ≡ [] }
        ensures placed { OnOk result (self.new ≡ (key, value) ∷ []) }
        ensures refused { IfErr result (λ b. (b.value ≡ value) × (self.new ≡ self.old)) }
    {
        let own = own_of(&value);
        let shape = Shape {
            key,
            left: None,
            right: None,
            parent: None,
            count: 1,
            weight: own.weight as u64,
            least: own.rank,
            own,
        };
        match enter(&mut self.store, &mut self.map, shape, value) {
            Ok(node) => {
                self.root = Some(node);
                Ok(())
            }
            Err(back) => Err(back),
        }
    }

    /// Another value under the key. The old one is the answer.
    pub fn put(&mut self, key: ElementId, value: T) -> T
        requires { IsSome (value_under key self.old) }
        ensures old { value_under key self.old ≡ Some result }
        ensures put { self.new ≡ put_under key value self.old }
    {
        let link = match find_link(&self.map, key) {
            Some(link) => link,
            // The key is held: no call comes here.
            None => return value,
        };
        refill(&mut self.store, &mut self.map, self.root, key, link, value)
    }
}

// A new item in the place of another.

impl<T: Weigh> Rope<T> {
    // Another key for an item. Entering that alone can run out of memory: then the answer is false, and the rope as
    // before.
    fn rename(&mut self, key: ElementId, new_key: ElementId) -> bool
        requires held { IsSome (value_under key self.old) }
        requires fresh { IsNone (value_under new_key self.old) }
        ensures renamed { IsTrue result → self.new ≡ items_renamed key new_key self.old }
        ensures refused { IsFalse result → self.new ≡ self.old }
    {
        let link = match find_link(&self.map, key) {
            Some(link) => link,
            // The key is held: no call comes here.
            None => return false,
        };
        if !rename_link(&mut self.map, key, new_key, link) {
            return false;
        }
        let shape = self.store.shape(link);
        self.store.set_shape(
            link,
            Shape {
                key: new_key,
                ..shape
            },
        );
        true
    }

    /// Another value in place of one, under another key, which no item has. After an allocation failure the rope is as
    /// before.
    pub fn rekey(&mut self, key: ElementId, new_key: ElementId, value: T) -> Result<T, Back<T>>
        requires held { IsSome (value_under key self.old) }
        requires fresh { IsNone (value_under new_key self.old) }
        ensures old { IfOk result (λ old. value_under key self.old ≡ Some old) }
        ensures rekeyed { OnOk result (self.new ≡ items_rekeyed key (new_key, value) self.old) }
        ensures refused { IfErr result (λ b. (b.value ≡ value) × (self.new ≡ self.old)) }
    {
        if !self.rename(key, new_key) {
            return Err(Back { value });
        }
        Ok(self.put(new_key, value))
    }
}
