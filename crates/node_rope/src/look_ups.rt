//! Look-ups of a rope: by key, by index, by weight, and the neighbours of an entry. None of them allocates.

ghost use Rattle.std.specs.Prelude.{◌≡◌, ◌<◌, ◌+◌, ◌≤◌, ℕ, IfSome, IsSome, IfNone, None, Some, drop, length, take};
ghost use Rattle.std.specs.Prelude.{option_copied, option_map, slice_get};
ghost use Rattle.std.specs.Map.{keys_of};
ghost use Rattle.node_rope.specs.Places.{StandsAt, AreKeysDistinct, weight_sum, IsUnit, IsFloor, first_low_key};
ghost use Rattle.node_rope.specs.Places.{last_low_key};
ghost use Rattle.node_rope.specs.Items.{value_under};

use crate::cells::Weigh;
use crate::climb::{before, weight_below};
use crate::find::{find_weight, node_after, node_at, node_within};
use crate::links::{find_link, floor_key, floor_link, keep_at_hand, recent_key};
use crate::low::{first_low_node, last_low_node};
use crate::rope::Rope;
use fugue_ids::ElementId;

impl<T: Weigh> Rope<T> {
    pub fn len(&self) -> usize
        ensures length { result ≡ length self.now }
        ensures distinct { AreKeysDistinct self.now }
    {
        let _ = &self.store;
        match self.root {
            Some(root) => self.store.shape(root).count as usize,
            None => 0,
        }
    }

    /// The value under the key.
    pub fn get(&self, key: ElementId) -> Option<&T>
        ensures { option_copied result ≡ value_under key self.now }
    {
        match find_link(&self.map, key) {
            Some(link) => Some(self.store.value(link)),
            None => None,
        }
    }

    /// How many items stand before the one with this key.
    pub fn place(&self, key: ElementId) -> Option<usize>
        ensures none { IfNone result (value_under key self.now ≡ None) }
        ensures some { IfSome result (λ i. StandsAt self.now i key) }
        ensures inside { IfSome result (λ i. i < length self.now) }
    {
        match find_link(&self.map, key) {
            Some(link) => Some(before(&self.store, self.root, link).count),
            None => None,
        }
    }

    /// The key of the item after this many others.
    pub fn key_at(&self, place: usize) -> Option<ElementId>
        ensures { result ≡ slice_get (keys_of self.now) place }
    {
        match node_at(&self.store, self.root, place) {
            Some(link) => Some(self.store.shape(link).key),
            None => None,
        }
    }

    /// The value of the item after this many others.
    pub fn value_at(&self, place: usize) -> Option<&T>
        ensures { option_copied result ≡ option_map (λ x. x.1) (slice_get self.now place) }
    {
        match node_at(&self.store, self.root, place) {
            Some(link) => Some(self.store.value(link)),
            None => None,
        }
    }

    /// An item of those at the places from `from` on and before `to`: its place and its value. The contract does not say
    /// which one it is. It is the one that stands highest in the tree, so that to halve a part again and again costs less
    /// than a descent to the bottom each time.
    pub fn item_within(&self, from: usize, to: usize) -> Option<(usize, &T)>
        ensures from { IfSome result (λ x. from ≤ x.0) }
        ensures to { IfSome result (λ x. x.0 < to) }
        ensures value { IfSome result (λ x. option_map (λ i. i.1) (slice_get self.now x.0) ≡ Some x.1.now) }
        ensures none { IfNone result (from < to → length self.now ≤ from) }
    {
        let found = node_within(&self.store, self.root, from, to)?;
        Some((found.place, self.store.value(found.link)))
    }

    /// The key of the first item.
    pub fn first(&self) -> Option<ElementId>
        ensures { result ≡ slice_get (keys_of self.now) 0 }
    {
        self.key_at(0)
    }

    /// The item after the one with this key.
    pub fn next_item(&self, key: ElementId) -> Option<(ElementId, &T)>
        ensures some { IfSome result (λ n. (i : ℕ) × StandsAt self.now i key × StandsAt self.now (i + 1) n.0) }
        ensures value { IfSome result (λ n. value_under n.0 self.now ≡ Some n.1.now) }
        ensures none { IfNone result
            (IsSome (value_under key self.now) → (i : ℕ) × StandsAt self.now i key × (length self.now ≡ i + 1)) }
    {
        let link = match find_link(&self.map, key) {
            Some(link) => link,
            None => return None,
        };
        match node_after(&self.store, self.root, link) {
            Some(behind) => Some((self.store.shape(behind).key, self.store.value(behind))),
            None => None,
        }
    }

    /// The key of the item after the one with this key.
    pub fn next(&self, key: ElementId) -> Option<ElementId>
        ensures some { IfSome result (λ n. (i : ℕ) × StandsAt self.now i key × StandsAt self.now (i + 1) n) }
        ensures none { IfNone result
            (IsSome (value_under key self.now) → (i : ℕ) × StandsAt self.now i key × (length self.now ≡ i + 1)) }
    {
        match self.next_item(key) {
            Some(item) => Some(item.0),
            None => None,
        }
    }

    /// The weight of all items before the one with this key.
    pub fn weight_before(&self, key: ElementId) -> Option<u64>
        ensures none { IfNone result (value_under key self.now ≡ None) }
        ensures some { IfSome result
            (λ w. (i : ℕ) × StandsAt self.now i key × (w ≡ weight_sum T.weight_of (take i self.now))) }
    {
        match find_link(&self.map, key) {
            Some(link) => Some(before(&self.store, self.root, link).weight),
            None => None,
        }
    }

    /// The weight of all items.
    pub fn total(&self) -> u64
        ensures { result ≡ weight_sum T.weight_of self.now }
    {
        weight_below(&self.store, self.root)
    }

    /// The key of the item that holds a unit of weight, and how many of its units stand before that one.
    pub fn find_weight(&self, w: u64) -> Option<(ElementId, u64)>
        ensures none { IfNone result (weight_sum T.weight_of self.now ≤ w) }
        ensures some { IfSome result (λ u. IsUnit T.weight_of self.now w u.0 u.1) }
    {
        match self.find_weight_item(w) {
            Some(unit) => Some((unit.0, unit.2)),
            None => None,
        }
    }

    /// The item that holds a unit of weight, and how many of its units stand before that one.
    pub fn find_weight_item(&self, w: u64) -> Option<(ElementId, &T, u64)>
        ensures none { IfNone result (weight_sum T.weight_of self.now ≤ w) }
        ensures some { IfSome result (λ u. IsUnit T.weight_of self.now w u.0 u.2) }
        ensures value { IfSome result (λ u. value_under u.0 self.now ≡ Some u.1.now) }
    {
        let unit = find_weight(&self.store, self.root, w)?;
        let key = self.store.shape(unit.link).key;
        Some((key, self.store.value(unit.link), unit.inside))
    }

    /// The key of the first item, of those after `from` others, whose rank is at most `most`.
    pub fn first_low(&self, from: usize, most: u64) -> Option<ElementId>
        ensures { result ≡ first_low_key T.rank_of most (drop from self.now) }
    {
        match first_low_node(&self.store, self.root, from, most) {
            Some(link) => Some(self.store.shape(link).key),
            None => None,
        }
    }

    /// The last item, of the first `to` ones, whose rank is at most `most`.
    pub fn last_low_item(&self, to: usize, most: u64) -> Option<(ElementId, &T)>
        ensures low { option_map (λ x. x.0) result ≡ last_low_key T.rank_of most (take to self.now) }
        ensures value { IfSome result (λ x. value_under x.0 self.now ≡ Some x.1.now) }
    {
        match last_low_node(&self.store, self.root, to, most) {
            Some(link) => Some((self.store.shape(link).key, self.store.value(link))),
            None => None,
        }
    }

    /// The key of the last item, of the first `to` ones, whose rank is at most `most`.
    pub fn last_low(&self, to: usize, most: u64) -> Option<ElementId>
        ensures { result ≡ last_low_key T.rank_of most (take to self.now) }
    {
        match self.last_low_item(to, most) {
            Some(item) => Some(item.0),
            None => None,
        }
    }

    /// The greatest key that is not above this one.
    pub fn floor(&self, key: ElementId) -> Option<ElementId>
        ensures { IsFloor self.now key result }
    {
        floor_key(&self.map, key)
    }

    /// The item under the greatest key that is not above this one.
    pub fn floor_item(&self, key: ElementId) -> Option<(ElementId, &T)>
        ensures floor { IsFloor self.now key (option_map (λ x. x.0) result) }
        ensures value { IfSome result (λ x. value_under x.0 self.now ≡ Some x.1.now) }
    {
        let (found, link) = floor_link(&self.map, key)?;
        Some((found, self.store.value(link)))
    }
}

impl<T: Weigh> Rope<T> {
    /// The key of the item that was used last, while that is at hand: it is found with no search.
    pub fn at_hand(&self) -> Option<ElementId>
        ensures { IfSome result (λ key. IsSome (value_under key self.now)) }
    {
        let key = recent_key(&self.map)?;
        match self.get(key) {
            Some(_) => Some(key),
            None => None,
        }
    }

    /// The item under the key comes at hand, or else the one under the greatest key below it.
    pub fn keep_at_hand(&mut self, key: ElementId)
        ensures { self.new ≡ self.old }
    {
        if let Some(floor) = floor_link(&self.map, key) {
            keep_at_hand(&mut self.map, floor.0, floor.1);
        }
    }
}
