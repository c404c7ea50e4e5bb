//! An index of the waiting operations.
ghost use Rattle.std.specs.Prelude.{◌≡◌, ◌<◌, ◌++◌, ◌∷◌, [], List, Some, length, remove as without, slice_get, All};
ghost use Rattle.std.specs.Prelude.{AllPairs, nat_eq, IfOk, OnOk, OnErr, ◌^◌, IfSome, option_map, IsTrue, ◌+◌, ◌≤◌, ◌↔◌};
ghost use Rattle.fugue_ids.specs.declared.op.Op.{Op as AnyOp};
ghost use Rattle.origin_model.specs.operations.History.{has_op};
ghost use Rattle.origin_model.specs.operations.Verdict.{id_held};
ghost use Rattle.origin_model.specs.operations.Counters.{counters, IsGreatest};
ghost use Rattle.causal_inbox.specs.Keyed.{HasNoEmpty};
ghost use Rattle.std.specs.List.{position_or_len};
ghost use Rattle.causal_inbox.specs.Index.{IsAgeIndex, IsAgeIndexOfSome, IsFirstFrom, is_equal_at, positions_with};
ghost use Rattle.causal_inbox.specs.Lists.{ages_under, key_cmp};
ghost use Rattle.causal_inbox.specs.Greatest.{IsGreatestUnder, IsLastKey};
ghost use Rattle.causal_inbox.specs.Naming.{AreConcerned};
ghost use Rattle.causal_inbox.specs.Ranges.{HasListFrom};

use crate::key::{Key, main_key, named_key, own_key};
use crate::keyed_lists::list_under;
use crate::lists::{Lists, add_age, drop_age, nth_age};
use crate::{Gapped, Queue};
use fugue_ids::{ElementId, NoMemory, Op};
use std::alloc::Global;

/// What waits already of an operation.
#[derive(Clone, Copy, Debug, PartialEq, Eq)]
pub enum Found {
    /// An equal operation waits.
    Same,
    /// Another operation with its identifier waits: never of a `Delete`, which has none.
    Clash,
    Absent,
}

/// Where the operations of a list stand that have a key. Each of them has an age, greater than those before it, so that
/// one that is removed changes no other.
#[derive(Drop)]
pub(crate) struct Index {
    pub ages: Gapped<u64>,
    pub lists: Lists,
    pub alloc: Global,
}

impl Index {
    pub fn new(alloc: Global) -> Index
        ensures index { IsAgeIndex [] result.ages.items (ages_under result.lists) }
        ensures no_empty { HasNoEmpty key_cmp result.lists }
    {
        Index {
            ages: Gapped::new(alloc),
            lists: Lists::new(alloc),
            alloc,
        }
    }

    /// The position of the operation with the key that stands after k others with it.
    pub fn nth(&self, key: &Key, k: usize) -> Option<usize>
        requires { AllPairs ◌<◌ self.now.ages.items }
        ensures { (ops : List AnyOp) → IsAgeIndex ops self.now.ages.items (ages_under self.now.lists)
            → result ≡ slice_get (positions_with key.now ops) k }
    {
        match nth_age(&self.lists, key, k) {
            Some(age) => Some(position(&self.ages, age)),
            None => None,
        }
    }

    /// Whether one of the operations is equal.
    pub fn has_equal(&self, ops: &Gapped<Op>, op: &Op) -> bool
        requires { IsAgeIndex ops.now.items self.now.ages.items (ages_under self.now.lists) }
        ensures { result ≡ has_op ops.now.items op.now }
    {
        let key = main_key(op);
        for age in list_under(&self.lists, &key) {
            if equals_at(ops, position(&self.ages, *age), op) {
                return true;
            }
        }
        false
    }

    /// Whether one of the operations has the identifier.
    pub fn has_id(&self, ops: &Gapped<Op>, id: Option<ElementId>) -> bool
        requires { IsAgeIndex ops.now.items self.now.ages.items (ages_under self.now.lists) }
        ensures { result ≡ id_held ops.now.items id }
    {
        match id {
            Some(id) => nth_age(&self.lists, &own_key(id), 0).is_some(),
            None => false,
        }
    }

    /// The greatest counter of the replica among the identifiers that the operations have or name.
    #[tactic(auto, using(crate::proofs::GreatestLemmas::greatest_mentioned))]
    pub fn greatest(&self, replica: u32) -> Option<u32>
        requires { HasNoEmpty key_cmp self.now.lists }
        ensures { (ops : List AnyOp) → IsAgeIndex ops self.now.ages.items (ages_under self.now.lists)
            → IsGreatest (counters replica ops) result }
    {
        greatest_under(&self.lists, replica)
    }

    /// Whether one of the operations has or names one of so many identifiers, from this one on.
    pub fn concerns(&self, first: ElementId, count: u32) -> bool
        requires some { 0 < count }
        requires counters { first.counter + count ≤ 2 ^ 32 }
        requires no_empty { HasNoEmpty key_cmp self.now.lists }
        ensures { (ops : List AnyOp) → IsAgeIndex ops self.now.ages.items (ages_under self.now.lists)
            → IsTrue result ↔ AreConcerned ops first count }
    {
        has_list_from(&self.lists, first, count)
    }

    /// One operation more, at the end. After an allocation failure the index is as before.
    pub fn add(&mut self, op: &Op) -> Result<(), NoMemory>
        requires { IsAgeIndexOfSome self.old.ages.items (ages_under self.old.lists) }
        ensures ok { OnOk result ((ops : List AnyOp) → IsAgeIndex ops self.old.ages.items (ages_under self.old.lists)
            → IsAgeIndex (ops ++ op.now ∷ []) self.new.ages.items (ages_under self.new.lists)) }
        ensures err { OnErr result ((ops : List AnyOp) → IsAgeIndex ops self.old.ages.items (ages_under self.old.lists)
            → IsAgeIndex ops self.new.ages.items (ages_under self.new.lists)) }
        ensures no_empty { HasNoEmpty key_cmp self.old.lists → HasNoEmpty key_cmp self.new.lists }
    {
        let end = self.ages.len();
        let age = next_age(&self.ages)?;
        self.ages.push(age)?;
        if let Err(fault) = add_age(&mut self.lists, self.alloc, op, age) {
            drop_age(&mut self.lists, op, age);
            self.ages.remove(end, 0);
            return Err(fault);
        }
        Ok(())
    }

    /// The operation at the position less.
    pub fn remove(&mut self, op: &Op, position: usize)
        requires within { position < length self.old.ages.items }
        requires some { IsAgeIndexOfSome self.old.ages.items (ages_under self.old.lists) }
        ensures index { (ops : List AnyOp) → IsAgeIndex ops self.old.ages.items (ages_under self.old.lists)
            → slice_get ops position ≡ Some op.now
            → IsAgeIndex (without ops position) self.new.ages.items (ages_under self.new.lists) }
        ensures no_empty { HasNoEmpty key_cmp self.old.lists → HasNoEmpty key_cmp self.new.lists }
    {
        let age = self.ages.remove(position, 0);
        drop_age(&mut self.lists, op, age);
    }
}

/// Whether the operation at the position is equal.
fn equals_at(ops: &Gapped<Op>, position: usize, op: &Op) -> bool
    ensures { result ≡ is_equal_at ops.now.items op.now position }
{
    if position >= ops.len() {
        return false;
    }
    *ops.get(position) == *op
}

/// Where the age stands: the number of ages where it does not.
fn position(ages: &Gapped<u64>, age: u64) -> usize
    requires { AllPairs ◌<◌ ages.now.items }
    ensures { result ≡ position_or_len (λ b. nat_eq b age) ages.now.items }
{
    let first = first_from(ages, age);
    if first < ages.len() && *ages.get(first) == age {
        return first;
    }
    ages.len()
}

/// The position of the first age that is not below this one.
fn first_from(ages: &Gapped<u64>, age: u64) -> usize
    requires { AllPairs ◌<◌ ages.now.items }
    ensures { IsFirstFrom ages.now.items age result }
{
    let mut low = 0;
    let mut high = ages.len();
    'halves: while low < high {
        let middle = low + (high - low) / 2;
        if *ages.get(middle) < age {
            low = middle + 1;
        } else {
            high = middle;
        }
    }
    low
}

/// An age above all. There is none after the last number, which no run reaches.
fn next_age(ages: &Gapped<u64>) -> Result<u64, NoMemory>
    requires { AllPairs ◌<◌ ages.now.items }
    ensures { IfOk result (λ age. All (λ other. other < age) ages.now.items) }
{
    let count = ages.len();
    if count == 0 {
        return Ok(0);
    }
    let last = *ages.get(count - 1);
    if last == u64::MAX {
        return Err(NoMemory);
    }
    Ok(last + 1)
}

/// Whether a key of one of so many identifiers, from this one on, has a list.
pub(crate) fn has_list_from(lists: &Lists, first: ElementId, count: u32) -> bool
    requires some { 0 < count }
    requires counters { first.counter + count ≤ 2 ^ 32 }
    ensures { IsTrue result ↔ HasListFrom lists.now first count }
{
    let last = ElementId {
        replica: first.replica,
        counter: first.counter + (count - 1),
    };
    match lists.range(own_key(first)..=named_key(last)).next_back() {
        Some(_) => true,
        None => false,
    }
}

/// The greatest counter of the replica among the identifiers of the keys that have a list.
#[tactic(auto, using(crate::proofs::KeyOrderLemmas::greatest_last, crate::proofs::KeyOrderLemmas::greatest_none, crate::proofs::KeyOrderLemmas::greatest_other))]
pub(crate) fn greatest_under(lists: &Lists, replica: u32) -> Option<u32>
    ensures { IsGreatestUnder lists.now replica result }
{
    match last_key(lists, replica) {
        Some(key) if key.id.replica == replica => Some(key.id.counter),
        _ => None,
    }
}

/// The last key that has a list, among those of this replica and of lesser ones.
fn last_key(lists: &Lists, replica: u32) -> Option<Key>
    ensures { IsLastKey lists.now replica result }
{
    match replica.checked_add(1) {
        Some(replica) => {
            let next = own_key(ElementId {
                replica,
                counter: 0,
            });
            key_of(lists.range(..next).next_back())
        }
        None => key_of(lists.last_key_value()),
    }
}

/// The key of an entry that may be there.
fn key_of(entry: Option<(&Key, &Queue<u64>)>) -> Option<Key>
    ensures key { result ≡ option_map (λ e. e.0.now) entry.entry }
    ensures fits { IfSome result (λ key. key.id.replica < 2 ^ 32) }
{
    match entry {
        Some((key, _)) => {
            let _replica = key.id.replica;
            Some(*key)
        }
        None => None,
    }
}
