//! The calls of the map of last stretches, one for each replica.

ghost use Rattle.std.specs.Prelude.{◌≡◌, [], IfNone, IfSome, IsSome, None, OnErr, OnOk, Some};
ghost use Rattle.stretch_map.specs.Stretches.{IsLatestUpTo, LatestBecomes, NoLatestUpTo, latest_at};

use super::LatestMap;
use crate::stretches::Stretch;
use fugue_ids::{ElementId, NoMemory};
use std::alloc::Global;
use std::collections::BTreeMap;

impl<V: Copy> LatestMap<V> {
    pub fn new(alloc: Global) -> LatestMap<V>
        ensures { result.by_replica.entries ≡ [] }
    {
        LatestMap {
            by_replica: BTreeMap::new(alloc),
            at_hand: None,
        }
    }

    /// The last stretch of the replica, with the counter that it begins with.
    pub fn of(&self, replica: u32) -> Option<(u32, Stretch<V>)>
        ensures { result ≡ latest_at self.now.by_replica.entries replica }
    {
        if let Some((at, entry)) = self.at_hand {
            if at == replica {
                return Some(entry);
            }
        }
        match self.by_replica.get(&replica) {
            Some(entry) => Some(*entry),
            None => None,
        }
    }

    /// The last stretch of the key's replica, if it begins at the key or before.
    pub fn up_to(&self, key: ElementId) -> Option<(ElementId, Stretch<V>)>
        ensures none { IfNone result (NoLatestUpTo self.now.by_replica.entries key) }
        ensures some { IfSome result (IsLatestUpTo self.now.by_replica.entries key) }
    {
        let (from, stretch) = self.of(key.replica)?;
        if key.counter < from {
            return None;
        }
        let first = ElementId {
            replica: key.replica,
            counter: from,
        };
        Some((first, stretch))
    }

    /// This stretch is the last one of its replica, which may have had none. After an allocation failure all is as
    /// before.
    pub fn insert(&mut self, first: ElementId, stretch: Stretch<V>) -> Result<(), NoMemory>
        ensures ok { OnOk result (LatestBecomes self.old.by_replica.entries self.new.by_replica.entries first.replica
            (Some (first.counter, stretch))) }
        ensures err { OnErr result (self.new.by_replica.entries ≡ self.old.by_replica.entries) }
    {
        let entry = (first.counter, stretch);
        self.by_replica.insert(first.replica, entry)?;
        self.at_hand = Some((first.replica, entry));
        Ok(())
    }

    /// This stretch in the place of the last one of its replica.
    pub fn replace(&mut self, first: ElementId, stretch: Stretch<V>)
        requires { IsSome (latest_at self.old.by_replica.entries first.replica) }
        ensures { LatestBecomes self.old.by_replica.entries self.new.by_replica.entries first.replica
            (Some (first.counter, stretch)) }
    {
        let entry = (first.counter, stretch);
        if let Some(place) = self.by_replica.get_mut(&first.replica) {
            *place = entry;
            self.at_hand = Some((first.replica, entry));
        }
    }

    /// The replica has no last stretch.
    pub fn remove(&mut self, replica: u32)
        ensures { LatestBecomes self.old.by_replica.entries self.new.by_replica.entries replica None }
    {
        self.by_replica.remove(&replica);
        self.at_hand = None;
    }
}
