//! A map from identifiers to values that keeps consecutive identifiers as one entry, where a rule gives their values.

ghost use Rattle.std.specs.Prelude.{◌≡◌, ◌⊎◌, ◌↔◌, ◌<◌, ◌≤◌, ◌+◌, ◌-◌, ◌^◌, None, Some, IfOk, IsOk, IsTrue, OnErr};
ghost use Rattle.std.specs.Prelude.{OnOk};
ghost use Rattle.std.specs.FinMap as map;
ghost use Rattle.fugue_ids.specs.Runs.{id_after};
ghost use Rattle.stretch_map.specs.Rules.{AreFree, IsFollowedBy, IsGreatestIn, FollowsByRule, ReachesRun, with_run};

use crate::follows::Follows;
use crate::free::is_free;
use crate::greatest::greatest;
use crate::latest::LatestMap;
use crate::put::put;
use crate::read::value_at;
use crate::stretches::{Stretch, Stretches};
use crate::take_out::take_out;
use fugue_ids::{ElementId, NoMemory};
use std::alloc::Global;
use std::collections::BTreeMap;
use std::marker::Model;

/// A map from identifiers to values. A stretch of identifiers is one entry, where the rule gives its values.
///
/// A stretch grows at its end alone: identifiers that come in falling order are an entry each. The last stretch of each
/// replica grows with no look-up among the others.
#[derive(Drop)]
pub struct StretchMap<V: Follows> {
    stretches: Stretches<V>,
    newest: Option<ElementId>,
}

impl<V: Follows> Model for StretchMap<V> {
    ghost use Rattle.std.specs.Prelude.{◌≡◌, IfSome};
    ghost use Rattle.std.specs.FinMap as map;
    ghost use Rattle.stretch_map.specs.Contents.{coded_mapped, contents, layout, Mapped};
    ghost use Rattle.stretch_map.specs.Stretches.{AreStretches, EndsAt};

    ghost Value = { Mapped V };

    ghost coded = { coded_mapped V.code };

    ghost view = { λ m. record { values = contents V.nth (layout m.stretches); newest = m.newest } };

    ghost invariant = { λ m. record {
      are : AreStretches V.reaches (layout m.stretches);
      ends : IfSome m.newest (EndsAt (layout m.stretches));
    } };
}

impl<V: Follows> StretchMap<V> {
    /// A map without values. It takes no memory.
    pub fn new(alloc: Global) -> StretchMap<V>
        ensures values { result.values ≡ map.empty }
        ensures newest { result.newest ≡ None }
    {
        StretchMap {
            stretches: Stretches {
                latest: LatestMap::new(alloc),
                kept: BTreeMap::new(alloc),
            },
            newest: None,
        }
    }

    /// The identifier that came last, if none was removed since.
    pub fn newest(&self) -> Option<ElementId>
        ensures { result ≡ self.now.newest }
    {
        self.newest
    }

    /// The value of the identifier.
    pub fn get(&self, key: ElementId) -> Option<V>
        ensures { result ≡ map.get self.now.values key }
    {
        value_at(&self.stretches, key)
    }

    /// The greatest counter of the replica's identifiers that have a value.
    pub fn greatest(&self, replica: u32) -> Option<u32>
        requires { 0 < replica }
        ensures { IsGreatestIn (map.get self.now.values) replica result }
    {
        greatest(&self.stretches, replica)
    }

    /// Whether none of so many identifiers, from this one on, has a value.
    pub fn is_free(&self, first: ElementId, count: u32) -> bool
        requires { first.counter + count ≤ 2 ^ 32 }
        ensures { IsTrue result ↔ AreFree (map.get self.now.values) first count }
    {
        if count == 0 {
            return true;
        }
        is_free(&self.stretches, first, first.counter + (count - 1))
    }

    /// A value for an identifier that has none. No memory is wanted where the value follows that of the identifier
    /// before.
    pub fn insert(&mut self, key: ElementId, value: V) -> Result<(), NoMemory>
        requires { map.get self.old.values key ≡ None }
        ensures ok { OnOk result (self.new
            ≡ record { values = map.insert self.old.values key value; newest = Some key }) }
        ensures err { OnErr result (self.new ≡ self.old) }
        ensures sure { FollowsByRule V.nth V.reaches (map.get self.old.values) key value → IsOk result }
    {
        self.insert_run(key, 1, value)
    }

    /// A value for each of so many identifiers, from the first on, which have none: the rule gives them from the first
    /// one's. This is one entry. No memory is wanted where the first value follows that of the identifier before.
    pub fn insert_run(&mut self, first: ElementId, count: u32, value: V) -> Result<(), NoMemory>
        requires some { 0 < count }
        requires counters { first.counter + count ≤ 2 ^ 32 }
        requires reached { ReachesRun V.reaches first value count }
        requires free { AreFree (map.get self.old.values) first count }
        ensures ok { OnOk result (self.new ≡ record {
          values = with_run V.nth first value count self.old.values;
          newest = Some (id_after first (count - 1));
        }) }
        ensures err { OnErr result (self.new ≡ self.old) }
        ensures sure { FollowsByRule V.nth V.reaches (map.get self.old.values) first value → IsOk result }
    {
        let last = first.counter + (count - 1);
        put(&mut self.stretches, first, Stretch { value, last })?;
        self.newest = Some(ElementId {
            replica: first.replica,
            counter: last,
        });
        Ok(())
    }

    /// The value of the identifier, which has none then. No memory is wanted for the one that came last, nor where the
    /// next identifier has not the value that follows.
    pub fn remove(&mut self, key: ElementId) -> Result<Option<V>, NoMemory>
        ensures value { IfOk result (λ value. value ≡ map.get self.old.values key) }
        ensures ok { OnOk result (self.new ≡ record { values = map.remove self.old.values key; newest = None }) }
        ensures err { OnErr result (self.new ≡ self.old) }
        ensures sure { (self.old.newest ≡ Some key)
            ⊎ (IsFollowedBy V.nth (map.get self.old.values) key → ⊥) → IsOk result }
    {
        let value = take_out(&mut self.stretches, key)?;
        self.newest = None;
        Ok(value)
    }
}
