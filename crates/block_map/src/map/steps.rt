//! The calls of the map: look-up, insertion, removal and renaming of an identifier.

ghost use Rattle.std.specs.Prelude.{◌≡◌, IfSome, None, OnErr, OnOk, Some, option_map};
ghost use Rattle.fugue_ids.specs.Keyed.{IsReplaced};
ghost use Rattle.block_map.specs.Contents.{HasSameValues, IsEmpty, value_of};
ghost use Rattle.block_map.specs.Floors.{IsFloorKey};
ghost use Rattle.block_map.specs.Renames.{IsRenamed};

use super::BlockMap;
use crate::blocks::{floor, put, rename, take_out, value_of_id};
use fugue_ids::{ElementId, NoMemory};
use std::alloc::Global;
use std::collections::BTreeMap;

#[tactic(auto, unfolding(crate::specs::Contents::value_of))]
impl<V: Copy> BlockMap<V> {
    /// A map without values. It takes no memory.
    pub fn new(alloc: Global) -> BlockMap<V>
        ensures { IsEmpty result }
    {
        BlockMap {
            blocks: BTreeMap::new(alloc),
            alloc,
        }
    }

    /// The value of the identifier.
    pub fn get(&self, id: ElementId) -> Option<V>
        ensures { result ≡ value_of self.now id }
    {
        value_of_id(&self.blocks, id)
    }

    /// The identifier has this value then. Only one without a value can run out of memory, and then each has what it
    /// had.
    pub fn insert(&mut self, id: ElementId, value: V) -> Result<(), NoMemory>
        ensures ok { OnOk result (IsReplaced (value_of self.old) (value_of self.new) id (Some value)) }
        ensures err { OnErr result (HasSameValues self.old self.new) }
        ensures absent { OnErr result (value_of self.old id ≡ None) }
    {
        put(&mut self.blocks, self.alloc, id, value)
    }

    /// The identifier has no value then.
    pub fn remove(&mut self, id: ElementId)
        ensures { IsReplaced (value_of self.old) (value_of self.new) id None }
    {
        take_out(&mut self.blocks, id);
    }

    /// The value stands under another identifier then. After an allocation failure each has what it had.
    ///
    /// Where the new identifier is of the same block and no other one lies between, the value stays where it is, which
    /// costs one search.
    pub fn rename(&mut self, from: ElementId, to: ElementId, value: V) -> Result<(), NoMemory>
        requires held { value_of self.old from ≡ Some value }
        requires fresh { value_of self.old to ≡ None }
        ensures ok { OnOk result (IsRenamed (value_of self.old) (value_of self.new) from to) }
        ensures err { OnErr result (HasSameValues self.old self.new) }
    {
        rename(&mut self.blocks, self.alloc, from, to, value)
    }

    /// The greatest identifier with a value that is not above this one, and its value.
    pub fn floor(&self, id: ElementId) -> Option<(ElementId, V)>
        ensures floor { IsFloorKey (value_of self.now) id (option_map (λ x. x.0) result) }
        ensures value { IfSome result (λ x. value_of self.now x.0 ≡ Some x.1) }
    {
        floor(&self.blocks, id)
    }
}
