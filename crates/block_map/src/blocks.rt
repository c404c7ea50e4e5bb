//! Blocks under their keys.
ghost use Rattle.std.specs.Prelude.{◌≡◌, IfNone, IfSome, IsFalse, IsTrue, None, OnErr, OnOk, Some, option_map};
ghost use Rattle.std.specs.BTreeMap.{IsUnchanged, get};
ghost use Rattle.fugue_ids.specs.Identifiers.{Identifier, id_cmp};
ghost use Rattle.fugue_ids.specs.Keyed.{IsReplaced};
ghost use Rattle.block_map.specs.Blocks.{AreBlocks, IsInBlockBefore, IsUpToInBlock, block_of, block_value};
ghost use Rattle.block_map.specs.Blocks.{with_counter};
ghost use Rattle.block_map.specs.Floors.{HasNone, IsFloorKey, IsGreatestKey};
ghost use Rattle.block_map.specs.Renames.{IsRenamed};

use crate::block::Block;
use fugue_ids::{ElementId, NoMemory};
use std::alloc::Global;
use std::collections::BTreeMap;

/// The key of the identifier's block, and its counter there.
fn place_of(id: ElementId) -> (ElementId, u32)
    ensures key { result.0 ≡ block_of id }
    ensures counter { result.1 ≡ id.counter }
{
    let key = ElementId {
        replica: id.replica,
        counter: id.counter / 64,
    };
    (key, id.counter)
}

/// The value of the identifier.
pub(crate) fn value_of_id<V: Copy>(
    blocks: &BTreeMap<ElementId, Block<V>>,
    id: ElementId,
) -> Option<V>
    ensures { result ≡ block_value blocks.now id }
{
    let (key, counter) = place_of(id);
    match blocks.get(&key) {
        Some(block) => block.get(counter),
        None => None,
    }
}

/// A block of one value, where there is none. After an allocation failure all is as before.
fn begin<V: Copy>(
    blocks: &mut BTreeMap<ElementId, Block<V>>,
    alloc: Global,
    id: ElementId,
    value: V,
) -> Result<(), NoMemory>
    requires blocks { AreBlocks blocks.old }
    requires none { get id_cmp blocks.old (block_of id) ≡ None }
    ensures blocks { AreBlocks blocks.new }
    ensures ok { OnOk result (IsReplaced (block_value blocks.old) (block_value blocks.new) id (Some value)) }
    ensures err { OnErr result (IsUnchanged blocks.old blocks.new) }
{
    let (key, counter) = place_of(id);
    let mut block = Block::new(alloc);
    block.insert(counter, value)?;
    blocks.insert(key, block)?;
    Ok(())
}

/// The identifier has this value then. Only one without a value can run out of memory, and then each has what it had.
pub(crate) fn put<V: Copy>(
    blocks: &mut BTreeMap<ElementId, Block<V>>,
    alloc: Global,
    id: ElementId,
    value: V,
) -> Result<(), NoMemory>
    requires { AreBlocks blocks.old }
    ensures blocks { AreBlocks blocks.new }
    ensures ok { OnOk result (IsReplaced (block_value blocks.old) (block_value blocks.new) id (Some value)) }
    ensures err { OnErr result ((q : Identifier) → block_value blocks.new q ≡ block_value blocks.old q) }
    ensures absent { OnErr result (block_value blocks.old id ≡ None) }
{
    let (key, counter) = place_of(id);
    match blocks.get_mut(&key) {
        Some(block) => block.insert(counter, value),
        None => begin(blocks, alloc, id, value),
    }
}

/// The identifier has no value then. A block that gets empty goes.
pub(crate) fn take_out<V: Copy>(blocks: &mut BTreeMap<ElementId, Block<V>>, id: ElementId)
    requires { AreBlocks blocks.old }
    ensures blocks { AreBlocks blocks.new }
    ensures taken { IsReplaced (block_value blocks.old) (block_value blocks.new) id None }
{
    let (key, counter) = place_of(id);
    let Some(block) = blocks.get_mut(&key) else {
        return;
    };
    block.remove(counter);
    if block.is_empty() {
        blocks.remove(&key);
    }
}

/// Where both identifiers have one block and no counter is in the way, the value stands under the other one then. Else
/// each has what it had.
fn rename_within<V: Copy>(
    blocks: &mut BTreeMap<ElementId, Block<V>>,
    from: ElementId,
    to: ElementId,
) -> bool
    requires blocks { AreBlocks blocks.old }
    requires fresh { block_value blocks.old to ≡ None }
    ensures blocks { AreBlocks blocks.new }
    ensures renamed { IsTrue result → IsRenamed (block_value blocks.old) (block_value blocks.new) from to }
    ensures refused { IsFalse result → (q : Identifier) → block_value blocks.new q ≡ block_value blocks.old q }
{
    let (key, counter) = place_of(from);
    let (to_key, to_counter) = place_of(to);
    if key != to_key {
        return false;
    }
    match blocks.get_mut(&key) {
        Some(block) => block.rename(counter, to_counter),
        None => false,
    }
}

/// The value stands under another identifier then. After an allocation failure each has what it had.
pub(crate) fn rename<V: Copy>(
    blocks: &mut BTreeMap<ElementId, Block<V>>,
    alloc: Global,
    from: ElementId,
    to: ElementId,
    value: V,
) -> Result<(), NoMemory>
    requires blocks { AreBlocks blocks.old }
    requires held { block_value blocks.old from ≡ Some value }
    requires fresh { block_value blocks.old to ≡ None }
    ensures blocks { AreBlocks blocks.new }
    ensures ok { OnOk result (IsRenamed (block_value blocks.old) (block_value blocks.new) from to) }
    ensures err { OnErr result ((q : Identifier) → block_value blocks.new q ≡ block_value blocks.old q) }
{
    if rename_within(blocks, from, to) {
        return Ok(());
    }
    put(blocks, alloc, to, value)?;
    take_out(blocks, from);
    Ok(())
}

/// The entry of a block, under its identifier.
fn named<V: Copy>(key: ElementId, entry: Option<(u32, V)>) -> Option<(ElementId, V)>
    ensures { result ≡ option_map (λ e. (with_counter key e.0, e.1)) entry }
{
    match entry {
        Some((counter, value)) => {
            let replica = key.replica;
            Some((ElementId { replica, counter }, value))
        }
        None => None,
    }
}

/// The greatest identifier of the same block that is not above this one.
fn floor_within<V: Copy>(
    blocks: &BTreeMap<ElementId, Block<V>>,
    id: ElementId,
) -> Option<(ElementId, V)>
    requires { AreBlocks blocks.now }
    ensures none { IfNone result (HasNone (IsUpToInBlock id) (block_value blocks.now)) }
    ensures some { IfSome result (IsGreatestKey id_cmp (IsUpToInBlock id) (block_value blocks.now)) }
{
    let (key, counter) = place_of(id);
    match blocks.get(&key) {
        Some(block) => named(key, block.floor(counter)),
        None => None,
    }
}

/// The greatest identifier of the blocks before the one under the key.
fn last_before<V: Copy>(
    blocks: &BTreeMap<ElementId, Block<V>>,
    key: ElementId,
) -> Option<(ElementId, V)>
    requires { AreBlocks blocks.now }
    ensures none { IfNone result (HasNone (IsInBlockBefore key) (block_value blocks.now)) }
    ensures some { IfSome result (IsGreatestKey id_cmp (IsInBlockBefore key) (block_value blocks.now)) }
{
    match blocks.range(..key).next_back() {
        Some((last, block)) => named(*last, block.last()),
        None => None,
    }
}

/// The greatest identifier with a value that is not above this one, and its value.
pub(crate) fn floor<V: Copy>(
    blocks: &BTreeMap<ElementId, Block<V>>,
    id: ElementId,
) -> Option<(ElementId, V)>
    requires { AreBlocks blocks.now }
    ensures floor { IsFloorKey (block_value blocks.now) id (option_map (λ x. x.0) result) }
    ensures value { IfSome result (λ x. block_value blocks.now x.0 ≡ Some x.1) }
{
    match floor_within(blocks, id) {
        Some(found) => Some(found),
        None => last_before(blocks, place_of(id).0),
    }
}
