//! A map from identifiers to values, in blocks of consecutive counters.

ghost use Rattle.block_map.specs.Blocks.{AreBlocks};

use crate::block::Block;
use fugue_ids::ElementId;
use std::alloc::Global;
use std::collections::BTreeMap;

mod steps;

/// A map from identifiers to values.
///
/// A replica numbers its elements one after another, so most blocks become full: a value takes four bytes and its own
/// size, and a search reads a small map of blocks and the counters of one block.
#[derive(Drop)]
pub struct BlockMap<V: Copy> {
    blocks: BTreeMap<ElementId, Block<V>>,
    alloc: Global,
    ghost sound: { AreBlocks blocks },
}
