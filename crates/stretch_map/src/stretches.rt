//! A stretch of consecutive identifiers, and where a map keeps its stretches.

ghost use Rattle.std.specs.Prelude.{IfNone, IfSome};
ghost use Rattle.stretch_map.specs.Stretches.{IsFloor, NoneUpTo};

use crate::latest::LatestMap;
use fugue_ids::ElementId;
use std::collections::BTreeMap;

/// A stretch, under its first identifier: the value there, and the counter of its last identifier.
#[derive(Clone, Copy)]
pub(crate) struct Stretch<V> {
    pub value: V,
    pub last: u32,
}

/// The stretches of a map.
#[derive(Drop)]
pub(crate) struct Stretches<V: Copy> {
    /// At most one of each replica, which stands after all its others. While it grows, no other one is touched.
    pub latest: LatestMap<V>,
    /// The others, each under its first identifier.
    pub kept: BTreeMap<ElementId, Stretch<V>>,
}

/// The last stretch that begins at the key or before.
pub(crate) fn floor<V: Copy>(
    kept: &BTreeMap<ElementId, Stretch<V>>,
    key: ElementId,
) -> Option<(ElementId, Stretch<V>)>
    ensures none { IfNone result (NoneUpTo kept.now.entries key) }
    ensures some { IfSome result (IsFloor kept.now.entries key) }
{
    match kept.range(..=key).next_back() {
        Some((first, stretch)) => Some((*first, *stretch)),
        None => None,
    }
}
