//! The last stretch of each replica.
ghost use Rattle.std.specs.Prelude.{◌≡◌, Some, option_map};
ghost use Rattle.std.specs.BTreeMap.{get};
ghost use Rattle.std.specs.Ordering.{nat_cmp};

use crate::stretches::Stretch;
use std::collections::BTreeMap;

mod steps;

/// The last stretch of each replica, with the counter that it begins with. A copy of the one that was written last is at
/// hand: it is read without a search. To write one, it is looked up.
#[derive(Drop)]
pub(crate) struct LatestMap<V: Copy> {
    pub by_replica: BTreeMap<u32, (u32, Stretch<V>)>,
    at_hand: Option<(u32, (u32, Stretch<V>))>,
    ghost found: { option_map (λ x. get nat_cmp by_replica x.0) at_hand ≡ option_map (λ x. Some x.1) at_hand },
}
