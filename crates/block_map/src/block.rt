//! The values of identifiers that have one replica, by their counters.
ghost use Rattle.std.specs.Prelude.{◌≡◌, length};
ghost use Rattle.block_map.specs.Columns.{IsAscending};

mod steps;

/// Two columns: the counters, and beside each its value. A search reads the counters alone, which lie close together.
#[derive(Drop)]
pub(crate) struct Block<V: Copy> {
    pub counters: Vec<u32>,
    pub values: Vec<V>,
    ghost beside: { length values.items ≡ length counters.items },
    ghost ascending: { IsAscending counters.items },
}
