//! A map from identifiers to values that keeps them in blocks of 64 counters of one replica.
#![tactic(auto)]

mod block;
mod blocks;
mod map;

pub use map::BlockMap;
