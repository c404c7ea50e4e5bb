//! A map from identifiers to values that keeps stretches: identifiers of one replica with counters that rise by one,
//! whose values follow from the first one's by a rule, are one entry.
#![tactic(auto)]

mod follows;
mod free;
mod greatest;
mod latest;
mod map;
mod put;
mod read;
mod stretches;
mod take_out;

pub use follows::{Follows, Position, Same, Typed};
pub use map::StretchMap;
