//! Which sections of a manuscript become which parts of a draft, and which of them have to move.
#![tactic(auto)]

mod alike;
mod completing;
mod hashes;
mod keys;
mod likeness;
mod matching;
mod orders;
mod pairing;
mod pairs;
mod part;
mod rises;
mod sharing;

pub use keys::Key;
pub use matching::match_sections;
pub use orders::{Step, place_next};
pub use pairs::Pairs;
pub use part::Part;
pub use rises::longest_rise;
