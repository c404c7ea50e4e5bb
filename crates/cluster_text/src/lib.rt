//! Where the extended grapheme clusters of a text stand, counted in scalars.
#![tactic(auto)]

mod balance;
mod boundary;
mod cutting;
mod ending;
mod index;
mod part;
mod place;
mod replacing;
mod scalars;
mod span;
mod spot;
mod tree;

pub use index::ClusterIndex;
pub use span::cluster_span;
