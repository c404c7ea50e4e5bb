//! A large manuscript of two authors, made by numbers from a seed, and merged.
#![tactic(auto)]

mod generator;
mod making;
mod summary;
mod turn;

pub use making::{MOST_TURNS, bulk, bulk_comes_together, feeds_are_deliveries};
pub use summary::{Summary, write_summary};
