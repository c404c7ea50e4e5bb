//! Values in an order, each under a key of its own, in a balanced tree of raw nodes.
#![tactic(auto)]

mod attach;
mod balance;
mod cells;
mod climb;
mod find;
mod items;
mod links;
mod look_ups;
mod low;
mod packed;
mod pile;
mod rope;
mod store;
mod turn;
mod walk;

pub use cells::Weigh;
pub use rope::{Back, Rope};
pub use walk::Walk;
