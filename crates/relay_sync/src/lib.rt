//! The relay's loop over a dock, and a replica's exchange with a relay over a wire.
#![tactic(auto)]

mod hearing;
mod law;
mod next_step;
mod saying;
mod serving;
mod syncing;

pub use law::{both_ends_fit, exchanges_converge, parts_count_as_joined, replies_come_once};
pub use serving::{ServeFault, serve};
pub use syncing::{SyncFault, Synced, sync};
