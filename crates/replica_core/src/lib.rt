//! A replica: operations are delivered to it in any order, and wait until what they rest on is accepted.
#![tactic(auto)]

mod accepted;
mod copies;
mod deleting;
mod due;
mod edits;
mod feeding;
mod history;
mod index;
mod keeping;
mod look_ups;
mod open_replica;
mod replica;
mod waking;

pub use copies::Copies;
pub use keeping::FeedFault;
pub use origin_model::{EditFault, Tally};
pub use replica::{DeliverFault, NewFault, Replica, Settled, Taken};
