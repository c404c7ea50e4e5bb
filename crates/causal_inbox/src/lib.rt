//! The operations that wait until those that they rest on are accepted.
#![tactic(auto)]

mod gapped;
mod inbox;
mod index;
mod key;
mod keyed_lists;
mod lists;
mod open_inbox;
mod queue;

pub use gapped::Gapped;
pub use inbox::{Facts, Inbox, PushFault, is_decided};
pub use index::Found;
pub use open_inbox::OpenInbox;
pub use queue::Queue;
