//! The relay: sessions whose texts are read byte by byte, and the log of the operations that came.
#![tactic(auto)]

mod greeting;
mod joining;
mod law;
mod log;
mod partial_frame;
mod piece;
mod relay;
mod sessions;
mod taking;

pub use law::{events_come_once, logs_only_grow, sessions_by_whole_texts};
pub use origin_model::{Event, Reply};
pub use relay::{MOST_LOGGED, NoMemoryFor, Relay};
