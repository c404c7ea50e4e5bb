//! Frames of operations: written, read from bytes, and read from a stream.
#![tactic(auto)]

mod decoding;
mod due;
mod encoding;
mod encodings;
mod expected;
mod fault;
mod fields;
mod first;
mod frame_front;
mod frame_ops;
mod framed;
mod front;
mod gather;
mod grown;
mod header;
mod judge;
mod law;
mod letter;
mod next_ops;
mod note_fields;
mod number;
mod open_run;
mod protocol;
mod reader;
mod refill;
mod run_fields;
mod step;
mod title;
mod unread;

pub use decoding::decode;
pub use encoding::{LONGEST_FRAME, LONGEST_RUN, encode};
pub use encodings::encode_all;
pub use fault::FrameFault;
pub use first::{First, first_frame};
pub use frame_front::FrameFront;
pub use frame_ops::FrameOps;
pub use grown::Grown;
pub use law::{comes_once, frames_are, one_frame, reads_once};
pub use next_ops::NextOps;
pub use protocol::{CLOSING, END, GREETING, REFUSAL, RUN};
pub use reader::FrameReader;
