//! Identifiers, titles and operations of a manuscript, and where bytes go out.
#![tactic(auto)]

mod body;
mod byte_list;
mod element_id;
mod gather;
mod key;
mod limits;
mod line;
mod no_memory;
mod note_names;
mod op;
mod order_of;
mod out;
mod run;
mod title;

pub use body::{Body, BodyFault};
pub use byte_list::ByteList;
pub use element_id::{ElementId, order_of_identifiers};
pub use gather::Gather;
pub use key::{Gap, Key, Side};
pub use limits::{
    BUFFER, GREATEST_HOLD, LONGEST_BODY, LONGEST_TITLE, MOST_NAMES, MOST_OPERATIONS, STREAM_LIMIT,
};
pub use line::{has_line_end, is_line, is_utf8};
pub use no_memory::NoMemory;
pub use note_names::NoteNames;
pub use op::{Op, OpKey};
pub use order_of::OrderOf;
pub use out::{Failed, Out, Sink, write_heading, write_pieces, write_scalar, write_whole};
pub use run::{RunStart, read_text};
pub use title::{Title, TitleFault};
