//! Comments in the margin of a manuscript: each is anchored at the first and the last scalar of a passage.
#![tactic(auto)]

mod commenting;
mod laws;
mod limits;
mod listing;
mod placing;
mod printing;
mod reading;

pub use commenting::{CommentFault, comment};
pub use laws::{comments_by_id, span_is_passage, span_stays};
pub use limits::COMMENT_CODE;
pub use placing::{CommentPlace, comment_places};
pub use printing::{MarginFault, write_comments};
pub use reading::{body_at, is_text};
