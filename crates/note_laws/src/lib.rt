//! Laws of comments, moves and retitles, for files that several authors exchange.
#![tactic(auto)]

mod comments;
mod moves;

pub use comments::{comment_in_one_section, comment_in_part, comments_by_set};
pub use moves::{claim_in_part, move_moves_one, retitle_titles_one};
