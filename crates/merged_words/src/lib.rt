//! What two authors' drafts of one manuscript give together.
#![tactic(auto)]

mod laws;

pub use laws::{drafts_merge, no_third_word, typed_in_one_go};
