//! What commands said of a file stays so, whatever commands follow.
#![tactic(auto)]

mod laws;

pub use laws::{
    files_keep_operations, revise_since_is_revise_then_merge, views_stay, why_passes_check,
};
