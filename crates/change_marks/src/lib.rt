//! What changed in a manuscript since a moment, and who wrote what.
#![tactic(auto)]

mod authors;
mod changes;
mod heads;
mod laws;
mod mark;
mod marking;
mod passages;
mod runs;
mod sections;

pub use authors::write_authors;
pub use changes::write_changes;
pub use laws::{authors_tell_all, changes_by_filter, changes_of_all, runs_are_longest};
pub use mark::Mark;
