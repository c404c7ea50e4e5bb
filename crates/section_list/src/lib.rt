//! One place of a manuscript: its elements in the order of their origins, with scalars and hidden marks.
#![tactic(auto)]

mod place;

pub use place::SectionList;
pub use run_store::{Shown, StoppedAfter};
