//! All places of a manuscript: its catalogue, and the title and text of each section.
#![tactic(auto)]

mod growth;
mod homes;
mod manuscript;
mod printing;
mod tables;

pub use manuscript::{Manuscript, look_ups_are_the_definitions};
pub use origin_model::Place;
