//! The cells of one place, kept in runs: stretches of cells of one author that stand next to each other.
#![tactic(auto)]

mod boundary;
mod cell;
mod find;
mod hide;
mod insert;
mod letters;
mod look_ups;
mod low;
mod middle;
mod new_cells;
mod parts;
mod passing;
mod run;
mod shown;
mod standing;
mod store;
mod text;
mod walk;

pub use cell::Cell;
pub use shown::Shown;
pub use store::{RunStore, StoppedAfter};
