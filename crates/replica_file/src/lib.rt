//! Replica files: made, loaded and appended to, so that a crash leaves all of a batch or none of it.
#![tactic(auto)]

mod appending;
mod batch;
mod creating;
mod frames;
mod front;
mod gate;
mod header;
mod load_file;
mod loading;
mod moments;
mod piece;
mod reading;
mod slot;
mod slots;
mod stop;

pub use appending::{AppendFault, append};
pub use creating::{CreateFault, create};
pub use load_file::{End, LoadFault, load, load_moments, moments_once, one_image};
pub use reading::{ReadFault, read_piece};
