//! The operations of a history in the order in which they came, where Texts that were typed in a row are one entry, and
//! so are Deletes of neighbours.
#![tactic(auto)]

mod find;
mod list;
mod part;
mod repeat;
mod slice;

pub use find::OpRef;
pub use list::{NoMemoryFor, OpRuns};
pub use part::{Deletes, MOST_LISTED};
pub use slice::{OpSlice, Stretch};
