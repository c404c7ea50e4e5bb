//! The sided tree of one place: it finds where a new element stands by the sides of its origins and by keys, and not by
//! their chains. Of the elements it asks two things: what origins an element has (`NodeLookup`), and where in the order
//! those of a key stand (`OrderOf`).
#![tactic(auto)]

mod ages;
mod gaps;
mod node_lookup;
mod nodes;
mod part;
mod siblings;
mod slots;
mod tree;

pub use ages::{Ages, NodeRun};
pub use fugue_ids::{Gap, Key, OrderOf, Side};
pub use gaps::find_gap;
pub use node_lookup::NodeLookup;
pub use tree::SidedTree;
