//! The model of a manuscript: what operations are to one another, the order of a place, what is printed, and the bytes
//! of operations.
#![tactic(auto)]

mod edit_fault;
mod files;
mod grammar;
mod laws;
mod operations;
mod order;
mod plain_replica;
mod relay;
mod sides;
mod taking;

pub use edit_fault::EditFault;
pub use files::{LONGEST_BATCH, TAG_UNIT};
pub use grammar::Grammar;
pub use laws::{
    closure_is_greatest, closure_of_set, gap_by_keys, kept_suffice, keys_are_fixed, lands_behind,
    later_ops_keep_order, order_by_set, order_total, replicas_are_rebuilt, runs_go_in_whole,
    self_named_never_accepted, streams_join, walk_is_order,
};
pub use operations::element::{element_of, left_of, right_of};
pub use operations::lookup::find_holder;
pub use operations::roles::{fits, fits_at};
pub use operations::{
    Lookup, Named, Names, NoMemoryFor, Node, Place, Role, Verdict, names_of, verdict_in,
};
pub use order::comparison::{lefts_of, right_at};
pub use plain_replica::PlainReplica;
pub use relay::{Event, Reply};
pub use sides::Slot;
pub use taking::Tally;
