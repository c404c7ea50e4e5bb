//! Every interleaving: what is so of all replicas of one manuscript, however edits and deliveries follow one another,
//! and how concurrent insertions stand in every lawful history.
#![tactic(auto)]

mod laws;

pub use laws::{all_agree, before_right, by_identifier, never_mixed, strong_list, together};
