//! Four sentences about origins determine the order of a sequence.
#![tactic(auto)]

mod laws;

pub use laws::{one_order, only_order};
