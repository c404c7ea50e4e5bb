//! Where a passage stands in a text, and which clusters have bytes of it.
#![tactic(auto)]

mod places;
mod span;
mod steps;

pub use places::{Places, places_of};
pub use span::{Span, span_of};
