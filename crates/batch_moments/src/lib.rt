//! What came when: how many operations of each kind came between the moments of a manuscript.
#![tactic(auto)]

mod counting;
mod laws;
mod part;
mod telling;

pub use laws::moments_tell_all;
pub use part::Part;
pub use telling::moments_text;
