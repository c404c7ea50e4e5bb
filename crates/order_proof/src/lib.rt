//! Certificates of the order: why one element of a place stands before another, step by step.
#![tactic(auto)]

mod chains;
mod checking;
mod laws;
mod look_ups;
mod making;
mod origins;
mod parting;
mod positions;
mod proof;
mod reading;
mod step;
mod text_parts;
mod writing;

pub use checking::{check, check_text};
pub use laws::{certificates_stay, has_one_certificate, text_reads_uniquely, valid_means_before};
pub use making::prove;
pub use positions::Positions;
pub use proof::Proof;
pub use step::{Chain, Reason, Step};
pub use writing::write_proof;
