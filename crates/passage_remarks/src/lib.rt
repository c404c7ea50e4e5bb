//! Remarks: the comments on a manuscript as a reader comes to them, with the passages that they are about.
#![tactic(auto)]

mod entry;
mod finding;
mod laws;
mod listing;
mod page;
mod pages;
mod printing;
mod remarking;
mod spelling;
mod withdrawing;

pub use laws::{remarks_are_comments, withdrawn_is_gone};
pub use printing::write_remarks;
pub use remarking::{RemarkFault, remark};
pub use spelling::{is_spelled, read_passage};
pub use withdrawing::{WithdrawFault, withdraw};
