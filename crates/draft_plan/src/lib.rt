//! Drafts: plain text files of sections, and how a replica comes to print one.
#![tactic(auto)]

mod arranging;
mod differences;
mod draft;
mod fault;
mod laws;
mod reading;
mod resizing;
mod revising;
mod revision;
mod shaping;
mod titles;

pub use differences::first_difference;
pub use draft::{Draft, DraftFault};
pub use fault::ReviseFault;
pub use laws::{
    arranged_reads, form_of_parts, others_are_spared, parts_of_form, passages_are_spans,
    passages_stay,
};
pub use revising::revise_text;
pub use revision::revise;
pub use section_plan::Part;
