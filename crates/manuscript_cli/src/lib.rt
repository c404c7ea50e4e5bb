//! The commands of the program `manuscript`, over whatever takes and gives bytes.
#![tactic(auto)]

mod about;
mod arrange;
mod bulk;
mod changed;
mod check;
mod command;
mod comments;
mod counting;
mod draft_size;
mod held;
mod laws;
mod list;
mod moments;
mod moving;
mod number;
mod past;
mod relay;
mod remark;
mod remarks;
mod revise;
mod revise_since;
mod section_counts;
mod top;
mod versions;
mod why;
mod words;

pub use command::Command;
pub use command_kinds::{Refusal, Status, VersionName, tell};
pub use laws::{
    every_finished_command_is_in_the_file, limits_in_numbers, moments_tell_file, past_stays,
    replicas_show_no_more,
};
pub use top::run;
pub use words::{files_of, read_words};
