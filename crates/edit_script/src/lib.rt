//! Scripts: lines that ask for edits, whose places and counts are extended grapheme clusters.
#![tactic(auto)]

mod edit;
mod laws;
mod line;
mod making;
mod number;
mod run;
mod script;
mod sections;
mod text;

pub use laws::{lines_ask_once, scripts_are_taken_in, scripts_run_once};
pub use number::read_decimal;
pub use run::{ScriptFault, run_script};
pub use script::LONGEST_SCRIPT;
