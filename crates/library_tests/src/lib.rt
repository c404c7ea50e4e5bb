//! The libraries below the commands, called as other crates call them: worked rows, and slow plain programs beside the
//! fast ones.
//!
//! There are tests here alone. Within its library each would be proved together with all of the library, once more.
#![tactic(auto)]

#[cfg(test)]
mod any_order;
#[cfg(test)]
mod arrangements;
#[cfg(test)]
mod assertions;
#[cfg(test)]
mod bulk_turns;
#[cfg(test)]
mod certificates;
#[cfg(test)]
mod clusters;
#[cfg(test)]
mod comments;
#[cfg(test)]
mod dice;
#[cfg(test)]
mod differences;
#[cfg(test)]
mod drafts;
#[cfg(test)]
mod edits;
#[cfg(test)]
mod fed_runs;
#[cfg(test)]
mod frames;
#[cfg(test)]
mod ids;
#[cfg(test)]
mod interleaved;
#[cfg(test)]
mod keys;
#[cfg(test)]
mod lists;
#[cfg(test)]
mod log;
#[cfg(test)]
mod made;
#[cfg(test)]
mod manuscripts;
#[cfg(test)]
mod matching;
#[cfg(test)]
mod model;
#[cfg(test)]
mod op_lines;
#[cfg(test)]
mod plain;
#[cfg(test)]
mod plain_notes;
#[cfg(test)]
mod pools;
#[cfg(test)]
mod ports;
#[cfg(test)]
mod replicas;
#[cfg(test)]
mod rope;
#[cfg(test)]
mod rows;
#[cfg(test)]
mod run_list;
#[cfg(test)]
mod runs;
#[cfg(test)]
mod turns;
#[cfg(test)]
mod values;
#[cfg(test)]
mod versions;
#[cfg(test)]
mod waiting;
