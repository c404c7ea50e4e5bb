//! Commands, files and exchanges, on objects in memory whose calls fail where it is listed.
//!
//! There are tests here alone. Within its library each would be proved together with all of the library, once more.
#![tactic(auto)]

#[cfg(test)]
mod assertions;
#[cfg(test)]
mod commands;
#[cfg(test)]
mod exchanges;
#[cfg(test)]
mod files;
#[cfg(test)]
mod frames;
#[cfg(test)]
mod memory;
#[cfg(test)]
mod scripts;
#[cfg(test)]
mod sessions;
