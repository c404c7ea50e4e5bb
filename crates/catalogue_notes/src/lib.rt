//! Moves and retitles of sections: notes that say where a section stands, and what its title is.
#![tactic(auto)]

mod arrangement;
mod arranger;
mod entry;
mod headings;
mod laws;
mod layout;
mod lifting;
mod limits;
mod move_note;
mod moving;
mod outlining;
mod printing;
mod reading;
mod retitles;
mod retitling;
mod sections;
mod stamped;
mod winning;

pub use arranger::Arranger;
pub use entry::{Entry, Outline};
pub use headings::Headings;
pub use laws::{
    arranged_by_set, each_once, lift_is_lawful, lifted_order_stays, move_lands, retitle_lands,
    valid_in_whole, winners,
};
pub use limits::{MOVE_CODE, RETITLE_CODE};
pub use moving::{MoveFault, move_section};
pub use outlining::outline;
pub use printing::{ArrangeFault, or_sink_fault, write_arranged};
pub use retitling::retitle;
