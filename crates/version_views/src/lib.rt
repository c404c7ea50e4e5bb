//! Named versions of a manuscript, and what it said then.
#![tactic(auto)]

mod accepting;
mod fronts;
mod laws;
mod limits;
mod listing;
mod naming;
mod printing;
mod viewing;

pub use fronts::front;
pub use laws::{histories_grow, later_ops_leave_versions, versions_are_given, view_by_filter};
pub use limits::{LONGEST_NAME, VERSION_CODE};
pub use listing::{find_version, is_name};
pub use naming::{VersionFault, name_version};
pub use printing::write_versions;
pub use viewing::{ViewFault, write_view};
