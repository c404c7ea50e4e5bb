//! What commands have in common, the kinds of commands, and the commands that need operations alone.
#![tactic(auto)]

mod copying;
mod counts;
mod creating;
mod edit;
mod giving;
mod kept;
mod kept_ops;
mod merge;
mod noting;
mod print;
mod printing;
mod refusal;
mod report;
mod send;
mod showing;
mod status;
mod sync_file;
mod take;
mod take_in;
mod text_out;
mod version_name;

pub use counts::{Counts, Note, SectionCounts};
pub use creating::new_file;
pub use edit::Script;
pub use giving::{Gives, last_of, save_given};
pub use kept::Kept;
pub use merge::OtherFile;
pub use noting::{MakesNote, save_note};
pub use print::Manuscript;
pub use printing::noted;
pub use refusal::{Refusal, tell};
pub use report::{Report, ReportResult, write_held, write_report};
pub use send::Frames;
pub use showing::show;
pub use status::Status;
pub use sync_file::Reply;
pub use take::Stream;
pub use text_out::{ended, gone_out};
pub use version_name::VersionName;
