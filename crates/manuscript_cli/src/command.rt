//! `Command`: the commands with their numeric arguments, and the files that each of them opens and for what.
ghost use Rattle.std.specs.Prelude.{◌≡◌, map, string_bytes};
ghost use Rattle.std.specs.Option.{option_copied};
ghost use Rattle.manuscript_cli.specs.Command.{guest_word, home_word, opening_for};

use outer_ports::Opening;

/// What the words of the command line ask for.
#[derive(Clone, Copy)]
pub enum Command {
    /// Print the manuscript of the frames on the input. At most so many operations wait.
    Show(u32),
    /// Make the file of a replica of this number, in which at most so many operations wait.
    New(u32, u32),
    /// Run the script on the input on a file's replica, and save what it made.
    Edit,
    /// Print the manuscript of a file.
    Print,
    /// Take the frames on the input into a file's replica, and save what was kept.
    Take,
    /// Write the frames of all that a file's replica holds.
    Send,
    /// Take what another file's replica holds into a file's, and save what was kept.
    Merge,
    /// Serve so many sessions at this port, with a relay that is new.
    Relay(u16, u32),
    /// Tell the relay at this port what a file's replica holds, ask for its log from the cursor on, and save what was
    /// kept.
    Sync(u16, u32),
    /// Make a large manuscript by the numbers of a seed in so many turns, and tell of it.
    Bulk(u32, u32),
    /// Print why one scalar stands before another: the section, counted from 1, and the two places in it.
    Why(u32, u32, u32),
    /// Print whether the text on the input is that of a certificate that a file's replica finds valid.
    Check,
    /// Move the section of this number in the arrangement to the place of that one. Both count from 1.
    Move(u32, u32),
    /// Give the section of this number in the arrangement a new title.
    Retitle(u32),
    /// Print the sections of a file as they are arranged, under their headings.
    Arrange,
    /// Print who wrote what is shown: the runs of letters of each section that one replica made.
    Authors,
    /// Print what changed since so many operations were accepted.
    Changes(u32),
    /// Print the sections of a file as they were arranged when so many operations were accepted.
    Past(u32),
    /// Print how many operations of each kind came with each batch of a file, and how many were accepted then.
    Moments,
    /// Revise what a file's replica shows until it is the draft on the input, which was written from what the other file
    /// has.
    Revise,
    /// The same, where the draft was written from what was shown when so many operations were accepted.
    ReviseSince(u32),
    /// Print what a file's replica holds: how many operations, and the sections as they are arranged.
    List,
    /// Comment on characters of a section: the section, counted from 1, the first character, and how many there are.
    Comment(u32, u32, u32),
    /// Print where the comments of a file stand, and what they say.
    Comments,
    /// Print the comments of a file as remarks, in the order of the arrangement, with the passages that they are about.
    Remarks,
    /// Withdraw the comment of the remark of this number, counted from 1.
    Withdraw(u32),
    /// Comment on the one place where a passage stands in the arranged sections.
    Remark,
    /// Name what a file's replica has accepted so far.
    Version,
    /// Print the versions of a file.
    Versions,
    /// Print the manuscript of a version.
    View,
    /// Print the name and the version of the program, what it was proved with, and its licence.
    About,
}

impl Command {
    /// What the file that the command is about is opened for.
    pub fn opening(self) -> Opening
        ensures { result ≡ opening_for self }
    {
        match self {
            Command::New(_, _) => Opening::Creating,
            Command::Edit
            | Command::Take
            | Command::Merge
            | Command::Revise
            | Command::ReviseSince(_)
            | Command::Sync(_, _)
            | Command::Move(_, _)
            | Command::Retitle(_)
            | Command::Comment(_, _, _)
            | Command::Withdraw(_)
            | Command::Remark
            | Command::Version => Opening::Writing,
            Command::Show(_)
            | Command::Print
            | Command::Send
            | Command::Relay(_, _)
            | Command::Bulk(_, _)
            | Command::Why(_, _, _)
            | Command::Check
            | Command::Arrange
            | Command::Authors
            | Command::Changes(_)
            | Command::Past(_)
            | Command::Moments
            | Command::List
            | Command::Comments
            | Command::Remarks
            | Command::Versions
            | Command::View
            | Command::About => Opening::Reading,
        }
    }

    /// The file that the command is about, and the other file that it reads, of the words that ask for it.
    pub fn files(self, words: &[String]) -> (Option<&str>, Option<&str>)
        ensures home { option_copied result.0 ≡ home_word self (map string_bytes words.now) }
        ensures guest { option_copied result.1 ≡ guest_word self (map string_bytes words.now) }
    {
        match (self, words) {
            (Command::Merge | Command::Revise | Command::ReviseSince(_), [_, file, other, ..]) => {
                (Some(file.as_str()), Some(other.as_str()))
            }
            (Command::Show(_) | Command::Relay(_, _) | Command::Bulk(_, _) | Command::About, _) => (
                None, None,
            ),
            (_, [_, file, ..]) => (Some(file.as_str()), None),
            _ => (None, None),
        }
    }
}
