//! `Status`: how a command ended, and the exit code of the process for it.
ghost use Rattle.std.specs.Prelude.{◌≡◌};
ghost use Rattle.command_kinds.specs.Status.{exit_code};

/// How a command ended.
#[derive(Clone, Copy, Debug, PartialEq, Eq)]
pub enum Status {
    /// All was done.
    Done,
    /// The words are those of no command.
    Usage,
    /// The input or a reply is invalid, or the words name what does not exist.
    BadInput,
    /// All was done, and some operation waits or was refused.
    Partial,
    /// The outside failed: a stream, a file or a socket.
    OutsideFault,
    NoMemory,
    /// A file is no replica, or not whole.
    BadFile,
    /// A limit of the program was met.
    Limit,
}

impl Status {
    /// The exit status of the process.
    pub fn code(self) -> u8
        ensures { result ≡ exit_code self }
    {
        self as u8
    }
}
