//! The line for people that may stand in front of a diagnostic: what failed, why, and what to do.

use std::alloc::Global;
use std::cell::Cell;
use std::io::{self, ErrorKind, Write};
use std::{fmt, str};

/// Where the lines go. The first failure decides the status, so one line is written at most.
#[derive(Drop)]
pub(crate) struct Lines<'a> {
    rt: &'a HostRuntime,
    program: &'a str,
    is_reported: Cell<bool>,
}

impl<'a> Lines<'a> {
    pub(crate) fn new(rt: &'a HostRuntime, program: &'a str) -> Lines<'a> {
        Lines {
            rt,
            program,
            is_reported: Cell::new(false),
        }
    }

    /// The name that the program was called by.
    pub(crate) fn program(&self) -> &'a str {
        self.program
    }

    /// What the lines take their memory from.
    pub(crate) fn alloc(&self) -> Global {
        self.rt.alloc()
    }

    /// Writes the line `PROGRAM: NAME: REASON`.
    pub(crate) fn tell<T: fmt::Display + Drop>(&self, name: &str, reason: T) {
        let program = self.program;
        if let Ok(line) = format!(in self.alloc(); "{program}: {name}: {reason}\n") {
            self.write(&line);
        }
    }

    /// Writes the line of a reason that names what it is about.
    pub(crate) fn tell_alone<T: fmt::Display + Drop>(&self, reason: T) {
        let program = self.program;
        if let Ok(line) = format!(in self.alloc(); "{program}: {reason}\n") {
            self.write(&line);
        }
    }

    /// Writes the line for what the system answered.
    pub(crate) fn tell_cause(&self, name: &str, error: &io::Error) {
        match words_of(error.kind()) {
            Some(reason) => self.tell(name, reason),
            None => self.tell(name, error),
        }
    }

    /// Writes lines in one piece. Those for which there is no memory, or which are not taken, are left out: the
    /// diagnostic and the status tell the failure too.
    pub(crate) fn write(&self, lines: &str) {
        if !self.is_reported.replace(true) {
            let _ = self.rt.stderr().write_all(lines.as_bytes());
        }
    }
}

/// The reason in words that tell what to do, where the system's own say less.
fn words_of(kind: ErrorKind) -> Option<&'static str> {
    match kind {
        ErrorKind::NotFound => Some("no such file"),
        ErrorKind::NotADirectory => Some("no such folder"),
        ErrorKind::WouldBlock => Some("in use by another program"),
        ErrorKind::PermissionDenied => Some("not permitted"),
        ErrorKind::IsADirectory => Some("a directory, and no file"),
        ErrorKind::InvalidInput => Some("no regular file"),
        ErrorKind::StorageFull => Some("no space left on the device"),
        ErrorKind::QuotaExceeded => Some("no space left of what you may use"),
        ErrorKind::ReadOnlyFilesystem => Some("on a system that cannot be written"),
        ErrorKind::BrokenPipe => Some("closed by its reader"),
        _ => None,
    }
}

/// Takes the line for a port, which names the program by a name of its own.
#[derive(Drop)]
pub(crate) struct PortLines<'a> {
    lines: &'a Lines<'a>,
}

/// How the line for a port begins.
const PORT_LINE: &str = "manuscript: ";

impl<'a> PortLines<'a> {
    pub(crate) fn new(lines: &'a Lines<'a>) -> PortLines<'a> {
        PortLines { lines }
    }
}

impl<'a> Write for PortLines<'a> {
    fn write(&mut self, piece: &[u8]) -> io::Result<usize> {
        if let Ok(line) = str::from_utf8(piece)
            && let Some(reason) = line.strip_prefix(PORT_LINE)
        {
            self.lines.tell_alone(reason.trim_end());
        }
        Ok(piece.len())
    }

    fn flush(&mut self) -> io::Result<()> {
        Ok(())
    }
}
