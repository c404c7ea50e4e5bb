//! The streams and files of the process, which say in a line beside the notes why they failed and what to do.
ghost use Rattle.std.specs.Prelude.{◌≡◌};

use crate::lines::Lines;
use crate::reasons::Reasons;
use crate::seen::{Role, Seen};
use fugue_ids::Failed;
use outer_ports::{Disk, FileDisk};
use std::io::{self, ErrorKind, Read, Write};

/// A stream of the system.
#[derive(Drop)]
pub(crate) struct ReportingStream<'a, S: Drop> {
    stream: S,
    name: &'static str,
    /// Whether it was closed when the program began.
    is_closed: bool,
    lines: &'a Lines<'a>,
    seen: &'a Seen,
}

impl<'a, S: Drop> ReportingStream<'a, S> {
    pub(crate) fn new(
        stream: S,
        name: &'static str,
        is_closed: bool,
        lines: &'a Lines<'a>,
        seen: &'a Seen,
    ) -> ReportingStream<'a, S>
        ensures { result.stream ≡ stream }
    {
        ReportingStream {
            stream,
            name,
            is_closed,
            lines,
            seen,
        }
    }

    /// Nothing has failed where a signal interrupted the call: it is made again.
    fn tell(&self, given: &io::Result<usize>) {
        let Err(error) = given else {
            return;
        };
        match error.kind() {
            ErrorKind::Interrupted => {}
            _ if self.is_closed => self.lines.tell(self.name, "closed"),
            ErrorKind::WouldBlock => self.lines.tell(self.name, NO_WAIT),
            _ => self.lines.tell_cause(self.name, error),
        }
    }
}

/// The names of the streams.
pub(crate) const INPUT: &str = "standard input";

pub(crate) const OUTPUT: &str = "standard output";

const NO_WAIT: &str = "set not to wait, and not ready; put a pipe or a file in its place";

impl<'a, S: Read + Drop> Read for ReportingStream<'a, S> {
    ghost remaining = { λ s. S.remaining s.stream };

    fn read(&mut self, buf: &mut [u8]) -> io::Result<usize> {
        let given = self.stream.read(buf);
        self.tell(&given);
        if let Ok(count) = given
            && let Some(bytes) = buf.get(..count)
        {
            self.seen.read_input(bytes);
        }
        given
    }
}

impl<'a, S: Write + Drop> Write for ReportingStream<'a, S> {
    ghost contents = { λ s. S.contents s.stream };

    fn write(&mut self, piece: &[u8]) -> io::Result<usize> {
        let given = self.stream.write(piece);
        self.tell(&given);
        given
    }

    fn flush(&mut self) -> io::Result<()> {
        self.stream.flush()
    }
}

/// A file of the system, or one that it refused to open: why, is reported once the file is asked, since what is asked
/// earlier may fail first.
#[derive(Drop)]
pub(crate) struct ReportingFile<'a> {
    file: FileDisk,
    refused: Option<io::Error>,
    role: Role,
    name: &'a str,
    /// What to do where a sync of it failed: what is read from then on may be in memory alone, and a later sync that
    /// goes well proves nothing.
    way_out: &'static str,
    lines: &'a Lines<'a>,
    seen: &'a Seen,
}

/// What to do where a sync of a file failed that holds a manuscript.
pub(crate) const MERGE_IT: &str =
    "the disk reported an error; merge this file into a new one on another disk before you go on";

/// What to do where one failed of a base, which is a text.
pub(crate) const COPY_IT: &str =
    "the disk reported an error; copy it and the draft to another disk before you go on";

/// What to do where one failed of a file that is to be made: it is removed again.
pub(crate) const MAKE_ANOTHER: &str = "the disk reported an error; make the file on another disk";

/// What to do where one could not be read.
const NOT_READ: &str = "it could not be read; is the disk still there, and whole?";

/// What to do where one could not be written.
const NOT_WRITTEN: &str =
    "it could not be written; is the disk full? Look at what the file has before you do it again";

const NO_SPACE: &str =
    "no space left on the device; look at what the file has before you do it again";

const NO_QUOTA: &str =
    "no space left of what you may use; look at what the file has before you do it again";

/// Why a write failed, and what to do.
fn words_of_write(kind: Option<ErrorKind>) -> &'static str {
    match kind {
        Some(ErrorKind::StorageFull) => NO_SPACE,
        Some(ErrorKind::QuotaExceeded) => NO_QUOTA,
        _ => NOT_WRITTEN,
    }
}

impl<'a> ReportingFile<'a> {
    pub(crate) fn new(
        file: FileDisk,
        refused: Option<io::Error>,
        role: Role,
        name: &'a str,
        way_out: &'static str,
        lines: &'a Lines<'a>,
        seen: &'a Seen,
    ) -> ReportingFile<'a>
        ensures { result.file ≡ file }
    {
        ReportingFile {
            file,
            refused,
            role,
            name,
            way_out,
            lines,
            seen,
        }
    }

    pub(crate) fn file(&self) -> &FileDisk
        ensures { result.now ≡ self.now.file }
    {
        &self.file
    }

    /// Tells why a call failed.
    fn tell(&self, reason: &'static str) {
        match &self.refused {
            Some(error) => self.lines.tell_cause(self.name, error),
            None if !self.file.is_open() => {}
            None if self.file.has_failed_sync() => self.lines.tell(self.name, self.way_out),
            None => self.lines.tell(self.name, reason),
        }
    }
}

impl<'a> Disk for ReportingFile<'a> {
    ghost seen = { λ f. ⟦<FileDisk as Disk>⟧.seen f.file };

    fn size(&mut self) -> Result<u64, Failed> {
        self.seen.ask(self.role);
        let given = self.file.size();
        if given.is_err() {
            self.tell(NOT_READ);
        }
        given
    }

    fn read_at(&mut self, at: u64, buf: &mut [u8]) -> Result<usize, Failed> {
        self.seen.ask(self.role);
        let given = self.file.read_at(at, buf);
        match given {
            Err(_) => self.tell(NOT_READ),
            Ok(count) if at == 0 => {
                if let Some(bytes) = buf.get(..count) {
                    self.seen.begin_file(bytes);
                }
            }
            Ok(_) => {}
        }
        given
    }

    fn write_at(&mut self, at: u64, bytes: &[u8]) -> Result<(), Failed> {
        let given = self.file.write_at(at, bytes);
        if given.is_err() {
            self.tell(words_of_write(self.file.failed_write()));
        }
        given
    }

    fn sync(&mut self) -> Result<(), Failed> {
        self.seen.ask(self.role);
        let given = self.file.sync();
        if given.is_err() {
            self.tell(NOT_READ);
        }
        given
    }
}

/// Standard error, with a reason before a diagnostic.
#[derive(Drop)]
pub(crate) struct ReportingNotes<'a, E: Write + Drop> {
    errors: E,
    reasons: Reasons<'a>,
}

impl<'a, E: Write + Drop> ReportingNotes<'a, E> {
    pub(crate) fn new(errors: E, reasons: Reasons<'a>) -> ReportingNotes<'a, E> {
        ReportingNotes { errors, reasons }
    }
}

impl<'a, E: Write + Drop> Write for ReportingNotes<'a, E> {
    fn write(&mut self, piece: &[u8]) -> io::Result<usize> {
        self.reasons.tell(piece);
        self.errors.write(piece)
    }

    fn flush(&mut self) -> io::Result<()> {
        self.errors.flush()
    }
}
