//! Why the system refused something, or what to do, in a line beside the notes.

use itoa::Buffer;
use std::alloc::Global;
use std::fmt;
use std::io::{self, ErrorKind, Write};

/// Writes the line `manuscript: NAME: REASON`.
pub fn tell_cause<W: Write>(alloc: Global, errors: &mut W, name: &str, error: &io::Error) {
    match words_of(error.kind()) {
        Some(reason) => tell_line(alloc, errors, name, reason),
        None => tell_line(alloc, errors, name, error),
    }
}

/// Writes the line in one piece. One for which there is no memory, or which is not taken, is left out: the notes and the
/// status tell the failure too.
pub fn tell_line<W: Write, T: fmt::Display + Drop>(
    alloc: Global,
    errors: &mut W,
    name: &str,
    what: T,
) {
    if let Ok(line) = format!(in alloc; "manuscript: {name}: {what}\n") {
        let _ = errors.write_all(line.as_bytes());
    }
}

/// Writes the line for a port.
pub(crate) fn tell_port<W: Write>(alloc: Global, errors: &mut W, port: u16, error: &io::Error) {
    let mut number = Buffer::new();
    tell_cause(alloc, errors, number.format(port), error);
}

/// The reason in words that tell what to do, where the system's own say less.
fn words_of(kind: ErrorKind) -> Option<&'static str> {
    match kind {
        ErrorKind::NotFound => Some("no such file (manuscript new makes one)"),
        ErrorKind::WouldBlock => Some("in use by another program"),
        ErrorKind::PermissionDenied => Some("not permitted"),
        ErrorKind::IsADirectory => Some("a directory, and no file"),
        ErrorKind::InvalidInput => Some("no regular file"),
        ErrorKind::StorageFull => Some("no space is left"),
        ErrorKind::ReadOnlyFilesystem => Some("on a system that cannot be written"),
        ErrorKind::ConnectionRefused => Some("nobody listens at this port"),
        ErrorKind::AddrInUse => Some("the port is in use"),
        ErrorKind::TimedOut => Some("no answer"),
        _ => None,
    }
}
