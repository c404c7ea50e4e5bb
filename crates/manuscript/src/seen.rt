//! What was seen of the input and the files, for the reason of a refusal.

use std::cell::Cell;

/// What bytes begin like.
#[derive(Clone, Copy, PartialEq, Eq)]
pub(crate) enum Content {
    Nothing,
    /// The file of a replica.
    File,
    /// A stream of frames.
    Stream,
    Other,
}

/// How the file of a replica begins.
const MARK: &[u8] = b"FGMX";

/// What the bytes begin like.
fn content_of(bytes: &[u8]) -> Content {
    match bytes {
        [] => Content::Nothing,
        _ if bytes.starts_with(MARK) => Content::File,
        [1..=5, 0, ..] => Content::Stream,
        _ => Content::Other,
    }
}

/// What a file is to the command.
#[derive(Clone, Copy)]
pub(crate) enum Role {
    /// The one that it is about.
    Home,
    /// The other one that it reads.
    Guest,
}

/// Which file was asked last, and what the input and that file begin like.
#[derive(Drop)]
pub(crate) struct Seen {
    role: Cell<Role>,
    file_content: Cell<Content>,
    input_content: Cell<Content>,
}

impl Seen {
    /// Nothing was asked yet.
    pub(crate) fn new() -> Seen {
        Seen {
            role: Cell::new(Role::Home),
            file_content: Cell::new(Content::Other),
            input_content: Cell::new(Content::Nothing),
        }
    }

    pub(crate) fn role(&self) -> Role {
        self.role.get()
    }

    pub(crate) fn file_content(&self) -> Content {
        self.file_content.get()
    }

    pub(crate) fn input_content(&self) -> Content {
        self.input_content.get()
    }

    /// The file was asked.
    pub(crate) fn ask(&self, role: Role) {
        self.role.set(role);
    }

    /// The file that was asked last gave its first bytes.
    pub(crate) fn begin_file(&self, bytes: &[u8]) {
        self.file_content.set(content_of(bytes));
    }

    /// The input gave bytes.
    pub(crate) fn read_input(&self, bytes: &[u8]) {
        if self.input_content.get() == Content::Nothing {
            self.input_content.set(content_of(bytes));
        }
    }
}
