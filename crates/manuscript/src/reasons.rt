//! Why a command was refused, in words: what is wrong, what is left, and a way on.

use crate::lines::Lines;
use crate::reporting::INPUT;
use crate::seen::{Content, Role, Seen};
use manuscript_cli::Command;
use std::str;

/// Tells the reason before a diagnostic.
#[derive(Drop)]
pub(crate) struct Reasons<'a> {
    pub(crate) lines: &'a Lines<'a>,
    pub(crate) seen: &'a Seen,
    pub(crate) command: Option<Command>,
    /// The files and the port, as the words name them.
    pub(crate) home: &'a str,
    pub(crate) guest: &'a str,
    pub(crate) port: &'a str,
}

/// What a reason is about.
#[derive(Clone, Copy)]
enum About {
    Input,
    /// The file that the command is about.
    Home,
    /// The file that was asked last.
    File,
    Port,
}

/// How a diagnostic begins, what its reason is about, and the reason.
type Row = (&'static str, About, &'static str);

const ROWS: [Row; 26] = [
    (
        "bad frame at byte ",
        About::Input,
        "damaged there, or no stream of send; nothing was taken in: send it again",
    ),
    (
        "cut short at byte ",
        About::Input,
        "it ends in the midst of an operation; nothing was taken in: send it again, whole",
    ),
    (
        "bad line ",
        About::Input,
        "a line is add P TITLE, put K P TEXT, cut K P N or drop K; nothing was saved: mend it and run all lines again",
    ),
    (
        "no section at line ",
        About::Input,
        "no section has that number by then (print shows them); nothing was saved: mend it and run all lines again",
    ),
    (
        "out of range at line ",
        About::Input,
        "there are fewer characters or sections by then; nothing was saved: mend it and run all lines again",
    ),
    (
        "not empty",
        About::Home,
        "there already, and left as it was; choose another name",
    ),
    (
        "ids spent: ",
        About::Home,
        "its replica id is used up; nothing was saved: merge it into a new file with an id that nobody had",
    ),
    (
        "stamps spent",
        About::Home,
        "no more moves and titles can be made; nothing was saved: begin a new book with what arrange prints",
    ),
    (
        "batch too long",
        About::Home,
        "one save holds 256 MiB at most; merge an older copy or take an earlier stream first, and then the rest",
    ),
    (
        "bad reply at byte ",
        About::Port,
        "what answers there is no relay; nothing was taken in: look at the number of the port",
    ),
    (
        "relay refused 1",
        About::Port,
        "what listens there is no relay of this version; nothing was taken in",
    ),
    (
        "relay refused 2",
        About::Port,
        "the log of the relay is full; nothing was taken in: start it again, and begin with the cursor 0",
    ),
    (
        "relay refused 3",
        About::Port,
        "the relay has fewer operations than the cursor; nothing was taken in: begin with the cursor 0",
    ),
    (
        "reply cut short at byte ",
        About::Port,
        "the relay ended too early; nothing was taken in: sync again with the same cursor",
    ),
    (
        "no such places",
        About::Home,
        "P and Q count the letters of section K of print from 0, and P is before Q",
    ),
    (
        "no section ",
        About::Home,
        "it has fewer sections (list counts them); nothing was saved",
    ),
    (
        "no place ",
        About::Home,
        "it has fewer sections (list counts them); nothing was saved",
    ),
    (
        "bad draft at line ",
        About::Input,
        "a title is empty, too long or ends in CR, a line is not UTF-8, or the first is no title; nothing was saved",
    ),
    (
        "empty draft",
        About::Input,
        "there was no text, and no section was dropped; nothing was saved: look at the name of the draft",
    ),
    (
        "no moment ",
        About::Home,
        "fewer operations were accepted (list tells how many)",
    ),
    (
        "own operations since ",
        About::Home,
        "its author made operations after these; nothing was saved: begin the draft anew from what arrange prints",
    ),
    (
        "out of range",
        About::Home,
        "the section has fewer characters (list counts them); nothing was saved",
    ),
    (
        "no comment ",
        About::Home,
        "it has fewer comments than that (remarks numbers them); nothing was saved",
    ),
    (
        "passage not found",
        About::Home,
        "PASSAGE stands in no section as arrange prints them; nothing was saved",
    ),
    (
        "passage found ",
        About::Home,
        "PASSAGE stands there more than once; nothing was saved: give more of what stands before or behind it",
    ),
    (
        "no version ",
        About::Home,
        "it has no version of that name (versions lists them)",
    ),
];

impl<'a> Reasons<'a> {
    /// Tells the reason before the diagnostic, where there is one.
    pub(crate) fn tell(&self, diagnostic: &[u8]) {
        if let Ok(line) = str::from_utf8(diagnostic)
            && let Some((about, reason)) = self.reason(line)
        {
            self.lines.tell(self.name(about), reason);
        }
    }

    fn name(&self, about: About) -> &'a str {
        match about {
            About::Input => INPUT,
            About::Home => self.home,
            About::File => match self.seen.role() {
                Role::Home => self.home,
                Role::Guest => self.guest,
            },
            About::Port => self.port,
        }
    }

    fn reason(&self, line: &str) -> Option<(About, &'static str)> {
        match line {
            "not a replica\n" => Some((About::File, self.no_replica())),
            "too long\n" => self.too_long(),
            _
                if line.starts_with("bad frame at byte 0\n")
                    && self.seen.input_content() == Content::File => {
                Some((About::Input, self.no_stream()))
            }
            _ if line.starts_with("bad batch ") => Some((About::File, self.damaged())),
            _ if line.starts_with("base differs at byte ") => Some((
                About::File,
                self.base_differs(),
            )),
            _ if line.starts_with("too many: ") => Some((self.about_many(), TOO_MANY)),
            _ if line.starts_with("accepted ") => self.left_out(line),
            _ => row_of(line),
        }
    }

    /// Why the file that was asked last is no replica's.
    fn no_replica(&self) -> &'static str {
        match (self.seen.file_content(), self.seen.role()) {
            (Content::Nothing, Role::Home) => EMPTIED,
            (Content::Nothing, Role::Guest) => "an empty file, and none of a manuscript",
            (Content::Stream, _) => {
                "a stream of send, and no file of a manuscript; take reads it from standard input"
            }
            (Content::File, Role::Home) => {
                "cut short, and no file of a manuscript any more; take a backup"
            }
            (Content::File, Role::Guest) => {
                "cut short, and no file of a manuscript any more; take a new copy of it"
            }
            (Content::Other, _) => "no file of a manuscript; look at its name",
        }
    }

    /// What to do with a file that is damaged: one of one's own may have what nobody else has.
    fn damaged(&self) -> &'static str {
        match self.seen.role() {
            Role::Home => DAMAGED,
            Role::Guest => "damaged; nothing of it was taken in: take a new copy of it",
        }
    }

    /// Why a file is no stream.
    fn no_stream(&self) -> &'static str {
        match self.command {
            Some(Command::Show(_)) =>
                "a file, and no stream; print and arrange show what a file has",
            _ => "a file, and no stream; merge takes in a file (merge FILE OTHER)",
        }
    }

    /// What is too long.
    fn too_long(&self) -> Option<(About, &'static str)> {
        match self.command? {
            Command::Edit => Some((
                About::Input,
                "a script has 1048576 bytes at most; nothing was saved: run it in parts",
            )),
            Command::Check => Some((
                About::Input,
                "a certificate has 268435456 bytes at most, and this is none",
            )),
            Command::Revise | Command::ReviseSince(_) => Some((
                About::Input,
                "a draft has 268435456 bytes at most; nothing was saved: put it in by parts",
            )),
            Command::Sync(_, _) => Some((
                About::Port,
                "the reply has more than 2147483648 bytes; nothing was taken in: look at the number of the port",
            )),
            Command::Show(_) | Command::Take => Some((
                About::Input,
                "a stream has 2147483648 bytes at most; nothing was taken in",
            )),
            _ => None,
        }
    }

    /// Where there are too many operations.
    fn about_many(&self) -> About {
        match self.command {
            Some(Command::Show(_)) => About::Input,
            Some(Command::Revise | Command::ReviseSince(_)) => About::Home,
            _ => About::File,
        }
    }

    /// Why the base is refused: the draft was begun now, or at an earlier moment.
    fn base_differs(&self) -> &'static str {
        match self.command {
            Some(Command::ReviseSince(_)) => BASE_DIFFERED,
            _ => BASE_DIFFERS,
        }
    }

    /// Why operations were left out.
    fn left_out(&self, counts: &str) -> Option<(About, &'static str)> {
        let about = match self.command {
            Some(Command::Show(_)) => About::Input,
            _ => About::Home,
        };
        if !counts.contains("conflict 0,") {
            Some((about, CONFLICT))
        } else if !counts.contains("stray 0,") {
            Some((about, STRAY))
        } else if !counts.contains("full 0\n") {
            Some((about, FULL))
        } else {
            None
        }
    }
}

/// A file is empty where the shell made it so before the program read it: `print ann.ms > ann.ms`.
const EMPTIED: &str =
    "an empty file; if it was a manuscript, merge a backup and the others' files into a new one with \
    an id that nobody had";

const DAMAGED: &str =
    "damaged; keep it, and merge a backup and the others' files into a new one with an id that \
    nobody had";

const BASE_DIFFERED: &str =
    "not what the file said then; give the number of operations that it had when this was printed; \
    nothing was saved";

const BASE_DIFFERS: &str =
    "not what the file says now; print it again, put both changes into one text, and revise \
    with that; nothing was saved";

const TOO_MANY: &str =
    "a manuscript has room for 4194304 operations; nothing was saved: begin a new book with what \
    arrange prints";

const CONFLICT: &str =
    "two files with one replica id were edited; what came first stays: give each author an id of \
    their own, and go on in a new file";

const STRAY: &str =
    "some operations refer to what they can't, and were left out; find out which program made them";

const FULL: &str =
    "no more operations may wait, and some were left out; take in the earlier ones first, and then this again";

fn row_of(line: &str) -> Option<(About, &'static str)> {
    ROWS.iter()
        .find(|row| line.starts_with(row.0))
        .map(|row| (row.1, row.2))
}
