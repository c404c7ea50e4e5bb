//! Commands that save, where a call on the file fails, and what crashes leave of the file.

use super::edits::SCRIPT;
use super::{ends_on, gives};
use crate::assertions::{equal_at, holds_at};
use crate::files::PICKS;
use crate::frames::{NEW, PRINTED};
use crate::memory::list;
use manuscript_cli::Status;
use memory_ports::MemDisk;
use std::process::Abort;

/// A command that saves: the file, the words, the input and what is noted, and the command that shows the file, with
/// what it writes before and after.
struct Saving {
    file: &'static [u8],
    line: &'static str,
    input: &'static [u8],
    note: &'static [u8],
    shown_by: &'static str,
    before: &'static [u8],
    after: &'static [u8],
    /// How many calls on the file there are.
    calls: u32,
}

/// The sections A, B and C of replica 1, saved at once, in a file in which 16 operations may wait.
const SECTIONS: &[u8] = b"FGMX\x02\0\0\0\x01\0\0\0\x10\
\x01\x20\0\0\x3a\
\x01\0\0\0\x01\0\0\0\0\0\0\0\x01A\
\x01\0\0\0\x01\0\0\0\x01\x01\0\0\0\x01\0\0\0\0\0\0\x01B\
\x01\0\0\0\x01\0\0\0\x02\x01\0\0\0\x01\0\0\0\x01\0\0\x01C\
\0";

/// A script, and a move. Loading is a sync and two reads, and three more for a batch; a batch is two writes and two
/// syncs.
const SAVINGS: &[Saving] = &[
    Saving {
        file: NEW,
        line: "edit F",
        input: SCRIPT,
        note: b"made 5\n",
        shown_by: "print F",
        before: b"",
        after: PRINTED,
        calls: 7,
    },
    Saving {
        file: SECTIONS,
        line: "move F 3 1",
        input: b"",
        note: b"made 1\n",
        shown_by: "arrange F",
        before: b"# A\n\n# B\n\n# C\n\n",
        after: b"# C\n\n# A\n\n# B\n\n",
        calls: 10,
    },
];

/// Runs the command where this call on the file fails, and looks at what crashes leave: the file with what was saved, as
/// it must be where no call fails, or without it; then the command goes through.
fn crash_at(rt: &(impl Abort + AllocGlobal), call: u32, saving: &Saving, is_saved: bool) {
    let ends = (b"".as_slice(), saving.note, Status::Done);
    let mut home = MemDisk::new(rt.alloc(), list(rt, saving.file), list(rt, &[call]));
    let is_done = ends_on(rt, saving.line, saving.input, ends, &mut home);
    equal_at(rt, &call, is_done, is_saved);
    for pick in PICKS {
        let mut left = home.crash(*pick).expect(rt, "memory");
        let is_whole = gives(rt, saving.shown_by, &mut left, saving.after)
            || !is_saved
                && gives(rt, saving.shown_by, &mut left, saving.before)
                && ends_on(rt, saving.line, saving.input, ends, &mut left)
                && gives(rt, saving.shown_by, &mut left, saving.after);
        drop(left);
        holds_at(rt, &(call, pick), is_whole);
    }
    drop(home);
}

#[test]
fn a_crash_leaves_all_of_what_is_saved_or_none(rt: HostRuntime) {
    for saving in SAVINGS {
        for call in 0..saving.calls.saturating_add(2) {
            crash_at(&rt, call, saving, call >= saving.calls);
        }
    }
}
