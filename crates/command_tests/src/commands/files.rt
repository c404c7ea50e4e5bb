//! Commands on a file, where calls on it and on the output fail.

use super::edits::SCRIPT;
use super::{Ends, ends_so, run_on, words_of};
use crate::assertions::{equal_at, holds_at};
use crate::frames::{NEW, PRINTED, S, SAVED};
use crate::memory::list;
use manuscript_cli::{Status, files_of, read_words};
use memory_ports::MemDisk;
use outer_ports::{MemSink, Opening};
use std::process::Abort;

/// The frames of the batch of the saved file.
const FRAMES: &[u8] = b"\
\x01\0\0\0\x01\0\0\0\0\0\0\0\x01T\
\x04\0\0\0\x01\0\0\0\x01\0\0\0\x01\0\0\0\0\0\0\0\x02\0\0A\0\0B\
\x03\0\0\0\x01\0\0\0\x02\
\x02\0\0\0\x01\0\0\0\x03\0\0\0\x01\0\0\0\0\x01\0\0\0\x01\0\0\0\x01\x01\0\0\0\x01\0\0\0\x02\0\0C";

/// The words, the input, the file, the room, the ends, and the file that is left.
type Row = (
    &'static str,
    &'static [u8],
    &'static [u8],
    usize,
    Ends,
    &'static [u8],
);

const DONE: Ends = (b"", b"", Status::Done);

const OUTSIDE: Ends = (b"", b"outside fault\n", Status::OutsideFault);

const COUNTS: &[u8] = b"accepted 1, repeated 0, waiting 0, conflict 0, stray 0, full 0\n";

/// The file with the section alone.
const TITLED: &[u8] = b"FGMX\x02\0\0\0\x01\0\0\0\x10\
\x01\x20\0\0\x0e\
\x01\0\0\0\x09\0\0\0\0\0\0\0\x01T\
\0";

/// Sure files with just the room that the command needs, and such as have less.
const ROWS: &[Row] = &[
    ("new F 1 16", b"", b"", 14, DONE, NEW),
    ("new F 1 16", b"", b"", 13, OUTSIDE, b""),
    (
        "print F",
        b"",
        SAVED,
        1,
        (PRINTED, b"", Status::Done),
        SAVED,
    ),
    ("print F", b"", SAVED, 0, OUTSIDE, SAVED),
    ("send F", b"", SAVED, 1, (FRAMES, b"", Status::Done), SAVED),
    ("send F", b"", SAVED, 0, OUTSIDE, SAVED),
    (
        "edit F",
        SCRIPT,
        NEW,
        94,
        (b"", b"made 5\n", Status::Done),
        SAVED,
    ),
    ("edit F", b"", NEW, 1, (b"", b"made 0\n", Status::Done), NEW),
    ("edit F", b"", NEW, 0, OUTSIDE, NEW),
    ("take F", S, NEW, 20, (b"", COUNTS, Status::Done), TITLED),
];

#[test]
fn a_sure_file_with_room_does_not_fail(rt: HostRuntime) {
    for (words, input, bytes, room, ends, left) in ROWS {
        let is_so = ends_so(&rt, words, input, (bytes, *room), *ends, left);
        holds_at(&rt, &(words, room), is_so);
    }
}

/// Runs on a file where calls on it, the output and the notes fail. Returns the status, whether a front of the text was
/// written, and whether the fault alone was noted.
fn see_of(
    rt: &(impl Abort + AllocGlobal),
    words: &str,
    file: &[u8],
    fails: [&[u32]; 3],
    text: &[u8],
) -> (Status, bool, bool) {
    let mut home = MemDisk::new(rt.alloc(), list(rt, file), list(rt, fails[0]));
    let mut output = MemSink::new(rt.alloc(), 3, list(rt, fails[1]));
    let mut notes = MemSink::new(rt.alloc(), 64, list(rt, fails[2]));
    let status = run_on(rt, words, (b"", &[]), &mut output, &mut notes, &mut home);
    let is_front = text.starts_with(output.written());
    let is_told = notes.written() == b"outside fault\n".as_slice();
    drop(notes);
    drop(output);
    drop(home);
    (status, is_front, is_told)
}

/// Runs on the saved file where this call on the output fails, and these on the notes.
fn see_cut_off(
    rt: &(impl Abort + AllocGlobal),
    words: &str,
    call: u32,
    notes: &[u32],
    text: &[u8],
) -> (Status, bool, bool) {
    see_of(rt, words, SAVED, [&[], &[call], notes], text)
}

/// How many calls on the file there are: each of them may fail, with nothing printed, and the next one is not there.
fn failing_calls(rt: &(impl Abort + AllocGlobal), words: &str, file: &[u8]) -> Option<u32> {
    for call in 0..64 {
        match see_of(rt, words, file, [&[call], &[], &[]], b"") {
            (Status::OutsideFault, true, true) => {}
            (Status::Done, _, false) => return Some(call),
            _ => return None,
        }
    }
    None
}

/// The words, the file, and the least number of calls on it.
const CALLED: &[(&str, &[u8], u32)] = &[
    ("new F 1 16", b"", 3),
    ("print F", SAVED, 4),
    ("send F", SAVED, 4),
];

/// A command on the saved file, what it writes, and in how many calls.
const WRITING: &[(&str, &[u8], u32)] = &[("print F", PRINTED, 3), ("send F", FRAMES, 30)];

/// Each call on the file and on the output may fail. The fault is reported where a note can be made.
#[test]
fn each_call_may_fail_while_a_file_is_printed(rt: HostRuntime) {
    for (words, file, least) in CALLED {
        let calls = failing_calls(&rt, words, file);
        holds_at(&rt, &(words, calls), calls >= Some(*least));
    }
    let fault = Status::OutsideFault;
    for (words, text, calls) in WRITING {
        for call in 0..*calls {
            let told = see_cut_off(&rt, words, call, &[], text);
            equal_at(&rt, &(words, call), told, (fault, true, true));
            let untold = see_cut_off(&rt, words, call, &[0], text);
            equal_at(&rt, &(words, call), untold, (fault, true, false));
        }
        let whole = see_cut_off(&rt, words, *calls, &[], text);
        equal_at(&rt, &words, whole, (Status::Done, true, false));
    }
}

/// The words, the files of their command, and what the first one is opened for: nothing where there is no command.
type Named = (
    &'static str,
    Option<&'static str>,
    Option<&'static str>,
    Option<Opening>,
);

const NAMED: &[Named] = &[
    ("show", None, None, Some(Opening::Reading)),
    ("show 7", None, None, Some(Opening::Reading)),
    ("new F 1 16", Some("F"), None, Some(Opening::Creating)),
    ("new F 0 16", None, None, None),
    ("edit F", Some("F"), None, Some(Opening::Writing)),
    ("print F", Some("F"), None, Some(Opening::Reading)),
    ("take F", Some("F"), None, Some(Opening::Writing)),
    ("send F", Some("F"), None, Some(Opening::Reading)),
    ("merge F G", Some("F"), Some("G"), Some(Opening::Writing)),
    ("move F 1 2", Some("F"), None, Some(Opening::Writing)),
    ("retitle F 1 T", Some("F"), None, Some(Opening::Writing)),
    ("arrange F", Some("F"), None, Some(Opening::Reading)),
    ("comment F 1 0 1 T", Some("F"), None, Some(Opening::Writing)),
    ("comments F", Some("F"), None, Some(Opening::Reading)),
    ("version F V", Some("F"), None, Some(Opening::Writing)),
    ("versions F", Some("F"), None, Some(Opening::Reading)),
    ("view F V", Some("F"), None, Some(Opening::Reading)),
    ("merge F", None, None, None),
    ("print F G", None, None, None),
    // The name of the file is empty.
    ("print ", None, None, None),
    ("forget F", None, None, None),
];

#[test]
fn words_name_the_files_of_their_command(rt: HostRuntime) {
    for (line, home, guest, opening) in NAMED {
        let words = words_of(&rt, line);
        let is_so = files_of(&words) == (*home, *guest)
            && read_words(&words).map(|command| command.opening()) == *opening;
        drop(words);
        holds_at(&rt, line, is_so);
    }
}
