//! Tests of the command `relay`: replies to sessions, hostile sessions, and a failure of each call.
use super::{Ends, Fails, NONE, run_line};
use crate::assertions::{equal, equal_at};
use crate::frames::{LOWER_A, REPLY, S};
use crate::memory::list;
use crate::sessions::Coming::{Goes, Opens, Says};
use crate::sessions::{Coming, HELLO, steps};
use manuscript_cli::Status;
use memory_ports::{MemDock, MemSource, MemWire, SureDock};
use outer_ports::{Dock, DockStep, FileDisk, MemSink};
use std::process::Abort;

/// Two sessions bring a frame each, the second one first, and end their texts, the second one first.
const TWO_SESSIONS: &[Coming] = &[
    Opens(0),
    Opens(1),
    Says(0, HELLO),
    Says(1, HELLO),
    Says(1, LOWER_A),
    Says(0, S),
    Says(1, &[0x44]),
    Says(0, &[0x44]),
];

/// Runs at the dock, with an empty input and no file.
fn run_at<D: Dock>(
    rt: &(impl Abort + AllocGlobal),
    words: &str,
    dock: &mut D,
    output: &mut MemSink,
    notes: &mut MemSink,
) -> Status {
    let alloc = rt.alloc();
    let mut input = MemSource::new(Vec::new(alloc), 1, Vec::new(alloc));
    let mut home = FileDisk::closed();
    let mut guest = FileDisk::closed();
    let mut wire = MemWire::new(alloc, Vec::new(alloc), 1, Vec::new(alloc));
    let status = run_line(
        rt, words, &mut wire, dock, &mut home, &mut guest, &mut input, output, notes,
    );
    drop(wire);
    drop(guest);
    drop(home);
    drop(input);
    status
}

/// Whether a run at the dock ends so, where calls of the output and of the notes fail.
fn runs_so(
    rt: &(impl Abort + AllocGlobal),
    words: &str,
    dock: &mut MemDock,
    fails: Fails,
    ends: Ends,
) -> bool {
    let mut output = MemSink::new(rt.alloc(), 3, list(rt, fails[1]));
    let mut notes = MemSink::new(rt.alloc(), 64, list(rt, fails[2]));
    let status = run_at(rt, words, dock, &mut output, &mut notes);
    let is_so = (output.written(), notes.written(), status) == ends;
    drop(notes);
    drop(output);
    is_so
}

/// Runs at a dock that gives and takes so many bytes a call, and of which the first calls fail. Returns whether the run
/// ends so; whether both sessions were sent all that they asked for, at the port, and ended in the order in which they
/// asked; and whether the dock's next step is still the first one.
fn see(
    rt: &(impl Abort + AllocGlobal),
    words: &str,
    piece: usize,
    fails: Fails,
    ends: Ends,
) -> (bool, bool, bool) {
    let steps = steps(rt, TWO_SESSIONS);
    let mut dock = MemDock::new(rt.alloc(), steps, piece.max(1), list(rt, fails[0]));
    let is_so = runs_so(rt, words, &mut dock, fails, ends);
    let are_answered = dock.listens().last.map(|listening| listening.port) == Some(47113)
        && (dock.sent(0), dock.sent(1)) == (REPLY, REPLY)
        && dock.ended() == [1, 0].as_slice();
    let is_untouched = dock.next(&mut [0; 5]) == Ok(DockStep::Opened(0));
    drop(dock);
    (is_so, are_answered, is_untouched)
}

const RELAY: &str = "relay 47113 2";

const DONE: Ends = (b"ready\n", b"log 2\n", Status::Done);

/// The words, the calls that fail, the ends, whether the sessions are answered, and whether no step was taken. At the
/// dock there are: listening, eight steps, and for each of two sessions a send and its end.
type Row = (&'static str, Fails, Ends, bool, bool);

const LISTENING_FAILED: Ends = (b"", b"outside fault\n", Status::OutsideFault);

const SERVING_FAILED: Ends = (b"ready\n", b"outside fault\n", Status::OutsideFault);

const ROWS: &[Row] = &[
    (RELAY, [&[0], &[], &[]], LISTENING_FAILED, false, true),
    (RELAY, [&[1], &[], &[]], SERVING_FAILED, false, true),
    (RELAY, [&[2], &[], &[]], SERVING_FAILED, false, false),
    (RELAY, [&[3], &[], &[]], SERVING_FAILED, false, false),
    (RELAY, [&[4], &[], &[]], SERVING_FAILED, false, false),
    (RELAY, [&[5], &[], &[]], SERVING_FAILED, false, false),
    (RELAY, [&[6], &[], &[]], SERVING_FAILED, false, false),
    (RELAY, [&[7], &[], &[]], SERVING_FAILED, false, false),
    (RELAY, [&[8], &[], &[]], SERVING_FAILED, false, false),
    (RELAY, [&[9], &[], &[]], SERVING_FAILED, false, false),
    (RELAY, [&[10], &[], &[]], SERVING_FAILED, false, false),
    (RELAY, [&[11], &[], &[]], SERVING_FAILED, false, false),
    (RELAY, [&[12], &[], &[]], SERVING_FAILED, false, false),
    (RELAY, [&[13], &[], &[]], DONE, true, false),
    (RELAY, [&[], &[0], &[]], LISTENING_FAILED, false, true),
    (
        RELAY,
        [&[], &[1], &[]],
        (b"rea", b"outside fault\n", Status::OutsideFault),
        false,
        true,
    ),
    (RELAY, [&[], &[2], &[]], DONE, true, false),
    (RELAY, [&[], &[], &[0]], SERVING_FAILED, true, false),
    (RELAY, [&[], &[], &[1]], DONE, true, false),
    (
        RELAY,
        [&[0], &[], &[0]],
        (b"", b"", Status::OutsideFault),
        false,
        true,
    ),
    // No step is asked for after the last session.
    ("relay 47113 1", NONE, DONE, false, false),
];

/// One session says what no text begins with; another one brings a frame, and goes before its text ends.
const HOSTILE: &[Coming] = &[
    Opens(0),
    Says(0, b"\0"),
    Opens(1),
    Says(1, HELLO),
    Says(1, S),
    Goes(1),
];

#[test]
fn a_relay_answers_each_session_and_may_fail_at_each_call(rt: HostRuntime) {
    for piece in [1, 7, 64] {
        let seen = see(&rt, RELAY, piece, NONE, DONE);
        equal_at(&rt, &piece, seen, (true, true, false));
    }
    for (words, fails, ends, are_answered, is_untouched) in ROWS {
        let seen = see(&rt, words, 64, *fails, *ends);
        let wanted = (true, *are_answered, *is_untouched);
        equal_at(&rt, &(words, fails), seen, wanted);
    }
    let steps = steps(&rt, HOSTILE);
    let mut dock = MemDock::new(rt.alloc(), steps, 64, Vec::new(rt.alloc()));
    let ends: Ends = (b"ready\n", b"log 1\n", Status::Done);
    let is_so = runs_so(&rt, RELAY, &mut dock, NONE, ends);
    let is_refused = dock.sent(0) == b"\x58\x01".as_slice() && dock.ended() == [0].as_slice();
    let is_silent = dock.sent(1).is_empty();
    drop(dock);
    equal(&rt, (is_so, is_refused, is_silent), (true, true, true));
}

/// So many bytes of room for each session.
#[test]
fn a_sure_dock_with_room_for_the_replies_does_not_fail(rt: HostRuntime) {
    for (room, wanted) in [(41, Status::Done), (40, Status::OutsideFault)] {
        let steps = steps(&rt, TWO_SESSIONS);
        let mut dock = SureDock::new(rt.alloc(), steps, 3, room).expect(&rt, "memory");
        let mut output = MemSink::new(rt.alloc(), 64, Vec::new(rt.alloc()));
        let mut notes = MemSink::new(rt.alloc(), 64, Vec::new(rt.alloc()));
        let status = run_at(&rt, RELAY, &mut dock, &mut output, &mut notes);
        drop(notes);
        drop(output);
        drop(dock);
        equal_at(&rt, &room, status, wanted);
    }
}
