//! Tests of the command `sync`: exchanges by example, and a failure of each call in one.
use super::taken::{Batch, EMPTY, File, sends, with_room_for};
use super::{is_cut_off, run_line};
use crate::assertions::{equal_at, holds_at};
use crate::files::has_bytes;
use crate::frames::{BEHIND_A, NEW, S, stream};
use crate::memory::{list, sure_sink};
use manuscript_cli::Status;
use memory_ports::{MemDisk, MemDock, MemSource, MemWire, SureDisk, SureWire};
use outer_ports::{Disk, FileDisk, MemSink, Sink, Wire};
use std::process::Abort;

/// Runs on a file and a wire alone.
fn run_on<N: Sink, H: Disk, W: Wire>(
    rt: &(impl Abort + AllocGlobal),
    words: &str,
    notes: &mut N,
    home: &mut H,
    wire: &mut W,
) -> Status {
    let alloc = rt.alloc();
    let mut input = MemSource::new(Vec::new(alloc), 1, Vec::new(alloc));
    let mut output = MemSink::new(alloc, 1, Vec::new(alloc));
    let mut guest = FileDisk::closed();
    let mut dock = MemDock::new(alloc, Vec::new(alloc), 1, Vec::new(alloc));
    let status = run_line(
        rt,
        words,
        wire,
        &mut dock,
        home,
        &mut guest,
        &mut input,
        &mut output,
        notes,
    );
    drop(dock);
    drop(guest);
    drop(output);
    drop(input);
    status
}

/// An exchange, and what is wanted of it.
#[derive(Clone, Copy)]
struct Case {
    words: &'static str,
    home: File,
    /// What the wire answers.
    reply: Batch,
    /// What is said, and the port: nothing where none is dialled.
    said: Batch,
    port: Option<u16>,
    line: &'static str,
    status: Status,
    /// What the file gains.
    saved: Batch,
}

const COUNTS: &str = "accepted 1, repeated 0, waiting 0, conflict 0, stray 0, full 0\ncursor 1\n";

/// An empty file asks from the start.
const ASKED: Case = Case {
    words: "sync F 4000 0",
    home: EMPTY,
    reply: &[S, b"\x55\0\0\0\x01"],
    said: &[b"\x48\0\0\0\0\x44"],
    port: Some(4000),
    line: COUNTS,
    status: Status::Done,
    saved: &[S],
};

/// The reply ends in a fault: what came before it is not saved either.
const NOTHING_SAVED: Case = Case {
    status: Status::BadInput,
    saved: &[],
    ..ASKED
};

const CASES: &[Case] = &[
    ASKED,
    Case {
        reply: &[S, BEHIND_A, b"\x55\0\0\0\x02", b"and so on"],
        line: "accepted 1, repeated 0, waiting 1, conflict 0, stray 0, full 0\ncursor 2\n",
        status: Status::Partial,
        saved: &[S, BEHIND_A],
        ..ASKED
    },
    Case {
        reply: &[b"\x55\xff\xff\xff\xff"],
        line: "accepted 0, repeated 0, waiting 0, conflict 0, stray 0, full 0\ncursor 4294967295\n",
        status: Status::Done,
        saved: &[],
        ..ASKED
    },
    Case {
        reply: &[S, b"\x58\x02"],
        line: "relay refused 2\n",
        ..NOTHING_SAVED
    },
    Case {
        reply: &[b"\x58\x02"],
        line: "relay refused 2\n",
        ..NOTHING_SAVED
    },
    Case {
        reply: &[S, b"\x58\x04"],
        line: "bad reply at byte 14\n",
        ..NOTHING_SAVED
    },
    Case {
        reply: &[S, b"\xff"],
        line: "bad reply at byte 14\n",
        ..NOTHING_SAVED
    },
    Case {
        reply: &[S, b"\x02\0"],
        line: "reply cut short at byte 14\n",
        ..NOTHING_SAVED
    },
    Case {
        reply: &[],
        line: "reply cut short at byte 0\n",
        ..NOTHING_SAVED
    },
    Case {
        words: "sync F 65535 7",
        home: (1, 16, &[&[BEHIND_A], &[S]]),
        reply: &[S, b"\x55\0\0\0\x08"],
        said: &[b"\x48\0\0\0\x07", S, BEHIND_A, b"\x44"],
        port: Some(65_535),
        line: "accepted 0, repeated 1, waiting 1, conflict 0, stray 0, full 0\ncursor 8\n",
        status: Status::Partial,
        saved: &[],
    },
    Case {
        home: (0, 16, &[]),
        said: &[],
        port: None,
        line: "not a replica\n",
        status: Status::BadFile,
        saved: &[],
        ..ASKED
    },
];

/// Whether the case comes to what is wanted of it, on sure objects.
fn speaks_so(rt: &(impl Abort + AllocGlobal), case: &Case, home: &mut SureDisk) -> bool {
    let said = stream(rt, case.said);
    let reply = stream(rt, case.reply);
    let mut wire = SureWire::new(rt.alloc(), reply, 3, said.len()).expect(rt, "memory");
    let mut notes = sure_sink(rt, 256);
    let status = run_on(rt, case.words, &mut notes, home, &mut wire);
    let is_so = status == case.status
        && notes.written() == case.line.as_bytes()
        && wire.said() == said.as_slice()
        && wire.dials().last.map(|dial| dial.port) == case.port;
    drop(notes);
    drop(wire);
    drop(said);
    is_so
}

#[test]
fn a_file_speaks_with_a_relay(rt: HostRuntime) {
    for case in CASES {
        let (mut home, wanted) = with_room_for(&rt, case.home, case.saved);
        let is_so = speaks_so(&rt, case, &mut home) && has_bytes(&mut home, &wanted);
        drop(home);
        drop(wanted);
        holds_at(&rt, &(case.words, case.line), is_so);
    }
}

/// What a run left of which calls failed: the status, whether the fault was noted as it should be, whether the file is
/// as it was, and whether it holds all that came, or nothing.
type Left = (Status, bool, bool, bool);

/// Runs where these calls on the wire, the notes and the file fail.
fn left_without(rt: &(impl Abort + AllocGlobal), fails: [&[u32]; 3]) -> Left {
    let reply = stream(rt, ASKED.reply);
    let mut wire = MemWire::new(rt.alloc(), reply, 3, list(rt, fails[0]));
    let mut notes = MemSink::new(rt.alloc(), 64, list(rt, fails[1]));
    let mut home = MemDisk::new(rt.alloc(), list(rt, NEW), list(rt, fails[2]));
    let status = run_on(rt, ASKED.words, &mut notes, &mut home, &mut wire);
    let is_reported = is_cut_off(notes.written(), COUNTS.as_bytes());
    drop(notes);
    drop(wire);
    let is_kept = has_bytes(&mut home, NEW);
    let (is_saved, is_empty) = sends(rt, ASKED.saved, &mut home);
    drop(home);
    (status, is_reported, is_kept, is_saved || is_empty)
}

/// On the wire there are a dial, two writes, and a read for each of the 19 bytes of the reply; the counts and the cursor
/// are a line each; loading is a sync and two reads, and a batch is two writes and two syncs.
#[test]
fn each_call_of_an_exchange_may_fail(rt: HostRuntime) {
    for call in 0..23 {
        let left = left_without(&rt, [&[call], &[], &[]]);
        let is_failing = call < 22;
        let status = if is_failing {
            Status::OutsideFault
        } else {
            Status::Done
        };
        equal_at(&rt, &call, left, (status, is_failing, is_failing, true));
    }
    for call in 0..3 {
        let left = left_without(&rt, [&[], &[call], &[]]);
        let status = if call < 2 {
            Status::OutsideFault
        } else {
            Status::Done
        };
        equal_at(&rt, &call, left, (status, call < 2, false, true));
    }
    for call in 0..8 {
        let (status, is_reported, _, is_whole) = left_without(&rt, [&[], &[], &[call]]);
        let wanted = if call < 7 {
            (Status::OutsideFault, true, true)
        } else {
            (Status::Done, false, true)
        };
        equal_at(&rt, &call, (status, is_reported, is_whole), wanted);
    }
}
