//! Tests of `take` and `merge` with a failure of each call, and the files that such tests start from.
use super::{gives, is_cut_off, run_offline};
use crate::assertions::holds_at;
use crate::frames::{BEHIND_A, NEW, S, stream};
use crate::memory::{list, sure_disk, sure_sink};
use manuscript_cli::Status;
use memory_ports::{MemDisk, MemSource, SureDisk};
use outer_ports::MemSink;
use std::process::Abort;

/// Frames that are saved at once.
pub(super) type Batch = &'static [&'static [u8]];

/// A replica's file: its number, its hold and its batches.
pub(super) type File = (u8, u8, &'static [Batch]);

/// The bytes of a file, with one batch more where that has frames.
pub(super) fn bytes_of(rt: &(impl Abort + AllocGlobal), file: File, more: Batch) -> Vec<u8> {
    let (number, hold, batches) = file;
    let mut bytes = stream(rt, &[b"FGMX\x02\0\0\0", &[number, 0, 0, 0, hold]]);
    for batch in batches {
        push_batch(rt, &mut bytes, batch);
    }
    push_batch(rt, &mut bytes, more);
    bytes.push(0).expect(rt, "memory");
    bytes
}

/// The file on a disk with just the room for this batch, and the bytes that it has with the batch.
pub(super) fn with_room_for(
    rt: &(impl Abort + AllocGlobal),
    file: File,
    saved: Batch,
) -> (SureDisk, Vec<u8>) {
    let bytes = bytes_of(rt, file, &[]);
    let wanted = bytes_of(rt, file, saved);
    let room = wanted.len().saturating_sub(bytes.len()).saturating_add(1);
    (sure_disk(rt, bytes, room), wanted)
}

/// The tag of a batch that may have runs, in its word.
const RUNS: u64 = 0x2000_0000;

fn push_batch(rt: &(impl Abort + AllocGlobal), bytes: &mut Vec<u8>, batch: Batch) {
    if !batch.is_empty() {
        let frames = stream(rt, batch);
        let word = (frames.len() as u64).wrapping_add(RUNS).to_be_bytes();
        let batch = stream(rt, &[&[1], &word[4..], &frames]);
        bytes.extend_from_slice(&batch).expect(rt, "memory");
        drop(batch);
        drop(frames);
    }
}

pub(super) const EMPTY: File = (1, 16, &[]);

/// The objects of a run of which a call may fail.
enum Object {
    Input,
    Notes,
    Home,
    Guest,
}

/// The frames that come, from the input or from another file.
const COMING: Batch = &[S, BEHIND_A];

const COUNTS: &[u8] = b"accepted 1, repeated 0, waiting 1, conflict 0, stray 0, full 0\n";

/// Runs where these calls on the input, the notes and the other file fail. Returns the status, and whether the fault
/// was noted as it should be.
fn takes(
    rt: &(impl Abort + AllocGlobal),
    words: &str,
    fails: [&[u32]; 3],
    home: &mut MemDisk,
) -> (Status, bool) {
    let mut input = MemSource::new(stream(rt, COMING), 22, list(rt, fails[0]));
    let mut notes = MemSink::new(rt.alloc(), 64, list(rt, fails[1]));
    let other = bytes_of(rt, (2, 16, &[COMING]), &[]);
    let mut guest = MemDisk::new(rt.alloc(), other, list(rt, fails[2]));
    let mut output = sure_sink(rt, 0);
    let status = run_offline(
        rt,
        words,
        &mut input,
        &mut output,
        &mut notes,
        home,
        &mut guest,
    );
    let is_reported = is_cut_off(notes.written(), COUNTS);
    drop(output);
    drop(guest);
    drop(notes);
    drop(input);
    (status, is_reported)
}

/// Runs where this call on the object fails, and returns the status, where the run left what it should: the fault is
/// noted, that of the input or of the other file leaves the file empty, and that of the notes leaves it saved.
fn status_without(
    rt: &(impl Abort + AllocGlobal),
    words: &str,
    object: &Object,
    call: u32,
) -> Option<Status> {
    let call: &[u32] = &[call];
    let (fails, home_fails): ([&[u32]; 3], &[u32]) = match object {
        Object::Input => ([call, &[], &[]], &[]),
        Object::Notes => ([&[], call, &[]], &[]),
        Object::Guest => ([&[], &[], call], &[]),
        Object::Home => ([&[], &[], &[]], call),
    };
    let mut home = MemDisk::new(rt.alloc(), list(rt, NEW), list(rt, home_fails));
    let (status, is_reported) = takes(rt, words, fails, &mut home);
    let (is_saved, is_empty) = sends(rt, COMING, &mut home);
    drop(home);
    let is_left = match object {
        Object::Input | Object::Guest => is_empty,
        Object::Notes => is_saved,
        Object::Home => is_empty || is_saved,
    };
    (status != Status::OutsideFault || is_reported && is_left).then_some(status)
}

/// Whether a file sends these frames, and whether it sends nothing.
pub(super) fn sends(
    rt: &(impl Abort + AllocGlobal),
    frames: Batch,
    home: &mut MemDisk,
) -> (bool, bool) {
    let frames = stream(rt, frames);
    let is_sent = gives(rt, "send F", home, &frames);
    drop(frames);
    (is_sent, gives(rt, "send F", home, b""))
}

/// How many calls on the object there are: each of them may fail, and the next one is not there.
fn failing_calls(rt: &(impl Abort + AllocGlobal), words: &str, object: &Object) -> Option<u32> {
    for call in 0..64 {
        match status_without(rt, words, object, call) {
            Some(Status::OutsideFault) => {}
            Some(Status::Partial) => return Some(call),
            _ => return None,
        }
    }
    None
}

/// The words, an object, and the least number of calls on it.
const CALLED: &[(&str, Object, u32)] = &[
    ("take F", Object::Input, 3),
    ("take F", Object::Notes, 1),
    ("take F", Object::Home, 7),
    ("merge F G", Object::Guest, 4),
    ("merge F G", Object::Home, 7),
    ("merge F G", Object::Notes, 1),
];

#[test]
fn each_call_may_fail_while_frames_are_taken(rt: HostRuntime) {
    for (words, object, least) in CALLED {
        let calls = failing_calls(&rt, words, object);
        holds_at(&rt, &(words, calls, least), calls >= Some(*least));
    }
}
