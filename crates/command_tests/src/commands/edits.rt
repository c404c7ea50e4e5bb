//! Scripts, where calls of the script and of the notes fail.

use super::run_on;
use crate::assertions::equal_at;
use crate::files::has_bytes;
use crate::frames::{NEW, SAVED};
use crate::memory::list;
use manuscript_cli::Status;
use memory_ports::MemDisk;
use outer_ports::MemSink;
use std::process::Abort;

/// It makes of the new file what is saved.
pub(super) const SCRIPT: &[u8] = b"add 1 T\nput 1 0 AB\ncut 1 1 1\nput 1 1 C\n";

/// Runs the script on a new file, where calls of the script and of the notes fail. Returns the status, and whether this
/// line is noted, nothing is written and the file has these bytes.
fn edits_new(
    rt: &(impl Abort + AllocGlobal),
    fails: [&[u32]; 2],
    line: &[u8],
    left: &[u8],
) -> (Status, bool) {
    let mut home = MemDisk::new(rt.alloc(), list(rt, NEW), Vec::new(rt.alloc()));
    let mut output = MemSink::new(rt.alloc(), 64, Vec::new(rt.alloc()));
    let mut notes = MemSink::new(rt.alloc(), 64, list(rt, fails[1]));
    let script = (SCRIPT, fails[0]);
    let status = run_on(rt, "edit F", script, &mut output, &mut notes, &mut home);
    let is_noted = notes.written() == line && output.written().is_empty();
    drop(notes);
    drop(output);
    let is_left = has_bytes(&mut home, left);
    drop(home);
    (status, is_noted && is_left)
}

/// The calls of the notes that fail, what is noted then, and the status. The line goes out in one piece, and so does
/// the fault's.
const NOTED: &[(&[u32], &[u8], Status)] = &[
    (&[], b"made 5\n", Status::Done),
    (&[0], b"outside fault\n", Status::OutsideFault),
    (&[0, 1], b"", Status::OutsideFault),
];

#[test]
fn a_script_is_saved_where_it_is_read_whole_whatever_is_noted(rt: HostRuntime) {
    for (fails, line, status) in NOTED {
        let end = edits_new(&rt, [&[], fails], line, SAVED);
        equal_at(&rt, &fails, end, (*status, true));
    }
    // The script has 39 bytes: four pieces (`PIECE`), and an empty read at its end.
    for call in 0..7 {
        let (status, line, left): (Status, &[u8], &[u8]) = if call < 5 {
            (Status::OutsideFault, b"outside fault\n", NEW)
        } else {
            (Status::Done, b"made 5\n", SAVED)
        };
        let end = edits_new(&rt, [&[call], &[]], line, left);
        equal_at(&rt, &call, end, (status, true));
    }
}
