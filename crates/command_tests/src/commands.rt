//! The program's commands, run on objects in memory.
//!
//! A function makes a few objects, lends them and drops them by name, with one way out: such a function is soon proved.

use crate::files::has_bytes;
use crate::memory::{list, sure_disk, sure_sink};
use manuscript_cli::{Status, run};
use memory_ports::{MemDock, MemSource, MemWire};
use outer_ports::{Disk, Dock, FileDisk, MemSink, Sink, Source, SureSource, Wire};
use std::hash::{BuildHasherDefault, FoldHasher};
use std::process::Abort;

mod crashes;
mod edits;
mod files;
mod refusals;
mod relays;
mod shown;
mod synced;
mod taken;

/// The words of the line, with one space between them.
fn words_of(rt: &(impl Abort + AllocGlobal), line: &str) -> Vec<String> {
    let mut words = Vec::new(rt.alloc());
    for word in line.split(' ') {
        let word = String::from_str(rt.alloc(), word).expect(rt, "memory");
        words.push(word).expect(rt, "memory");
    }
    words
}

/// Runs the words of the line.
fn run_line<S: Source, O: Sink, N: Sink, H: Disk, G: Disk, W: Wire, D: Dock>(
    rt: &(impl Abort + AllocGlobal),
    line: &str,
    wire: &mut W,
    dock: &mut D,
    home: &mut H,
    guest: &mut G,
    input: &mut S,
    output: &mut O,
    notes: &mut N,
) -> Status {
    let alloc = rt.alloc();
    let words = words_of(rt, line);
    let hasher: BuildHasherDefault<FoldHasher> = BuildHasherDefault::default();
    let status = run(
        alloc, &words, input, output, notes, home, guest, wire, dock, hasher,
    );
    drop(words);
    status
}

/// Runs a command that asks nobody and serves nobody: each call on a relay or a dock would fail.
fn run_offline<S: Source, O: Sink, N: Sink, H: Disk, G: Disk>(
    rt: &(impl Abort + AllocGlobal),
    line: &str,
    input: &mut S,
    output: &mut O,
    notes: &mut N,
    home: &mut H,
    guest: &mut G,
) -> Status {
    let alloc = rt.alloc();
    let mut wire = MemWire::new(alloc, Vec::new(alloc), 1, Vec::new(alloc));
    let mut dock = MemDock::new(alloc, Vec::new(alloc), 1, Vec::new(alloc));
    let status = run_line(
        rt, line, &mut wire, &mut dock, home, guest, input, output, notes,
    );
    drop(dock);
    drop(wire);
    status
}

/// Runs a command that uses no file: each call on one would fail.
fn show_by<S: Source, O: Sink, N: Sink>(
    rt: &(impl Abort + AllocGlobal),
    line: &str,
    input: &mut S,
    output: &mut O,
    notes: &mut N,
) -> Status {
    let mut home = FileDisk::closed();
    let mut guest = FileDisk::closed();
    let status = run_offline(rt, line, input, output, notes, &mut home, &mut guest);
    drop(guest);
    drop(home);
    status
}

/// How many bytes of a script come at once.
const PIECE: usize = 10;

/// Runs on the file alone, with an input that comes in pieces and of which these calls fail.
fn run_on<O: Sink, N: Sink, H: Disk>(
    rt: &(impl Abort + AllocGlobal),
    line: &str,
    input: (&[u8], &[u32]),
    output: &mut O,
    notes: &mut N,
    home: &mut H,
) -> Status {
    let mut input = MemSource::new(list(rt, input.0), PIECE, list(rt, input.1));
    let mut guest = FileDisk::closed();
    let status = run_offline(rt, line, &mut input, output, notes, home, &mut guest);
    drop(guest);
    drop(input);
    status
}

/// What is wanted of a run: what is written, what is noted, and the status.
type Ends = (&'static [u8], &'static [u8], Status);

/// Whether a run on the file ends so, on an output with room for just what is wanted.
fn ends_on<H: Disk>(
    rt: &(impl Abort + AllocGlobal),
    line: &str,
    input: &[u8],
    ends: (&[u8], &[u8], Status),
    home: &mut H,
) -> bool {
    let mut output = sure_sink(rt, ends.0.len());
    let mut notes = sure_sink(rt, 256);
    let status = run_on(rt, line, (input, &[]), &mut output, &mut notes, home);
    let is_so = (output.written(), notes.written(), status) == ends;
    drop(notes);
    drop(output);
    is_so
}

/// The same on a sure file of these bytes, with room for so much, and whether it leaves these bytes.
fn ends_so(
    rt: &(impl Abort + AllocGlobal),
    line: &str,
    input: &[u8],
    file: (&[u8], usize),
    ends: (&[u8], &[u8], Status),
    left: &[u8],
) -> bool {
    let mut home = sure_disk(rt, list(rt, file.0), file.1);
    let is_so = ends_on(rt, line, input, ends, &mut home) && has_bytes(&mut home, left);
    drop(home);
    is_so
}

/// Whether the command writes this of the file, and has nothing to note.
fn gives<H: Disk>(rt: &(impl Abort + AllocGlobal), line: &str, home: &mut H, text: &[u8]) -> bool {
    ends_on(rt, line, b"", (text, b"", Status::Done), home)
}

/// The calls of the input, the output and the notes that fail, counted from 0.
type Fails = [&'static [u32]; 3];

const NONE: Fails = [&[], &[], &[]];

/// What came out of a run: the status, whether the output and the notes are those of a whole run, and whether they are
/// what a fault outside leaves of these.
type Seen = (Status, bool, bool);

/// Runs on a stream that comes in pieces. The output takes three bytes at once, and the notes 64.
fn see(
    rt: &(impl Abort + AllocGlobal),
    line: &str,
    stream: (Vec<u8>, usize),
    fails: Fails,
    text: &[u8],
    note: &[u8],
) -> Seen {
    let mut input = MemSource::new(stream.0, stream.1.max(1), list(rt, fails[0]));
    let mut output = MemSink::new(rt.alloc(), 3, list(rt, fails[1]));
    let mut notes = MemSink::new(rt.alloc(), 64, list(rt, fails[2]));
    let status = show_by(rt, line, &mut input, &mut output, &mut notes);
    let is_whole = output.written() == text && notes.written() == note;
    let is_cut = text.starts_with(output.written()) && is_cut_off(notes.written(), note);
    drop(notes);
    drop(output);
    drop(input);
    (status, is_whole, is_cut)
}

/// The notes hold a front of the line, and then the fault's line.
fn is_cut_off(notes: &[u8], line: &[u8]) -> bool {
    match notes.strip_suffix(b"outside fault\n".as_slice()) {
        Some(front) => line.starts_with(front),
        None => false,
    }
}

/// Runs on sure objects: the output takes so many bytes, and the notes 256. Returns the status, and whether the text
/// was written.
fn see_surely(
    rt: &(impl Abort + AllocGlobal),
    line: &str,
    bytes: Vec<u8>,
    room: usize,
    text: &[u8],
) -> (Status, bool) {
    let mut input = SureSource::new(bytes, 4096);
    let mut output = sure_sink(rt, room);
    let mut notes = sure_sink(rt, 256);
    let status = show_by(rt, line, &mut input, &mut output, &mut notes);
    let is_text = output.written() == text;
    drop(notes);
    drop(output);
    drop(input);
    (status, is_text)
}
