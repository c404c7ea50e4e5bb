//! Commands that use no file, whose input comes in pieces, and where calls fail.

use super::{Fails, NONE, see, see_surely, show_by};
use crate::assertions::{equal, equal_at};
use crate::frames::{A, B, CUT, D, LOWER_A, LOWER_B, S, X, Y, stream};
use crate::memory::list;
use manuscript_cli::Status;
use memory_ports::MemSource;
use outer_ports::MemSink;

/// The frame of A with a kind that there is not.
const NO_KIND: &[u8] = b"\0\0\0\0\x01\0\0\0\x01\0\0\0\x09\0\0\0\0\0\x01\0\0\0\x01\0\0\0\0\0\0A";

/// The words, the frames, the output, the notes and the status.
type Row = (
    &'static str,
    &'static [&'static [u8]],
    &'static str,
    &'static str,
    Status,
);

const ROWS: &[Row] = &[
    (
        "show",
        &[S, B, A, D, X, Y],
        "# T\nAXYDB\n",
        "accepted 6, repeated 0, waiting 0, conflict 0, stray 0, full 0\n",
        Status::Done,
    ),
    (
        "show 1",
        &[LOWER_A, LOWER_B, S, LOWER_B],
        "# T\nab\n",
        "accepted 3, repeated 0, waiting 0, conflict 0, stray 0, full 1\n",
        Status::Partial,
    ),
    (
        "show",
        &[S, B, NO_KIND, D, X, Y],
        "",
        "bad frame at byte 36\n",
        Status::BadInput,
    ),
    (
        "show",
        &[S, CUT],
        "",
        "cut short at byte 14\n",
        Status::BadInput,
    ),
];

const TEXT: &[u8] = b"# T\nAXYDB\n";

const COUNTS: &[u8] = b"accepted 6, repeated 0, waiting 0, conflict 0, stray 0, full 0\n";

const FRAMES: &[&[u8]] = &[S, B, A, D, X, Y];

/// Rows in pieces of some sizes, and one stream in pieces of each size.
#[test]
fn a_stream_may_come_in_pieces(rt: HostRuntime) {
    for (words, frames, text, line, status) in ROWS {
        for piece in [1, 5, 4096] {
            let stream = (stream(&rt, frames), piece);
            let seen = see(&rt, words, stream, NONE, text.as_bytes(), line.as_bytes());
            let row = (words, text, line, piece);
            equal_at(&rt, &row, seen, (*status, true, false));
        }
    }
    for piece in 1..=172usize {
        let stream = (stream(&rt, FRAMES), piece);
        let seen = see(&rt, "show", stream, NONE, TEXT, COUNTS);
        equal_at(&rt, &piece, seen, (Status::Done, true, false));
    }
}

/// A command with its input, its output and its notes.
type Case = (
    &'static str,
    &'static [&'static [u8]],
    &'static [u8],
    &'static [u8],
);

const CHAPTER: Case = ("show", FRAMES, TEXT, COUNTS);

const SUMMARY: &[u8] = b"operations 5\nscalars 4\nsum 1074\nequal\n";

const BULK: Case = ("bulk 7 4", &[], SUMMARY, b"");

/// The same, of which the last byte is not written.
const BULK_CUT: Case = (
    "bulk 7 4",
    &[],
    b"operations 5\nscalars 4\nsum 1074\nequal",
    b"",
);

/// Calls that fail alone. The stream has 172 bytes: 8 pieces of 22 bytes, and an empty read at its end. A write of the
/// text takes three bytes at most, and the counts go out in one piece.
const FAILING: &[(Case, Fails)] = &[
    (CHAPTER, [&[0], &[], &[]]),
    (CHAPTER, [&[1], &[], &[]]),
    (CHAPTER, [&[2], &[], &[]]),
    (CHAPTER, [&[3], &[], &[]]),
    (CHAPTER, [&[4], &[], &[]]),
    (CHAPTER, [&[5], &[], &[]]),
    (CHAPTER, [&[6], &[], &[]]),
    (CHAPTER, [&[7], &[], &[]]),
    (CHAPTER, [&[8], &[], &[]]),
    (CHAPTER, [&[], &[0], &[]]),
    (CHAPTER, [&[], &[1], &[]]),
    (CHAPTER, [&[], &[2], &[]]),
    (CHAPTER, [&[], &[3], &[]]),
    (CHAPTER, [&[], &[], &[0]]),
    (BULK_CUT, [&[], &[0], &[]]),
    (BULK_CUT, [&[], &[1], &[]]),
    (BULK_CUT, [&[], &[7], &[]]),
    (BULK_CUT, [&[], &[12], &[]]),
];

/// How many bytes a sure output takes, and what comes of it.
const ROOMS: &[(Case, usize, (Status, bool))] = &[
    (CHAPTER, 10, (Status::Done, true)),
    (CHAPTER, 9, (Status::OutsideFault, false)),
    (BULK, 38, (Status::Done, true)),
    (BULK, 37, (Status::OutsideFault, false)),
];

#[test]
fn each_call_may_fail(rt: HostRuntime) {
    for ((words, frames, text, line), fails) in FAILING {
        let stream = (stream(&rt, frames), 22);
        let seen = see(&rt, words, stream, *fails, text, line);
        let row = (words, fails);
        equal_at(&rt, &row, seen, (Status::OutsideFault, false, true));
    }
    let behind: Fails = [&[9], &[4], &[1]];
    let whole = (stream(&rt, FRAMES), 22);
    let seen = see(&rt, "show", whole, behind, TEXT, COUNTS);
    equal(&rt, seen, (Status::Done, true, false));
    // Sure objects with room do not fail.
    for ((words, frames, text, _), room, wanted) in ROOMS {
        let seen = see_surely(&rt, words, stream(&rt, frames), *room, text);
        equal_at(&rt, &(words, room), seen, *wanted);
    }
}

/// The section with 10,000 letters, each typed after the one before: the eighth write would fail.
#[test]
fn many_letters_go_out_in_few_writes(rt: HostRuntime) {
    let mut bytes = stream(&rt, &[S, LOWER_A]);
    for counter in 1..10_000u32 {
        for part in [
            b"\x02\0\0\0\x01".as_slice(),
            &counter.to_be_bytes(),
            b"\0\0\0\x09\0\0\0\0\x01\0\0\0\x01",
            &(counter - 1).to_be_bytes(),
            b"\0\0\0a",
        ] {
            bytes.extend_from_slice(part).expect(&rt, "memory");
        }
    }
    let mut input = MemSource::new(bytes, 4096, Vec::new(rt.alloc()));
    let mut output = MemSink::new(rt.alloc(), 65_536, list(&rt, &[8]));
    let mut notes = MemSink::new(rt.alloc(), 64, Vec::new(rt.alloc()));
    let status = show_by(&rt, "show", &mut input, &mut output, &mut notes);
    let text = output.written();
    let is_whole = text.len() == 10_005
        && text.starts_with(b"# T\naaa")
        && text.ends_with(b"aaa\n");
    drop(notes);
    drop(output);
    drop(input);
    equal(&rt, (status, is_whole), (Status::Done, true));
}
