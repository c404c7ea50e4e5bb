//! Frames by value, byte by byte and as streams, and lists of operations beside a plain encoder.

ghost use Rattle.std.specs.Prelude.{◌<◌};
ghost use Rattle.origin_model.specs.declared.grammar.Grammar.TheVariants.{Version2 as WithRuns};
ghost use Rattle.op_frame.specs.FrameFronts.{IsFrameOf};

mod plain;

use crate::assertions::{equal, equal_at, holds_at};
use crate::ids::{id, text};
use fugue_ids::{Body, ElementId, NoMemory, NoteNames, Op, Title};
use memory_ports::MemSource;
use op_frame::{
    First, FrameFault, FrameFront, FrameOps, FrameReader, Grown, encode, encode_all, first_frame,
};
use op_runs::OpSlice;
use origin_model::Grammar;
use outer_ports::{Source, SureSource};
use plain::plain_frames;
use std::process::Abort;
use std::test::Fail;

/// The frames of `operations`: those of the first six have 172 bytes.
const FRAMES: [&[u8]; 9] = [
    b"\x01\0\0\0\x09\0\0\0\0\0\0\0\x01T",
    b"\x02\0\0\0\x01\0\0\0\0\0\0\0\x09\0\0\0\0\0\0\0\0B",
    b"\x02\0\0\0\x01\0\0\0\x01\0\0\0\x09\0\0\0\0\0\x01\0\0\0\x01\0\0\0\0\0\0A",
    b"\x02\0\0\0\x02\0\0\0\0\0\0\0\x09\0\0\0\0\x01\0\0\0\x01\0\0\0\0\0\0\0D",
    b"\x02\0\0\0\x03\0\0\0\0\0\0\0\x09\0\0\0\0\x01\0\0\0\x01\0\0\0\x01\x01\0\0\0\x01\0\0\0\0\0\0X",
    b"\x02\0\0\0\x02\0\0\0\x01\0\0\0\x09\0\0\0\0\x01\0\0\0\x01\0\0\0\x01\x01\0\0\0\x02\0\0\0\0\0\0Y",
    b"\x03\0\0\0\x01\0\0\0\x01",
    b"\x05\0\0\0\x01\0\0\0\0\0\x07\0\x02hi",
    // Of the three names one comes twice, and there is no body.
    b"\x05\0\0\0\x02\0\0\0\x05\x03\0\0\0\x01\0\0\0\0\0\0\0\x09\xff\xff\xff\xff\0\0\0\x01\0\0\0\0\xff\0\0",
];

/// Where each of the frames begins, and where the last one ends.
const STARTS: [u64; 10] = [0, 14, 36, 66, 96, 134, 172, 181, 196, 233];

/// A run of A, B and C, and one that ends at the greatest counter, with the greatest scalar.
const RUNS: [&[u8]; 2] = [
    b"\x04\0\0\0\x01\0\0\0\x01\0\0\0\x09\0\0\0\0\0\0\0\x03\0\0A\0\0B\0\0C",
    b"\x04\0\0\0\x01\xff\xff\xff\xfe\0\0\0\x09\0\0\0\0\x01\0\0\0\x02\0\0\0\x07\0\0\x02\0\0A\x10\xff\xff",
];

fn operations(rt: &HostRuntime) -> Result<Vec<Op>, Fail> {
    let (first, behind, low) = (id(1, 0), id(1, 1), id(2, 0));
    let title = Title::read(rt.alloc(), "T")?;
    let none = NoteNames::read(&[]).ok_or("names")?;
    let three = NoteNames::read(&[first, id(9, u32::MAX), first]).ok_or("names")?;
    let body = Body::read(rt.alloc(), b"hi")?;
    let empty = Body::read(rt.alloc(), b"")?;
    Ok(vec![in rt.alloc();
        Op::Section {
            id: id(9, 0),
            left: None,
            right: None,
            title,
        },
        text(first, None, None, 'B'),
        text(behind, None, Some(first), 'A'),
        text(low, Some(first), None, 'D'),
        text(id(3, 0), Some(behind), Some(first), 'X'),
        text(id(2, 1), Some(behind), Some(low), 'Y'),
        Op::Delete { target: behind },
        Op::Note {
            id: first,
            names: none,
            code: 7,
            body,
        },
        Op::Note {
            id: id(2, 5),
            names: three,
            code: 255,
            body: empty,
        },
    ]?)
}

/// So many letters A typed in a row, from this counter on, the first one after `before`.
fn typed_row(
    rt: &HostRuntime,
    first: u32,
    count: u32,
    before: Option<ElementId>,
    right: &Option<ElementId>,
) -> Result<Vec<Op>, NoMemory> {
    let mut ops = Vec::new(rt.alloc());
    let mut left = before;
    for k in 0..count {
        let own = id(1, first.wrapping_add(k));
        ops.push(text(own, left, *right, 'A'))?;
        left = Some(own);
    }
    Ok(ops)
}

/// How many of the operations come, each from the start of its frame, and the answer after them.
fn read_all<S: Source>(
    reader: &mut FrameReader,
    source: &mut S,
    ops: &[Op],
    starts: &[u64],
) -> (usize, Result<bool, FrameFault>) {
    for (count, op) in ops.iter().enumerate() {
        match reader.next(source) {
            Ok(Some(found)) if found == *op && starts.get(count) == Some(&reader.last_at()) => {}
            Ok(_) => return (count, Ok(false)),
            Err(fault) => return (count, Err(fault)),
        }
    }
    (ops.len(), reader.next(source).map(|given| given.is_some()))
}

/// Whether the operations of a frame come one by one too.
fn come_one_by_one(rt: &impl AllocGlobal, frame: &[u8], ops: &[Op]) -> Result<bool, NoMemory>
    requires { IsFrameOf WithRuns frame.now }
{
    let mut rest = FrameOps::new(rt.alloc(), frame)?;
    for op in ops {
        if rest.next().as_ref() != Some(op) {
            return Ok(false);
        }
    }
    Ok(rest.next().is_none())
}

/// Where each operation's frame begins, where the operations are read from the frames byte by byte and whole. These are
/// the operations, and there is no byte after them.
fn starts_of(rt: &(impl Abort + AllocGlobal), bytes: &[u8], ops: &[Op]) -> Result<Vec<u64>, Fail> {
    let mut starts = Vec::new(rt.alloc());
    let mut front = FrameFront::new(Grammar::Version2);
    let mut start = 0usize;
    for (at, byte) in bytes.iter().enumerate() {
        if let Grown::Frame = front.push(*byte) {
            if let First::Whole(found, len) = first_frame(
                rt.alloc(),
                bytes.get(start..).unwrap_or(&[]),
            )? {
                holds_at(rt, &at, come_one_by_one(rt, front.as_slice(), &found)?);
                for op in &found {
                    holds_at(rt, op, ops.get(starts.len()) == Some(op));
                    starts.push(start as u64)?;
                }
                start = start.saturating_add(len);
            }
            equal_at(rt, &"start", start, at.saturating_add(1));
            front.clear();
        }
    }
    equal(rt, (start, starts.len()), (bytes.len(), ops.len()));
    Ok(starts)
}

/// Whether the operations are written as these frames after what stands there, and are read back from them.
fn is_framed(rt: &(impl Abort + AllocGlobal), ops: &[Op], frames: &[u8]) -> Result<bool, Fail> {
    let mut bytes = Vec::from_slice(rt.alloc(), b"#")?;
    encode_all(OpSlice::of(ops), &mut bytes)?;
    let starts = starts_of(rt, frames, ops)?;
    let mut source = SureSource::new(frames.to_vec(rt.alloc())?, 3);
    let mut reader = FrameReader::new(rt.alloc(), frames.len() as u64)?;
    let answer = read_all(&mut reader, &mut source, ops, &starts);
    let is_written = bytes.strip_prefix(b"#".as_slice()) == Some(frames);
    Ok(is_written && answer == (ops.len(), Ok(false)))
}

#[test]
fn operations_are_written_byte_for_byte_and_read_back(rt: HostRuntime) -> Result<(), Fail> {
    let ops = operations(&rt)?;
    let mut joined = Vec::new(rt.alloc());
    for (op, frame) in ops.iter().zip(FRAMES) {
        joined.extend_from_slice(frame)?;
        let mut bytes = Vec::new(rt.alloc());
        encode(op, &mut bytes)?;
        equal(&rt, bytes.as_slice(), frame);
    }
    holds_at(&rt, &"joined", is_framed(&rt, &ops, &joined)?);
    let abc = vec![in rt.alloc();
        text(id(1, 1), None, None, 'A'),
        text(id(1, 2), Some(id(1, 1)), None, 'B'),
        text(id(1, 3), Some(id(1, 2)), None, 'C'),
    ]?;
    holds_at(&rt, &"ABC", is_framed(&rt, &abc, RUNS[0])?);
    let own = id(1, 4_294_967_294);
    let last = vec![in rt.alloc();
        text(own, Some(id(2, 7)), None, 'A'),
        text(id(1, 4_294_967_295), Some(own), None, '\u{10FFFF}'),
    ]?;
    holds_at(&rt, &"last", is_framed(&rt, &last, RUNS[1])?);
    Ok(())
}

/// The first bytes of a Section and of a Text, up to the first origin, and of a note, up to the number of its names.
const SECTION: &[u8] = b"\x01\0\0\0\x09\0\0\0\0";

const TEXT: &[u8] = b"\x02\0\0\0\x01\0\0\0\0\0\0\0\x09\0\0\0\0";

const NOTE: &[u8] = b"\x05\0\0\0\x01\0\0\0\0";

/// The first bytes of runs, up to the count: from the first counter on, and from those after which there are 300 more,
/// one more and 1,023 more.
const RUN: &[u8] = b"\x04\0\0\0\x01\0\0\0\0\0\0\0\x09\0\0\0\0\0\0";

const RUN_OF_300: &[u8] = b"\x04\0\0\0\x01\xff\xff\xfe\xd4\0\0\0\x09\0\0\0\0\0\0";

const RUN_OF_2: &[u8] = b"\x04\0\0\0\x01\xff\xff\xff\xfe\0\0\0\x09\0\0\0\0\0\0";

const RUN_OF_1024: &[u8] = b"\x04\0\0\0\x01\xff\xff\xfc\0\0\0\0\x09\0\0\0\0\0\0";

/// Bytes that begin a frame, bytes after them, and whether the last of these is wrong.
const FRONTS: &[(&[u8], &[u8], bool)] = &[
    (b"", b"\0", true),
    (b"", b"\x06", true),
    (b"\x03", b"\0\0\0\0", true),
    (SECTION, b"\x01\0\0\0\0", true),
    (SECTION, b"\0\0\0\0", true),
    (SECTION, b"\0\0\x01\xe1", true),
    (SECTION, b"\0\0\0\x03a\r", true),
    (SECTION, b"\0\0\0\x03\xed\xa0", true),
    (SECTION, b"\0\0\0\x02\xe2", true),
    (TEXT, b"\0\0\0\xd8", true),
    (b"\x05", b"\0\0\0\0", true),
    (NOTE, b"\x04", true),
    (NOTE, b"\xff", true),
    (NOTE, b"\x01\0\0\0\0", true),
    (
        NOTE,
        b"\x03\0\0\0\x01\0\0\0\0\0\0\0\x01\0\0\0\0\0\0\0\0",
        true,
    ),
    (NOTE, b"\0\x07\x04\0", false),
    (NOTE, b"\0\x07\x04\x01", true),
    (NOTE, b"\0\x07\x05", true),
    (b"\x04", b"\0\0\0\0", true),
    (b"\x04", b"\0\0\0\x01\xff\xff\xff\xff", true),
    (RUN, b"\0\0", true),
    (RUN, b"\0\x01", true),
    (RUN, b"\x04\0", false),
    (RUN, b"\x04\x01", true),
    (RUN, b"\x05", true),
    (RUN, b"\0\x02\0\0A\0\xd8", true),
    (RUN, b"\0\x02\0\0A\x11", true),
    (RUN_OF_2, b"\0\x02", false),
    (RUN_OF_2, b"\0\x03", true),
    (RUN_OF_2, b"\x01", true),
    (RUN_OF_300, b"\x01\x2c", false),
    (RUN_OF_300, b"\x01\x2d", true),
    (RUN_OF_1024, b"\x04\0", false),
];

#[test]
fn bytes_begin_a_frame_until_the_first_wrong_one(rt: HostRuntime) -> Result<(), Fail> {
    for (begin, behind, is_wrong) in FRONTS {
        let mut front = FrameFront::new(Grammar::Version2);
        let mut bytes = Vec::new(rt.alloc());
        for byte in begin.iter().chain(*behind) {
            let first = first_frame(rt.alloc(), &bytes)?;
            holds_at(&rt, &(begin, behind), matches!(first, First::Prefix));
            bytes.push(*byte)?;
            let is_last = *is_wrong && bytes.len() == begin.len().wrapping_add(behind.len());
            let wanted = if is_last { Grown::Bad } else { Grown::Front };
            equal_at(&rt, &(begin, behind), front.push(*byte), wanted);
        }
        let first = first_frame(rt.alloc(), &bytes)?;
        holds_at(
            &rt,
            &(begin, behind),
            matches!(first, First::Bad) == *is_wrong,
        );
        let mut stream = Vec::from_slice(rt.alloc(), FRAMES[0])?;
        stream.extend_from_slice(&bytes)?;
        let mut reader = FrameReader::new(rt.alloc(), stream.len() as u64)?;
        let mut source = SureSource::new(stream, 7);
        let is_first = reader.next(&mut source)?.is_some();
        let fault = if *is_wrong {
            FrameFault::BadFrame(14)
        } else {
            FrameFault::CutShort(14)
        };
        let answer = reader.next(&mut source).map(|given| given.is_some());
        equal_at(
            &rt,
            &(begin, behind),
            (is_first, answer),
            (true, Err(fault)),
        );
    }
    Ok(())
}

#[test]
fn a_stream_reads_the_same_in_pieces_of_every_size(rt: HostRuntime) -> Result<(), Fail> {
    let ops = operations(&rt)?;
    let mut bytes = Vec::new(rt.alloc());
    encode_all(OpSlice::of(&ops), &mut bytes)?;
    for piece in 1..=233 {
        let mut source = SureSource::new(bytes.to_vec(rt.alloc())?, piece);
        let mut reader = FrameReader::new(rt.alloc(), 233)?;
        let answer = read_all(&mut reader, &mut source, &ops, &STARTS);
        equal_at(&rt, &piece, answer, (9, Ok(false)));
        equal_at(
            &rt,
            &piece,
            read_all(&mut reader, &mut source, &[], &[]),
            (0, Ok(false)),
        );
    }
    // The calls that fail, the greatest length, and what comes.
    for (failing, limit, given, fault) in [
        (0, 233, 0, FrameFault::ReadFault),
        (1, 233, 2, FrameFault::ReadFault),
        (5, 233, 9, FrameFault::ReadFault),
        (9, 232, 8, FrameFault::TooLong),
    ] {
        let fails = [failing].to_vec(rt.alloc())?;
        let mut source = MemSource::new(bytes.to_vec(rt.alloc())?, 50, fails);
        let mut reader = FrameReader::new(rt.alloc(), limit)?;
        let answer = read_all(&mut reader, &mut source, &ops, &STARTS);
        equal_at(&rt, &failing, answer, (given, Err(fault)));
        let again = read_all(&mut reader, &mut source, &[], &[]);
        equal_at(&rt, &failing, again, (0, Err(fault)));
    }
    // Version 1 has no notes.
    let mut source = SureSource::new(bytes, 100);
    let mut reader = FrameReader::old(rt.alloc(), 233)?;
    let answer = read_all(&mut reader, &mut source, &ops, &STARTS);
    equal(&rt, answer, (7, Err(FrameFault::BadFrame(181))));
    Ok(())
}

/// Two frames of 1,024 letters, each of 3,109 bytes.
#[test]
fn the_longest_frames_go_through_the_buffer(rt: HostRuntime) -> Result<(), Fail> {
    let ops = typed_row(&rt, 0, 2_048, Some(id(2, 0)), &Some(id(3, 0)))?;
    let mut bytes = Vec::new(rt.alloc());
    encode_all(OpSlice::of(&ops), &mut bytes)?;
    equal(&rt, bytes.len(), 6_218);
    let starts = starts_of(&rt, &bytes, &ops)?;
    for (piece, failing, given) in [
        (500, 14, 2_048),
        (500, 12, 1_024),
        (500, 6, 0),
        (4_095, 3, 2_048),
        (6_218, 2, 2_048),
    ] {
        let fails = [failing].to_vec(rt.alloc())?;
        let mut source = MemSource::new(bytes.to_vec(rt.alloc())?, piece, fails);
        let mut reader = FrameReader::new(rt.alloc(), 6_218)?;
        let (count, _) = read_all(&mut reader, &mut source, &ops, &starts);
        equal_at(&rt, &(piece, failing), count, given);
    }
    let mut reader = FrameReader::old(rt.alloc(), 6_218)?;
    let answer = read_all(&mut reader, &mut SureSource::new(bytes, 100), &ops, &starts);
    equal(&rt, answer, (0, Err(FrameFault::BadFrame(0))));
    Ok(())
}

/// The operations that the digits of a number name, of which some go on with one another.
fn list(rt: &HostRuntime, len: u32, number: usize) -> Result<Vec<Op>, Fail> {
    let (first, second) = (id(1, 1), id(1, 2));
    let mut ops = Vec::new(rt.alloc());
    let mut rest = number;
    for _ in 0..len {
        ops.push(match rest % 10 {
            0 => text(first, None, None, 'a'),
            1 => text(second, Some(first), None, 'b'),
            2 => text(id(1, 3), Some(second), None, 'c'),
            3 => text(second, None, None, 'd'),
            4 => Op::Text {
                id: second,
                section: id(9, 1),
                left: Some(first),
                right: None,
                ch: 'e',
            },
            5 => text(second, Some(first), Some(id(2, 0)), 'f'),
            6 => text(id(2, 2), Some(first), None, 'g'),
            7 => Op::Section {
                id: second,
                left: Some(first),
                right: None,
                title: Title::read(rt.alloc(), "T")?,
            },
            8 => Op::Delete { target: second },
            _ => Op::Note {
                id: second,
                names: NoteNames::read(&[first]).ok_or("too many names")?,
                code: 7,
                body: Body::read(rt.alloc(), b"h")?,
            },
        })?;
        rest /= 10;
    }
    Ok(ops)
}

#[test]
fn each_short_list_is_written_as_a_plain_encoder_does_and_read_back(
    rt: HostRuntime,
) -> Result<(), Fail> {
    // All lists of up to three operations, and each seventh one of four.
    for (len, lists, step) in [
        (0, 1, 1),
        (1, 10, 1),
        (2, 100, 1),
        (3, 1_000, 1),
        (4, 1_429, 7),
    ] {
        for turn in 0..lists {
            let number = usize::saturating_mul(turn, step);
            let ops = list(&rt, len, number)?;
            let frames = plain_frames(&rt, &ops)?;
            holds_at(&rt, &(len, number), is_framed(&rt, &ops, &frames)?);
        }
    }
    // After 1,024 Texts a frame ends, and one that is left over has its own.
    for (count, len) in [
        (1_023, 3_090),
        (1_024, 3_093),
        (1_025, 3_123),
        (1_026, 3_128),
        (2_049, 6_224),
    ] {
        let ops = typed_row(&rt, 0, count, None, &None)?;
        let frames = plain_frames(&rt, &ops)?;
        equal_at(&rt, &count, frames.len(), len);
        holds_at(&rt, &count, is_framed(&rt, &ops, &frames)?);
    }
    Ok(())
}
