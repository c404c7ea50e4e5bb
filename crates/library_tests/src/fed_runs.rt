//! Streams of which runs and rows of Deletes are read and fed at once, beside the definitions, which take their
//! operations in one by one.

ghost use Rattle.std.specs.Prelude.{◌≤◌, ◌+◌, ◌^◌, IsTrue, length};
ghost use Rattle.origin_model.specs.taking.Taking.{IsSettled};
ghost use Rattle.replica_core.specs.Answering.{StaysBelow, total};

use crate::assertions::{equal_at, holds_at};
use crate::ids::{id, text};
use crate::op_lines::Line::{Delete, Note, Section, Text};
use crate::op_lines::{Line, NONE, Name, OTHER, SECTION, T, op};
use crate::plain::Plain;
use crate::replicas::{accepted_by, copies_of};
use Row::{Alone, Deleted, Typed};
use fugue_ids::{ElementId, NoMemory, Op};
use op_frame::{FrameReader, NextOps, encode, encode_all};
use op_runs::{OpRuns, OpSlice};
use origin_model::Verdict;
use outer_ports::SureSource;
use replica_core::{FeedFault, Replica, Tally};
use std::alloc::Global;
use std::process::Abort;
use std::test::Fail;

/// Operations that follow one another in a stream.
#[derive(Clone, Copy)]
enum Row {
    /// The first counter of replica 1, how many letters, and what the first of them stands after.
    Typed(u32, u32, Name),
    /// The first counter of replica 1, and how many Deletes.
    Deleted(u32, u32),
    Alone(Line),
}

struct Case {
    name: &'static str,
    hold: u32,
    rows: &'static [Row],
    /// How often the reader gives something, where all bytes come at once.
    answers: usize,
    /// How many are accepted, repeated, in conflict, stray, and too many to wait.
    counts: [u32; 5],
    waiting: usize,
}

const U: Line = Section(OTHER, NONE, NONE, "U");

/// Replica 1's third letter, in another section than the rows have it.
const ELSEWHERE: Line = Text((1, 2), OTHER, NONE, NONE, 'x');

const CASES: &[Case] = &[
    Case {
        name: "Deletes in the middle of a run",
        hold: 9,
        rows: &[Alone(T), Typed(0, 5, NONE), Deleted(1, 3)],
        answers: 3,
        counts: [9, 0, 0, 0, 0],
        waiting: 0,
    },
    Case {
        name: "all comes twice",
        hold: 9,
        rows: &[
            Alone(T),
            Typed(0, 5, NONE),
            Deleted(1, 3),
            Alone(T),
            Typed(0, 5, NONE),
            Deleted(1, 3),
        ],
        answers: 6,
        counts: [9, 9, 0, 0, 0],
        waiting: 0,
    },
    Case {
        name: "rows that go on",
        hold: 9,
        rows: &[
            Alone(T),
            Typed(0, 3, NONE),
            Typed(3, 3, (1, 2)),
            Deleted(1, 2),
            Deleted(3, 2),
        ],
        answers: 3,
        counts: [11, 0, 0, 0, 0],
        waiting: 0,
    },
    Case {
        name: "the front of a run is held",
        hold: 9,
        rows: &[Alone(T), Typed(0, 3, NONE), Typed(0, 6, NONE)],
        answers: 3,
        counts: [7, 3, 0, 0, 0],
        waiting: 0,
    },
    Case {
        name: "some of the Deletes are held",
        hold: 9,
        rows: &[Alone(T), Typed(0, 6, NONE), Deleted(2, 2), Deleted(0, 6)],
        answers: 4,
        counts: [13, 2, 0, 0, 0],
        waiting: 0,
    },
    Case {
        name: "Deletes come before the letters, of which two never come",
        hold: 9,
        rows: &[Alone(T), Deleted(2, 5), Deleted(2, 5), Typed(0, 5, NONE)],
        answers: 4,
        counts: [9, 5, 0, 0, 0],
        waiting: 2,
    },
    Case {
        name: "a run comes before its section",
        hold: 9,
        rows: &[Typed(0, 4, NONE), Deleted(1, 2), Alone(T)],
        answers: 3,
        counts: [7, 0, 0, 0, 0],
        waiting: 0,
    },
    Case {
        name: "a run comes before the letter that it stands behind",
        hold: 9,
        rows: &[Alone(T), Typed(2, 3, (1, 1)), Typed(0, 2, NONE)],
        answers: 3,
        counts: [6, 0, 0, 0, 0],
        waiting: 0,
    },
    Case {
        name: "what waits names a letter of a run",
        hold: 9,
        rows: &[
            Alone(T),
            Alone(Text((2, 0), SECTION, (1, 9), NONE, 'x')),
            Typed(0, 12, NONE),
        ],
        answers: 3,
        counts: [14, 0, 0, 0, 0],
        waiting: 0,
    },
    Case {
        name: "what waits has the identifier of a letter of a run",
        hold: 9,
        rows: &[
            Alone(T),
            Alone(Text((1, 2), SECTION, (1, 1), NONE, 'z')),
            Typed(0, 5, NONE),
        ],
        answers: 3,
        counts: [6, 0, 1, 0, 0],
        waiting: 0,
    },
    Case {
        name: "Deletes downwards",
        hold: 9,
        rows: &[
            Alone(T),
            Typed(0, 5, NONE),
            Alone(Delete((1, 3))),
            Alone(Delete((1, 2))),
            Alone(Delete((1, 1))),
        ],
        answers: 5,
        counts: [9, 0, 0, 0, 0],
        waiting: 0,
    },
    Case {
        name: "Deletes across two runs",
        hold: 9,
        rows: &[
            Alone(T),
            Typed(0, 3, NONE),
            Typed(3, 3, NONE),
            Deleted(1, 4),
        ],
        answers: 4,
        counts: [11, 0, 0, 0, 0],
        waiting: 0,
    },
    Case {
        name: "Deletes across runs of two sections",
        hold: 9,
        rows: &[
            Alone(T),
            Alone(U),
            Typed(0, 3, NONE),
            Alone(Text((1, 3), OTHER, NONE, NONE, 'x')),
            Alone(Text((1, 4), OTHER, (1, 3), NONE, 'y')),
            Deleted(1, 4),
        ],
        answers: 5,
        counts: [11, 0, 0, 0, 0],
        waiting: 0,
    },
    Case {
        name: "more letters than may wait",
        hold: 2,
        rows: &[Typed(0, 4, NONE), Alone(T), Typed(0, 4, NONE)],
        answers: 3,
        counts: [5, 2, 0, 0, 2],
        waiting: 0,
    },
    Case {
        name: "more Deletes than may wait",
        hold: 2,
        rows: &[Alone(T), Deleted(0, 4), Typed(0, 4, NONE), Deleted(0, 4)],
        answers: 4,
        counts: [9, 2, 0, 0, 2],
        waiting: 0,
    },
    // The letter after it is stray, and the one after that waits for good.
    Case {
        name: "a letter of a run is held in another section",
        hold: 9,
        rows: &[Alone(T), Alone(U), Alone(ELSEWHERE), Typed(0, 5, NONE)],
        answers: 4,
        counts: [5, 0, 1, 1, 0],
        waiting: 1,
    },
    Case {
        name: "a letter of a run waits for another section",
        hold: 9,
        rows: &[Alone(T), Alone(ELSEWHERE), Typed(0, 5, NONE), Alone(U)],
        answers: 4,
        counts: [5, 0, 1, 1, 0],
        waiting: 1,
    },
    Case {
        name: "one letter and its Delete",
        hold: 9,
        rows: &[Alone(T), Typed(0, 1, NONE), Deleted(0, 1)],
        answers: 3,
        counts: [3, 0, 0, 0, 0],
        waiting: 0,
    },
    Case {
        name: "a note among letters, and its Delete among theirs",
        hold: 9,
        rows: &[
            Alone(T),
            Typed(0, 3, NONE),
            Alone(Note((1, 3), &[(1, 0)], "n")),
            Typed(4, 2, (1, 2)),
            Deleted(2, 3),
        ],
        answers: 5,
        counts: [10, 0, 0, 0, 0],
        waiting: 0,
    },
];

fn letter(counter: u32) -> char {
    char::from(b'a' + (counter % 26) as u8)
}

fn push_typed(ops: &mut Vec<Op>, first: u32, count: u32, behind: Name) -> Result<(), NoMemory> {
    let mut left = ElementId::new(behind.0, behind.1);
    for place in 0..count {
        let counter = first.wrapping_add(place);
        let own = id(1, counter);
        ops.push(text(own, left, None, letter(counter)))?;
        left = Some(own);
    }
    Ok(())
}

fn push_deleted(ops: &mut Vec<Op>, first: u32, count: u32) -> Result<(), NoMemory> {
    for place in 0..count {
        let target = id(1, first.wrapping_add(place));
        ops.push(Op::Delete { target })?;
    }
    Ok(())
}

/// The operations of the rows.
fn operations(rt: &impl Abort, alloc: Global, rows: &[Row]) -> Result<Vec<Op>, Fail> {
    let mut ops = Vec::new(alloc);
    for row in rows {
        match *row {
            Typed(first, count, behind) => push_typed(&mut ops, first, count, behind)?,
            Deleted(first, count) => push_deleted(&mut ops, first, count)?,
            Alone(line) => ops.push(op(rt, alloc, line)?)?,
        }
    }
    Ok(ops)
}

/// Each operation's own frame.
fn single_frames(alloc: Global, ops: &[Op]) -> Result<Vec<u8>, NoMemory> {
    let mut bytes = Vec::new(alloc);
    for op in ops {
        encode(op, &mut bytes)?;
    }
    Ok(bytes)
}

/// What the definitions make of operations one after another.
#[derive(Drop)]
struct Expected {
    plain: Plain,
    /// Those that were accepted at once or waited.
    kept: Vec<Op>,
}

impl Expected {
    fn of(alloc: Global, ops: &[Op], hold: u32) -> Result<Expected, Fail> {
        let mut plain = Plain::new(alloc);
        let mut kept = Vec::new(alloc);
        for op in ops {
            let is_full = plain.waiting.len() == hold as usize;
            let has_to_wait = matches!(plain.accepted.verdict(op), Verdict::Missing(_));
            if !(is_full && has_to_wait) && plain.take_in(alloc, op)? {
                kept.push(op.clone_in(alloc)?)?;
            }
        }
        Ok(Expected { plain, kept })
    }
}

/// How a stream is read and fed.
#[derive(Clone, Copy, Debug)]
struct Way {
    /// So many bytes come at once.
    piece: usize,
    /// Whether the stream is one of version 1.
    is_old: bool,
    /// Whether copies are made.
    keeps: bool,
}

/// More bytes than any of the streams has.
const WHOLE: usize = 4_096;

const PIECES: [usize; 4] = [1, 7, 64, WHOLE];

const FEW: u32 = 1_000;

/// Whether so few operations are counted and wait that so many more can be fed, of identifiers from this one on.
fn can_feed(replica: &Replica, tally: &Tally, first: ElementId, count: usize) -> bool
    ensures settled { IsTrue result → IsSettled replica.now.held }
    ensures counters { IsTrue result → first.counter + count ≤ 2 ^ 32 }
    ensures counts_rise { IsTrue result
        → total tally.now + length replica.now.held.waiting + count ≤ 2 ^ 31 }
    ensures stays_below { IsTrue result → StaysBelow tally.now }
{
    replica.is_settled()
        && replica.waiting().len() < FEW as usize
        && first.counter < FEW
        && count < FEW as usize
        && tally.accepted < FEW
        && tally.repeated < FEW
        && tally.conflict < FEW
        && tally.stray < FEW
        && tally.full < FEW
}

/// Feeds what was given at once, with copies of what is kept.
fn feed_keeping(
    rt: &impl Abort,
    replica: &mut Replica,
    next: NextOps,
    text: &[char],
    tally: &mut Tally,
    kept: &mut OpRuns,
) -> Result<(), FeedFault> {
    match next {
        NextOps::Run(start) => {
            assert!(rt; can_feed(replica, tally, start.id, text.len()));
            replica.feed_run_keeping(&start, text, tally, kept)
        }
        NextOps::Deletes(first, count) => {
            assert!(rt; can_feed(replica, tally, first, count as usize));
            replica.feed_deletes_keeping(first, count, tally, kept)
        }
        NextOps::Single(op) => {
            assert!(rt; can_feed(replica, tally, id(1, 0), 1));
            replica.feed_keeping(op, tally, kept)
        }
    }
}

/// Feeds what was given at once.
fn feed(
    rt: &impl Abort,
    replica: &mut Replica,
    next: NextOps,
    text: &[char],
    tally: &mut Tally,
) -> Result<(), FeedFault> {
    match next {
        NextOps::Run(start) => {
            assert!(rt; can_feed(replica, tally, start.id, text.len()));
            replica.feed_run(&start, text, tally)
        }
        NextOps::Deletes(first, count) => {
            assert!(rt; can_feed(replica, tally, first, count as usize));
            replica.feed_deletes(first, count, tally)
        }
        NextOps::Single(op) => {
            assert!(rt; can_feed(replica, tally, id(1, 0), 1));
            replica.feed(op, tally)?;
            Ok(())
        }
    }
}

/// Reads the stream and feeds it, to its end or to the first fault. Returns how often the reader gave something.
fn feed_all(
    rt: &impl Abort,
    alloc: Global,
    replica: &mut Replica,
    bytes: &[u8],
    way: Way,
    tally: &mut Tally,
    kept: &mut OpRuns,
) -> Result<Result<usize, FeedFault>, Fail> {
    assert!(rt; way.piece > 0);
    let mut source = SureSource::new(bytes.to_vec(alloc)?, way.piece);
    let mut reader = if way.is_old {
        FrameReader::old(alloc, bytes.len() as u64)?
    } else {
        FrameReader::new(alloc, bytes.len() as u64)?
    };
    let mut text = Vec::new(alloc);
    for answers in 0..usize::MAX {
        let Some(next) = reader.next_run(&mut source, &mut text)? else {
            return Ok(Ok(answers));
        };
        let fed = if way.keeps {
            feed_keeping(rt, replica, next, &text, tally, kept)
        } else {
            feed(rt, replica, next, &text, tally)
        };
        if let Err(fault) = fed {
            return Ok(Err(fault));
        }
    }
    Ok(Ok(usize::MAX))
}

/// In the order of a case's counts.
fn counts_in(tally: &Tally) -> [u32; 5] {
    [
        tally.accepted,
        tally.repeated,
        tally.conflict,
        tally.stray,
        tally.full,
    ]
}

/// Feeds the stream to a new replica, and compares what becomes of it with what is wanted.
fn compare(
    rt: &impl Abort,
    alloc: Global,
    replica: &mut Replica,
    bytes: &[u8],
    way: Way,
    case: &Case,
    expected: &Expected,
) -> Result<(), Fail> {
    let row = (case.name, way);
    let mut tally = Tally::default();
    let mut kept = OpRuns::new(alloc);
    let answers = feed_all(rt, alloc, replica, bytes, way, &mut tally, &mut kept)??;
    equal_at(rt, &row, counts_in(&tally), case.counts);
    equal_at(rt, &row, replica.waiting().len(), case.waiting);
    // What has not come yet parts what is given, and joins nothing.
    let is_parted = way.piece != WHOLE && answers > case.answers;
    holds_at(rt, &row, is_parted || answers == case.answers);
    compare_lists(rt, alloc, &row, replica, &kept, expected)
}

/// Compares the operations that are accepted, that wait and that were kept, each in order.
fn compare_lists(
    rt: &impl Abort,
    alloc: Global,
    row: &(&str, Way),
    replica: &Replica,
    kept: &OpRuns,
    expected: &Expected,
) -> Result<(), Fail> {
    let accepted = accepted_by(alloc, replica)?;
    equal_at(rt, row, accepted.as_slice(), expected.plain.accepted.ops());
    equal_at(
        rt,
        row,
        replica.waiting(),
        expected.plain.waiting.as_slice(),
    );
    let copies = copies_of(alloc, kept.from(0))?;
    let (_, way) = row;
    let wanted: &[Op] = if way.keeps { &expected.kept } else { &[] };
    equal_at(rt, row, copies.as_slice(), wanted);
    Ok(())
}

fn check(
    rt: &impl Abort,
    alloc: Global,
    bytes: &[u8],
    way: Way,
    case: &Case,
    expected: &Expected,
) -> Result<(), Fail> {
    let mut replica = Replica::new(alloc, 7, case.hold, 100)?;
    let done = compare(rt, alloc, &mut replica, bytes, way, case, expected);
    drop(replica);
    done
}

/// The stream in pieces of each length, with and without copies.
fn check_pieces(
    rt: &impl Abort,
    alloc: Global,
    bytes: &[u8],
    is_old: bool,
    case: &Case,
    expected: &Expected,
) -> Result<(), Fail> {
    for piece in PIECES {
        let keeping = Way {
            piece,
            is_old,
            keeps: true,
        };
        let forgetting = Way {
            keeps: false,
            ..keeping
        };
        check(rt, alloc, bytes, keeping, case, expected)?;
        check(rt, alloc, bytes, forgetting, case, expected)?;
    }
    Ok(())
}

/// The stream with frames of runs, and with a frame for each operation. That is of version 1 too if it has no note.
fn check_case(rt: &impl Abort, alloc: Global, case: &Case) -> Result<(), Fail> {
    let ops = operations(rt, alloc, case.rows)?;
    let expected = Expected::of(alloc, &ops, case.hold)?;
    let mut runs = Vec::new(alloc);
    encode_all(OpSlice::of(&ops), &mut runs)?;
    check_pieces(rt, alloc, &runs, false, case, &expected)?;
    let singles = single_frames(alloc, &ops)?;
    check_pieces(rt, alloc, &singles, false, case, &expected)?;
    if !ops.iter().any(|op| matches!(op, Op::Note { .. })) {
        check_pieces(rt, alloc, &singles, true, case, &expected)?;
    }
    Ok(())
}

#[test]
fn what_is_fed_at_once_is_taken_in_as_one_by_one(rt: HostRuntime) -> Result<(), Fail> {
    for case in CASES {
        check_case(&rt, rt.alloc(), case)?;
    }
    Ok(())
}

/// Feeds the stream to a replica that may hold fewer operations. Those before the first that is too many stand, and are
/// kept.
fn stop_at(
    rt: &impl Abort,
    alloc: Global,
    replica: &mut Replica,
    bytes: &[u8],
    front: &[Op],
    most: u32,
) -> Result<(), Fail> {
    let way = Way {
        piece: WHOLE,
        is_old: false,
        keeps: true,
    };
    let mut tally = Tally::default();
    let mut kept = OpRuns::new(alloc);
    let told = match feed_all(rt, alloc, replica, bytes, way, &mut tally, &mut kept)? {
        Err(FeedFault::TooMany(told)) => Some(told),
        Err(FeedFault::NoMemory) => None,
        Ok(_answers) => None,
    };
    equal_at(rt, &most, told, Some(most));
    equal_at(rt, &most, counts_in(&tally), [most, 0, 0, 0, 0]);
    let accepted = accepted_by(alloc, replica)?;
    equal_at(rt, &most, accepted.as_slice(), front);
    let copies = copies_of(alloc, kept.from(0))?;
    equal_at(rt, &most, copies.as_slice(), front);
    Ok(())
}

#[test]
fn a_run_and_deletes_stop_at_what_is_too_many(rt: HostRuntime) -> Result<(), Fail> {
    let rows = [Alone(T), Typed(0, 5, NONE), Deleted(0, 5)];
    let ops = operations(&rt, rt.alloc(), &rows)?;
    let bytes = single_frames(rt.alloc(), &ops)?;
    for most in 1..=10 {
        let front = ops.get(..most as usize).unwrap_or(&[]);
        let mut replica = Replica::new(rt.alloc(), 7, 9, most)?;
        let done = stop_at(&rt, rt.alloc(), &mut replica, &bytes, front, most);
        drop(replica);
        done?;
    }
    Ok(())
}
