//! Every stream of up to five operations of a small pool, taken in one after another, against the closure of its
//! operations.

use crate::assertions::{equal, holds_at};
use crate::op_lines::Line::{Delete, Section, Text};
use crate::op_lines::{Line, NONE, SECTION, op};
use crate::plain::Plain;
use fugue_ids::Op;
use origin_model::{PlainReplica, Verdict};
use std::alloc::Global;
use std::process::Abort;
use std::test::Fail;

/// No two have one identifier.
const POOL: &[Line] = &[
    Section(SECTION, NONE, NONE, "T"),
    Text((1, 0), SECTION, NONE, NONE, 'a'),
    Text((1, 1), SECTION, (1, 0), (2, 0), 'a'),
    Text((2, 0), SECTION, NONE, NONE, 'a'),
    // Its section is a text.
    Text((3, 0), (1, 0), NONE, NONE, 'a'),
    // It names itself.
    Text((3, 1), SECTION, (3, 1), NONE, 'a'),
    // Its target comes, and is accepted nowhere.
    Delete((3, 0)),
    // A section after a text.
    Section((8, 0), (1, 0), NONE, "T"),
    Delete((2, 0)),
];

/// In each turn the earliest Ready operation of the stream is accepted, where there is one.
fn close(alloc: Global, replica: &mut PlainReplica, stream: &[Op]) -> Result<(), Fail> {
    for _ in 0..stream.len() {
        let ready = stream
            .iter()
            .find(|op| replica.verdict(*op) == Verdict::Ready);
        if let Some(op) = ready {
            let op = op.clone_in(alloc)?;
            if replica.verdict(&op) == Verdict::Ready {
                replica.accept(op)?;
            }
        }
    }
    Ok(())
}

/// How many operations the stream accepts, which are those of its closure.
fn count_accepted(rt: &impl Abort, alloc: Global, stream: &[Op]) -> Result<usize, Fail> {
    let mut plain = Plain::new(alloc);
    let mut closed = PlainReplica::new(alloc);
    plain.take_all(alloc, stream)?;
    close(alloc, &mut closed, stream)?;
    let ops = plain.accepted.ops();
    let is_same_set = ops.len() == closed.ops().len()
        && ops.iter().all(|op| closed.ops().contains(op));
    holds_at(rt, &stream, is_same_set);
    Ok(ops.len())
}

#[test]
fn every_small_stream_accepts_its_closure(rt: HostRuntime) -> Result<(), Fail> {
    let mut accepted: usize = 0;
    for (length, streams) in [(0, 1), (1, 9), (2, 81), (3, 729), (4, 6_561), (5, 59_049)] {
        for digits in 0..streams {
            let mut stream = Vec::new(rt.alloc());
            let mut rest: usize = digits;
            for _ in 0..length {
                stream.push(op(&rt, rt.alloc(), POOL[rest % POOL.len()])?)?;
                rest /= POOL.len();
            }
            let count = count_accepted(&rt, rt.alloc(), stream.as_slice())?;
            accepted = accepted.saturating_add(count);
        }
    }
    // Counted by another program, which knows sets alone.
    equal(&rt, accepted, 55_701);
    Ok(())
}
