//! What a replica takes in, refuses and shows.

ghost use Rattle.std.specs.Prelude.{◌<◌, IsTrue};
ghost use Rattle.replica_core.specs.Answering.{StaysBelow};

use crate::assertions::{equal, equal_at, holds_at};
use crate::op_lines::Line::{Delete, Note, Text};
use crate::op_lines::{A, B, D, Line, NONE, SECTION, T, X, Y, op};
use crate::plain::{Plain, printed};
use fugue_ids::{NoMemory, Op};
use op_runs::OpSlice;
use outer_ports::MemSink;
use replica_core::{DeliverFault, Replica, Settled, Taken, Tally};
use std::alloc::Global;
use std::process::Abort;
use std::test::Fail;

const LIMIT: u32 = 2_147_483_648;

pub fn has_room(tally: &Tally) -> bool
    ensures { IsTrue result → StaysBelow tally.now }
{
    tally.accepted < LIMIT
        && tally.repeated < LIMIT
        && tally.conflict < LIMIT
        && tally.stray < LIMIT
        && tally.full < LIMIT
}

pub fn feed_one(
    rt: &impl Abort,
    replica: &mut Replica,
    op: Op,
    tally: &mut Tally,
) -> Result<(), Fail> {
    assert!(rt; replica.is_settled() && has_room(tally));
    replica.feed(op, tally)?;
    Ok(())
}

pub fn counts(accepted: u32, conflict: u32, stray: u32, full: u32) -> Tally {
    Tally {
        accepted,
        repeated: 0,
        conflict,
        stray,
        full,
    }
}

/// The manuscript that is shown, the counts, and how many wait.
#[derive(Clone, Copy)]
pub struct Shown {
    pub text: &'static str,
    pub counts: Tally,
    pub waiting: usize,
}

/// Whether this manuscript is written.
pub fn writes(alloc: Global, replica: &Replica, text: &[u8]) -> Result<bool, Fail> {
    let mut written = MemSink::new(alloc, 100, Vec::new(alloc));
    replica.write_manuscript(&mut written)?;
    Ok(written.written() == text)
}

/// Whether a plain replica accepts what another one accepted, and its manuscript is written.
pub fn writes_as_plain(alloc: Global, replica: &Replica, other: &Replica) -> Result<bool, Fail> {
    let ops = accepted_by(alloc, other)?;
    let mut plain = Plain::new(alloc);
    plain.take_all(alloc, &ops)?;
    let wanted = printed(alloc, &plain.accepted)?;
    Ok(plain.waiting.is_empty() && writes(alloc, replica, &wanted)?)
}

/// Copies of the operations of a slice.
pub fn copies_of(alloc: Global, ops: OpSlice<'_>) -> Result<Vec<Op>, NoMemory> {
    let mut copies = Vec::new(alloc);
    let mut rest = ops;
    for _ in 0..u64::MAX {
        match rest.next_op() {
            Some(op) => copies.push(op.copy_in(alloc)?)?,
            None => break,
        }
    }
    Ok(copies)
}

/// Copies of the operations that a replica accepted.
pub fn accepted_by(alloc: Global, replica: &Replica) -> Result<Vec<Op>, NoMemory> {
    copies_of(alloc, replica.accepted())
}

/// Feeds the operations of the lines.
pub fn feed_lines(
    rt: &impl Abort,
    alloc: Global,
    replica: &mut Replica,
    lines: &[Line],
    tally: &mut Tally,
) -> Result<(), Fail> {
    for line in lines {
        feed_one(rt, replica, op(rt, alloc, *line)?, tally)?;
    }
    Ok(())
}

/// Feeds copies of the operations.
pub fn feed_ops(
    rt: &impl Abort,
    alloc: Global,
    replica: &mut Replica,
    ops: &[Op],
) -> Result<(), Fail> {
    let mut tally = Tally::default();
    for op in ops {
        feed_one(rt, replica, op.clone_in(alloc)?, &mut tally)?;
    }
    Ok(())
}

/// Feeds copies of what another replica accepted.
pub fn feed_accepted(
    rt: &impl Abort,
    alloc: Global,
    replica: &mut Replica,
    other: &Replica,
) -> Result<(), Fail> {
    let ops = accepted_by(alloc, other)?;
    feed_ops(rt, alloc, replica, &ops)
}

/// Feeds the operations to a new replica, and looks at what it shows.
pub fn shows(
    rt: &impl Abort,
    alloc: Global,
    replica: &mut Replica,
    lines: &[Line],
    want: &Shown,
) -> Result<(), Fail> {
    let mut tally = Tally::default();
    feed_lines(rt, alloc, replica, lines, &mut tally)?;
    holds_at(rt, &lines, writes(alloc, replica, want.text.as_bytes())?);
    equal_at(rt, &lines, tally, want.counts);
    equal_at(rt, &lines, replica.waiting().len(), want.waiting);
    let accepted = replica.accepted().len();
    equal_at(rt, &lines, accepted, want.counts.accepted as usize);
    Ok(())
}

const FIRST: Line = Text((1, 0), SECTION, NONE, NONE, 'a');

const SECOND: Line = Text((1, 1), SECTION, (1, 0), NONE, 'b');

/// A text whose section is named where only a text is.
const MISFIT: Line = Text((2, 0), (1, 0), NONE, NONE, 'x');

const NOTE: Line = Note((5, 0), &[(1, 0)], "n");

/// A text whose section is named where only a note is.
const IN_A_NOTE: Line = Text((2, 0), (5, 0), NONE, NONE, 'x');

#[test]
fn what_is_taken_is_shown_and_what_is_not_is_counted(rt: HostRuntime) -> Result<(), Fail> {
    let table: [(u32, &[Line], &'static str, Tally, usize); 7] = [
        (
            5,
            &[Y, X, D, A, B, T],
            "# T\nAXYDB\n",
            counts(6, 0, 0, 0),
            0,
        ),
        (
            1,
            &[FIRST, SECOND, T, SECOND],
            "# T\nab\n",
            counts(3, 0, 0, 1),
            0,
        ),
        (
            1,
            &[T, FIRST, Text((1, 0), SECTION, NONE, NONE, 'z')],
            "# T\na\n",
            counts(2, 1, 0, 0),
            0,
        ),
        (1, &[T, FIRST, MISFIT], "# T\na\n", counts(2, 0, 1, 0), 0),
        (2, &[MISFIT, T, FIRST], "# T\na\n", counts(2, 0, 1, 0), 0),
        (1, &[T, SECOND], "# T\n\n", counts(1, 0, 0, 0), 1),
        (
            1,
            &[NOTE, T, FIRST, Delete((5, 0)), IN_A_NOTE],
            "# T\na\n",
            counts(4, 0, 1, 0),
            0,
        ),
    ];
    for (hold, lines, text, counts, waiting) in table {
        let want = Shown {
            text,
            counts,
            waiting,
        };
        let mut replica = Replica::new(rt.alloc(), 7, hold, 100)?;
        let done = shows(&rt, rt.alloc(), &mut replica, lines, &want);
        drop(replica);
        done?;
    }
    Ok(())
}

fn deliver_in_turn(rt: &impl Abort, alloc: Global, replica: &mut Replica) -> Result<(), Fail> {
    equal(rt, (replica.number(), replica.hold()), (7, 1));
    for (line, want, then) in [
        (FIRST, Taken::Waits, "nothing"),
        (T, Taken::Accepted, "accepted"),
        (FIRST, Taken::Again, "nothing"),
        (Delete((1, 0)), Taken::Accepted, "nothing"),
    ] {
        assert!(rt; replica.is_settled());
        let taken = replica.deliver(op(rt, alloc, line)?).ok();
        let settled = match replica.settle_one()? {
            Some(Settled::Accepted(_op)) => "accepted",
            Some(Settled::DroppedStray(_op)) => "dropped",
            None => "nothing",
        };
        equal_at(rt, &line, (taken, settled), (Some(want), then));
    }
    assert!(rt; replica.is_settled());
    let most = match replica.deliver(op(rt, alloc, SECOND)?) {
        Err(DeliverFault::TooMany(_op, most)) => Some(most),
        Err(_fault) => None,
        Ok(_taken) => None,
    };
    equal(rt, most, Some(3));
    Ok(())
}

#[test]
fn a_delivery_waits_to_be_settled(rt: HostRuntime) -> Result<(), Fail> {
    let mut replica = Replica::new(rt.alloc(), 7, 1, 3)?;
    let done = deliver_in_turn(&rt, rt.alloc(), &mut replica);
    drop(replica);
    done
}
