//! The replica beside the plain one, on one pool of operations in many orders.

use crate::assertions::holds_at;
use crate::op_lines::Line::{Delete, Note, Section, Text};
use crate::op_lines::{Line, NONE, SECTION, op};
use crate::plain::{Plain, printed};
use crate::replicas::{accepted_by, has_room, writes};
use fugue_ids::Op;
use replica_core::{Replica, Tally};
use std::alloc::Global;
use std::process::Abort;
use std::test::Fail;

/// Sections, texts with origins of editors and others, Deletes, notes, and what is refused or waits for good.
///
/// How many they are is prime, so that each step comes to all of them.
pub const POOL: &[Line] = &[
    Section(SECTION, NONE, NONE, "T"),
    Section((9, 1), SECTION, NONE, "T"),
    Text((1, 0), SECTION, NONE, NONE, 'a'),
    Text((1, 1), SECTION, (1, 0), NONE, 'b'),
    Text((2, 0), SECTION, NONE, (1, 0), 'c'),
    // Its right origin stands before its left one.
    Text((2, 1), SECTION, (1, 1), (2, 0), 'd'),
    Delete((1, 0)),
    Text((2, 2), SECTION, (1, 0), (1, 1), 'e'),
    Text((3, 0), (9, 1), NONE, NONE, 'f'),
    Delete((9, 1)),
    Text((3, 1), (9, 1), (3, 0), NONE, 'g'),
    // Another record of one identifier.
    Text((1, 1), SECTION, NONE, NONE, 'z'),
    // Its section is a text.
    Text((4, 0), (1, 0), NONE, NONE, 'x'),
    // It names itself.
    Text((4, 1), SECTION, (4, 1), NONE, 'y'),
    Text((4, 2), SECTION, (4, 0), NONE, 'w'),
    Delete((4, 1)),
    Delete((9, 1)),
    Note((5, 0), &[(1, 0)], "n"),
    Note((5, 0), &[(1, 0)], "n"),
    Note((5, 1), &[(5, 0), (9, 1)], "m"),
    // Another record of one identifier, which waits for good.
    Note((5, 1), &[(1, 5)], "m"),
    Delete((5, 0)),
    // Its section is a note.
    Text((4, 3), (5, 0), NONE, NONE, 'v'),
];

/// One more operation for both, which then show the same. The replica keeps a copy of it where the plain one takes it in.
pub fn step_beside(
    rt: &impl Abort,
    alloc: Global,
    replica: &mut Replica,
    plain: &mut Plain,
    op: &Op,
) -> Result<(), Fail> {
    let mut tally = Tally::default();
    assert!(rt; replica.is_settled() && has_room(&tally));
    let mut kept: Vec<Op> = Vec::new(alloc);
    replica.feed_keeping(op.clone_in(alloc)?, &mut tally, &mut kept)?;
    let is_kept = plain.take_in(alloc, op)?;
    let is_same = match kept.as_slice() {
        [] => !is_kept,
        [only] => is_kept && *only == *op,
        _ => false,
    };
    holds_at(rt, op, is_same && is_beside(alloc, replica, plain)?);
    Ok(())
}

pub fn is_beside(alloc: Global, replica: &Replica, plain: &Plain) -> Result<bool, Fail> {
    let accepted = accepted_by(alloc, replica)?;
    let is_held = accepted.as_slice() == plain.accepted.ops()
        && replica.waiting() == plain.waiting.as_slice();
    let wanted = printed(alloc, &plain.accepted)?;
    Ok(is_held && writes(alloc, replica, &wanted)?)
}

/// Feeds the pool to both, each operation `step` after the one before, and compares them after each.
pub fn keep_beside(
    rt: &impl Abort,
    alloc: Global,
    replica: &mut Replica,
    plain: &mut Plain,
    first: usize,
    step: usize,
) -> Result<(), Fail> {
    for turn in 0..POOL.len() {
        let number = first.saturating_add(turn.saturating_mul(step)) % POOL.len();
        let op = op(rt, alloc, POOL[number])?;
        step_beside(rt, alloc, replica, plain, &op)?;
    }
    Ok(())
}

#[test]
fn a_replica_keeps_beside_the_plain_one(rt: HostRuntime) -> Result<(), Fail> {
    for first in 0..POOL.len() {
        for step in 1..POOL.len() {
            let mut replica = Replica::new(rt.alloc(), 7, 100, 100)?;
            let mut plain = Plain::new(rt.alloc());
            let done = keep_beside(&rt, rt.alloc(), &mut replica, &mut plain, first, step);
            drop(replica);
            done?;
        }
    }
    Ok(())
}
