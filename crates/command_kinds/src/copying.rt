//! Taking in copies of the operations of a list, those that stand next to each other at once.
ghost use Rattle.std.specs.Prelude.{◌≡◌, ◌<◌, ◌≤◌, ◌+◌, ◌^◌, ◌∷◌, [], length, IfErr, OnOk};
ghost use Rattle.op_runs.specs.Deletions.{CountersFit, deletes_by, deletes_down};
ghost use Rattle.op_runs.specs.Slices.{HasCounters, stretch_ops};
ghost use Rattle.origin_model.specs.taking.Taking.{IsSettled, kept_from};
ghost use Rattle.replica_core.specs.Feeding.{TakesInAll};
ghost use Rattle.replica_core.specs.Answering.{total};
ghost use Rattle.command_kinds.specs.Intake.{FeedsNotAll, copies_of_kept};

use crate::kept::Kept;
use fugue_ids::{ElementId, Op, read_text};
use op_frame::NextOps;
use op_runs::{Deletes, OpSlice, Stretch};
use origin_model::Tally;
use replica_core::{FeedFault, Replica};
use std::alloc::Global;

/// Takes copies of all the operations in, one after another, and copies once more what is kept.
pub(crate) fn take_copies(
    alloc: Global,
    replica: &mut Replica,
    ops: OpSlice<'_>,
    tally: &mut Tally,
    kept: &mut Kept,
) -> Result<(), FeedFault>
    requires settled { IsSettled replica.old.held }
    requires counts_rise { total tally.old + length replica.old.held.waiting + length ops ≤ 2 ^ 31 }
    ensures ok { OnOk result (TakesInAll replica.old replica.new ops.entry tally.old tally.new) }
    ensures kept { OnOk result (kept.new
        ≡ copies_of_kept kept.old (kept_from replica.old.hold replica.old.most replica.old.held ops.entry)) }
    ensures err { IfErr result (λ fault. FeedsNotAll fault replica.old ops.entry) }
{
    let mut rest = ops;
    'stretches: while let Some(stretch) = rest.next_stretch() {
        take_stretch(alloc, replica, &stretch, tally, kept)?;
    }
    Ok(())
}

/// Takes copies of operations in that stand next to each other.
fn take_stretch(
    alloc: Global,
    replica: &mut Replica,
    stretch: &Stretch<'_>,
    tally: &mut Tally,
    kept: &mut Kept,
) -> Result<(), FeedFault>
    requires settled { IsSettled replica.old.held }
    requires counters { HasCounters stretch.now }
    requires counts_rise { total tally.old + length replica.old.held.waiting + length (stretch_ops stretch.now) ≤ 2 ^ 31 }
    ensures ok { OnOk result (TakesInAll replica.old replica.new (stretch_ops stretch.now) tally.old tally.new) }
    ensures kept { OnOk result (kept.new
        ≡ copies_of_kept kept.old (kept_from replica.old.hold replica.old.most replica.old.held (stretch_ops stretch.now))) }
    ensures err { IfErr result (λ fault. FeedsNotAll fault replica.old (stretch_ops stretch.now)) }
{
    match stretch {
        Stretch::Typed(start, text) => kept.feed_next(replica, NextOps::Run(*start), text, tally),
        Stretch::Deleted(deletes) => take_deletes(replica, deletes, tally, kept),
        Stretch::Single(op) => take_one(alloc, replica, op, tally, kept),
    }
}

fn take_one(
    alloc: Global,
    replica: &mut Replica,
    op: &Op,
    tally: &mut Tally,
    kept: &mut Kept,
) -> Result<(), FeedFault>
    requires settled { IsSettled replica.old.held }
    requires counts_rise { total tally.old + length replica.old.held.waiting + 1 ≤ 2 ^ 31 }
    ensures ok { OnOk result (TakesInAll replica.old replica.new (op.now ∷ []) tally.old tally.new) }
    ensures kept { OnOk result (kept.new
        ≡ copies_of_kept kept.old (kept_from replica.old.hold replica.old.most replica.old.held (op.now ∷ []))) }
    ensures err { IfErr result (λ fault. FeedsNotAll fault replica.old (op.now ∷ [])) }
{
    if let Some((start, ch)) = read_text(op) {
        return kept.feed_next(replica, NextOps::Run(start), &[ch], tally);
    }
    if let Op::Delete { target } = op {
        // Reading the counter lets the prover know that it fits in 32 bits.
        let _counter = target.counter;
        return kept.feed_deletes(replica, *target, 1, tally);
    }
    let copy = op.clone_in(alloc)?;
    kept.feed_next(replica, NextOps::Single(copy), &[], tally)
}

/// Takes Deletes of neighbours in: forwards by one call, backwards one by one.
fn take_deletes(
    replica: &mut Replica,
    deletes: &Deletes,
    tally: &mut Tally,
    kept: &mut Kept,
) -> Result<(), FeedFault>
    requires settled { IsSettled replica.old.held }
    requires counters { CountersFit deletes.now.down deletes.now.target deletes.now.count }
    requires counts_rise { total tally.old + length replica.old.held.waiting + deletes.now.count ≤ 2 ^ 31 }
    ensures ok { OnOk result
        (TakesInAll replica.old replica.new (deletes_by deletes.now.down deletes.now.target deletes.now.count) tally.old tally.new) }
    ensures kept { OnOk result (kept.new
        ≡ copies_of_kept kept.old (kept_from replica.old.hold replica.old.most replica.old.held (deletes_by deletes.now.down deletes.now.target deletes.now.count))) }
    ensures err { IfErr result (λ fault. FeedsNotAll fault replica.old (deletes_by deletes.now.down deletes.now.target deletes.now.count)) }
{
    if deletes.down {
        take_backwards(replica, deletes.target, deletes.count, tally, kept)
    } else {
        kept.feed_deletes(replica, deletes.target, deletes.count, tally)
    }
}

fn take_backwards(
    replica: &mut Replica,
    target: ElementId,
    count: u32,
    tally: &mut Tally,
    kept: &mut Kept,
) -> Result<(), FeedFault>
    requires settled { IsSettled replica.old.held }
    requires counters { count ≤ target.counter + 1 }
    requires counts_rise { total tally.old + length replica.old.held.waiting + count ≤ 2 ^ 31 }
    ensures ok { OnOk result (TakesInAll replica.old replica.new (deletes_down target count) tally.old tally.new) }
    ensures kept { OnOk result (kept.new
        ≡ copies_of_kept kept.old (kept_from replica.old.hold replica.old.most replica.old.held (deletes_down target count))) }
    ensures err { IfErr result (λ fault. FeedsNotAll fault replica.old (deletes_down target count)) }
{
    let deletes = Deletes {
        target,
        count,
        down: true,
    };
    for offset in 0..count as usize {
        kept.feed_deletes(replica, deletes.nth(offset), 1, tally)?;
    }
    Ok(())
}
