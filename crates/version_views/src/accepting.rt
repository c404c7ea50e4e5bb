//! Accepting the operations of a list, each of which is Ready in its turn, by a replica at which nothing waits.
ghost use Rattle.std.specs.Prelude.{◌≡◌, ◌<◌, ◌≤◌, ◌+◌, ◌^◌, ◌∷◌, [], IfOk, OnOk, length, min, take};
ghost use Rattle.fugue_ids.specs.Runs.{run_from};
ghost use Rattle.op_runs.specs.Deletions.{CountersFit, deletes_by, deletes_up};
ghost use Rattle.op_runs.specs.Slices.{HasCounters, stretch_ops};
ghost use Rattle.origin_model.specs.edits.Effect.{with_ops};
ghost use Rattle.origin_model.specs.edits.State.{IsSound};
ghost use Rattle.version_views.specs.Accepting.{CanAccept};

use fugue_ids::{ElementId, NoMemory, Op, RunStart};
use op_runs::{Deletes, OpSlice, Stretch};
use origin_model::Tally;
use replica_core::Replica;
use std::alloc::Global;

fn accept(front: &mut Replica, op: Op) -> Result<(), NoMemory>
    requires { CanAccept front.old (op ∷ []) }
    ensures ok { OnOk result (front.new ≡ with_ops front.old (op ∷ [])) }
    ensures sound { OnOk result (IsSound front.new) }
{
    match front.deliver(op) {
        Ok(_) => Ok(()),
        Err(_) => Err(NoMemory),
    }
}

/// Accepts Texts that were typed in a row.
fn accept_run(front: &mut Replica, start: &RunStart, text: &[char]) -> Result<(), NoMemory>
    requires counters { start.now.id.counter + length text.now ≤ 2 ^ 32 }
    requires can { CanAccept front.old (run_from start.now text.now) }
    ensures ok { OnOk result (front.new ≡ with_ops front.old (run_from start.now text.now)) }
    ensures sound { OnOk result (IsSound front.new) }
{
    let mut tally = Tally::default();
    match front.feed_run(start, text, &mut tally) {
        Ok(()) => Ok(()),
        Err(_) => Err(NoMemory),
    }
}

/// Accepts Deletes of elements whose identifiers follow one another.
fn accept_row(front: &mut Replica, first: ElementId, count: u32) -> Result<(), NoMemory>
    requires counters { first.counter + count ≤ 2 ^ 32 }
    requires can { CanAccept front.old (deletes_up first count) }
    ensures ok { OnOk result (front.new ≡ with_ops front.old (deletes_up first count)) }
    ensures sound { OnOk result (IsSound front.new) }
{
    let mut tally = Tally::default();
    match front.feed_deletes(first, count, &mut tally) {
        Ok(()) => Ok(()),
        Err(_) => Err(NoMemory),
    }
}

/// Accepts the first so many of some Deletes.
fn accept_deletes(front: &mut Replica, deletes: &Deletes, count: u32) -> Result<(), NoMemory>
    requires counters { CountersFit deletes.now.down deletes.now.target deletes.now.count }
    requires within { count ≤ deletes.now.count }
    requires can { CanAccept front.old (deletes_by deletes.now.down deletes.now.target count) }
    ensures ok { OnOk result (front.new
        ≡ with_ops front.old (deletes_by deletes.now.down deletes.now.target count)) }
    ensures sound { OnOk result (IsSound front.new) }
{
    if !deletes.down {
        return accept_row(front, deletes.target, count);
    }
    let mut done = 0;
    'deletes: while done < count {
        let target = deletes.nth(done as usize);
        accept(front, Op::Delete { target })?;
        done += 1;
    }
    Ok(())
}

/// Accepts copies of the first so many operations of a stretch, or of all. Returns how many.
fn accept_some(
    alloc: Global,
    front: &mut Replica,
    stretch: &Stretch<'_>,
    most: usize,
) -> Result<usize, NoMemory>
    requires some { 0 < most }
    requires counters { HasCounters stretch.now }
    requires can { CanAccept front.old (take most (stretch_ops stretch.now)) }
    ensures count { IfOk result (λ count. count ≡ min (length (stretch_ops stretch.now)) most) }
    ensures ok { OnOk result (front.new ≡ with_ops front.old (take most (stretch_ops stretch.now))) }
    ensures sound { OnOk result (IsSound front.new) }
{
    match stretch {
        Stretch::Typed(start, text) => {
            let count = text.len().min(most);
            accept_run(front, start, &text[..count])?;
            Ok(count)
        }
        Stretch::Deleted(deletes) => {
            let count = (deletes.count as usize).min(most);
            accept_deletes(front, deletes, count as u32)?;
            Ok(count)
        }
        Stretch::Single(op) => {
            accept(front, op.clone_in(alloc)?)?;
            Ok(1)
        }
    }
}

/// Accepts copies of the first so many operations, in order.
pub(crate) fn accept_all(
    alloc: Global,
    front: &mut Replica,
    ops: OpSlice<'_>,
    count: usize,
) -> Result<(), NoMemory>
    requires { CanAccept front.old (take count ops) }
    ensures ok { OnOk result (front.new ≡ with_ops front.old (take count ops.entry)) }
    ensures sound { OnOk result (IsSound front.new) }
{
    let mut rest = ops;
    let mut left = count;
    'stretches: while left > 0 {
        let Some(stretch) = rest.next_stretch() else {
            return Ok(());
        };
        left -= accept_some(alloc, front, &stretch, left)?;
    }
    Ok(())
}
