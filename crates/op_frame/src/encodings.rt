//! Encodes a slice of operations, as many as possible in each frame; a failure appends nothing.
ghost use Rattle.std.specs.Prelude.{◌≡◌, ◌<◌, ◌++◌, All, OnOk, OnErr};
ghost use Rattle.origin_model.specs.frames.Frames.{HasFrame};
ghost use Rattle.origin_model.specs.frames.Framings.{frames};
ghost use Rattle.op_runs.specs.Deletions.{CountersFit, deletes_by};
ghost use Rattle.op_runs.specs.Slices.{HasCounters, stretch_ops};
ghost use Rattle.op_frame.specs.OpenRuns.{Extends, OpenRunFits, TakesInOps, open_ops};

use crate::encoding::encode;
use crate::open_run::OpenRun;
use fugue_ids::{NoMemory, Op};
use op_runs::{Deletes, OpSlice, Stretch};

/// Appends the operations' frames: each from the front stands for as many operations as one can.
pub fn encode_all(ops: OpSlice<'_>, out: &mut Vec<u8>) -> Result<(), NoMemory>
    ensures have_frames { OnOk result (All HasFrame ops.entry) }
    ensures ok { OnOk result (out.new.items ≡ out.old.items ++ frames ops.entry) }
    ensures err { OnErr result (out.new.items ≡ out.old.items) }
{
    let len = out.len();
    match encode_stretches(ops, out) {
        Ok(()) => Ok(()),
        Err(fault) => {
            out.truncate(len);
            Err(fault)
        }
    }
}

/// The same, but a fault leaves the frames before it.
fn encode_stretches(ops: OpSlice<'_>, out: &mut Vec<u8>) -> Result<(), NoMemory>
    ensures have_frames { OnOk result (All HasFrame ops.entry) }
    ensures ok { OnOk result (out.new.items ≡ out.old.items ++ frames ops.entry) }
    ensures err { OnErr result (Extends out.old.items out.new.items) }
{
    let mut rest = ops;
    let mut run = OpenRun::new(*out.allocator());
    'stretches: while let Some(stretch) = rest.next_stretch() {
        take_stretch(&mut run, &stretch, out)?;
    }
    run.close(out)
}

/// Takes operations that stand next to each other in, and writes those frames that can have no more of them.
fn take_stretch(run: &mut OpenRun, stretch: &Stretch<'_>, out: &mut Vec<u8>) -> Result<(), NoMemory>
    requires is_open { OpenRunFits run.old.start run.old.text.items }
    requires counters { HasCounters stretch.now }
    ensures is_open { OnOk result (OpenRunFits run.new.start run.new.text.items) }
    ensures takes { OnOk result (TakesInOps (open_ops run.old.start run.old.text.items) (open_ops run.new.start run.new.text.items) out.old.items out.new.items (stretch_ops stretch.now)) }
    ensures err { OnErr result (Extends out.old.items out.new.items) }
{
    match stretch {
        Stretch::Typed(start, text) => run.take_texts(*start, text, out),
        Stretch::Deleted(deletes) => take_deletes(run, deletes, out),
        Stretch::Single(op) => run.take_one(op, out),
    }
}

fn take_deletes(run: &mut OpenRun, deletes: &Deletes, out: &mut Vec<u8>) -> Result<(), NoMemory>
    requires is_open { OpenRunFits run.old.start run.old.text.items }
    requires some { 0 < deletes.now.count }
    requires counters { CountersFit deletes.now.down deletes.now.target deletes.now.count }
    ensures is_open { OnOk result (OpenRunFits run.new.start run.new.text.items) }
    ensures takes { OnOk result (TakesInOps (open_ops run.old.start run.old.text.items) (open_ops run.new.start run.new.text.items) out.old.items out.new.items
        (deletes_by deletes.now.down deletes.now.target deletes.now.count)) }
    ensures err { OnErr result (Extends out.old.items out.new.items) }
{
    run.close(out)?;
    encode_deletes(deletes, out)?;
    Ok(())
}

/// Appends the frames of Deletes of neighbours. A fault leaves those before it.
fn encode_deletes(deletes: &Deletes, out: &mut Vec<u8>) -> Result<(), NoMemory>
    requires counters { CountersFit deletes.now.down deletes.now.target deletes.now.count }
    ensures have_frames { OnOk result (All HasFrame (deletes_by deletes.now.down deletes.now.target deletes.now.count)) }
    ensures ok { OnOk result (out.new.items ≡ out.old.items ++ frames (deletes_by deletes.now.down deletes.now.target deletes.now.count)) }
    ensures err { OnErr result (Extends out.old.items out.new.items) }
{
    let count = deletes.count as usize;
    for offset in 0..count {
        let target = deletes.nth(offset);
        encode(&Op::Delete { target }, out)?;
    }
    Ok(())
}
