//! The command `bulk`: generates a large manuscript from a seed and prints its summary.
ghost use Rattle.bulk_world.specs.Summary.{bulk_text};
ghost use Rattle.manuscript_cli.specs.Alone.{WritesAlone};
ghost use Rattle.command_kinds.specs.TextOut.{GoesOut};
ghost use Rattle.command_kinds.specs.Changes.{change};

use bulk_world::{bulk as make_bulk, write_summary};
use command_kinds::{Refusal, Status, ended, gone_out};
use outer_ports::Sink;
use std::alloc::Global;

/// Makes the manuscript that a seed leads to in so many turns, and writes what is reported of it.
pub(crate) fn bulk<O: Sink, N: Sink>(
    alloc: Global,
    seed: u32,
    count: u32,
    output: &mut O,
    notes: &mut N,
) -> Status
    ensures { WritesAlone (bulk_text seed count) (change (O.seen output.old) (O.seen output.new))
        (change (N.seen notes.old) (N.seen notes.new)) result }
{
    ended(made(alloc, seed, count, output), notes)
}

fn made<O: Sink>(alloc: Global, seed: u32, count: u32, output: &mut O) -> Result<(), Refusal>
    ensures { GoesOut (bulk_text seed count) (change (O.seen output.old) (O.seen output.new)) result }
{
    let summary = make_bulk(alloc, seed, count)?;
    gone_out(write_summary(output, &summary))
}
