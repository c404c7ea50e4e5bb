//! The versions of a file in lines, which are gathered and go out by whole arrays.
ghost use Rattle.std.specs.Prelude.{◌≡◌};
ghost use Rattle.fugue_ids.specs.Gathers.{GathersText};
ghost use Rattle.fugue_ids.specs.Outs.{WritesBytes};
ghost use Rattle.origin_model.specs.edits.State.{IsSound};
ghost use Rattle.version_views.specs.Views.{line_at, version_line, versions_text};

use crate::listing::name_at;
use fugue_ids::{Failed, Gather, Out};
use itoa::Buffer;
use outer_ports::Sink;
use replica_core::Replica;

fn put_line<O: Out>(
    gather: &mut Gather,
    output: &mut O,
    count: usize,
    name: &[u8],
) -> Result<(), Failed>
    ensures { GathersText (O.seen output.old) (O.seen output.new) gather.old gather.new result
        (version_line (record { name = name.now; count = count })) }
{
    let mut number = Buffer::new();
    let digits = number.format(count);
    gather.put_pieces(output, &[digits.as_bytes(), b" ", name, b"\n"])
}

/// Puts the line of the operation with so many before it, where that is a version.
fn put_version<O: Out>(
    gather: &mut Gather,
    output: &mut O,
    replica: &Replica,
    count: usize,
) -> Result<(), Failed>
    ensures { GathersText (O.seen output.old) (O.seen output.new) gather.old gather.new result
        (line_at replica.now.number replica.now.held.history count) }
{
    match name_at(replica, count) {
        Some(name) => put_line(gather, output, count, name),
        None => Ok(()),
    }
}

fn put_versions<O: Out>(
    gather: &mut Gather,
    output: &mut O,
    replica: &Replica,
) -> Result<(), Failed>
    ensures text { GathersText (O.seen output.old) (O.seen output.new) gather.old gather.new result
        (versions_text replica.now.held.history replica.now.number) }
    ensures sound { IsSound replica.now }
{
    'walk: for count in replica.sections_and_notes() {
        put_version(gather, output, replica, *count)?;
    }
    Ok(())
}

/// Writes a line for each version of the replica's file, in the order in which they were named: how many operations it
/// has, a space, its name and LF. The lines go out by whole arrays, and after a failure a front of them is written. It
/// takes no memory.
pub fn write_versions<O: Sink>(replica: &Replica, output: &mut O) -> Result<(), Failed>
    ensures text { WritesBytes (O.seen output.old) (O.seen output.new) result
        (versions_text replica.now.held.history replica.now.number) }
    ensures sound { IsSound replica.now }
{
    let mut gather = Gather::new();
    put_versions(&mut gather, output, replica)?;
    gather.flush(output)
}
