//! The comments of the visible sections in lines, which are gathered and go out by whole arrays.
ghost use Rattle.std.specs.Prelude.{◌≡◌, ◌++◌, ◌∷◌, List, [], ℕ, decimal, flat_map};
ghost use Rattle.fugue_ids.specs.Gathers.{GathersText};
ghost use Rattle.fugue_ids.specs.Outs.{OutView, WritesBytes};
ghost use Rattle.origin_model.specs.edits.State.{IsSound};
ghost use Rattle.origin_model.specs.operations.History.{accepted as accepted_list};
ghost use Rattle.margin_notes.specs.Listing.{WritesMargins, entry_bytes};
ghost use Rattle.margin_notes.specs.Margins.{margins};

use crate::listing::{Entry, listed_entries};
use crate::reading::body_at;
use fugue_ids::{Failed, Gather, NoMemory, Out};
use itoa::Buffer;
use outer_ports::Sink;
use replica_core::Replica;
use std::alloc::Global;

/// Why the comments were not written whole.
#[derive(Clone, Copy, Debug)]
pub enum MarginFault {
    /// The output failed, and its count of faults rose. A prefix of the lines is written.
    SinkFault,
    /// Nothing is written.
    NoMemory,
}

impl From<NoMemory> for MarginFault {
    ghost use Rattle.std.specs.Prelude.{◌≡◌};
    ghost use Rattle.margin_notes.specs.declared.printing.MarginFault.TheVariants.{NoMemory as no_memory};

    ghost from_gives = { λ _ e. e ≡ no_memory };

    fn from(_e: NoMemory) -> MarginFault {
        MarginFault::NoMemory
    }
}

/// Puts the line of an entry.
fn put_line<O: Out>(
    gather: &mut Gather,
    output: &mut O,
    replica: &Replica,
    entry: &Entry,
) -> Result<(), Failed>
    ensures { GathersText (O.seen output.old) (O.seen output.new) gather.old gather.new result
        (entry_bytes (accepted_list replica.now.held.history) entry.now) }
{
    let mut number = Buffer::new();
    let mut from = Buffer::new();
    let mut to = Buffer::new();
    let number = number.format(entry.number).as_bytes();
    let from = from.format(entry.from).as_bytes();
    let to = to.format(entry.to).as_bytes();
    let text = body_at(replica, entry.at);
    gather.put_pieces(output, &[number, b" ", from, b" ", to, b" ", text, b"\n"])
}

/// Puts the lines of entries.
fn put_lines<O: Out>(
    gather: &mut Gather,
    output: &mut O,
    replica: &Replica,
    entries: &[Entry],
) -> Result<(), Failed>
    ensures { GathersText (O.seen output.old) (O.seen output.new) gather.old gather.new result
        (flat_map (entry_bytes (accepted_list replica.now.held.history)) entries.now) }
{
    'entries: for entry in entries {
        put_line(gather, output, replica, entry)?;
    }
    Ok(())
}

/// Writes the lines of entries. It takes no memory.
fn write_lines<O: Out>(output: &mut O, replica: &Replica, entries: &[Entry]) -> Result<(), Failed>
    ensures { WritesBytes (O.seen output.old) (O.seen output.new) result
        (flat_map (entry_bytes (accepted_list replica.now.held.history)) entries.now) }
{
    let mut gather = Gather::new();
    put_lines(&mut gather, output, replica, entries)?;
    gather.flush(output)
}

fn or_sink_fault(written: Result<(), Failed>) -> Result<(), MarginFault>
    ensures { (old new : OutView) (text : List ℕ) → WritesBytes old new written text → WritesMargins old new result text }
{
    match written {
        Ok(()) => Ok(()),
        Err(_) => Err(MarginFault::SinkFault),
    }
}

/// Writes a line for each comment of the visible sections that is not withdrawn, by section and then by identifier: the
/// number of the section, a space, the two ends of the span, with a space after each, the text and LF. What takes memory
/// is done before the first byte goes out.
pub fn write_comments<O: Sink>(
    alloc: Global,
    replica: &Replica,
    output: &mut O,
) -> Result<(), MarginFault>
    ensures text { WritesMargins (O.seen output.old) (O.seen output.new) result (margins replica.now.held.history) }
    ensures sound { IsSound replica.now }
{
    let entries = listed_entries(alloc, replica)?;
    or_sink_fault(write_lines(output, replica, entries.as_slice()))
}
