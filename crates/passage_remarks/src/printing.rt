//! The remarks written in lines, which are gathered and go out by whole arrays.
ghost use Rattle.std.specs.Prelude.{◌≡◌, All, map, reverse, slice_get};
ghost use Rattle.fugue_ids.specs.Gathers.{GathersText};
ghost use Rattle.fugue_ids.specs.Outs.{WritesBytes};
ghost use Rattle.origin_model.specs.edits.State.{IsSound};
ghost use Rattle.catalogue_notes.specs.Printing.{WritesText};
ghost use Rattle.cluster_text.specs.Clusters.{clusters};
ghost use Rattle.margin_notes.specs.Listing.{body_of};
ghost use Rattle.passage_remarks.specs.Clusters.{in_line, byte_in_line as spaced_byte};
ghost use Rattle.passage_remarks.specs.Listing.{IsRemarkPlaced, entry_remark, section_texts};
ghost use Rattle.passage_remarks.specs.Remarks.{head_line, quotation_line, place_text, remark_text, remarks};
ghost use Rattle.passage_remarks.specs.Remarks.{remarks_from, remarks_text, line_of_text};

use crate::entry::Entry;
use crate::listing::remark_entries;
use crate::page::Page;
use crate::pages::pages_of;
use catalogue_notes::{ArrangeFault, or_sink_fault, outline};
use fugue_ids::{Failed, Gather, Out};
use itoa::Buffer;
use margin_notes::body_at;
use outer_ports::Sink;
use replica_core::Replica;
use std::alloc::Global;

/// The byte in a line.
fn spaced(byte: u8) -> u8
    ensures { result ≡ spaced_byte byte }
{
    if byte == b'\n' { b' ' } else { byte }
}

/// Puts bytes in one line: each LF is a space.
fn put_in_line<O: Out>(gather: &mut Gather, output: &mut O, bytes: &[u8]) -> Result<(), Failed>
    ensures { GathersText (O.seen output.old) (O.seen output.new) gather.old gather.new result (in_line bytes.now) }
{
    'letters: for byte in bytes {
        gather.put(output, &[spaced(*byte)])?;
    }
    Ok(())
}

/// Puts the line that the passage of a remark has, where it has clusters.
fn put_passage<O: Out>(
    gather: &mut Gather,
    output: &mut O,
    count: usize,
    passage: &[u8],
) -> Result<(), Failed>
    ensures { GathersText (O.seen output.old) (O.seen output.new) gather.old gather.new result
        (quotation_line count passage.now) }
{
    if count == 0 {
        return gather.put(output, b"");
    }
    gather.put(output, b"  ")?;
    put_in_line(gather, output, passage)?;
    gather.put(output, b"\n")
}

/// Puts the number of a remark, and where its passage stands.
fn put_place<O: Out>(
    gather: &mut Gather,
    output: &mut O,
    number: usize,
    place: usize,
    first: usize,
    count: usize,
) -> Result<(), Failed>
    ensures { GathersText (O.seen output.old) (O.seen output.new) gather.old gather.new result
        (place_text number place first count) }
{
    let mut number_buffer = Buffer::new();
    let mut place_buffer = Buffer::new();
    let mut first_buffer = Buffer::new();
    let mut count_buffer = Buffer::new();
    let number = number_buffer.format(number).as_bytes();
    let place = place_buffer.format(place).as_bytes();
    let first = first_buffer.format(first).as_bytes();
    let count = count_buffer.format(count).as_bytes();
    gather.put_pieces(
        output,
        &[number, b": ", place, b" ", first, b" ", count, b" by "],
    )
}

/// Puts who made a comment, and what it says: its operation stands at the position.
fn put_text<O: Out>(
    gather: &mut Gather,
    output: &mut O,
    replica: &Replica,
    author: u32,
    at: usize,
) -> Result<(), Failed>
    ensures { GathersText (O.seen output.old) (O.seen output.new) gather.old gather.new result
        (line_of_text author (body_of (slice_get (reverse replica.now.held.history) at))) }
{
    let mut buffer = Buffer::new();
    let author = buffer.format(author).as_bytes();
    let text = body_at(replica, at);
    gather.put_pieces(output, &[author, b" ", text, b"\n"])
}

/// Puts the first line of a remark, whose passage begins at this cluster and has so many.
fn put_head<O: Out>(
    gather: &mut Gather,
    output: &mut O,
    replica: &Replica,
    number: usize,
    entry: &Entry,
    first: usize,
    count: usize,
) -> Result<(), Failed>
    ensures { GathersText (O.seen output.old) (O.seen output.new) gather.old gather.new result
        (head_line number (entry_remark (reverse replica.now.held.history) entry.now) first count) }
{
    put_place(gather, output, number, entry.place, first, count)?;
    put_text(gather, output, replica, entry.id.replica, entry.at)
}

/// Puts a remark on the text of its section.
fn put_remark<O: Out>(
    gather: &mut Gather,
    output: &mut O,
    replica: &Replica,
    page: &Page,
    number: usize,
    entry: &Entry,
) -> Result<(), Failed>
    ensures { GathersText (O.seen output.old) (O.seen output.new) gather.old gather.new result
        (remark_text (clusters page.now) number (entry_remark (reverse replica.now.held.history) entry.now)) }
{
    let first = page.first_cluster(entry.from);
    let count = page.cluster_count(entry.from, entry.to);
    put_head(gather, output, replica, number, entry, first, count)?;
    put_passage(gather, output, count, page.cluster_text(first, count))
}

/// Puts all remarks, where these are the texts of the arranged sections.
fn put_remarks<O: Out>(
    gather: &mut Gather,
    output: &mut O,
    replica: &Replica,
    pages: &[Page],
    entries: &[Entry],
) -> Result<(), Failed>
    requires pages { pages.now ≡ section_texts replica.now.held.history }
    requires placed { All (λ e. IsRemarkPlaced replica.now.held.history
        (entry_remark (reverse replica.now.held.history) e)) entries.now }
    ensures { GathersText (O.seen output.old) (O.seen output.new) gather.old gather.new result
        (remarks_from replica.now.held.history 1
        (map (entry_remark (reverse replica.now.held.history)) entries.now)) }
{
    'remarks: for (at, entry) in entries.iter().enumerate() {
        let place = entry.place - 1;
        let page = &pages[place];
        put_remark(gather, output, replica, page, at + 1, entry)?;
    }
    Ok(())
}

/// Writes all remarks. It takes no memory.
fn write_all<O: Out>(
    output: &mut O,
    replica: &Replica,
    pages: &[Page],
    entries: &[Entry],
) -> Result<(), Failed>
    requires pages { pages.now ≡ section_texts replica.now.held.history }
    requires entries { map (entry_remark (reverse replica.now.held.history)) entries.now
        ≡ remarks replica.now.held.history }
    ensures { WritesBytes (O.seen output.old) (O.seen output.new) result (remarks_text replica.now.held.history) }
{
    let mut gather = Gather::new();
    put_remarks(&mut gather, output, replica, pages, entries)?;
    gather.flush(output)
}

/// Writes the remarks on a manuscript: of each comment on an arranged section a line with its number, the place of the
/// section, where its passage stands in characters, who made it and what it says, and a line with the passage. What takes
/// memory is done before the first byte goes out.
pub fn write_remarks<O: Sink>(
    alloc: Global,
    replica: &Replica,
    output: &mut O,
) -> Result<(), ArrangeFault>
    ensures text { WritesText (O.seen output.old) (O.seen output.new) result (remarks_text replica.now.held.history) }
    ensures sound { IsSound replica.now }
{
    let sections = outline(alloc, replica)?;
    let entries = remark_entries(alloc, replica, sections.entries())?;
    let pages = pages_of(alloc, replica, sections.entries())?;
    or_sink_fault(write_all(output, replica, pages.as_slice(), entries.as_slice()))
}
