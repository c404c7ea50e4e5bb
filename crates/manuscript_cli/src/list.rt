//! The command `list`: what a file's replica holds, and its sections as they are arranged.
ghost use Rattle.std.specs.Prelude.{◌≡◌, ◌<◌, ◌≤◌, All, IfOk, flat_map, length};
ghost use Rattle.fugue_ids.specs.Gathers.{GathersText};
ghost use Rattle.fugue_ids.specs.Outs.{WritesBytes};
ghost use Rattle.fugue_ids.specs.declared.limits.TheConstants.{MOST_OPERATIONS};
ghost use Rattle.origin_model.specs.edits.State.{IsSound};
ghost use Rattle.catalogue_notes.specs.Outlining.{IsEntry, IsOutline, entry_sections};
ghost use Rattle.catalogue_notes.specs.declared.entry.Entry.{Entry as AnyEntry};
ghost use Rattle.manuscript_cli.specs.Listing.{cluster_count as clusters_in, counted_from, counted_line, entry_line};
ghost use Rattle.manuscript_cli.specs.Listing.{list_reports, list_text, replica_line};

use crate::counting::cluster_count;
use catalogue_notes::{Entry, outline};
use command_kinds::{Refusal, Report, gone_out};
use fugue_ids::{Failed, Gather, NoMemory, Out};
use itoa::Buffer;
use outer_ports::Sink;
use replica_core::Replica;
use std::alloc::Global;

/// What a file's replica holds.
pub(crate) struct Contents;

impl Report for Contents {
    ghost Tells = { λ what. list_reports };

    fn write<O: Sink>(
        &self,
        alloc: Global,
        replica: &Replica,
        output: &mut O,
    ) -> Result<(), Refusal> {
        let outline = outline(alloc, replica)?;
        let counts = counts_of(alloc, replica, outline.entries())?;
        gone_out(write_list(output, replica, outline.entries(), &counts))
    }

    fn laws(&self) {}
}

/// How many clusters the section of an entry has.
#[derive(Clone, Copy)]
struct Counted {
    /// The place of the entry, from 0.
    at: usize,
    clusters: usize,
}

fn count_of(replica: &Replica, entry: &Entry) -> Result<usize, NoMemory>
    requires { IsEntry replica.now.held.history entry.now }
    ensures { IfOk result (λ count. count ≡ clusters_in replica.now.held.history entry.now.section) }
{
    match replica.text_of(entry.number)? {
        Some(text) => Ok(cluster_count(text.as_str())),
        None => Ok(0),
    }
}

/// The numbers of clusters of the sections, in the order of the entries.
fn counts_of(alloc: Global, replica: &Replica, entries: &[Entry]) -> Result<Vec<Counted>, NoMemory>
    requires { All (IsEntry replica.now.held.history) entries.now }
    ensures { IfOk result (λ counts. counts.items
        ≡ counted_from replica.now.held.history 0 (entry_sections entries.now)) }
{
    let mut counts = Vec::new(alloc);
    'entries: for (at, entry) in entries.iter().enumerate() {
        let clusters = count_of(replica, entry)?;
        counts.push(Counted { at, clusters })?;
    }
    Ok(counts)
}

/// Puts the line about the whole replica.
fn put_replica<O: Out>(gather: &mut Gather, output: &mut O, replica: &Replica) -> Result<(), Failed>
    ensures { GathersText (O.seen output.old) (O.seen output.new) gather.old gather.new result
        (replica_line replica.now) }
{
    let [mut number, mut hold] = [Buffer::new(), Buffer::new()];
    let [mut accepted, mut waiting] = [Buffer::new(), Buffer::new()];
    gather.put_pieces(
        output,
        &[
            b"replica ",
            number.format(replica.number()).as_bytes(),
            b", hold ",
            hold.format(replica.hold()).as_bytes(),
            b", accepted ",
            accepted.format(replica.accepted().len()).as_bytes(),
            b", waiting ",
            waiting.format(replica.waiting().len()).as_bytes(),
            b"\n",
        ],
    )
}

/// Puts the line of the entry at that place, from 0.
fn put_entry<O: Out>(
    gather: &mut Gather,
    output: &mut O,
    at: usize,
    entry: &Entry,
    clusters: usize,
) -> Result<(), Failed>
    requires place { at < MOST_OPERATIONS }
    requires number { entry.now.number < MOST_OPERATIONS }
    ensures { GathersText (O.seen output.old) (O.seen output.new) gather.old gather.new result
        (entry_line at entry.now clusters) }
{
    let [mut place, mut number, mut count] = [Buffer::new(), Buffer::new(), Buffer::new()];
    let place = place.format(at + 1).as_bytes();
    let count = count.format(clusters).as_bytes();
    let heading = entry.heading.as_str().as_bytes();
    if at == entry.number {
        gather.put_pieces(output, &[place, b" ", count, b" ", heading, b"\n"])
    } else {
        let number = number.format(entry.number + 1).as_bytes();
        gather.put_pieces(
            output,
            &[place, b" (", number, b") ", count, b" ", heading, b"\n"],
        )
    }
}

/// Puts the line of an entry whose clusters were counted.
fn put_counted<O: Out>(
    gather: &mut Gather,
    output: &mut O,
    entries: &[Entry],
    counted: &Counted,
) -> Result<(), Failed>
    requires places { length entries.now ≤ MOST_OPERATIONS }
    requires numbers { All (λ (e : AnyEntry). e.number < MOST_OPERATIONS) entries.now }
    ensures { GathersText (O.seen output.old) (O.seen output.new) gather.old gather.new result
        (counted_line entries.now counted.now) }
{
    match entries.get(counted.at) {
        Some(entry) => put_entry(gather, output, counted.at, entry, counted.clusters),
        None => Ok(()),
    }
}

fn put_all<O: Out>(
    gather: &mut Gather,
    output: &mut O,
    entries: &[Entry],
    counts: &[Counted],
) -> Result<(), Failed>
    requires places { length entries.now ≤ MOST_OPERATIONS }
    requires numbers { All (λ (e : AnyEntry). e.number < MOST_OPERATIONS) entries.now }
    ensures { GathersText (O.seen output.old) (O.seen output.new) gather.old gather.new result
        (flat_map (counted_line entries.now) counts.now) }
{
    'counts: for counted in counts {
        put_counted(gather, output, entries, counted)?;
    }
    Ok(())
}

/// Writes all lines. It takes no memory.
fn write_list<O: Out>(
    output: &mut O,
    replica: &Replica,
    entries: &[Entry],
    counts: &[Counted],
) -> Result<(), Failed>
    requires outline { IsOutline replica.now.held.history entries.now }
    requires counts { counts.now ≡ counted_from replica.now.held.history 0 (entry_sections entries.now) }
    requires sound { IsSound replica.now }
    ensures { WritesBytes (O.seen output.old) (O.seen output.new) result (list_text replica.now) }
{
    let mut gather = Gather::new();
    put_replica(&mut gather, output, replica)?;
    put_all(&mut gather, output, entries, counts)?;
    gather.flush(output)
}
