//! Who wrote the letters of each section.
ghost use Rattle.std.specs.Prelude.{◌≡◌, Contains};
ghost use Rattle.fugue_ids.specs.Gathers.{GathersText};
ghost use Rattle.fugue_ids.specs.Outs.{WritesBytes};
ghost use Rattle.origin_model.specs.declared.operations.Place.TheVariants.{Catalogue as catalogue, Section as within};
ghost use Rattle.origin_model.specs.edits.State.{IsSound};
ghost use Rattle.origin_model.specs.order.Order.{order};
ghost use Rattle.origin_model.specs.order.Printed.{shown};
ghost use Rattle.run_store.specs.Cells.{cell_ids, cells_shown};
ghost use Rattle.catalogue_notes.specs.Printing.{WritesText};
ghost use Rattle.change_marks.specs.Authors.{authors_text, section_authors, section_line};

use crate::passages::put_passages;
use crate::sections::elements_of;
use catalogue_notes::{ArrangeFault, Headings, or_sink_fault};
use fugue_ids::{ElementId, Failed, Gather, Out};
use itoa::Buffer;
use outer_ports::Sink;
use replica_core::Replica;
use std::alloc::Global;

/// Puts the line of the section at the place, which counts from 1.
fn put_section_line<O: Out>(
    gather: &mut Gather,
    output: &mut O,
    place: usize,
    section: ElementId,
) -> Result<(), Failed>
    ensures { GathersText (O.seen output.old) (O.seen output.new) gather.old gather.new result
        (section_line place section) }
{
    let [mut place_buffer, mut replica, mut counter] = [
        Buffer::new(),
        Buffer::new(),
        Buffer::new(),
    ];
    let place = place_buffer.format(place).as_bytes();
    let replica = replica.format(section.replica).as_bytes();
    let counter = counter.format(section.counter).as_bytes();
    gather.put_pieces(output, &[place, b" ", replica, b".", counter, b"\n"])
}

/// Puts what is reported of the section at the place, which counts from 1.
fn put_section<O: Out>(
    gather: &mut Gather,
    output: &mut O,
    replica: &Replica,
    place: usize,
    section: ElementId,
) -> Result<(), Failed>
    requires { Contains (order catalogue replica.now.held.history) section }
    ensures { GathersText (O.seen output.old) (O.seen output.new) gather.old gather.new result
        (section_authors replica.now.held.history place section) }
{
    let list = elements_of(replica, section);
    put_section_line(gather, output, place, section)?;
    put_passages(gather, output, list)
}

/// Puts what is reported of all sections.
fn put_sections<O: Out>(gather: &mut Gather, output: &mut O, now: &Headings) -> Result<(), Failed>
    ensures { GathersText (O.seen output.old) (O.seen output.new) gather.old gather.new result
        (authors_text now.now) }
{
    let replica = now.replica();
    let sections = now.sections();
    'walk: for (at, section) in sections.iter().enumerate() {
        put_section(gather, output, replica, at + 1, *section)?;
    }
    Ok(())
}

/// Writes it by whole arrays. It takes no memory.
fn write_sections<O: Out>(output: &mut O, now: &Headings) -> Result<(), Failed>
    ensures { WritesBytes (O.seen output.old) (O.seen output.new) result (authors_text now.now) }
{
    let mut gather = Gather::new();
    put_sections(&mut gather, output, now)?;
    gather.flush(output)
}

/// Writes who wrote what is shown: of each section as it is arranged a line with its place and its identifier, and then
/// for each run of letters that one replica made a line with its number and how many they are. What takes memory is done
/// before the first byte goes out.
pub fn write_authors<O: Sink>(
    alloc: Global,
    replica: &Replica,
    output: &mut O,
) -> Result<(), ArrangeFault>
    ensures text { WritesText (O.seen output.old) (O.seen output.new) result (authors_text replica.now.held.history) }
    ensures sound { IsSound replica.now }
{
    let now = Headings::of(alloc, replica)?;
    or_sink_fault(write_sections(output, &now))
}
