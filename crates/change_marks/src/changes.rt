//! The manuscript with what changed marked.
ghost use Rattle.std.specs.Prelude.{◌≡◌, ◌++◌, Contains, flat_map};
ghost use Rattle.fugue_ids.specs.Gathers.{GathersText};
ghost use Rattle.fugue_ids.specs.Outs.{WritesBytes};
ghost use Rattle.origin_model.specs.edits.State.{IsSound};
ghost use Rattle.origin_model.specs.operations.Verdict.{Lawful};
ghost use Rattle.catalogue_notes.specs.Arranged.{arranged};
ghost use Rattle.catalogue_notes.specs.Printing.{WritesText};
ghost use Rattle.change_marks.specs.Changes.{IsLater, changes_text, section_changes};
ghost use Rattle.change_marks.specs.Steps.{dropped_part};

use crate::sections::{put_dropped, put_section};
use catalogue_notes::{ArrangeFault, Headings, or_sink_fault};
use fugue_ids::{ElementId, Failed, Gather, Out};
use outer_ports::Sink;
use replica_core::Replica;
use std::alloc::Global;

/// Puts what changed in the sections that are arranged now.
fn put_sections<'a, O: Out>(
    gather: &mut Gather,
    output: &mut O,
    then: &'a Headings<'a>,
    now: &'a Headings<'a>,
) -> Result<(), Failed>
    requires lawful { Lawful now.now }
    requires later { IsLater then.now now.now }
    ensures { GathersText (O.seen output.old) (O.seen output.new) gather.old gather.new result
        (flat_map (section_changes then.now now.now) (arranged now.now)) }
{
    let sections = now.sections();
    'walk: for section in sections {
        put_section(gather, output, then, now, *section)?;
    }
    Ok(())
}

/// Puts what is reported of a section that was arranged then, where it was dropped.
fn put_where_dropped<O: Out>(
    gather: &mut Gather,
    output: &mut O,
    then: &Headings,
    now: &Headings,
    section: ElementId,
) -> Result<(), Failed>
    requires later { IsLater then.now now.now }
    requires arranged { Contains (arranged then.now) section }
    ensures { GathersText (O.seen output.old) (O.seen output.new) gather.old gather.new result
        (dropped_part then.now now.now section) }
{
    if now.replica().is_withdrawn(section) {
        put_dropped(gather, output, then, now, section)
    } else {
        gather.put(output, b"")
    }
}

/// Puts what is reported of the sections that were dropped.
fn put_all_dropped<O: Out>(
    gather: &mut Gather,
    output: &mut O,
    then: &Headings,
    now: &Headings,
) -> Result<(), Failed>
    requires { IsLater then.now now.now }
    ensures { GathersText (O.seen output.old) (O.seen output.new) gather.old gather.new result
        (flat_map (dropped_part then.now now.now) (arranged then.now)) }
{
    let sections = then.sections();
    'walk: for section in sections {
        put_where_dropped(gather, output, then, now, *section)?;
    }
    Ok(())
}

/// Writes what changed. It takes no memory.
fn write_sections<'a, O: Out>(
    output: &mut O,
    then: &'a Headings<'a>,
    now: &'a Headings<'a>,
) -> Result<(), Failed>
    requires later { IsLater then.now now.now }
    requires lawful { Lawful now.now }
    ensures { WritesBytes (O.seen output.old) (O.seen output.new) result (changes_text then.now now.now) }
{
    let mut gather = Gather::new();
    put_sections(&mut gather, output, then, now)?;
    put_all_dropped(&mut gather, output, then, now)?;
    gather.flush(output)
}

/// Writes what changed in the manuscript since the replica had the operations of the other one, in CriticMarkup: each
/// section that is another, with its letters that are new and those that are gone in marks, and then each that was
/// dropped. What takes memory is done before the first byte goes out.
pub fn write_changes<O: Sink>(
    alloc: Global,
    then: &Replica,
    now: &Replica,
    output: &mut O,
) -> Result<(), ArrangeFault>
    requires { IsLater then.now.held.history now.now.held.history }
    ensures text { WritesText (O.seen output.old) (O.seen output.new) result
        (changes_text then.now.held.history now.now.held.history) }
    ensures sound { IsSound now.now }
{
    let new = Headings::of(alloc, now)?;
    let old = Headings::of(alloc, then)?;
    or_sink_fault(write_sections(output, &old, &new))
}
