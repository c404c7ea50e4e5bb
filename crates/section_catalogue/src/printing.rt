//! The manuscript in bytes, which are gathered and go out by whole arrays.
ghost use Rattle.std.specs.Prelude.{◌≡◌, ◌∷◌, [], ◌++◌, flat_map};
ghost use Rattle.fugue_ids.specs.Gathers.{GathersText};
ghost use Rattle.run_store.specs.Cells.{cell_ids, cells_shown};
ghost use Rattle.section_catalogue.specs.Section.{section_printed, printed_at};

use crate::tables::Section;
use fugue_ids::{ElementId, Failed, Gather, Out};
use section_list::SectionList;
use std::collections::BTreeMap;

fn put_section<O: Out>(gather: &mut Gather, output: &mut O, section: &Section) -> Result<(), Failed>
    ensures { GathersText (O.seen output.old) (O.seen output.new) gather.old gather.new result
        (section_printed section.now) }
{
    gather.put_heading(output, section.title.as_str())?;
    section.text.put_text(gather, output)?;
    gather.put(output, b"\n")
}

/// Puts the section with the identifier.
fn put_at<O: Out>(
    gather: &mut Gather,
    output: &mut O,
    sections: &BTreeMap<ElementId, Section>,
    id: &ElementId,
) -> Result<(), Failed>
    ensures { GathersText (O.seen output.old) (O.seen output.new) gather.old gather.new result
        (printed_at sections.now.entries id.now) }
{
    match sections.get(id) {
        Some(section) => put_section(gather, output, section),
        None => Ok(()),
    }
}

/// Puts the visible sections of the catalogue, in order.
pub(crate) fn put_sections<O: Out>(
    gather: &mut Gather,
    output: &mut O,
    sections: &BTreeMap<ElementId, Section>,
    catalogue: &SectionList,
) -> Result<(), Failed>
    ensures { GathersText (O.seen output.old) (O.seen output.new) gather.old gather.new result
        (flat_map (printed_at sections.now.entries) (cell_ids (cells_shown catalogue.now.cells))) }
{
    let mut shown = catalogue.shown();
    'sections: while let Some(id) = shown.step() {
        put_at(gather, output, sections, &id)?;
    }
    Ok(())
}
