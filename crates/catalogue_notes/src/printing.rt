//! The sections printed as they are arranged, under their headings.
ghost use Rattle.std.specs.Prelude.{◌≡◌, ◌++◌, ◌∷◌, List, [], ℕ, Some, codes, drop, flat_map};
ghost use Rattle.fugue_ids.specs.Gathers.{GathersText};
ghost use Rattle.fugue_ids.specs.Outs.{OutView, WritesBytes};
ghost use Rattle.op_runs.specs.Finding.{op_of};
ghost use Rattle.origin_model.specs.edits.State.{IsSound};
ghost use Rattle.catalogue_notes.specs.Arranged.{arranged_text};
ghost use Rattle.catalogue_notes.specs.Printing.{WritesText, page, printed_by, title_source, title_in as title_in_op, title_of_op, utf8_or_none};

use crate::layout::Layout;
use fugue_ids::{ElementId, Failed, Gather, NoMemory, Op, Out};
use op_runs::OpRef;
use outer_ports::Sink;
use replica_core::Replica;
use section_catalogue::Manuscript;
use section_list::SectionList;
use std::alloc::Global;

/// Why the sections were not printed whole.
#[derive(Clone, Copy, Debug)]
pub enum ArrangeFault {
    /// The output failed, and its count of faults rose. A front of the text is written.
    SinkFault,
    /// Nothing is written.
    NoMemory,
}

impl From<NoMemory> for ArrangeFault {
    ghost use Rattle.std.specs.Prelude.{◌≡◌};
    ghost use Rattle.catalogue_notes.specs.declared.printing.ArrangeFault.TheVariants.{NoMemory as no_memory};

    ghost from_gives = { λ _ e. e ≡ no_memory };

    fn from(_e: NoMemory) -> ArrangeFault {
        ArrangeFault::NoMemory
    }
}

/// The bytes after the stamp of a retitle.
fn after_stamp(body: &[u8]) -> &[u8]
    ensures { result.now ≡ drop 4 body.now }
{
    match body {
        [_, _, _, _, title @ ..] => title,
        _ => &[],
    }
}

/// The text of the bytes: nothing of such as are not UTF-8.
fn text_of(bytes: &[u8]) -> &str
    ensures { result.now ≡ utf8_or_none bytes.now }
{
    match std::str::from_utf8(bytes) {
        Ok(text) => text,
        Err(_) => "",
    }
}

/// The title that an operation gives.
fn title_in(op: &Op) -> &str
    ensures { result.now ≡ title_in_op op.now }
{
    match op {
        Op::Section { title, .. } => title.as_str(),
        Op::Note { body, .. } => text_of(after_stamp(body.as_slice())),
        Op::Text { .. } | Op::Delete { .. } => "",
    }
}

/// The same of an operation that is given by value.
fn title_given<'a>(ops_source: &OpRef<'a>) -> &'a str
    ensures { result.now ≡ title_in_op (op_of ops_source.now) }
{
    match ops_source {
        OpRef::Whole(op) => title_in(op),
        OpRef::Letter(_, _) | OpRef::Deletion(_) => "",
    }
}

/// The title of a section.
pub(crate) fn title_of<'a>(replica: &'a Replica, layout: &Layout, section: ElementId) -> &'a str
    ensures { result.now ≡ title_of_op (title_source replica.now.held.history layout.now section) }
{
    match layout.title_source(replica, section) {
        Some(ops_source) => title_given(&ops_source),
        None => "",
    }
}

/// Puts the line that heads a section.
fn put_heading<O: Out>(gather: &mut Gather, output: &mut O, title: &[u8]) -> Result<(), Failed>
    ensures { GathersText (O.seen output.old) (O.seen output.new) gather.old gather.new result
        (codes "# " ++ title.now ++ 10 ∷ []) }
{
    gather.put_pieces(output, &[b"# ", title, b"\n"])
}

/// Puts a section under the title.
fn put_page<O: Out>(
    gather: &mut Gather,
    output: &mut O,
    title: &[u8],
    text: &SectionList,
) -> Result<(), Failed>
    ensures { GathersText (O.seen output.old) (O.seen output.new) gather.old gather.new result
        (page title.now (Some text.now)) }
{
    put_heading(gather, output, title)?;
    text.put_text(gather, output)?;
    gather.put(output, b"\n")
}

/// Puts the section with the identifier.
fn put_section<O: Out>(
    gather: &mut Gather,
    output: &mut O,
    replica: &Replica,
    places: &Manuscript,
    layout: &Layout,
    section: ElementId,
) -> Result<(), Failed>
    ensures { GathersText (O.seen output.old) (O.seen output.new) gather.old gather.new result
        (printed_by places.now replica.now.held.history layout.now section) }
{
    let title = title_of(replica, layout, section);
    match places.section(section) {
        Some(text) => put_page(gather, output, title.as_bytes(), text),
        None => Ok(()),
    }
}

/// Puts the sections in their order.
fn put_sections<O: Out>(
    gather: &mut Gather,
    output: &mut O,
    replica: &Replica,
    places: &Manuscript,
    layout: &Layout,
) -> Result<(), Failed>
    ensures { GathersText (O.seen output.old) (O.seen output.new) gather.old gather.new result
        (flat_map (printed_by places.now replica.now.held.history layout.now) layout.now.arrangement.sections.items) }
{
    'sections: for section in layout.arrangement.sections.as_slice() {
        put_section(gather, output, replica, places, layout, *section)?;
    }
    Ok(())
}

/// Writes the sections in their order. It takes no memory.
fn write_sections<O: Out>(
    output: &mut O,
    replica: &Replica,
    places: &Manuscript,
    layout: &Layout,
) -> Result<(), Failed>
    ensures { WritesBytes (O.seen output.old) (O.seen output.new) result
        (flat_map (printed_by places.now replica.now.held.history layout.now) layout.now.arrangement.sections.items) }
{
    let mut gather = Gather::new();
    put_sections(&mut gather, output, replica, places, layout)?;
    gather.flush(output)
}

/// What became of a text, as a fault of printing it.
pub fn or_sink_fault(written: Result<(), Failed>) -> Result<(), ArrangeFault>
    ensures { (old new : OutView) (text : List ℕ) → WritesBytes old new written text → WritesText old new result text }
{
    match written {
        Ok(()) => Ok(()),
        Err(_) => Err(ArrangeFault::SinkFault),
    }
}

/// Writes the shown sections as they are arranged, under their headings, in the form of the manuscript. What takes
/// memory is done before the first byte goes out.
pub fn write_arranged<O: Sink>(
    alloc: Global,
    replica: &Replica,
    output: &mut O,
) -> Result<(), ArrangeFault>
    ensures text { WritesText (O.seen output.old) (O.seen output.new) result
        (arranged_text replica.now.held.history) }
    ensures sound { IsSound replica.now }
{
    let layout = Layout::of(alloc, replica)?;
    or_sink_fault(write_sections(output, replica, replica.places(), &layout))
}
