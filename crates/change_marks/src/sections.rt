//! Which sections changed since a moment, and what is written of each.
ghost use Rattle.std.specs.Prelude.{◌≡◌, ◌++◌, ◌∷◌, [], Contains, length, true};
ghost use Rattle.fugue_ids.specs.Gathers.{GathersText};
ghost use Rattle.origin_model.specs.declared.operations.Place.TheVariants.{Catalogue as catalogue, Section as within};
ghost use Rattle.origin_model.specs.edits.State.{IsSound};
ghost use Rattle.origin_model.specs.order.Order.{order};
ghost use Rattle.run_store.specs.Cells.{cell_ids, cells_shown};
ghost use Rattle.origin_model.specs.order.Printed.{shown};
ghost use Rattle.catalogue_notes.specs.Arranged.{arranged};
ghost use Rattle.catalogue_notes.specs.Lift.{is_section};
ghost use Rattle.change_marks.specs.Changes.{IsLater, dropped_changes, is_changed as changed_in, section_changes};
ghost use Rattle.change_marks.specs.Marks.{text_with_marks, runs};

use crate::heads::{head_is_marked, put_dropped_head, put_head};
use crate::runs::{has_marks, put_runs};
use catalogue_notes::Headings;
use fugue_ids::{ElementId, Failed, Gather, Out};
use replica_core::Replica;
use section_list::SectionList;

/// The elements of a section, hidden ones too.
pub(crate) fn elements_of(replica: &Replica, section: ElementId) -> &SectionList
    requires { Contains (order catalogue replica.now.held.history) section }
    ensures elements { cell_ids result.now.cells ≡ order (within section) replica.now.held.history }
    ensures shown { cell_ids (cells_shown result.now.cells)
        ≡ shown (within section) replica.now.held.history }
    ensures sound { IsSound replica.now }
{
    let list = replica.places().section(section).unwrap();
    list
}

/// Whether the section has as many elements, and as many shown ones, as it had: then its text is as it was.
fn has_same_counts(front: &Replica, list: &SectionList, section: ElementId) -> bool
    ensures all { result ≡ true → length (order (within section) front.now.held.history)
        ≡ length (cell_ids list.now.cells) }
    ensures some { result ≡ true → length (shown (within section) front.now.held.history)
        ≡ length (cell_ids (cells_shown list.now.cells)) }
{
    match front.places().section(section) {
        Some(old) => {
            let same_len = old.len() == list.len();
            same_len && old.visible_count() == list.visible_count()
        }
        None => false,
    }
}

/// Whether something is to be reported of a section.
fn is_changed(then: &Headings, now: &Headings, section: ElementId) -> bool
    requires section { is_section now.now section ≡ true }
    requires listed { Contains (order catalogue now.now) section }
    requires later { IsLater then.now now.now }
    ensures { result ≡ changed_in then.now now.now section }
{
    if head_is_marked(then, now, section) {
        return true;
    }
    let front = then.replica();
    let replica = now.replica();
    let list = elements_of(replica, section);
    if has_same_counts(front, list, section) {
        return false;
    }
    has_marks(front, replica, list)
}

/// Puts the runs of a section and LF.
fn put_body<O: Out>(
    gather: &mut Gather,
    output: &mut O,
    is_dropped: bool,
    then: &Headings,
    now: &Headings,
    section: ElementId,
) -> Result<(), Failed>
    requires { Contains (order catalogue now.now) section }
    ensures { GathersText (O.seen output.old) (O.seen output.new) gather.old gather.new result
        (text_with_marks now.now (runs is_dropped then.now now.now section) ++ 10 ∷ []) }
{
    let front = then.replica();
    let replica = now.replica();
    let list = elements_of(replica, section);
    put_runs(gather, output, is_dropped, front, replica, list)?;
    gather.put(output, b"\n")
}

/// Puts what is to be reported of a section that is arranged now.
pub(crate) fn put_section<'a, O: Out>(
    gather: &mut Gather,
    output: &mut O,
    then: &'a Headings<'a>,
    now: &'a Headings<'a>,
    section: ElementId,
) -> Result<(), Failed>
    requires section { is_section now.now section ≡ true }
    requires listed { Contains (order catalogue now.now) section }
    requires later { IsLater then.now now.now }
    ensures { GathersText (O.seen output.old) (O.seen output.new) gather.old gather.new result
        (section_changes then.now now.now section) }
{
    if !is_changed(then, now, section) {
        return gather.put(output, b"");
    }
    put_head(gather, output, then, now, section)?;
    put_body(gather, output, false, then, now, section)
}

/// Puts what is reported of a section that was dropped.
pub(crate) fn put_dropped<O: Out>(
    gather: &mut Gather,
    output: &mut O,
    then: &Headings,
    now: &Headings,
    section: ElementId,
) -> Result<(), Failed>
    requires section { is_section then.now section ≡ true }
    requires listed { Contains (order catalogue now.now) section }
    ensures { GathersText (O.seen output.old) (O.seen output.new) gather.old gather.new result
        (dropped_changes then.now now.now section) }
{
    put_dropped_head(gather, output, then, section)?;
    put_body(gather, output, true, then, now, section)
}
