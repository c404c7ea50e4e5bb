//! The elements of a section, written with what became of them.
ghost use Rattle.std.specs.Prelude.{◌≡◌, ◌≢◌, AllPairs, OnOk};
ghost use Rattle.std.specs.List.{list_any};
ghost use Rattle.fugue_ids.specs.Gathers.{GathersText};
ghost use Rattle.run_store.specs.Cells.{cell_ids};
ghost use Rattle.change_marks.specs.Changes.{is_marked};
ghost use Rattle.change_marks.specs.Marks.{mark_eq, mark_of, text_with_marks, printed_mark as printed_in};
ghost use Rattle.change_marks.specs.Steps.{element_part, is_changed_element, open_after};
ghost use Rattle.change_marks.specs.Stretches.{stretches};

use crate::Mark;
use crate::mark::printed_mark;
use crate::marking::{put_closing, put_marked};
use fugue_ids::{ElementId, Failed, Gather, Out};
use replica_core::Replica;
use section_list::SectionList;

/// Puts an element after the open run.
fn put_element<O: Out>(
    gather: &mut Gather,
    output: &mut O,
    is_dropped: bool,
    front: &Replica,
    replica: &Replica,
    id: ElementId,
    begun: &mut Option<Mark>,
) -> Result<(), Failed>
    ensures text { GathersText (O.seen output.old) (O.seen output.new) gather.old gather.new result
        (element_part replica.now.held.history begun.old
        (printed_in is_dropped front.now.held.history replica.now.held.history id) id) }
    ensures begun { OnOk result (begun.new
        ≡ open_after begun.old (printed_in is_dropped front.now.held.history replica.now.held.history id)) }
{
    match printed_mark(is_dropped, front, replica, id) {
        Some(mark) => {
            put_marked(gather, output, replica, *begun, mark, id)?;
            *begun = Some(mark);
            Ok(())
        }
        None => gather.put(output, b""),
    }
}

/// Puts the elements of a section in their runs.
pub(crate) fn put_runs<O: Out>(
    gather: &mut Gather,
    output: &mut O,
    is_dropped: bool,
    front: &Replica,
    replica: &Replica,
    list: &SectionList,
) -> Result<(), Failed>
    requires once { AllPairs (λ x y. x ≢ y) (cell_ids list.now.cells) }
    ensures { GathersText (O.seen output.old) (O.seen output.new) gather.old gather.new result
        (text_with_marks replica.now.held.history
        (stretches mark_eq (printed_in is_dropped front.now.held.history replica.now.held.history)
        (cell_ids list.now.cells))) }
{
    let mut begun = None;
    let mut next = list.after(None);
    'elements: while let Some(id) = next {
        put_element(gather, output, is_dropped, front, replica, id, &mut begun)?;
        next = list.after(Some(id));
    }
    put_closing(gather, output, begun)
}

/// Whether the element is in a run that has marks around it.
fn is_changed(front: &Replica, replica: &Replica, id: ElementId) -> bool
    ensures { result ≡ is_changed_element (mark_of front.now.held.history replica.now.held.history id) }
{
    match printed_mark(false, front, replica, id) {
        Some(Mark::New(_) | Mark::Gone) => true,
        Some(Mark::Kept) | None => false,
    }
}

/// Whether a run of the section has marks around it.
pub(crate) fn has_marks(front: &Replica, replica: &Replica, list: &SectionList) -> bool
    requires once { AllPairs (λ x y. x ≢ y) (cell_ids list.now.cells) }
    ensures { result ≡ list_any is_marked
        (stretches mark_eq (mark_of front.now.held.history replica.now.held.history)
        (cell_ids list.now.cells)) }
{
    let mut next = list.after(None);
    'elements: while let Some(id) = next {
        if is_changed(front, replica, id) {
            return true;
        }
        next = list.after(Some(id));
    }
    false
}
