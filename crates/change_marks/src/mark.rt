//! What became of a letter since a moment: it stayed, came, or was deleted.
ghost use Rattle.std.specs.Prelude.{◌≡◌};
ghost use Rattle.change_marks.specs.Marks.{as_dropped as dropped_as, mark_of as mark_in, printed_mark as printed_in};

use fugue_ids::ElementId;
use replica_core::Replica;

/// What became of a letter since a moment.
#[derive(Clone, Copy)]
pub enum Mark {
    /// It was shown then, and is now.
    Kept,
    /// It came later. This replica made it.
    New(u32),
    /// It was shown then, and was deleted.
    Gone,
}

/// The mark of an element that the replica has. It has none if it was deleted then, or came and went since.
fn mark_of(front: &Replica, replica: &Replica, id: ElementId) -> Option<Mark>
    ensures { result ≡ mark_in front.now.held.history replica.now.held.history id }
{
    let had = front.holds(id);
    let is_hidden = replica.is_withdrawn(id);
    match (had, is_hidden) {
        (false, false) => Some(Mark::New(id.replica)),
        (false, true) => None,
        (true, is_hidden) => {
            if front.is_withdrawn(id) {
                None
            } else if is_hidden {
                Some(Mark::Gone)
            } else {
                Some(Mark::Kept)
            }
        }
    }
}

/// The mark in a section that was dropped.
fn as_dropped(mark: Mark) -> Mark
    ensures { result ≡ dropped_as mark }
{
    match mark {
        Mark::Kept | Mark::Gone => Mark::Gone,
        Mark::New(replica) => Mark::New(replica),
    }
}

/// The mark as it is printed, by whether the element's section was dropped.
pub(crate) fn printed_mark(
    is_dropped: bool,
    front: &Replica,
    replica: &Replica,
    id: ElementId,
) -> Option<Mark>
    ensures { result ≡ printed_in is_dropped front.now.held.history replica.now.held.history id }
{
    let mark = mark_of(front, replica, id)?;
    if is_dropped {
        Some(as_dropped(mark))
    } else {
        Some(mark)
    }
}
