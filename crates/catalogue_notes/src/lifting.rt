//! The elements that sections can stand at: those of Sections and of valid moves.
ghost use Rattle.std.specs.Prelude.{◌≡◌, ◌<◌, ◌++◌, false, length, IfOk, OnOk, option_and_then, option_to_list, option_map, slice_get};
ghost use Rattle.origin_model.specs.edits.State.{IsSound};
ghost use Rattle.origin_model.specs.operations.History.{accepted as accepted_list};
ghost use Rattle.origin_model.specs.sides.Node.{has_origin, IsNew};
ghost use Rattle.section_list.specs.SectionList.{IsInOrder, with_element};
ghost use Rattle.catalogue_notes.specs.Claims.{move_in as move_on};
ghost use Rattle.catalogue_notes.specs.Lift.{is_section as is_section_in};
ghost use Rattle.catalogue_notes.specs.Lifting.{IsLiftOf, lift_by, lift_move};
ghost use Rattle.catalogue_notes.specs.Readings.{move_claim};

use crate::reading::{Candidate, Move, move_in};
use crate::sections::is_section;
use fugue_ids::{ElementId, MOST_OPERATIONS, NoMemory, Op};
use origin_model::{Node, element_of};
use replica_core::Replica;
use section_list::SectionList;
use std::alloc::Global;

/// The scalar of each element: nothing reads it.
const MARK: char = '-';

/// What one operation adds.
#[derive(Clone, Copy)]
pub(crate) struct Lift {
    pub node: Node,
    /// Some for a move, None for a Section.
    pub candidate: Option<Candidate>,
}

/// The elements in order, and the valid moves, the oldest first.
#[derive(Drop)]
pub(crate) struct Lifted {
    pub list: SectionList,
    pub moves: Vec<Candidate>,
}

fn is_present(list: &SectionList, origin: Option<ElementId>) -> bool
    ensures { result ≡ has_origin list.now.nodes origin }
{
    match origin {
        Some(id) => list.holds(id),
        None => true,
    }
}

fn lift_of_move(list: &SectionList, replica: &Replica, found: &Move) -> Option<Lift>
    ensures { result ≡ lift_move (is_section_in replica.now.held.history) list.now.nodes (Some (move_claim found.now)) }
{
    let Move { candidate, gap } = *found;
    if !is_section(replica, candidate.section)
        || !is_present(list, gap.left)
        || !is_present(list, gap.right)
    {
        return None;
    }
    Some(Lift {
        node: Node {
            id: candidate.id,
            left: gap.left,
            right: gap.right,
        },
        candidate: Some(candidate),
    })
}

/// What the operation adds to the list.
fn lift_of(list: &SectionList, replica: &Replica, op: &Op) -> Option<Lift>
    ensures { result ≡ lift_by (is_section_in replica.now.held.history) list.now.nodes op.now }
{
    match op {
        Op::Section { .. } => match element_of(op) {
            Some((_, node)) => Some(Lift {
                node,
                candidate: None,
            }),
            None => None,
        },
        Op::Text { .. } | Op::Delete { .. } => None,
        Op::Note { .. } => match move_in(op) {
            Some(found) => lift_of_move(list, replica, &found),
            None => None,
        },
    }
}

/// What the operation at a position of the accepted ones adds to the list.
pub(crate) fn lift_at(list: &SectionList, replica: &Replica, at: usize) -> Option<Lift>
    ensures { result ≡ option_and_then (lift_by (is_section_in replica.now.held.history) list.now.nodes)
        (slice_get (accepted_list replica.now.held.history) at) }
{
    match replica.section_or_note(at) {
        Some(op) => lift_of(list, replica, op),
        None => None,
    }
}

impl Lifted {
    /// Adds what one operation adds. If memory runs out, the element may be there without its candidate.
    pub(crate) fn take(&mut self, lift: Lift) -> Result<(), NoMemory>
        requires new { IsNew self.old.list.nodes lift.node }
        requires room { length self.old.list.cells < MOST_OPERATIONS }
        ensures list { OnOk result (self.new.list ≡ with_element lift.node 45 self.old.list) }
        ensures in_order { OnOk result (IsInOrder self.new.list) }
        ensures moves { OnOk result (self.new.moves.items ≡ self.old.moves.items ++ option_to_list lift.candidate) }
    {
        let Node { id, left, right } = lift.node;
        self.list.insert(id, left, right, MARK)?;
        if let Some(candidate) = lift.candidate {
            self.moves.push(candidate)?;
        }
        Ok(())
    }

    /// The elements and the moves of the accepted operations.
    pub(crate) fn of(alloc: Global, replica: &Replica) -> Result<Lifted, NoMemory>
        ensures lifted { IfOk result (λ lifted. IsLiftOf replica.now.held.history lifted.list lifted.moves.items) }
        ensures sound { IsSound replica.now }
    {
        let mut lifted = Lifted {
            list: SectionList::new(alloc),
            moves: Vec::new(alloc),
        };
        'walk: for at in replica.sections_and_notes() {
            if let Some(lift) = lift_at(&lifted.list, replica, *at) {
                lifted.take(lift)?;
            }
        }
        Ok(lifted)
    }
}
