//! The commands `move` and `retitle`: a section of the arrangement gets another place, or another title.
ghost use Rattle.std.specs.Prelude.{◌≡◌};
ghost use Rattle.manuscript_cli.specs.Arrange.{move_on, move_refused, retitle_on};

use crate::number::index_of;
use catalogue_notes::{MoveFault, move_section, retitle};
use command_kinds::{MakesNote, Refusal};
use fugue_ids::Title;
use replica_core::Replica;
use std::alloc::Global;

/// A section goes to a place: both count from 1 in the arrangement.
#[derive(Clone, Copy)]
pub(crate) struct Move {
    pub section: u32,
    pub place: u32,
}

impl MakesNote for Move {
    ghost note_on = { λ what. move_on what.section what.place };

    fn make(&self, alloc: Global, replica: &mut Replica) -> Result<(), Refusal> {
        match move_section(alloc, replica, index_of(self.section), index_of(self.place)) {
            Ok(_) => Ok(()),
            Err(fault) => Err(refusal_of(fault, self.section, self.place)),
        }
    }
}

/// A section, which counts from 1 in the arrangement, gets a title.
#[derive(Clone, Copy)]
pub(crate) struct Retitle<'a> {
    pub section: u32,
    pub title: &'a str,
}

impl<'a> MakesNote for Retitle<'a> {
    ghost note_on = { λ what. retitle_on what.section what.title.now };

    fn make(&self, alloc: Global, replica: &mut Replica) -> Result<(), Refusal> {
        // The word was already accepted as a title, so this fails only without memory.
        let Ok(title) = Title::read(alloc, self.title) else {
            return Err(Refusal::NoMemory);
        };
        match retitle(alloc, replica, index_of(self.section), title) {
            Ok(_) => Ok(()),
            Err(fault) => Err(refusal_of(fault, self.section, 0)),
        }
    }
}

/// The refusal that a fault is, where the words ask for this section and this place.
fn refusal_of(fault: MoveFault, section: u32, place: u32) -> Refusal
    ensures { result ≡ move_refused section place fault }
{
    match fault {
        MoveFault::NoSection => Refusal::NoSection(section),
        MoveFault::NoPlace => Refusal::NoPlace(place),
        MoveFault::StampsSpent => Refusal::StampsSpent,
        MoveFault::IdsSpent(counter) => Refusal::IdsSpent(counter),
        MoveFault::TooMany(held) => Refusal::TooMany(held),
        MoveFault::NoMemory => Refusal::NoMemory,
    }
}
