//! The commands that make a note: one call on the replica of the home file makes it, and it is saved.
ghost use Rattle.std.specs.Prelude.{◌≡◌, OnErr};
ghost use Rattle.command_kinds.specs.Notes.{NoteComes, NoteOn, note_source};
ghost use Rattle.command_kinds.specs.Saving.{SavesGiven};
ghost use Rattle.command_kinds.specs.Changes.{change};
ghost use Rattle.replica_file.specs.Loading.{CanTake};

use crate::Status;
use crate::counts::Note;
use crate::giving::{Gives, save_given};
use crate::kept::Kept;
use crate::refusal::Refusal;
use outer_ports::{Disk, Sink};
use replica_core::Replica;
use std::alloc::Global;

/// What a command asks for that makes one note.
pub trait MakesNote {
    /// The note that it makes on a replica, or why it makes none.
    ghost note_on: { Self → NoteOn };

    /// Makes the note. After a refusal none is made.
    fn make(&self, alloc: Global, replica: &mut Replica) -> Result<(), Refusal>
        requires { CanTake replica.old }
        ensures comes { NoteComes (note_on self.now replica.old) replica.old replica.new result }
        ensures unmade { OnErr result (replica.new ≡ replica.old) };
}

/// What the words give that ask for a note: no object of the outside is asked.
#[derive(Drop)]
struct Noting<'a, T> {
    maker: &'a T,
}

impl<'a, T: MakesNote> Gives<()> for Noting<'a, T> {
    ghost ops_source = { λ what home before after finding. note_source (T.note_on what.maker.now) };

    ghost Leaves = { λ what home before after end. Unit {0} };

    fn give(
        &self,
        alloc: Global,
        _from: &mut (),
        replica: &mut Replica,
        _kept: &mut Kept,
    ) -> Result<Note, Refusal> {
        self.maker.make(alloc, replica)?;
        Ok(Note::Made(1))
    }

    fn laws(&self) {}
}

/// Loads the home file, makes the note on its replica, saves it by one append, and notes it.
pub fn save_note<T: MakesNote, H: Disk, N: Sink>(
    alloc: Global,
    maker: &T,
    home: &mut H,
    notes: &mut N,
) -> Status
    ensures { SavesGiven (note_source (T.note_on maker.now)) (change (H.seen home.old) (H.seen home.new))
        (change (N.seen notes.old) (N.seen notes.new)) result }
{
    save_given(alloc, &Noting { maker }, &mut (), home, notes)
}
