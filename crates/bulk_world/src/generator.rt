//! The numbers by which the manuscript is made.
ghost use Rattle.std.specs.Prelude.{◌≡◌, ◌≢◌, Err, OnOk};
ghost use Rattle.bulk_world.specs.Edit.{command_for};
ghost use Rattle.bulk_world.specs.Generator.{drawn_command, letter as letter_of, next as behind};

use fugue_ids::NoMemory;
use replica_core::EditFault;

/// The number after x.
pub(crate) fn next(x: u32) -> u32
    ensures { result ≡ behind x }
{
    ((1_664_525 * u64::from(x) + 1_013_904_223) % 4_294_967_296) as u32
}

/// The edit that x asks for, where so many scalars are shown.
pub(crate) fn edit_of(x: u32, shown: usize) -> Edit
    ensures { command_for result ≡ drawn_command x shown }
{
    let place = x as usize;
    if shown != 0 && (x / 65_536) % 8 == 0 {
        return Edit::Cut(place % shown);
    }
    // A place is less than the greatest number, so nothing is lost there.
    Edit::Put(place % shown.saturating_add(1), letter(x))
}

fn letter(x: u32) -> char
    ensures { result ≡ letter_of x }
{
    char::from(b'a' + (x / 65_536 / 8 % 26) as u8)
}

/// An edit of the first section, by positions in what is shown.
#[derive(Clone, Copy)]
pub(crate) enum Edit {
    /// Puts a letter.
    Put(usize, char),
    /// Cuts one scalar.
    Cut(usize),
}

/// Whether memory was enough for an edit. One that is refused for another cause changes nothing.
pub(crate) fn unless_memory_wants(made: &Result<u32, EditFault>) -> Result<(), NoMemory>
    ensures { OnOk result (made.now ≢ Err EditFault.NoMemory) }
{
    match made {
        Ok(_) => Ok(()),
        Err(EditFault::NoSection) => Ok(()),
        Err(EditFault::OutOfRange) => Ok(()),
        Err(EditFault::IdsSpent(_)) => Ok(()),
        Err(EditFault::TooMany(_)) => Ok(()),
        Err(EditFault::NoMemory) => Err(NoMemory),
    }
}
