//! The turns of two authors who do not hear of each other.
ghost use Rattle.std.specs.Prelude.{◌≡◌, [], ◌∷◌, length, OnOk};
ghost use Rattle.origin_model.specs.edits.Edits.{Put, Cut};
ghost use Rattle.origin_model.specs.taking.Taking.{IsSettled};
ghost use Rattle.list_spec.specs.Worlds.{replica_after_edit};
ghost use Rattle.bulk_world.specs.Edit.{command_for};
ghost use Rattle.bulk_world.specs.Generator.{drawn_command};
ghost use Rattle.bulk_world.specs.Turns.{IsAuthor, TurnsLead, first_text};

use crate::generator::{Edit, edit_of, next, unless_memory_wants};
use fugue_ids::NoMemory;
use replica_core::Replica;

/// The authors take so many turns, the first one first.
pub(crate) fn take_turns(
    first: &mut Replica,
    second: &mut Replica,
    seed: u32,
    count: u32,
) -> Result<(), NoMemory>
    requires first { IsAuthor 1 first.old }
    requires second { IsAuthor 2 second.old }
    requires first_settled { IsSettled first.old.held }
    requires second_settled { IsSettled second.old.held }
    ensures leads { OnOk result (TurnsLead count 1 seed first.old second.old first.new second.new) }
    ensures first_settled { IsSettled first.new.held }
    ensures second_settled { IsSettled second.new.held }
{
    let mut x = seed;
    'turns: for done in 0..count {
        let turn = done + 1;
        x = next(x);
        if turn % 2 == 1 {
            take_turn(first, x)?;
        } else {
            take_turn(second, x)?;
        }
    }
    Ok(())
}

/// One turn, by the number x.
fn take_turn(replica: &mut Replica, x: u32) -> Result<(), NoMemory>
    requires { IsSettled replica.old.held }
    ensures ok { OnOk result (replica.new ≡ replica_after_edit (drawn_command x (length (first_text replica.old))) replica.old) }
    ensures settled { IsSettled replica.new.held }
{
    let shown = replica.text_len(0).unwrap_or(0);
    match edit_of(x, shown) {
        Edit::Put(at, letter) => put(replica, at, letter),
        Edit::Cut(at) => cut(replica, at),
    }
}

/// A refused edit changes nothing.
fn put(replica: &mut Replica, at: usize, letter: char) -> Result<(), NoMemory>
    requires { IsSettled replica.old.held }
    ensures ok { OnOk result (replica.new ≡ replica_after_edit (Put 0 at (letter ∷ [])) replica.old) }
    ensures settled { IsSettled replica.new.held }
{
    let mut buffer = [0; 4];
    let text = letter.encode_utf8(&mut buffer);
    unless_memory_wants(&replica.put(0, at, text))
}

/// A refused edit changes nothing.
fn cut(replica: &mut Replica, at: usize) -> Result<(), NoMemory>
    requires { IsSettled replica.old.held }
    ensures ok { OnOk result (replica.new ≡ replica_after_edit (Cut 0 at 1) replica.old) }
    ensures settled { IsSettled replica.new.held }
{
    unless_memory_wants(&replica.cut(0, at, 1))
}
