//! Naming a version: a note that marks the operations accepted so far, and why it may be refused.
ghost use Rattle.std.specs.Prelude.{◌≡◌, [], Some, true, length, IfOk, OnErr, OnOk};
ghost use Rattle.origin_model.specs.edits.Noting.{IsNoted, ShowsAsBefore};
ghost use Rattle.origin_model.specs.edits.State.{IsSound};
ghost use Rattle.origin_model.specs.taking.Taking.{IsSettled};
ghost use Rattle.version_views.specs.Naming.{RefusesVersion, without_position};
ghost use Rattle.version_views.specs.Versions.{is_name as is_name_of, version_with};

use crate::VERSION_CODE;
use fugue_ids::{Body, NoMemory, NoteNames};
use replica_core::{EditFault, Replica};

/// Why a version was not named, in the order in which the causes are looked for. Nothing was changed.
#[derive(Clone, Copy, Debug, PartialEq, Eq)]
pub enum VersionFault {
    /// The note needs a counter past the greatest number: the greatest counter so far.
    IdsSpent(u32),
    /// More would be accepted or wait than may: how many do now.
    TooMany(u32),
    NoMemory,
}

/// Names what the replica has accepted so far. Returns 1, the number of operations that were made.
pub fn name_version(replica: &mut Replica, name: Body) -> Result<u32, VersionFault>
    requires settled { IsSettled replica.old.held }
    requires name { is_name_of name ≡ true }
    ensures made { IfOk result (λ n. IsNoted replica.old replica.new [] VERSION_CODE name n) }
    ensures named { OnOk result (version_with replica.new.held.history replica.new.number name
        ≡ Some (length replica.old.held.history)) }
    ensures refused { RefusesVersion replica.old result }
    ensures shown { ShowsAsBefore replica.old replica.new }
    ensures unmade { OnErr result (replica.new ≡ replica.old) }
    ensures settled { IsSettled replica.new.held }
    ensures sound { IsSound replica.new }
{
    let names = NoteNames::read(&[]).unwrap();
    match replica.note(names, VERSION_CODE, name) {
        Ok(made) => Ok(made),
        Err(fault) => Err(version_fault(fault)),
    }
}

/// A note is refused for no section and for no position.
fn version_fault(fault: EditFault) -> VersionFault
    ensures { result ≡ without_position fault }
{
    match fault {
        EditFault::IdsSpent(greatest) => VersionFault::IdsSpent(greatest),
        EditFault::TooMany(held) => VersionFault::TooMany(held),
        EditFault::NoSection | EditFault::OutOfRange | EditFault::NoMemory =>
            VersionFault::NoMemory,
    }
}
