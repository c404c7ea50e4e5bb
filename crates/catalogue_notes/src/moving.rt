//! A section moved: a note that says where it stands.
ghost use Rattle.std.specs.Prelude.{◌≡◌, ◌≢◌, ◌+◌, ◌<◌, ◌^◌, IfErr, IfOk, None, Some, OnErr, OnOk};
ghost use Rattle.origin_model.specs.edits.Noting.{AreHeld, IsNoted, ShowsAsBefore};
ghost use Rattle.origin_model.specs.edits.State.{IsSound};
ghost use Rattle.origin_model.specs.taking.Taking.{IsSettled};
ghost use Rattle.catalogue_notes.specs.Arranging.{IsStamped};
ghost use Rattle.catalogue_notes.specs.Lift.{stamp};
ghost use Rattle.catalogue_notes.specs.Moving.{IsMoveMade, IsMovePlan, NoteRefusesAs, RefusesFor, TellsAbsence};
ghost use Rattle.catalogue_notes.specs.Moving.{as_move_fault, move_refusal, place_cause, section_cause, stamps_cause};

use crate::MOVE_CODE;
use crate::arranger::Arranger;
use crate::move_note::{body_of, gap_for, names_of, section_at};
use crate::stamped::Stamped;
use fugue_ids::{Body, NoMemory, NoteNames};
use origin_model::EditFault;
use replica_core::Replica;
use std::alloc::Global;

/// Why a section was not moved or retitled, in the order in which the causes are looked for. Nothing was changed.
#[derive(Clone, Copy, Debug, PartialEq, Eq)]
pub enum MoveFault {
    /// There are not so many shown sections.
    NoSection,
    /// There are not so many places.
    NoPlace,
    /// The greatest stamp there is was given to a move or retitle.
    StampsSpent,
    /// The note needs a counter past the greatest number: the greatest counter so far.
    IdsSpent(u32),
    /// More would be accepted or wait than may: how many do now.
    TooMany(u32),
    NoMemory,
}

impl From<NoMemory> for MoveFault {
    ghost use Rattle.std.specs.Prelude.{◌≡◌};
    ghost use Rattle.catalogue_notes.specs.declared.moving.MoveFault.TheVariants.{NoMemory as no_memory};

    ghost from_gives = { λ _ e. e ≡ no_memory };

    fn from(_e: NoMemory) -> MoveFault {
        MoveFault::NoMemory
    }
}

/// What a note fails for, as a move tells it: notes have no section and no position of their own.
pub(crate) fn fault_of(fault: EditFault) -> MoveFault
    ensures { result ≡ as_move_fault fault }
{
    match fault {
        EditFault::IdsSpent(greatest) => MoveFault::IdsSpent(greatest),
        EditFault::TooMany(held) => MoveFault::TooMany(held),
        EditFault::NoSection | EditFault::OutOfRange | EditFault::NoMemory => MoveFault::NoMemory,
    }
}

/// The names and the body of a note to be made.
#[derive(Drop)]
pub(crate) struct Plan {
    pub names: NoteNames,
    pub body: Body,
}

/// Whether there is such a section. It takes no memory.
pub(crate) fn find_section(replica: &Replica, k: usize) -> Result<(), MoveFault>
    ensures ok { OnOk result (section_cause replica.now k ≡ None) }
    ensures err { IfErr result (λ fault. section_cause replica.now k ≡ Some fault) }
    ensures sound { IsSound replica.now }
{
    if k >= replica.section_count() {
        return Err(MoveFault::NoSection);
    }
    Ok(())
}

/// Whether there is such a section, and such a place. It takes no memory.
pub(crate) fn find_place(replica: &Replica, k: usize, j: usize) -> Result<(), MoveFault>
    ensures ok { OnOk result (place_cause replica.now k j ≡ None) }
    ensures err { IfErr result (λ fault. place_cause replica.now k j ≡ Some fault) }
    ensures sound { IsSound replica.now }
{
    find_section(replica, k)?;
    if j >= replica.section_count() {
        return Err(MoveFault::NoPlace);
    }
    Ok(())
}

/// What moves the section k to j.
fn plan_move(
    alloc: Global,
    replica: &Replica,
    found: &Stamped,
    k: usize,
    j: usize,
) -> Result<Plan, MoveFault>
    requires place { place_cause replica.now k j ≡ None }
    requires found { IsStamped replica.now.held.history found.now }
    ensures ok { IfOk result (λ plan. IsMovePlan replica.now k j plan) }
    ensures err { IfErr result (λ fault. fault ≢ MoveFault.NoMemory → stamps_cause replica.now ≡ Some fault) }
{
    let stamp = found.next()?;
    let gap = gap_for(&found.arrangement, k, j);
    let body = body_of(alloc, stamp, &gap)?;
    Ok(Plan {
        names: names_of(section_at(&found.arrangement, k), &gap),
        body,
    })
}

/// Makes the note of a plan.
pub(crate) fn make(replica: &mut Replica, code: u8, plan: Plan) -> Result<u32, MoveFault>
    requires settled { IsSettled replica.old.held }
    requires held { AreHeld replica.old.held.history plan.names }
    ensures made { IfOk result (λ n. IsNoted replica.old replica.new plan.names code plan.body n) }
    ensures shown { ShowsAsBefore replica.old replica.new }
    ensures refused { NoteRefusesAs replica.old result }
    ensures unmade { OnErr result (replica.new ≡ replica.old) }
    ensures settled { IsSettled replica.new.held }
    ensures sound { IsSound replica.new }
{
    match replica.note(plan.names, code, plan.body) {
        Ok(count) => Ok(count),
        Err(fault) => Err(fault_of(fault)),
    }
}

/// Moves the section k, which is there, to j, by what was found.
pub(crate) fn make_move(
    alloc: Global,
    replica: &mut Replica,
    found: &Stamped,
    k: usize,
    j: usize,
) -> Result<u32, MoveFault>
    requires settled { IsSettled replica.old.held }
    requires sound { IsSound replica.old }
    requires place { place_cause replica.old k j ≡ None }
    requires found { IsStamped replica.old.held.history found.now }
    ensures made { IfOk result (λ n. IsMoveMade replica.old replica.new k j n) }
    ensures shown { ShowsAsBefore replica.old replica.new }
    ensures absent { TellsAbsence (place_cause replica.old k j) result }
    ensures refused { RefusesFor (move_refusal replica.old k j) result }
    ensures unmade { OnErr result (replica.new ≡ replica.old) }
    ensures left_over { OnOk result (stamp replica.old.held.history + 1 < 2 ^ 32) }
    ensures settled { IsSettled replica.new.held }
    ensures sound { IsSound replica.new }
{
    let plan = plan_move(alloc, replica, found, k, j)?;
    make(replica, MOVE_CODE, plan)
}

/// Moves the section k, counted from 0 as sections are arranged, to j. Returns 1.
pub fn move_section(
    alloc: Global,
    replica: &mut Replica,
    k: usize,
    j: usize,
) -> Result<u32, MoveFault>
    requires { IsSettled replica.old.held }
    ensures made { IfOk result (λ n. IsMoveMade replica.old replica.new k j n) }
    ensures shown { ShowsAsBefore replica.old replica.new }
    ensures absent { TellsAbsence (place_cause replica.old k j) result }
    ensures refused { RefusesFor (move_refusal replica.old k j) result }
    ensures unmade { OnErr result (replica.new ≡ replica.old) }
    ensures settled { IsSettled replica.new.held }
    ensures sound { IsSound replica.new }
{
    Arranger::new().move_section(alloc, replica, k, j)
}
