//! A section retitled: a note that says what its title is.
ghost use Rattle.std.specs.Prelude.{◌≡◌, ◌≢◌, ◌+◌, ◌<◌, ◌^◌, IfErr, IfOk, None, Some, OnErr, OnOk, true, [], ◌∷◌};
ghost use Rattle.std.specs.Str.{chars, encode_utf8_all};
ghost use Rattle.origin_model.specs.edits.Noting.{ShowsAsBefore};
ghost use Rattle.origin_model.specs.edits.State.{IsSound};
ghost use Rattle.origin_model.specs.taking.Taking.{IsSettled};
ghost use Rattle.catalogue_notes.specs.Arranging.{IsStamped};
ghost use Rattle.catalogue_notes.specs.Claims.{is_title};
ghost use Rattle.catalogue_notes.specs.Lift.{stamp};
ghost use Rattle.catalogue_notes.specs.Making.{retitle_body};
ghost use Rattle.catalogue_notes.specs.Moving.{IsRetitleMade, IsRetitlePlan, RefusesFor, TellsAbsence};
ghost use Rattle.catalogue_notes.specs.Moving.{retitle_refusal, section_cause, stamps_cause};

use crate::RETITLE_CODE;
use crate::arranger::Arranger;
use crate::move_note::section_at;
use crate::moving::{MoveFault, Plan, make};
use crate::stamped::Stamped;
use fugue_ids::{Body, ElementId, NoMemory, NoteNames, Title};
use replica_core::Replica;
use std::alloc::Global;

fn names_of(section: ElementId) -> NoteNames
    ensures { result ≡ section ∷ [] }
{
    NoteNames::read(&[section]).unwrap()
}

/// The body of a retitle.
fn body_of(alloc: Global, stamp: u32, title: &Title) -> Result<Body, NoMemory>
    ensures text { OnOk result (is_title (encode_utf8_all title.now) ≡ true) }
    ensures scalars { OnOk result (chars (encode_utf8_all title.now) ≡ title.now) }
    ensures body { IfOk result (λ body. body ≡ retitle_body stamp (encode_utf8_all title.now)) }
{
    let mut bytes = Vec::from_slice(alloc, &stamp.to_be_bytes())?;
    bytes.extend_from_slice(title.as_str().as_bytes())?;
    match Body::read(alloc, bytes.as_slice()) {
        Ok(body) => Ok(body),
        Err(_) => Err(NoMemory),
    }
}

/// The names and the body of the note that gives section k the title.
fn plan_retitle(
    alloc: Global,
    replica: &Replica,
    found: &Stamped,
    k: usize,
    title: &Title,
) -> Result<Plan, MoveFault>
    requires section { section_cause replica.now k ≡ None }
    requires found { IsStamped replica.now.held.history found.now }
    ensures ok { IfOk result (λ plan. IsRetitlePlan replica.now k title.now plan) }
    ensures err { IfErr result (λ fault. fault ≢ MoveFault.NoMemory → stamps_cause replica.now ≡ Some fault) }
{
    let body = body_of(alloc, found.next()?, title)?;
    Ok(Plan {
        names: names_of(section_at(&found.arrangement, k)),
        body,
    })
}

/// Gives the section k, which is there, the title, by what was found.
pub(crate) fn make_retitle(
    alloc: Global,
    replica: &mut Replica,
    found: &Stamped,
    k: usize,
    title: &Title,
) -> Result<u32, MoveFault>
    requires settled { IsSettled replica.old.held }
    requires sound { IsSound replica.old }
    requires section { section_cause replica.old k ≡ None }
    requires found { IsStamped replica.old.held.history found.now }
    ensures made { IfOk result (λ n. IsRetitleMade replica.old replica.new k title.now n) }
    ensures shown { ShowsAsBefore replica.old replica.new }
    ensures absent { TellsAbsence (section_cause replica.old k) result }
    ensures refused { RefusesFor (retitle_refusal replica.old k) result }
    ensures unmade { OnErr result (replica.new ≡ replica.old) }
    ensures left_over { OnOk result (stamp replica.old.held.history + 1 < 2 ^ 32) }
    ensures settled { IsSettled replica.new.held }
    ensures sound { IsSound replica.new }
{
    let plan = plan_retitle(alloc, replica, found, k, title)?;
    make(replica, RETITLE_CODE, plan)
}

/// Gives section k, counted from 0 as sections are arranged, the title. Returns how many operations it made: 1.
pub fn retitle(
    alloc: Global,
    replica: &mut Replica,
    k: usize,
    title: Title,
) -> Result<u32, MoveFault>
    requires { IsSettled replica.old.held }
    ensures made { IfOk result (λ n. IsRetitleMade replica.old replica.new k title n) }
    ensures shown { ShowsAsBefore replica.old replica.new }
    ensures absent { TellsAbsence (section_cause replica.old k) result }
    ensures refused { RefusesFor (retitle_refusal replica.old k) result }
    ensures unmade { OnErr result (replica.new ≡ replica.old) }
    ensures settled { IsSettled replica.new.held }
    ensures sound { IsSound replica.new }
{
    Arranger::new().retitle(alloc, replica, k, title)
}
