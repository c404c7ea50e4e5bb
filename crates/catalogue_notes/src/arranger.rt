//! Moves and retitles one after another.
ghost use Rattle.std.specs.Prelude.{◌≡◌, IfOk, List, None, OnErr};
ghost use Rattle.fugue_ids.specs.declared.op.Op.{Op as OpOf};
ghost use Rattle.origin_model.specs.edits.Noting.{ShowsAsBefore};
ghost use Rattle.origin_model.specs.edits.State.{IsSound};
ghost use Rattle.origin_model.specs.taking.Taking.{IsSettled};
ghost use Rattle.catalogue_notes.specs.Arranging.{Arranges, IsStamped};
ghost use Rattle.catalogue_notes.specs.Moving.{IsMoveMade, IsRetitleMade, RefusesFor, TellsAbsence};
ghost use Rattle.catalogue_notes.specs.Moving.{move_refusal, place_cause, retitle_refusal, section_cause};

use crate::moving::{MoveFault, find_place, find_section, make_move};
use crate::retitling::make_retitle;
use crate::stamped::Stamped;
use fugue_ids::{NoMemory, Title};
use replica_core::Replica;
use std::alloc::Global;

/// Makes moves and retitles of one replica, one after another, with nothing else between them. What the first one finds
/// out is kept up to date for the next ones, so the sections and notes are gone through once.
#[derive(Drop)]
pub struct Arranger {
    /// None before the first call, and where memory ran out or a call was refused: the next one finds it out anew.
    found: Option<Stamped>,
}

impl Arranger {
    /// One for any replica. It takes no memory.
    pub fn new() -> Arranger
        ensures arranges { (h : List OpOf) → Arranges h result }
    {
        Arranger { found: None }
    }

    /// Moves the section k, counted from 0 as sections are arranged, to j. Returns 1.
    pub fn move_section(
        &mut self,
        alloc: Global,
        replica: &mut Replica,
        k: usize,
        j: usize,
    ) -> Result<u32, MoveFault>
        requires settled { IsSettled replica.old.held }
        requires arranges { Arranges replica.old.held.history self.old }
        ensures made { IfOk result (λ n. IsMoveMade replica.old replica.new k j n) }
        ensures shown { ShowsAsBefore replica.old replica.new }
        ensures absent { TellsAbsence (place_cause replica.old k j) result }
        ensures refused { RefusesFor (move_refusal replica.old k j) result }
        ensures unmade { OnErr result (replica.new ≡ replica.old) }
        ensures arranges { Arranges replica.new.held.history self.new }
        ensures settled { IsSettled replica.new.held }
        ensures sound { IsSound replica.new }
    {
        find_place(replica, k, j)?;
        let mut found = self.take(alloc, replica)?;
        let made = make_move(alloc, replica, &found, k, j)?;
        if let Ok(()) = found.take_move(replica, k, j) {
            self.found = Some(found);
        }
        Ok(made)
    }

    /// Gives the section k, counted from 0 as sections are arranged, the title. Returns 1.
    pub fn retitle(
        &mut self,
        alloc: Global,
        replica: &mut Replica,
        k: usize,
        title: Title,
    ) -> Result<u32, MoveFault>
        requires settled { IsSettled replica.old.held }
        requires arranges { Arranges replica.old.held.history self.old }
        ensures made { IfOk result (λ n. IsRetitleMade replica.old replica.new k title n) }
        ensures shown { ShowsAsBefore replica.old replica.new }
        ensures absent { TellsAbsence (section_cause replica.old k) result }
        ensures refused { RefusesFor (retitle_refusal replica.old k) result }
        ensures unmade { OnErr result (replica.new ≡ replica.old) }
        ensures arranges { Arranges replica.new.held.history self.new }
        ensures settled { IsSettled replica.new.held }
        ensures sound { IsSound replica.new }
    {
        find_section(replica, k)?;
        let mut found = self.take(alloc, replica)?;
        let made = make_retitle(alloc, replica, &found, k, &title)?;
        if let Ok(()) = found.take_retitle(replica, k, &title) {
            self.found = Some(found);
        }
        Ok(made)
    }

    /// What is known of the replica, or is found out.
    fn take(&mut self, alloc: Global, replica: &Replica) -> Result<Stamped, NoMemory>
        requires { Arranges replica.now.held.history self.old }
        ensures found { IfOk result (λ found. IsStamped replica.now.held.history found) }
        ensures none { self.new.found ≡ None }
    {
        match self.found.take() {
            Some(found) => Ok(found),
            None => Stamped::of(alloc, replica),
        }
    }
}
