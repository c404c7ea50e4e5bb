//! What a move or a retitle is made by.
ghost use Rattle.std.specs.Prelude.{◌≡◌, ◌+◌, ◌<◌, ◌^◌, IfErr, IfOk, IfSome, List, OnOk, Some};
ghost use Rattle.fugue_ids.specs.declared.op.Op.{Op as OpOf};
ghost use Rattle.origin_model.specs.edits.State.{IsSound, State as StateOf};
ghost use Rattle.catalogue_notes.specs.Arranging.{IsAfterMove, IsAfterRetitle, IsStamped};
ghost use Rattle.catalogue_notes.specs.Lift.{stamp as stamp_on};
ghost use Rattle.catalogue_notes.specs.Moving.{stamps_cause};

use crate::arrangement::Arrangement;
use crate::move_note::stamp_of;
use crate::moving::MoveFault;
use fugue_ids::{NoMemory, Title};
use replica_core::Replica;
use std::alloc::Global;

/// The sections as they are arranged, and the greatest stamp of a valid move or retitle.
#[derive(Drop)]
pub(crate) struct Stamped {
    pub arrangement: Arrangement,
    pub stamp: u32,
}

impl Stamped {
    /// That of the accepted operations.
    pub fn of(alloc: Global, replica: &Replica) -> Result<Stamped, NoMemory>
        ensures found { IfOk result (λ found. IsStamped replica.now.held.history found) }
        ensures sound { IsSound replica.now }
    {
        let arrangement = Arrangement::of(alloc, replica)?;
        let stamp = stamp_of(alloc, replica, &arrangement)?;
        Ok(Stamped { arrangement, stamp })
    }

    /// The stamp of the next move or retitle. It takes no memory.
    pub fn next(&self) -> Result<u32, MoveFault>
        ensures ok { (h : List OpOf) → IsStamped h self.now
            → IfOk result (λ next. (next ≡ stamp_on h + 1) × (stamp_on h + 1 < 2 ^ 32)) }
        ensures err { (s : StateOf) → IsStamped s.held.history self.now
            → IfErr result (λ fault. stamps_cause s ≡ Some fault) }
    {
        if self.stamp == u32::MAX {
            return Err(MoveFault::StampsSpent);
        }
        Ok(self.stamp + 1)
    }

    /// The same after a move of the section k to j. After an allocation failure it is of no use.
    pub fn take_move(&mut self, replica: &Replica, k: usize, j: usize) -> Result<(), NoMemory>
        requires behind { IsAfterMove replica.now self.old k j }
        requires sound { IsSound replica.now }
        ensures { OnOk result (IsStamped replica.now.held.history self.new) }
    {
        self.arrangement.take_note(replica)?;
        self.arrangement.put(k, j)?;
        self.stamp += 1;
        Ok(())
    }

    /// The same after a retitle. After an allocation failure it is of no use.
    pub fn take_retitle(
        &mut self,
        replica: &Replica,
        k: usize,
        title: &Title,
    ) -> Result<(), NoMemory>
        requires behind { IsAfterRetitle replica.now self.old k title.now }
        requires sound { IsSound replica.now }
        ensures { OnOk result (IsStamped replica.now.held.history self.new) }
    {
        self.arrangement.take_note(replica)?;
        self.stamp += 1;
        Ok(())
    }
}
