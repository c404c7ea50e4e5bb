//! `ReviseFault`: why a revision stopped, with conversions from the faults of its edits and moves.
use catalogue_notes::MoveFault;
use fugue_ids::NoMemory;
use origin_model::EditFault;

/// Why a revision stopped: an edit, or a move or retitle, was refused, or memory ran out.
#[derive(Clone, Copy, Debug)]
pub enum ReviseFault {
    Edit(EditFault),
    Move(MoveFault),
}

impl From<EditFault> for ReviseFault {
    ghost use Rattle.std.specs.Prelude.{◌≡◌};
    ghost use Rattle.draft_plan.specs.declared.fault.ReviseFault.TheVariants.{Edit as edit};

    ghost from_gives = { λ fault e. e ≡ edit fault };

    fn from(fault: EditFault) -> ReviseFault {
        ReviseFault::Edit(fault)
    }
}

impl From<MoveFault> for ReviseFault {
    ghost use Rattle.std.specs.Prelude.{◌≡◌};
    ghost use Rattle.draft_plan.specs.declared.fault.ReviseFault.TheVariants.{Move as moving};

    ghost from_gives = { λ fault e. e ≡ moving fault };

    fn from(fault: MoveFault) -> ReviseFault {
        ReviseFault::Move(fault)
    }
}

impl From<NoMemory> for ReviseFault {
    ghost use Rattle.std.specs.Prelude.{◌≡◌};
    ghost use Rattle.origin_model.specs.declared.edit_fault.EditFault.TheVariants.{NoMemory as no_memory};
    ghost use Rattle.draft_plan.specs.declared.fault.ReviseFault.TheVariants.{Edit as edit};

    ghost from_gives = { λ _ e. e ≡ edit no_memory };

    fn from(_e: NoMemory) -> ReviseFault {
        ReviseFault::Edit(EditFault::NoMemory)
    }
}
