//! A comment withdrawn: a Delete that names it.
ghost use Rattle.std.specs.Prelude.{◌≡◌, ◌-◌, IfOk, OnErr, OnOk, option_map, slice_get};
ghost use Rattle.origin_model.specs.edits.State.{IsSound};
ghost use Rattle.origin_model.specs.taking.Taking.{IsSettled};
ghost use Rattle.passage_remarks.specs.Remarks.{Remark};
ghost use Rattle.passage_remarks.specs.Withdrawing.{IsWithdrawn, RefusesWithdrawal, remark_numbered};

use crate::listing::remark_entries;
use catalogue_notes::outline;
use fugue_ids::{ElementId, NoMemory, Op};
use replica_core::{DeliverFault, Replica};
use std::alloc::Global;

/// Why no comment is withdrawn. Nothing was changed.
#[derive(Clone, Copy, Debug, PartialEq, Eq)]
pub enum WithdrawFault {
    /// There are not so many remarks.
    NoComment,
    /// More would be accepted or pending than may: how many are now.
    TooMany(u32),
    NoMemory,
}

impl From<NoMemory> for WithdrawFault {
    ghost use Rattle.std.specs.Prelude.{◌≡◌};
    ghost use Rattle.passage_remarks.specs.declared.withdrawing.WithdrawFault.TheVariants.{NoMemory as no_memory};

    ghost from_gives = { λ _ e. e ≡ no_memory };

    fn from(_e: NoMemory) -> WithdrawFault {
        WithdrawFault::NoMemory
    }
}

/// The comment of the remark with this number, which counts from 1.
fn numbered_comment(
    alloc: Global,
    replica: &Replica,
    number: u32,
) -> Result<Option<ElementId>, NoMemory>
    ensures comment { IfOk result (λ found. found
        ≡ option_map (λ (r : Remark). r.id) (remark_numbered replica.now.held.history number)) }
    ensures sound { IsSound replica.now }
{
    let sections = outline(alloc, replica)?;
    let entries = remark_entries(alloc, replica, sections.entries())?;
    let index = (number as usize).saturating_sub(1);
    match entries.get(index) {
        Some(entry) => Ok(Some(entry.id)),
        None => Ok(None),
    }
}

/// Withdraws the comment of the remark with this number, which counts from 1.
pub fn withdraw(alloc: Global, replica: &mut Replica, number: u32) -> Result<(), WithdrawFault>
    requires settled { IsSettled replica.old.held }
    ensures made { OnOk result (IsWithdrawn replica.old replica.new number) }
    ensures refused { RefusesWithdrawal replica.old number result }
    ensures unmade { OnErr result (replica.new ≡ replica.old) }
    ensures settled { IsSettled replica.new.held }
    ensures sound { IsSound replica.new }
{
    let Some(target) = numbered_comment(alloc, replica, number)? else {
        return Err(WithdrawFault::NoComment);
    };
    match replica.deliver(Op::Delete { target }) {
        Ok(_) => Ok(()),
        Err(DeliverFault::TooMany(_, held)) => Err(WithdrawFault::TooMany(held)),
        Err(_) => Err(WithdrawFault::NoMemory),
    }
}
