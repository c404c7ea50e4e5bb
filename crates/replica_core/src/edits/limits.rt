//! What refuses an edit before it begins.

ghost use Rattle.std.specs.Prelude.{◌≡◌, ◌≤◌, ◌+◌, ◌^◌, None, Some, IfErr, IfOk, OnOk};
ghost use Rattle.origin_model.specs.edits.Edits.{next_above};
ghost use Rattle.origin_model.specs.edits.Refusal.{next_of_own, refused_elements, refused_ops};
ghost use Rattle.origin_model.specs.edits.State.{IsSound};

use crate::{EditFault, Replica};

/// How many counters there are.
const COUNTERS: u64 = 1 << 32;

/// The counter after the greatest one.
fn next_after(greatest: Option<u32>) -> u64
    ensures value { result ≡ next_above greatest }
    ensures within { result ≤ 2 ^ 32 }
{
    match greatest {
        Some(counter) => u64::from(counter) + 1,
        None => 0,
    }
}

impl Replica {
    /// Whether so many operations more may come.
    pub(crate) fn check_room(&self, count: usize) -> Result<(), EditFault>
        ensures ok { OnOk result (refused_ops self.now count ≡ None) }
        ensures few { OnOk result (count ≤ self.now.most) }
        ensures err { IfErr result (λ fault. refused_ops self.now count ≡ Some fault) }
        ensures sound { IsSound self.now }
    {
        let room = self.room();
        if count <= room {
            return Ok(());
        }
        let held = self.accepted().len() + self.waiting().len();
        Err(EditFault::TooMany(held as u32))
    }

    /// The counter of the next element, where so many elements may come.
    pub(crate) fn check_elements(&self, count: usize) -> Result<u64, EditFault>
        ensures ok { IfOk result (λ next. next ≡ next_of_own self.now) }
        ensures counters { IfOk result (λ next. next + count ≤ 2 ^ 32) }
        ensures few { OnOk result (count ≤ self.now.most) }
        ensures may { OnOk result (refused_elements self.now count ≡ None) }
        ensures err { IfErr result (λ fault. refused_elements self.now count ≡ Some fault) }
        ensures sound { IsSound self.now }
    {
        let greatest = self.greatest_counter();
        let next = next_after(greatest);
        if count as u64 > COUNTERS - next {
            return Err(EditFault::IdsSpent(greatest.unwrap_or(0)));
        }
        self.check_room(count)?;
        Ok(next)
    }
}
