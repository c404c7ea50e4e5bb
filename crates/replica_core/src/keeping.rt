//! Taking in, with a copy of each operation that is kept, for those who save what was kept.
ghost use Rattle.std.specs.Prelude.{◌≡◌, ◌↔◌, Err, OnOk, OnErr, IfErr};
ghost use Rattle.origin_model.specs.taking.Taking.{answer, TooMany, IsSettled};
ghost use Rattle.origin_model.specs.edits.State.{IsSound};
ghost use Rattle.replica_core.specs.Answering.{StaysBelow};
ghost use Rattle.replica_core.specs.Keeping.{TakesInKeeping, LeavesUnkept};

use crate::open_replica::OpenReplica;
use crate::{Copies, Replica};
use fugue_ids::{NoMemory, Op};
use origin_model::Tally;

/// Why an operation was not taken in to the end.
#[derive(Clone, Copy, Debug)]
pub enum FeedFault {
    /// As many are accepted or wait as may: the number. Nothing was changed.
    TooMany(u32),
    /// Either nothing was changed, or the operation stands and settling stopped on its way: `settle_one` goes on.
    NoMemory,
}

impl From<NoMemory> for FeedFault {
    ghost use Rattle.std.specs.Prelude.{◌≡◌};
    ghost use Rattle.replica_core.specs.declared.keeping.FeedFault.TheVariants.{NoMemory as NoMemoryFound};

    ghost from_gives = { λ _ fault. fault ≡ NoMemoryFound };

    fn from(_: NoMemory) -> FeedFault {
        FeedFault::NoMemory
    }
}

impl Replica {
    /// Feeds the operation, and appends a copy of it to `kept` where it was accepted or waits.
    ///
    /// The copy is made first, but for where as many are held as may be: then nothing more is kept, and one that is too
    /// many is reported as that and not as an allocation failure. An allocation failure is also the answer where `kept`
    /// is full, as a list of runs is with `MOST_LISTED` operations. After a fault `kept` is as before.
    pub fn feed_keeping<K: Copies>(
        &mut self,
        op: Op,
        tally: &mut Tally,
        kept: &mut K,
    ) -> Result<(), FeedFault>
        requires settled { IsSettled self.old.held }
        requires counts_rise { StaysBelow tally.old }
        ensures ok { OnOk result (TakesInKeeping self.old self.new op tally.old tally.new (K.ops kept.old) (K.ops kept.new)) }
        ensures too_many { (result ≡ Err (FeedFault.TooMany self.old.most))
            ↔ (answer self.old.hold self.old.most self.old.held op ≡ TooMany) }
        ensures err { IfErr result (λ fault. LeavesUnkept self.old self.new op tally.old tally.new fault) }
        ensures unkept { OnErr result (K.ops kept.new ≡ K.ops kept.old) }
        ensures sound { IsSound self.new }
    {
        let fed = self.inner.feed_keeping(op, tally, kept);
        self.inner.close();
        fed
    }
}

impl OpenReplica {
    #[tactic(auto, using(crate::proofs::KeepingLemmas::full_keeps_none, crate::proofs::KeepingLemmas::room_for_one, crate::proofs::KeepingLemmas::kept_has_place, crate::proofs::NotingLemmas::back_again))]
    pub fn feed_keeping<K: Copies>(
        &mut self,
        op: Op,
        tally: &mut Tally,
        kept: &mut K,
    ) -> Result<(), FeedFault>
        requires settled { IsSettled self.old.state.held }
        requires counts_rise { StaysBelow tally.old }
        ensures ok { OnOk result (TakesInKeeping self.old.state self.new.state op tally.old tally.new
            (K.ops kept.old) (K.ops kept.new)) }
        ensures too_many { (result ≡ Err (FeedFault.TooMany self.old.state.most))
            ↔ (answer self.old.state.hold self.old.state.most self.old.state.held op ≡ TooMany) }
        ensures err { IfErr result (λ fault. LeavesUnkept self.old.state self.new.state op tally.old tally.new fault) }
        ensures unkept { OnErr result (K.ops kept.new ≡ K.ops kept.old) }
        ensures sound { IsSound self.new.state }
    {
        if self.room() == 0 {
            self.feed(op, tally)?;
            return Ok(());
        }
        let Ok(()) = kept.push_copy(self.alloc, &op) else {
            drop(op);
            return Err(FeedFault::NoMemory);
        };
        match self.feed(op, tally) {
            Ok(true) => Ok(()),
            Ok(false) => {
                kept.drop_newest();
                Ok(())
            }
            Err(fault) => {
                kept.drop_newest();
                Err(fault)
            }
        }
    }
}
