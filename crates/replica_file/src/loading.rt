//! `Loading`: a replica to which the operations of a file are delivered, up to a limit on their number.
ghost use Rattle.std.specs.Prelude.{◌≡◌, ◌<◌, ◌≤◌, ◌+◌, ◌^◌, ◌∷◌, [], true, length, OnOk, OnErr};
ghost use Rattle.fugue_ids.specs.Runs.{run_from};
ghost use Rattle.op_runs.specs.Deletions.{deletes_up};
ghost use Rattle.fugue_ids.specs.declared.limits.TheConstants.{BUFFER, GREATEST_HOLD, MOST_OPERATIONS};
ghost use Rattle.op_frame.specs.NextRuns.{AreSoundNextOps, ops_given};
ghost use Rattle.origin_model.specs.taking.Taking.{nothing_held};
ghost use Rattle.origin_model.specs.edits.State.{IsSound};
ghost use Rattle.replica_file.specs.Loading.{Feeds, CanTake, IsSameButHeld, WantsMemory};

use crate::header::Header;
use fugue_ids::{ElementId, NoMemory, Op, RunStart};
use op_frame::NextOps;
use origin_model::Tally;
use replica_core::{FeedFault, Replica};
use std::alloc::Global;

/// A replica on its way, that takes in a file's operations.
#[derive(Drop)]
pub(crate) struct Loading {
    pub(crate) replica: Replica,
    /// Whether all operations found their place so far. Those after one too many are not taken in.
    pub(crate) finds_place: bool,
}

impl Loading {
    /// A replica of this header that holds nothing yet.
    pub(crate) fn new(alloc: Global, header: Header, most: u32) -> Loading
        requires some_replica { 0 < header.replica }
        requires some_hold { 0 < header.hold }
        requires hold_within { header.hold ≤ GREATEST_HOLD }
        requires some_most { 0 < most }
        requires most_within { most ≤ MOST_OPERATIONS }
        ensures replica { result.replica
            ≡ record { number = header.replica; hold = header.hold; most = most; held = nothing_held } }
        ensures ready { CanTake result.replica }
        ensures finds_place { result.finds_place ≡ true }
    {
        Loading {
            replica: new_replica(alloc, header, most),
            finds_place: true,
        }
    }

    pub(crate) fn into_replica(self) -> Replica
        ensures { result ≡ self.replica }
    {
        self.replica
    }

    /// Takes in the next operations: a run's Texts, Deletes of neighbours, or one alone. Refusals change nothing and are
    /// no faults, but one too many is noted.
    pub(crate) fn take(&mut self, next: NextOps, text: &[char]) -> Result<(), NoMemory>
        requires ready { CanTake self.old.replica }
        requires sound { AreSoundNextOps next text.now }
        requires short { length text.now ≤ BUFFER }
        ensures feeds { OnOk result (Feeds self.old.finds_place self.old.replica
            self.new.finds_place self.new.replica (ops_given next text.now)) }
        ensures memory { OnErr result
            (WantsMemory self.old.finds_place self.old.replica (ops_given next text.now)) }
        ensures ready { OnOk result (CanTake self.new.replica) }
        ensures same { OnOk result (IsSameButHeld self.old.replica self.new.replica) }
    {
        match next {
            NextOps::Run(start) => self.take_run(&start, text),
            NextOps::Deletes(first, count) => self.take_deletes(first, count),
            NextOps::Single(op) => self.take_one(op),
        }
    }

    fn take_run(&mut self, start: &RunStart, text: &[char]) -> Result<(), NoMemory>
        requires ready { CanTake self.old.replica }
        requires counters { start.now.id.counter + length text.now ≤ 2 ^ 32 }
        requires short { length text.now ≤ BUFFER }
        ensures feeds { OnOk result (Feeds self.old.finds_place self.old.replica
            self.new.finds_place self.new.replica (run_from start.now text.now)) }
        ensures memory { OnErr result
            (WantsMemory self.old.finds_place self.old.replica (run_from start.now text.now)) }
        ensures ready { OnOk result (CanTake self.new.replica) }
        ensures same { OnOk result (IsSameButHeld self.old.replica self.new.replica) }
    {
        if !self.finds_place {
            return Ok(());
        }
        let mut tally = Tally::default();
        match self.replica.feed_run(start, text, &mut tally) {
            Ok(()) => Ok(()),
            Err(FeedFault::TooMany(_most)) => {
                self.finds_place = false;
                Ok(())
            }
            Err(FeedFault::NoMemory) => Err(NoMemory),
        }
    }

    fn take_deletes(&mut self, first: ElementId, count: u32) -> Result<(), NoMemory>
        requires ready { CanTake self.old.replica }
        requires counters { first.counter + count ≤ 2 ^ 32 }
        requires short { count ≤ BUFFER }
        ensures feeds { OnOk result (Feeds self.old.finds_place self.old.replica
            self.new.finds_place self.new.replica (deletes_up first count)) }
        ensures memory { OnErr result
            (WantsMemory self.old.finds_place self.old.replica (deletes_up first count)) }
        ensures ready { OnOk result (CanTake self.new.replica) }
        ensures same { OnOk result (IsSameButHeld self.old.replica self.new.replica) }
    {
        if !self.finds_place {
            return Ok(());
        }
        let mut tally = Tally::default();
        match self.replica.feed_deletes(first, count, &mut tally) {
            Ok(()) => Ok(()),
            Err(FeedFault::TooMany(_most)) => {
                self.finds_place = false;
                Ok(())
            }
            Err(FeedFault::NoMemory) => Err(NoMemory),
        }
    }

    fn take_one(&mut self, op: Op) -> Result<(), NoMemory>
        requires { CanTake self.old.replica }
        ensures feeds { OnOk result (Feeds self.old.finds_place self.old.replica
            self.new.finds_place self.new.replica (op ∷ [])) }
        ensures memory { OnErr result (WantsMemory self.old.finds_place self.old.replica (op ∷ [])) }
        ensures ready { OnOk result (CanTake self.new.replica) }
        ensures same { OnOk result (IsSameButHeld self.old.replica self.new.replica) }
    {
        if !self.finds_place {
            return Ok(());
        }
        let mut tally = Tally::default();
        match self.replica.feed(op, &mut tally) {
            Ok(_kept) => Ok(()),
            Err(FeedFault::TooMany(_most)) => {
                self.finds_place = false;
                Ok(())
            }
            Err(FeedFault::NoMemory) => Err(NoMemory),
        }
    }
}

fn new_replica(alloc: Global, header: Header, most: u32) -> Replica
    requires some_replica { 0 < header.replica }
    requires some_hold { 0 < header.hold }
    requires hold_within { header.hold ≤ GREATEST_HOLD }
    requires some_most { 0 < most }
    requires most_within { most ≤ MOST_OPERATIONS }
    ensures replica { result ≡ record {
      number = header.replica;
      hold = header.hold;
      most = most;
      held = nothing_held;
    } }
    ensures sound { IsSound result }
{
    match Replica::new(alloc, header.replica, header.hold, most) {
        Ok(replica) => replica,
        Err(_) => unreachable!(),
    }
}
