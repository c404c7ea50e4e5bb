//! Reads a stream of frames to its end, delivers its operations to a replica, and counts the results.
ghost use Rattle.std.specs.Prelude.{◌≡◌, ◌≤◌, length, IfOk, IfErr, IsErrOf};
ghost use Rattle.fugue_ids.specs.declared.limits.TheConstants.{GREATEST_HOLD};
ghost use Rattle.outer_ports.specs.Sources.{KeepsCount};
ghost use Rattle.origin_model.specs.taking.Taking.{IsSettled};
ghost use Rattle.command_kinds.specs.Intake.{IsReady, IntakeSteps, TakesInStream, IntakeStopsFor};
ghost use Rattle.command_kinds.specs.declared.refusal.Refusal.TheVariants.{Outside};

use crate::kept::Kept;
use crate::refusal::Refusal;
use fugue_ids::STREAM_LIMIT;
use op_frame::FrameReader;
use origin_model::Tally;
use outer_ports::Source;
use replica_core::Replica;
use std::alloc::Global;

/// A stream on its way into a replica, and what became of its operations so far.
#[derive(Drop)]
struct Intake {
    reader: FrameReader,
    tally: Tally,
    /// The scalars of the Texts that the reader gave at once.
    text: Vec<char>,
}

impl Intake {
    /// Takes in the next operations. Returns whether there were some.
    fn step<S: Source>(
        &mut self,
        replica: &mut Replica,
        source: &mut S,
        kept: &mut Kept,
    ) -> Result<bool, Refusal>
        requires { IsReady
            (record { reader = self.old.reader; replica = replica.old; counts = self.old.tally; kept = kept.old }) }
        ensures steps { IntakeSteps
            (record { reader = self.old.reader; replica = replica.old; counts = self.old.tally; kept = kept.old })
            (record { reader = self.new.reader; replica = replica.new; counts = self.new.tally; kept = kept.new })
            (S.seen source.old) (S.seen source.new) result }
        ensures count { KeepsCount (S.seen source.old) (S.seen source.new) (IsErrOf result Outside) }
    {
        let Some(next) = self.reader.next_run(source, &mut self.text)? else {
            return Ok(false);
        };
        kept.feed_next(replica, next, self.text.as_slice(), &mut self.tally)?;
        Ok(true)
    }
}

/// Takes the operations of all that the source has left into the replica, and answers what became of them.
pub(crate) fn take_in<S: Source>(
    alloc: Global,
    replica: &mut Replica,
    source: &mut S,
    kept: &mut Kept,
) -> Result<Tally, Refusal>
    requires settled { IsSettled replica.old.held }
    requires few { length replica.old.held.waiting ≤ GREATEST_HOLD }
    ensures ok { IfOk result
        (λ tally. TakesInStream replica.old (S.seen source.old) (S.seen source.new) replica.new tally kept.old kept.new) }
    ensures err { IfErr result (λ why. IntakeStopsFor why replica.old (S.seen source.old)) }
    ensures count { KeepsCount (S.seen source.old) (S.seen source.new) (IsErrOf result Outside) }
{
    let mut intake = Intake {
        reader: FrameReader::new(alloc, STREAM_LIMIT)?,
        tally: Tally::default(),
        text: Vec::new(alloc),
    };
    'frames: while intake.step(replica, source, kept)? {}
    Ok(intake.tally)
}
