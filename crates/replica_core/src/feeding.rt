//! Taking in a run: its letters go in as one where nothing else is asked of them.
ghost use Rattle.std.specs.Prelude.{◌≡◌, ◌<◌, ◌≤◌, ◌+◌, ◌^◌, ◌++◌, IfErr, IfOk, IsTrue, OnOk, length, take};
ghost use Rattle.std.specs.Prelude.{All, true, ◌↔◌};
ghost use Rattle.fugue_ids.specs.Runs.{run_from, text_by};
ghost use Rattle.fugue_ids.specs.declared.limits.TheConstants.{MOST_OPERATIONS};
ghost use Rattle.origin_model.specs.edits.State.{IsSound};
ghost use Rattle.origin_model.specs.operations.History.{has_op};
ghost use Rattle.origin_model.specs.operations.Verdict.{verdict as verdict_on};
ghost use Rattle.origin_model.specs.declared.operations.Verdict.TheVariants.{Ready};
ghost use Rattle.origin_model.specs.taking.Taking.{IsSettled, kept_from};
ghost use Rattle.replica_core.specs.Feeding.{AreUntouched, GoesAtOnce, StopsFeeding, StopsKeeping, TakesInAll};
ghost use Rattle.replica_core.specs.Answering.{total};

use crate::copies::push_letters;
use crate::open_replica::OpenReplica;
use crate::{FeedFault, Replica};
use fugue_ids::{ElementId, RunStart};
use op_runs::OpRuns;
use origin_model::{Tally, Verdict};

impl Replica {
    /// Feeds the Texts of a run, one after another: those at once that nothing is asked of, the others each alone.
    ///
    /// After a fault the Texts before some one stand, and that one left what `feed` says of its fault. Where memory ran
    /// out for Texts that go in at once, that is the first of these.
    pub fn feed_run(
        &mut self,
        start: &RunStart,
        text: &[char],
        tally: &mut Tally,
    ) -> Result<(), FeedFault>
        requires settled { IsSettled self.old.held }
        requires counters { start.now.id.counter + length text.now ≤ 2 ^ 32 }
        requires counts_rise { total tally.old + length self.old.held.waiting + length text.now ≤ 2 ^ 31 }
        ensures ok { OnOk result (TakesInAll self.old self.new (run_from start.now text.now) tally.old tally.new) }
        ensures err { IfErr result
            (λ fault. StopsFeeding (run_from start.now text.now) self.old self.new tally.old tally.new fault) }
        ensures sound { IsSound self.new }
    {
        let fed = self.inner.feed_run(start, text, tally);
        self.inner.close();
        fed
    }

    /// The same, and appends copies of those that were accepted or wait to `kept`, in order. An allocation failure is
    /// also the answer where `kept` is full: it has at most `MOST_LISTED` operations.
    pub fn feed_run_keeping(
        &mut self,
        start: &RunStart,
        text: &[char],
        tally: &mut Tally,
        kept: &mut OpRuns,
    ) -> Result<(), FeedFault>
        requires settled { IsSettled self.old.held }
        requires counters { start.now.id.counter + length text.now ≤ 2 ^ 32 }
        requires counts_rise { total tally.old + length self.old.held.waiting + length text.now ≤ 2 ^ 31 }
        ensures ok { OnOk result (TakesInAll self.old self.new (run_from start.now text.now) tally.old tally.new) }
        ensures kept { OnOk result (kept.new ≡ kept.old
            ++ kept_from self.old.hold self.old.most self.old.held (run_from start.now text.now)) }
        ensures err { IfErr result
            (λ fault. StopsKeeping (run_from start.now text.now) self.old self.new tally.old tally.new
            kept.old kept.new fault) }
        ensures sound { IsSound self.new }
    {
        let fed = self.inner.feed_run_keeping(start, text, tally, kept);
        self.inner.close();
        fed
    }
}

impl OpenReplica {
    fn feed_run(
        &mut self,
        start: &RunStart,
        text: &[char],
        tally: &mut Tally,
    ) -> Result<(), FeedFault>
        requires settled { IsSettled self.old.state.held }
        requires counters { start.now.id.counter + length text.now ≤ 2 ^ 32 }
        requires counts_rise { total tally.old + length self.old.state.held.waiting + length text.now ≤ 2 ^ 31 }
        ensures ok { OnOk result
            (TakesInAll self.old.state self.new.state (run_from start.now text.now) tally.old tally.new) }
        ensures err { IfErr result
            (λ fault. StopsFeeding (run_from start.now text.now) self.old.state self.new.state
            tally.old tally.new fault) }
        ensures sound { IsSound self.new.state }
    {
        let _ = &self.alloc;
        let mut next = *start;
        let mut rest = text;
        'fronts: while !rest.is_empty() {
            let count = self.feed_front(&next, rest, tally)?;
            let (_front, behind, others) = next.split_at(rest, count);
            next = behind;
            rest = others;
        }
        Ok(())
    }

    fn feed_run_keeping(
        &mut self,
        start: &RunStart,
        text: &[char],
        tally: &mut Tally,
        kept: &mut OpRuns,
    ) -> Result<(), FeedFault>
        requires settled { IsSettled self.old.state.held }
        requires counters { start.now.id.counter + length text.now ≤ 2 ^ 32 }
        requires counts_rise { total tally.old + length self.old.state.held.waiting + length text.now ≤ 2 ^ 31 }
        ensures ok { OnOk result
            (TakesInAll self.old.state self.new.state (run_from start.now text.now) tally.old tally.new) }
        ensures kept { OnOk result (kept.new ≡ kept.old
            ++ kept_from self.old.state.hold self.old.state.most self.old.state.held (run_from start.now text.now)) }
        ensures err { IfErr result
            (λ fault. StopsKeeping (run_from start.now text.now) self.old.state self.new.state tally.old tally.new
            kept.old kept.new fault) }
        ensures sound { IsSound self.new.state }
    {
        let _ = &self.alloc;
        let mut next = *start;
        let mut rest = text;
        'fronts: while !rest.is_empty() {
            let count = self.feed_front_keeping(&next, rest, tally, kept)?;
            let (_front, behind, others) = next.split_at(rest, count);
            next = behind;
            rest = others;
        }
        Ok(())
    }

    /// Feeds the Texts at the front of a run that go in at once, or else the first one alone. Returns how many.
    fn feed_front(
        &mut self,
        start: &RunStart,
        text: &[char],
        tally: &mut Tally,
    ) -> Result<usize, FeedFault>
        requires settled { IsSettled self.old.state.held }
        requires some { 0 < length text.now }
        requires counters { start.now.id.counter + length text.now ≤ 2 ^ 32 }
        requires counts_rise { total tally.old + length self.old.state.held.waiting + length text.now ≤ 2 ^ 31 }
        ensures some { IfOk result (λ n. 0 < n) }
        ensures within { IfOk result (λ n. n ≤ length text.now) }
        ensures ok { IfOk result
            (λ n. TakesInAll self.old.state self.new.state (run_from start.now (take n text.now))
            tally.old tally.new) }
        ensures err { IfErr result
            (λ fault. StopsFeeding (run_from start.now text.now) self.old.state self.new.state
            tally.old tally.new fault) }
        ensures sound { IsSound self.new.state }
    {
        let repeated = self.repeated(start, text);
        if repeated > 0 {
            tally.repeated += repeated as u32;
            return Ok(repeated);
        }
        let count = self.joining(start, text);
        if count == 0 {
            self.feed(start.text(text[0]), tally)?;
            return Ok(1);
        }
        self.join_run(start, &text[..count])?;
        tally.accepted += count as u32;
        Ok(count)
    }

    /// The same, with copies of those that were accepted or wait. The copies are made first.
    fn feed_front_keeping(
        &mut self,
        start: &RunStart,
        text: &[char],
        tally: &mut Tally,
        kept: &mut OpRuns,
    ) -> Result<usize, FeedFault>
        requires settled { IsSettled self.old.state.held }
        requires some { 0 < length text.now }
        requires counters { start.now.id.counter + length text.now ≤ 2 ^ 32 }
        requires counts_rise { total tally.old + length self.old.state.held.waiting + length text.now ≤ 2 ^ 31 }
        ensures some { IfOk result (λ n. 0 < n) }
        ensures within { IfOk result (λ n. n ≤ length text.now) }
        ensures ok { IfOk result
            (λ n. TakesInAll self.old.state self.new.state (run_from start.now (take n text.now))
            tally.old tally.new) }
        ensures kept { IfOk result (λ n. kept.new ≡ kept.old
            ++ kept_from self.old.state.hold self.old.state.most self.old.state.held
            (run_from start.now (take n text.now))) }
        ensures err { IfErr result
            (λ fault. StopsKeeping (run_from start.now text.now) self.old.state self.new.state tally.old tally.new
            kept.old kept.new fault) }
        ensures sound { IsSound self.new.state }
    {
        let repeated = self.repeated(start, text);
        if repeated > 0 {
            tally.repeated += repeated as u32;
            return Ok(repeated);
        }
        let count = self.joining(start, text);
        if count == 0 {
            self.feed_keeping(start.text(text[0]), tally, kept)?;
            return Ok(1);
        }
        push_letters(kept, start, &text[..count])?;
        let Ok(()) = self.join_run(start, &text[..count]) else {
            kept.pop(count);
            return Err(FeedFault::NoMemory);
        };
        tally.accepted += count as u32;
        Ok(count)
    }

    /// How many Texts at the front of a run are accepted already.
    fn repeated(&self, start: &RunStart, text: &[char]) -> usize
        requires { start.now.id.counter + length text.now ≤ 2 ^ 32 }
        ensures within { result ≤ length text.now }
        ensures there { All (λ op. has_op self.now.state.held.history op ≡ true)
            (run_from start.now (take result text.now)) }
        ensures sound { IsSound self.now.state }
    {
        self.accepted.repeats(start, text)
    }

    /// How many Texts at the front of a run go in at once: none of their identifiers is accepted, nothing that waits has
    /// or names one, the first is Ready, and there is room.
    fn joining(&self, start: &RunStart, text: &[char]) -> usize
        requires settled { IsSettled self.now.state.held }
        requires counters { start.now.id.counter + length text.now ≤ 2 ^ 32 }
        ensures within { result ≤ length text.now }
        ensures at_once { 0 < result → GoesAtOnce self.now.state (run_from start.now (take result text.now)) }
        ensures sound { IsSound self.now.state }
    {
        // One Text alone goes the way of all operations.
        let most = text.len().min(self.room());
        if most < 2 || !self.is_ready(start, text[0]) {
            return 0;
        }
        self.untouched(start.id, most as u32) as usize
    }

    /// Whether the Text is Ready.
    fn is_ready(&self, start: &RunStart, ch: char) -> bool
        ensures ready { IsTrue result ↔ (verdict_on self.now.state.held.history (text_by start.now ch) ≡ Ready) }
        ensures sound { IsSound self.now.state }
    {
        matches!(self.accepted.verdict(&start.text(ch)), Verdict::Ready)
    }

    /// How many identifiers are untouched, from this one on: all of so many, or else a power of two of them, so that few
    /// are looked up.
    fn untouched(&self, first: ElementId, count: u32) -> u32
        requires counters { first.counter + count ≤ 2 ^ 32 }
        requires few { count ≤ MOST_OPERATIONS }
        ensures within { result ≤ count }
        ensures untouched { AreUntouched self.now.state.held first result }
        ensures sound { IsSound self.now.state }
    {
        if self.are_untouched(first, count) {
            return count;
        }
        let mut known = 0;
        let mut next = 1;
        'doubled: while next < count && self.are_untouched(first, next) {
            known = next;
            next *= 2;
        }
        known
    }

    /// Whether nothing accepted has one of so many identifiers, from this one on, and nothing that waits has or names one.
    fn are_untouched(&self, first: ElementId, count: u32) -> bool
        requires { first.counter + count ≤ 2 ^ 32 }
        ensures untouched { IsTrue result ↔ AreUntouched self.now.state.held first count }
        ensures sound { IsSound self.now.state }
    {
        self.accepted.is_free(first, count) && !self.inbox.concerns(first, count)
    }
}
