//! Taking in Deletes of neighbours: they go in as one where nothing else is asked of them.
ghost use Rattle.std.specs.Prelude.{◌≡◌, ◌<◌, ◌≤◌, ◌+◌, ◌^◌, ◌++◌, All, IfErr, IfNone, IfOk, IfSome, OnOk, length, true};
ghost use Rattle.op_runs.specs.Deletions.{deletes_up};
ghost use Rattle.origin_model.specs.edits.State.{IsSound};
ghost use Rattle.origin_model.specs.operations.History.{has_op};
ghost use Rattle.origin_model.specs.declared.operations.Place.TheVariants.{Catalogue as InCatalogue, Section as InSection};
ghost use Rattle.origin_model.specs.taking.Taking.{IsSettled, kept_from};
ghost use Rattle.replica_core.specs.Deleting.{AreWithin, ids_from};
ghost use Rattle.replica_core.specs.Edits.{CanJoin};
ghost use Rattle.replica_core.specs.Feeding.{StopsFeeding, StopsKeeping, TakesInAll};
ghost use Rattle.replica_core.specs.Answering.{total};
ghost use Rattle.run_store.specs.Cells.{cells_shown};
ghost use Rattle.run_store.specs.Hiding.{AreHidden, HaveCells};

use crate::copies::push_row;
use crate::open_replica::OpenReplica;
use crate::{FeedFault, Replica};
use fugue_ids::{ElementId, Op};
use op_runs::OpRuns;
use origin_model::{Place, Tally};
use section_list::SectionList;

impl Replica {
    /// Feeds the Deletes of so many identifiers, from this one on, one after another: those at once that nothing is asked
    /// of, the others each alone.
    ///
    /// After a fault the Deletes before some one stand, and that one left what `feed` says of its fault.
    pub fn feed_deletes(
        &mut self,
        first: ElementId,
        count: u32,
        tally: &mut Tally,
    ) -> Result<(), FeedFault>
        requires settled { IsSettled self.old.held }
        requires counters { first.counter + count ≤ 2 ^ 32 }
        requires counts_rise { total tally.old + length self.old.held.waiting + count ≤ 2 ^ 31 }
        ensures ok { OnOk result (TakesInAll self.old self.new (deletes_up first count) tally.old tally.new) }
        ensures err { IfErr result
            (λ fault. StopsFeeding (deletes_up first count) self.old self.new tally.old tally.new fault) }
        ensures sound { IsSound self.new }
    {
        let fed = self.inner.feed_deletes(first, count, tally);
        self.inner.close();
        fed
    }

    /// The same, and appends copies of those that were accepted or wait to `kept`, in order. An allocation failure is
    /// also the answer where `kept` is full: it has at most `MOST_LISTED` operations.
    pub fn feed_deletes_keeping(
        &mut self,
        first: ElementId,
        count: u32,
        tally: &mut Tally,
        kept: &mut OpRuns,
    ) -> Result<(), FeedFault>
        requires settled { IsSettled self.old.held }
        requires counters { first.counter + count ≤ 2 ^ 32 }
        requires counts_rise { total tally.old + length self.old.held.waiting + count ≤ 2 ^ 31 }
        ensures ok { OnOk result (TakesInAll self.old self.new (deletes_up first count) tally.old tally.new) }
        ensures kept { OnOk result (kept.new ≡ kept.old
            ++ kept_from self.old.hold self.old.most self.old.held (deletes_up first count)) }
        ensures err { IfErr result
            (λ fault. StopsKeeping (deletes_up first count) self.old self.new tally.old tally.new
            kept.old kept.new fault) }
        ensures sound { IsSound self.new }
    {
        let fed = self.inner.feed_deletes_keeping(first, count, tally, kept);
        self.inner.close();
        fed
    }
}

impl OpenReplica {
    fn feed_deletes(
        &mut self,
        first: ElementId,
        count: u32,
        tally: &mut Tally,
    ) -> Result<(), FeedFault>
        requires settled { IsSettled self.old.state.held }
        requires counters { first.counter + count ≤ 2 ^ 32 }
        requires counts_rise { total tally.old + length self.old.state.held.waiting + count ≤ 2 ^ 31 }
        ensures ok { OnOk result (TakesInAll self.old.state self.new.state (deletes_up first count) tally.old tally.new) }
        ensures err { IfErr result
            (λ fault. StopsFeeding (deletes_up first count) self.old.state self.new.state tally.old tally.new fault) }
        ensures sound { IsSound self.new.state }
    {
        let _ = &self.alloc;
        let mut done = 0;
        'fronts: while done < count {
            let next = first.behind(done);
            let fed = self.feed_deletes_front(next, count - done, tally)?;
            done += fed;
        }
        Ok(())
    }

    fn feed_deletes_keeping(
        &mut self,
        first: ElementId,
        count: u32,
        tally: &mut Tally,
        kept: &mut OpRuns,
    ) -> Result<(), FeedFault>
        requires settled { IsSettled self.old.state.held }
        requires counters { first.counter + count ≤ 2 ^ 32 }
        requires counts_rise { total tally.old + length self.old.state.held.waiting + count ≤ 2 ^ 31 }
        ensures ok { OnOk result (TakesInAll self.old.state self.new.state (deletes_up first count) tally.old tally.new) }
        ensures kept { OnOk result (kept.new ≡ kept.old
            ++ kept_from self.old.state.hold self.old.state.most self.old.state.held (deletes_up first count)) }
        ensures err { IfErr result
            (λ fault. StopsKeeping (deletes_up first count) self.old.state self.new.state tally.old tally.new
            kept.old kept.new fault) }
        ensures sound { IsSound self.new.state }
    {
        let _ = &self.alloc;
        let mut done = 0;
        'fronts: while done < count {
            let next = first.behind(done);
            let fed = self.feed_deletes_front_keeping(next, count - done, tally, kept)?;
            done += fed;
        }
        Ok(())
    }

    /// Feeds the Deletes at the front of a row that go in at once, or else the first one alone. Returns how many.
    fn feed_deletes_front(
        &mut self,
        first: ElementId,
        count: u32,
        tally: &mut Tally,
    ) -> Result<u32, FeedFault>
        requires settled { IsSettled self.old.state.held }
        requires some { 0 < count }
        requires counters { first.counter + count ≤ 2 ^ 32 }
        requires counts_rise { total tally.old + length self.old.state.held.waiting + count ≤ 2 ^ 31 }
        ensures some { IfOk result (λ n. 0 < n) }
        ensures within { IfOk result (λ n. n ≤ count) }
        ensures ok { IfOk result (λ n. TakesInAll self.old.state self.new.state (deletes_up first n) tally.old tally.new) }
        ensures err { IfErr result
            (λ fault. StopsFeeding (deletes_up first count) self.old.state self.new.state tally.old tally.new fault) }
        ensures sound { IsSound self.new.state }
    {
        let repeated = self.deleted(first, count);
        if repeated > 0 {
            tally.repeated += repeated;
            return Ok(repeated);
        }
        let Some((section, row)) = self.deletable(first, count) else {
            self.feed(Op::Delete { target: first }, tally)?;
            return Ok(1);
        };
        match self.join_deletes(&section, first, row) {
            Ok(()) => {
                tally.accepted += row;
                Ok(row)
            }
            Err(stopped) => {
                tally.accepted += stopped.done;
                Err(FeedFault::NoMemory)
            }
        }
    }

    /// The same, with copies of those that were accepted or wait. The copies are made first.
    fn feed_deletes_front_keeping(
        &mut self,
        first: ElementId,
        count: u32,
        tally: &mut Tally,
        kept: &mut OpRuns,
    ) -> Result<u32, FeedFault>
        requires settled { IsSettled self.old.state.held }
        requires some { 0 < count }
        requires counters { first.counter + count ≤ 2 ^ 32 }
        requires counts_rise { total tally.old + length self.old.state.held.waiting + count ≤ 2 ^ 31 }
        ensures some { IfOk result (λ n. 0 < n) }
        ensures within { IfOk result (λ n. n ≤ count) }
        ensures ok { IfOk result (λ n. TakesInAll self.old.state self.new.state (deletes_up first n) tally.old tally.new) }
        ensures kept { IfOk result (λ n. kept.new ≡ kept.old
            ++ kept_from self.old.state.hold self.old.state.most self.old.state.held (deletes_up first n)) }
        ensures err { IfErr result
            (λ fault. StopsKeeping (deletes_up first count) self.old.state self.new.state tally.old tally.new
            kept.old kept.new fault) }
        ensures sound { IsSound self.new.state }
    {
        let repeated = self.deleted(first, count);
        if repeated > 0 {
            tally.repeated += repeated;
            return Ok(repeated);
        }
        let Some((section, row)) = self.deletable(first, count) else {
            self.feed_keeping(Op::Delete { target: first }, tally, kept)?;
            return Ok(1);
        };
        push_row(kept, first, row)?;
        match self.join_deletes(&section, first, row) {
            Ok(()) => {
                tally.accepted += row;
                Ok(row)
            }
            Err(stopped) => {
                tally.accepted += stopped.done;
                kept.pop((row - stopped.done) as usize);
                Err(FeedFault::NoMemory)
            }
        }
    }

    /// How many Deletes at the front of a row are accepted already, as far as their targets are elements of one place.
    fn deleted(&self, first: ElementId, count: u32) -> u32
        requires { first.counter + count ≤ 2 ^ 32 }
        ensures within { result ≤ count }
        ensures there { All (λ op. has_op self.now.state.held.history op ≡ true) (deletes_up first result) }
        ensures sound { IsSound self.now.state }
    {
        let _ = &self.alloc;
        // One Delete alone goes the way of all operations.
        if count < 2 {
            return 0;
        }
        let Some(list) = self.accepted.list_with(first) else {
            return 0;
        };
        hidden_row(list, first, count)
    }

    /// How many Deletes at the front of a row go in at once, and the section of their targets: these are visible
    /// elements of it that stand in this order with no other visible one between them, and there is room. A Delete decides
    /// nothing that waits.
    fn deletable(&self, first: ElementId, count: u32) -> Option<(ElementId, u32)>
        requires settled { IsSettled self.now.state.held }
        requires counters { first.counter + count ≤ 2 ^ 32 }
        ensures some { IfSome result (λ found. 0 < found.1) }
        ensures within { IfSome result (λ found. found.1 ≤ count) }
        ensures can { IfSome result (λ found. CanJoin self.now.state (deletes_up first found.1)) }
        ensures placed { IfSome result
            (λ found. AreWithin found.0 self.now.state.held.history (ids_from first found.1)) }
        ensures sound { IsSound self.now.state }
    {
        // One Delete alone goes the way of all operations.
        let most = (count as usize).min(self.room()) as u32;
        if most < 2 {
            return None;
        }
        let places = self.accepted.places();
        let place = places.place_of(first)?;
        let section = section_of(&place)?;
        let text = places.section(section)?;
        let row = visible_row(text, first, most);
        if row == 0 {
            return None;
        }
        Some((section, row))
    }
}

/// How many identifiers, from this one on, are those of hidden elements of the list.
fn hidden_row(list: &SectionList, first: ElementId, most: u32) -> u32
    requires { first.counter + most ≤ 2 ^ 32 }
    ensures within { result ≤ most }
    ensures hidden { AreHidden list.now.cells first result }
{
    let mut row = 0;
    'row: while row < most && list.is_hidden(first.behind(row)) {
        row += 1;
    }
    row
}

/// How many identifiers, from this one on, are those of visible elements of the list that stand in this order with no
/// other visible one between them. One walk finds them, where a look-up of each would be a search.
fn visible_row(list: &SectionList, first: ElementId, most: u32) -> u32
    requires { first.counter + most ≤ 2 ^ 32 }
    ensures within { result ≤ most }
    ensures visible { HaveCells (cells_shown list.now.cells) first result }
{
    let Some(before) = list.visible_before(first) else {
        return 0;
    };
    let mut walk = list.shown_from(before);
    let mut row = 0;
    'row: while row < most && walk.step() == Some(first.behind(row)) {
        row += 1;
    }
    row
}

/// The section whose elements stand in the place, if it is one.
fn section_of(place: &Place) -> Option<ElementId>
    ensures some { IfSome result (λ section. place.now ≡ InSection section) }
    ensures none { IfNone result (place.now ≡ InCatalogue) }
{
    match place {
        Place::Catalogue => None,
        Place::Section(section) => Some(*section),
    }
}
