//! Operations of an edit: a text is accepted whole, and Deletes in rows, one after another as far as memory lasts.
ghost use Rattle.std.specs.Prelude.{◌≡◌, ◌<◌, ◌≤◌, ◌+◌, ◌^◌, length, take, IfOk, IsTrue, OnErr, OnOk};
ghost use Rattle.fugue_ids.specs.Runs.{next_id};
ghost use Rattle.std.specs.Str.{chars};
ghost use Rattle.origin_model.specs.edits.Edits.{deletes_of, id_at};
ghost use Rattle.origin_model.specs.taking.Taking.{IsSettled};
ghost use Rattle.origin_model.specs.edits.Effect.{Gains, StopsPartly};
ghost use Rattle.replica_core.specs.Deleting.{AreWithin, ids_from};
ghost use Rattle.replica_core.specs.Edits.{CanJoin, typed_at};
ghost use Rattle.origin_model.specs.edits.State.{IsSound};

use crate::Replica;
use crate::edits::planning::TextSpot;
use fugue_ids::{ElementId, NoMemory, RunStart};
use std::alloc::Global;

fn scalars_of(alloc: Global, text: &str) -> Result<Vec<char>, NoMemory>
    ensures { IfOk result (λ scalars. scalars.items ≡ chars text.now) }
{
    Ok(text.chars().collect(alloc)?)
}

impl Replica {
    /// The replica's own identifier with the counter.
    pub(crate) fn own_id(&self, counter: u64) -> ElementId
        requires { counter < 2 ^ 32 }
        ensures id { result ≡ id_at self.now.number counter }
        ensures sound { IsSound self.now }
    {
        ElementId {
            replica: self.number(),
            counter: counter as u32,
        }
    }

    /// Types a text, each scalar after the one before it: all of it, or none after an allocation failure. Returns how
    /// many there are.
    pub(crate) fn type_text(&mut self, spot: TextSpot, text: &str) -> Result<u32, NoMemory>
        requires sound { IsSound self.old }
        requires can_join { CanJoin self.old (typed_at self.old.number spot (chars text.now)) }
        requires counted { spot.count ≡ length (chars text.now) }
        requires counters { spot.counter + length (chars text.now) ≤ 2 ^ 32 }
        ensures count { IfOk result (λ count. count ≡ length (chars text.now)) }
        ensures ok { OnOk result (Gains self.old self.new (typed_at self.old.number spot (chars text.now))) }
        ensures err { OnErr result (StopsPartly self.old self.new (typed_at self.old.number spot (chars text.now))) }
        ensures settled { IsSettled self.new.held }
        ensures sound { IsSound self.new }
    {
        if spot.count == 0 {
            return Ok(0);
        }
        let letters = scalars_of(self.inner.alloc, text)?;
        let start = RunStart {
            id: self.own_id(spot.counter),
            section: spot.section,
            left: spot.left,
            right: spot.right,
        };
        self.join_run(&start, letters.as_slice())?;
        Ok(spot.count)
    }

    /// Deletes elements of a section, those at once whose identifiers follow one another.
    pub(crate) fn delete_each(
        &mut self,
        section: &ElementId,
        targets: &[ElementId],
    ) -> Result<(), NoMemory>
        requires sound { IsSound self.old }
        requires can_join { CanJoin self.old (deletes_of targets.now) }
        requires within { AreWithin section.now self.old.held.history targets.now }
        ensures ok { OnOk result (Gains self.old self.new (deletes_of targets.now)) }
        ensures err { OnErr result (StopsPartly self.old self.new (deletes_of targets.now)) }
        ensures settled { IsSettled self.new.held }
        ensures sound { IsSound self.new }
    {
        let mut at = 0;
        'deleted: while at < targets.len() {
            let first = targets[at];
            let count = followers(first, &targets[at + 1..]) + 1;
            let Ok(()) = self.join_deletes(section, first, count) else {
                return Err(NoMemory);
            };
            at += count as usize;
        }
        Ok(())
    }
}

/// Whether the identifier is the next one of the same replica.
fn is_next(last: &ElementId, id: &ElementId) -> bool
    ensures next { IsTrue result → id.now ≡ next_id last.now }
    ensures fits { IsTrue result → last.now.counter + 1 < 2 ^ 32 }
{
    id.replica == last.replica && last.counter < id.counter && id.counter - last.counter == 1
}

/// How many identifiers at the front follow this one, each the one before it.
fn followers(first: ElementId, rest: &[ElementId]) -> u32
    requires { length rest.now < 2 ^ 32 }
    ensures row { take result rest.now ≡ ids_from (next_id first) result }
    ensures within { result ≤ length rest.now }
    ensures counters { first.counter + result < 2 ^ 32 }
{
    let mut last = first;
    let mut count = 0;
    'row: for id in rest {
        if !is_next(&last, id) {
            return count;
        }
        last = *id;
        count += 1;
    }
    count
}
