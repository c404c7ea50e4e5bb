//! Binary search for the last element of a range that passes a test, among those with a low enough key.
ghost use Rattle.std.specs.Prelude.{◌≡◌, ◌↔◌, Bool, Contains, IfSome, IsNone, []};
ghost use Rattle.fugue_ids.specs.Identifiers.{Identifier};
ghost use Rattle.fugue_ids.specs.Keys.{between, first_low as first_low_of, ids as ids_of, last_low as last_low_of};
ghost use Rattle.fugue_ids.specs.Keys.{low_ids, rest_of};
ghost use Rattle.fugue_ids.specs.Listed.{HoldsOrigin};
ghost use Rattle.fugue_ids.specs.Passing.{Falls, IsTest, last_passing as last_passing_of};
ghost use Rattle.run_store.specs.Cells.{keyed_cells};
ghost use Rattle.run_store.specs.Standings.{IsFoundCell, IsStandingPart, low_cells};
ghost use Rattle.run_store.specs.Runs.{cells_in};

use crate::low::is_at_most;
use crate::run::Runs;
use crate::standing::{Found, Part, Standing};
use fugue_ids::{ElementId, Key};

impl Runs {
    /// The first low cell between two, of which the second is low.
    fn first_low_in(
        &self,
        from: Option<ElementId>,
        to: Option<ElementId>,
        most: Key,
    ) -> Option<ElementId>
        requires from { HoldsOrigin (ids_of (keyed_cells (cells_in self.now))) from }
        requires to { HoldsOrigin (low_ids most (rest_of from (keyed_cells (cells_in self.now)))) to }
        ensures { result ≡ first_low_of most (between from to (keyed_cells (cells_in self.now))) }
    {
        self.sound();
        let first = self.first_low(from, most);
        if first == to { None } else { first }
    }

    /// The last low cell between two, of which the first is low.
    fn last_low_in(
        &self,
        from: &Option<ElementId>,
        to: Option<ElementId>,
        most: Key,
    ) -> Option<ElementId>
        requires from { HoldsOrigin (low_ids most (keyed_cells (cells_in self.now))) from.now }
        requires to { HoldsOrigin (ids_of (rest_of from.now (keyed_cells (cells_in self.now)))) to }
        ensures { result ≡ last_low_of most (between from.now to (keyed_cells (cells_in self.now))) }
    {
        self.sound();
        let last = self.last_low(to, most);
        if last == *from { None } else { last }
    }

    /// The last low cell of the part, up to this one of it, or else the first one after it.
    fn low_beside(&self, part: &Part, middle: ElementId) -> Option<ElementId>
        requires part { IsStandingPart self.now part.now }
        requires inside { Contains (ids_of (between part.now.from part.now.to (keyed_cells (cells_in self.now))))
            middle }
        ensures none { IsNone result ↔ (low_cells self.now part.now ≡ []) }
        ensures some { IfSome result (Contains (low_cells self.now part.now)) }
    {
        self.sound();
        let next = self.behind(Some(middle));
        match self.last_low_in(&part.from, next, part.most) {
            Some(low) => Some(low),
            None => self.first_low_in(Some(middle), part.to, part.most),
        }
    }

    /// A low cell of the part, if it has any: one near the middle.
    fn near_middle(&self, part: &Part) -> Option<Found>
        requires { IsStandingPart self.now part.now }
        ensures none { IsNone result ↔ (low_cells self.now part.now ≡ []) }
        ensures some { IfSome result (λ f. Contains (low_cells self.now part.now) f.id) }
        ensures found { IfSome result (IsFoundCell self.now.rope) }
    {
        self.sound();
        let middle = self.middle(part)?;
        if is_at_most(middle.key, part.most) {
            return Some(middle);
        }
        let low = self.low_beside(part, middle.id)?;
        Some(self.found(low))
    }

    /// The last low cell of a part that passes: the part shrinks round the answer, which is the last one that was seen to
    /// pass where no low cell is left.
    fn passing_by_halves<P: Fn(ElementId) -> bool>(
        &self,
        mut rest: Part,
        test: P,
    ) -> Option<ElementId>
        requires part { IsStandingPart self.now rest }
        requires callable { P.IsAlwaysCallable test }
        ensures { (g : Identifier → Bool) → IsTest (P.post test) g → Falls g (low_cells self.now rest)
            → result ≡ last_passing_of g (low_cells self.now rest) }
    {
        let mut passing = None;
        'halve: while let Some(low) = self.near_middle(&rest) {
            self.sound();
            if test(low.id) {
                passing = Some(low.id);
                rest.from = Some(low.id);
                rest.begin = Standing {
                    place: low.at.place,
                    offset: low.at.offset + 1,
                };
            } else {
                rest.to = Some(low.id);
                rest.end = low.at;
            }
        }
        passing
    }

    /// The last low cell between two low ones that passes. The last low cell is looked at first: where there is none, or
    /// where all pass, that is all.
    pub(crate) fn last_passing<P: Fn(ElementId) -> bool>(
        &self,
        from: Option<ElementId>,
        to: Option<ElementId>,
        most: Key,
        test: P,
    ) -> Option<ElementId>
        requires from { HoldsOrigin (low_ids most (keyed_cells (cells_in self.now))) from }
        requires to { HoldsOrigin (low_ids most (rest_of from (keyed_cells (cells_in self.now)))) to }
        requires callable { P.IsAlwaysCallable test }
        ensures { (g : Identifier → Bool) → IsTest (P.post test) g
            → Falls g (low_ids most (between from to (keyed_cells (cells_in self.now))))
            → result ≡ last_passing_of g (low_ids most (between from to (keyed_cells (cells_in self.now)))) }
    {
        self.sound();
        let last = self.last_low_in(&from, to, most)?;
        if test(last) {
            return Some(last);
        }
        let begin = self.begin_of(&from);
        let end = self.end_of(Some(last));
        let front = Part {
            from,
            to: Some(last),
            begin,
            end,
            most,
        };
        self.passing_by_halves(front, test)
    }
}
