//! Rules by which the value of an identifier gives that of the next one.

ghost use Rattle.std.specs.Prelude.{◌≡◌, ℕ, ◌+◌, ◌<◌, ◌^◌, ◌↔◌, IsTrue, refl};
ghost use Rattle.fugue_ids.specs.Identifiers.{Identifier};
ghost use Rattle.fugue_ids.specs.Runs.{id_after};
ghost use Rattle.stretch_map.specs.Rules.{later, CanBeLater, typed_after};
ghost use Rattle.stretch_map.specs.RuleLaws.{later-adds, later-goes_on, later-joins, later-start, at_once, typed-start};
ghost use Rattle.stretch_map.specs.RuleLaws.{typed-adds};

use fugue_ids::ElementId;

/// The origins of typed text: each element has the one before it as its left origin, and all have one right origin.
#[derive(Clone, Copy, Debug, PartialEq, Eq)]
pub struct Typed {
    pub left: Option<ElementId>,
    pub right: Option<ElementId>,
}

impl Follows for Typed {
    ghost nth = { typed_after };

    ghost reaches = { λ first t k. Unit {0} };

    fn nth(&self, first: ElementId, steps: u32) -> Typed {
        if steps == 0 {
            return *self;
        }
        Typed {
            left: Some(ElementId {
                replica: first.replica,
                counter: first.counter + (steps - 1),
            }),
            right: self.right,
        }
    }

    fn leads_to(&self, first: ElementId, steps: u32, value: &Typed) -> bool {
        self.nth(first, steps) == *value
    }

    ghost at_start = { typed-start };

    ghost starts = { λ first t. tt };

    ghost joins = { λ first v j h k. tt };

    ghost adds = { typed-adds };

    ghost goes_on = { λ first t j k h. tt };
}

/// A position; the next identifier has the next one.
#[derive(Clone, Copy, Debug, PartialEq, Eq)]
pub struct Position {
    pub at: usize,
}

impl Follows for Position {
    ghost nth = { λ first p k. later p k };

    ghost reaches = { λ first p k. CanBeLater p k };

    fn nth(&self, first: ElementId, steps: u32) -> Position {
        let _ = first;
        if steps == 0 {
            return *self;
        }
        Position {
            at: self.at + steps as usize,
        }
    }

    fn leads_to(&self, first: ElementId, steps: u32, value: &Position) -> bool {
        let _ = first;
        value.at >= self.at && value.at - self.at == steps as usize
    }

    ghost at_start = { λ first p. later-start p };

    ghost starts = { λ first p. at_once p };

    ghost joins = { λ first p j h k. later-joins p j h k };

    ghost adds = { λ first p j k. later-adds p j k };

    ghost goes_on = { λ first p j k h. later-goes_on p j k h };
}

/// What many identifiers have in common, as the section that elements stand in: it is the same along a stretch.
#[derive(Clone, Copy, Debug, PartialEq, Eq)]
pub struct Same {
    pub of: ElementId,
}

impl Follows for Same {
    ghost nth = { λ first s k. s };

    ghost reaches = { λ first s k. Unit {0} };

    fn nth(&self, first: ElementId, steps: u32) -> Same {
        let _ = (first, steps);
        *self
    }

    fn leads_to(&self, first: ElementId, steps: u32, value: &Same) -> bool {
        let _ = (first, steps);
        *self == *value
    }

    ghost at_start = { λ first s. refl };

    ghost starts = { λ first s. tt };

    ghost joins = { λ first v j h k. tt };

    ghost adds = { λ first s j k. refl };

    ghost goes_on = { λ first s j k h. tt };
}

/// A rule by which the values of a stretch follow from its first one.
pub trait Follows: Copy {
    /// The value so many steps after the first identifier, by the value there.
    ghost nth: { Identifier → Self → ℕ → Self };

    /// The rule gives a value so many steps after.
    ghost reaches: { Identifier → Self → ℕ → Type 0 };

    /// The value so many steps after the first identifier.
    fn nth(&self, first: ElementId, steps: u32) -> Self
        requires within { first.counter + steps < 2 ^ 32 }
        requires reached { reaches first self.now steps }
        ensures { result ≡ nth first self.now steps };

    /// Whether the rule gives this value so many steps after.
    fn leads_to(&self, first: ElementId, steps: u32, value: &Self) -> bool
        requires { first.counter + steps < 2 ^ 32 }
        ensures { IsTrue result ↔ reaches first self.now steps × (nth first self.now steps ≡ value.now) };

    /// The first value is its own.
    ghost at_start: { (first : Identifier) (value : Self) → nth first value 0 ≡ value };

    /// The rule gives the first value.
    ghost starts: { (first : Identifier) (value : Self) → reaches first value 0 };

    /// Where it reaches a value, and the next one from there, it reaches the next one.
    ghost joins: { (first : Identifier) (value : Self) (j : ℕ) → reaches first value j
        → reaches (id_after first j) (nth first value j) 1 → reaches first value (j + 1) };

    /// A stretch that begins in the midst of another goes on as that one does.
    ghost adds: { (first : Identifier) (value : Self) (j k : ℕ)
        → nth (id_after first j) (nth first value j) k ≡ nth first value (j + k) };

    /// And the rule reaches as far from there.
    ghost goes_on: { (first : Identifier) (value : Self) (j k : ℕ) → reaches first value (j + k)
        → reaches (id_after first j) (nth first value j) k };
}
