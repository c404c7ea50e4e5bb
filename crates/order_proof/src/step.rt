//! The steps of certificates, with the chains that they show.

ghost use Rattle.std.specs.Prelude.{◌≡◌, []};
ghost use Rattle.order_proof.specs.declared.step.Reason.TheVariants.{Prefix};

use fugue_ids::ElementId;
use std::alloc::Global;
use std::marker::Model;

/// Members of a chain of origins, from above down. It is seen as the list of them.
#[derive(Drop)]
pub struct Chain {
    ids: Vec<ElementId>,
}

impl Model for Chain {
    ghost use Rattle.std.specs.Prelude.{List};
    ghost use Rattle.fugue_ids.specs.Identifiers.{Identifier};

    ghost Value = { List Identifier };

    ghost view = { λ c. c.ids.items };
}

impl Chain {
    pub(crate) fn new(ids: Vec<ElementId>) -> Chain
        ensures { result ≡ ids.items }
    {
        Chain { ids }
    }

    pub fn as_slice(&self) -> &[ElementId]
        ensures { result.now ≡ self.now }
    {
        self.ids.as_slice()
    }
}

/// Why the first of two elements stands before the second. `Prefix` speaks of their chains of left origins. The others
/// speak of the two siblings at which these part, and compare the chains of right origins of these.
#[derive(Clone, Copy)]
pub enum Reason {
    /// The first one's chain is a prefix of the second one's.
    Prefix,
    /// The second one's chain is a prefix of the first one's.
    Inner,
    /// Where the chains part, the first one's right origin is the end of the place.
    End,
    /// Where the chains part, these are the right origins, the first one's and the second one's: the next step shows
    /// that the latter stands before the former.
    Later(ElementId, ElementId),
    /// Where the chains part, the right origins are the same, and the first one's identifier is smaller.
    Tie,
}

/// The claim that x stands before y, with the chains that show it: those of left origins from where they part (`down`),
/// and those of right origins of the two siblings there (`right`). `Prefix` needs `down_y` alone, and leaves the others
/// empty.
#[derive(Drop)]
pub struct Step {
    pub x: ElementId,
    pub y: ElementId,
    pub down_x: Chain,
    pub down_y: Chain,
    pub right_x: Chain,
    pub right_y: Chain,
    pub reason: Reason,
}

impl Step {
    /// The step that x stands before y, whose chain of left origins goes down through x.
    pub(crate) fn by_prefix(alloc: Global, x: ElementId, y: ElementId, down_y: Chain) -> Step
        ensures { result
            ≡ record {
              x = x;
              y = y;
              down_x = [];
              down_y = down_y;
              right_x = [];
              right_y = [];
              reason = Prefix;
            } }
    {
        Step {
            x,
            y,
            down_x: Chain::new(Vec::new(alloc)),
            down_y,
            right_x: Chain::new(Vec::new(alloc)),
            right_y: Chain::new(Vec::new(alloc)),
            reason: Reason::Prefix,
        }
    }
}
