//! The prefix of a frame that a session has sent so far, extended byte by byte without allocation.
ghost use Rattle.std.specs.Prelude.{◌≡◌, ◌∷◌, ◌++◌, []};
ghost use Rattle.origin_model.specs.declared.grammar.Grammar.TheVariants.{Version2 as WithRuns};
ghost use Rattle.op_frame.specs.FrameFronts.{IsFrameStage, grown_to};

use op_frame::{FrameFront, Grown};
use origin_model::Grammar;
use std::marker::Model;

/// The first bytes of a frame that a session sends. It is seen as these bytes, and takes no memory.
#[derive(Drop)]
pub(crate) struct PartialFrame {
    front: FrameFront,
}

impl Model for PartialFrame {
    ghost use Rattle.std.specs.Prelude.{◌≡◌, List, ℕ};
    ghost use Rattle.origin_model.specs.declared.grammar.Grammar.TheVariants.{Version2 as WithRuns};

    ghost Value = { List ℕ };

    ghost view = { λ m. m.front.bytes };

    ghost invariant = { λ m. m.front.grammar ≡ WithRuns };
}

impl PartialFrame {
    /// Nothing came yet.
    pub(crate) fn new() -> PartialFrame
        ensures { result ≡ [] }
    {
        PartialFrame {
            front: FrameFront::new(Grammar::Version2),
        }
    }

    /// The bytes that came so far.
    pub(crate) fn as_slice(&self) -> &[u8]
        ensures { result.now ≡ self.now }
    {
        self.front.as_slice()
    }

    pub(crate) fn copied(&self) -> PartialFrame
        ensures { result ≡ self.now }
    {
        PartialFrame {
            front: self.front.copied(),
        }
    }

    /// Nothing came yet, as at first.
    pub(crate) fn clear(&mut self)
        ensures { self.new ≡ [] }
    {
        self.front.clear();
    }

    /// One byte more, unless no frame begins with the bytes then.
    pub(crate) fn push(&mut self, byte: u8) -> Grown
        ensures is { IsFrameStage result WithRuns (self.old ++ byte ∷ []) }
        ensures bytes { self.new ≡ grown_to result self.old byte }
    {
        self.front.push(byte)
    }
}
