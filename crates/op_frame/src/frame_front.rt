//! A frame that arrives byte by byte, in a fixed array: each byte is checked with the field it is in.
ghost use Rattle.std.specs.Prelude.{◌≡◌, ◌∷◌, ◌++◌, []};
ghost use Rattle.op_frame.specs.FrameFronts.{IsFrameStage, grown_to};

use crate::due::{Due, Judged};
use crate::encoding::LONGEST_FRAME;
use crate::grown::Grown;
use crate::judge::{grown_by, judge};
use origin_model::Grammar;
use std::marker::Model;

/// The first bytes of a frame of a grammar, as they come one by one. It takes no memory.
///
/// Each byte costs a look at the field that it belongs to, and no look at what came before.
#[derive(Drop)]
pub struct FrameFront {
    grammar: Grammar,
    bytes: [u8; LONGEST_FRAME],
    len: usize,
    /// Where the field begins that is being read.
    field: usize,
    due: Due,
}

impl Model for FrameFront {
    ghost use Rattle.std.specs.Prelude.{◌-◌, ◌≤◌, drop, take};
    ghost use Rattle.op_frame.specs.FrameFronts.{Awaits, FrontBytes};
    ghost use Rattle.op_frame.specs.declared.encoding.TheConstants.{LONGEST_FRAME};

    ghost Value = { FrontBytes };

    ghost view = { λ f. record { grammar = f.grammar; bytes = take f.len f.bytes } };

    ghost invariant = { λ f. (f.field ≤ f.len) × (f.len ≤ LONGEST_FRAME)
        × Awaits f.grammar f.due (take f.field f.bytes) (f.len - f.field) };
}

impl FrameFront {
    /// Nothing came yet.
    pub fn new(grammar: Grammar) -> FrameFront
        ensures { result ≡ record { grammar = grammar; bytes = [] } }
    {
        FrameFront {
            grammar,
            bytes: [0; LONGEST_FRAME],
            len: 0,
            field: 0,
            due: Due::Kind(grammar),
        }
    }

    /// The bytes that came so far.
    pub fn as_slice(&self) -> &[u8]
        ensures { result.now ≡ self.now.bytes }
    {
        &self.bytes[..self.len]
    }

    /// The same bytes once more.
    pub fn copied(&self) -> FrameFront
        ensures { result ≡ self.now }
    {
        FrameFront {
            grammar: self.grammar,
            bytes: self.bytes,
            len: self.len,
            field: self.field,
            due: self.due,
        }
    }

    /// Nothing came yet, as at first.
    pub fn clear(&mut self)
        ensures { self.new ≡ record { grammar = self.old.grammar; bytes = [] } }
    {
        self.len = 0;
        self.field = 0;
        self.due = Due::Kind(self.grammar);
    }

    /// One byte more, unless no frame begins with the bytes then.
    pub fn push(&mut self, byte: u8) -> Grown
        ensures is { IsFrameStage result self.old.grammar (self.old.bytes ++ byte ∷ []) }
        ensures bytes { self.new.bytes ≡ grown_to result self.old.bytes byte }
        ensures grammar { self.new.grammar ≡ self.old.grammar }
    {
        if self.len == LONGEST_FRAME {
            return Grown::Bad;
        }
        self.bytes[self.len] = byte;
        let end = self.len + 1;
        match judge(self.due, &self.bytes[self.field..end]) {
            Judged::Done(due) => {
                self.len = end;
                self.field = end;
                self.due = due;
                grown_by(due)
            }
            Judged::Front => {
                self.len = end;
                Grown::Front
            }
            Judged::Bad => Grown::Bad,
        }
    }
}
