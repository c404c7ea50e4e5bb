//! The fields of a run's frame before its scalars, and what they become as its Texts are returned in turn.
ghost use Rattle.std.specs.Prelude.{◌≡◌, ◌<◌, ◌≤◌, ◌+◌, ◌^◌, ◌∷◌, drop};
ghost use Rattle.op_frame.specs.FrameFronts.{IsRunAfter};
ghost use Rattle.op_frame.specs.Headers.{GivesHeld, HeaderIs, IsHeld, IsNextHeader};
ghost use Rattle.op_frame.specs.NextRuns.{start_in};

use crate::fields::{Fields, first_scalar};
use crate::number::short_number;
use crate::protocol::RUN;
use fugue_ids::{ElementId, Op, RunStart};

/// What the frame of a run says before its scalars, or what stands there for the Texts that are held back.
#[derive(Clone, Copy)]
pub(crate) struct RunHeader {
    pub(crate) id: ElementId,
    pub(crate) section: ElementId,
    pub(crate) left: Option<ElementId>,
    pub(crate) right: Option<ElementId>,
    /// How many Texts.
    pub(crate) count: usize,
}

impl RunHeader {
    /// The fields in front of the scalars, after the first byte of a run's frame.
    pub(crate) fn read(rest: &[u8]) -> RunHeader
        requires { IsRunAfter rest.now }
        ensures { HeaderIs result (RUN ∷ rest.now) }
    {
        let mut fields = Fields { rest };
        let id = fields.identifier();
        let section = fields.identifier();
        let left = fields.origin();
        let right = fields.origin();
        let count = short_number(fields.rest[0], fields.rest[1]);
        RunHeader {
            id,
            section,
            left,
            right,
            count,
        }
    }

    /// What the first Text says but for its scalar.
    pub(crate) fn start(&self) -> RunStart
        ensures { result ≡ start_in self.now }
    {
        RunStart {
            id: self.id,
            section: self.section,
            left: self.left,
            right: self.right,
        }
    }

    /// The first Text, whose scalar stands at the front of the bytes, and what is held back after it.
    pub(crate) fn first(self, bytes: &[u8]) -> (Op, Option<RunHeader>)
        requires { IsHeld bytes.now self }
        ensures { GivesHeld self result.0 result.1 bytes.now (drop 3 bytes.now) }
    {
        let op = Op::Text {
            ch: first_scalar(bytes),
            id: self.id,
            section: self.section,
            left: self.left,
            right: self.right,
        };
        (op, self.next())
    }

    /// What is held back after the first Text.
    fn next(self) -> Option<RunHeader>
        requires some { 0 < self.count }
        requires fits { self.id.counter + self.count ≤ 2 ^ 32 }
        ensures { IsNextHeader self result }
    {
        if self.count == 1 {
            return None;
        }
        Some(RunHeader {
            id: ElementId {
                replica: self.id.replica,
                counter: self.id.counter + 1,
            },
            section: self.section,
            left: Some(self.id),
            right: self.right,
            count: self.count - 1,
        })
    }
}
