//! Text that was typed in one go: its first operation, the operation of each scalar, and where a run is split.

ghost use Rattle.std.specs.Prelude.{◌≡◌, ◌↔◌, ◌<◌, ◌≤◌, ◌+◌, ◌++◌, ◌^◌, IsTrue, drop, length, take};
ghost use Rattle.fugue_ids.specs.Runs.{run_from, start_after, text_by, text_in};

use crate::{ElementId, Op};

/// What the first Text of a run says but for its scalar.
///
/// A run is Texts that were typed in a row: each has the identifier after that of the one before, which is its left
/// origin, and all have one right origin. So this and the scalars tell all of it.
#[derive(Clone, Copy, Debug, PartialEq, Eq)]
pub struct RunStart {
    pub id: ElementId,
    pub section: ElementId,
    pub left: Option<ElementId>,
    pub right: Option<ElementId>,
}

impl RunStart {
    /// The Text that says this and has the scalar.
    pub fn text(&self, ch: char) -> Op
        ensures { result ≡ text_by self.now ch }
    {
        Op::Text {
            id: self.id,
            section: self.section,
            left: self.left,
            right: self.right,
            ch,
        }
    }

    /// What the Text says that stands so many after the first.
    pub fn nth(&self, count: usize) -> RunStart
        requires { self.now.id.counter + count < 2 ^ 32 }
        ensures { result ≡ start_after self.now count }
    {
        if count == 0 {
            return *self;
        }
        RunStart {
            id: self.id.behind(count as u32),
            section: self.section,
            left: Some(self.id.behind(count as u32 - 1)),
            right: self.right,
        }
    }

    /// Whether a Text that says `next` goes on with a run that begins so and has `count` Texts.
    pub fn goes_on(&self, count: usize, next: &RunStart) -> bool
        ensures { IsTrue result ↔ (next.now ≡ start_after self.now count) }
    {
        if next.id.counter < self.id.counter {
            return false;
        }
        (next.id.counter - self.id.counter) as usize == count && *next == self.nth(count)
    }

    /// The first `count` scalars of a run that begins so, what the Text after them says, and the other scalars.
    pub fn split_at<'a>(&self, text: &'a [char], count: usize) -> (&'a [char], RunStart, &'a [char])
        requires within { count ≤ length text.now }
        requires counters { self.now.id.counter + length text.now ≤ 2 ^ 32 }
        ensures front { result.0.now ≡ take count text.now }
        ensures rest { result.2.now ≡ drop count text.now }
        ensures next { count < length text.now → result.1 ≡ start_after self.now count }
        ensures whole { run_from self.now text.now ≡ run_from self.now result.0.now ++ run_from result.1 result.2.now }
    {
        let (front, rest) = text.split_at(count);
        let next = if rest.is_empty() {
            *self
        } else {
            self.nth(count)
        };
        (front, next, rest)
    }
}

/// What a Text says but for its scalar, and the scalar. Returns None for any other operation.
pub fn read_text(op: &Op) -> Option<(RunStart, char)>
    ensures { result ≡ text_in op.now }
{
    match op {
        Op::Text {
            id,
            section,
            left,
            right,
            ch,
        } => {
            let start = RunStart {
                id: *id,
                section: *section,
                left: *left,
                right: *right,
            };
            Some((start, *ch))
        }
        _ => None,
    }
}
