//! The run being encoded: its Texts are buffered until the frame is full or an operation ends the run.
ghost use Rattle.std.specs.Prelude.{◌≡◌, ◌↔◌, ◌<◌, ◌≤◌, ◌+◌, ◌++◌, ◌∷◌, ◌^◌, [], All, IfOk, IsTrue, None, OnErr, OnOk, length, take};
ghost use Rattle.origin_model.specs.frames.Frames.{HasFrame};
ghost use Rattle.origin_model.specs.frames.Framings.{frames};
ghost use Rattle.fugue_ids.specs.Runs.{run_from, text_in};
ghost use Rattle.op_frame.specs.OpenRuns.{Extends, ContinuesRun, OpenRunFits, MakesRoom, TakesInOps, open_ops};

use crate::encoding::{LONGEST_RUN, encode, encode_texts};
use fugue_ids::{NoMemory, Op, RunStart, read_text};
use std::alloc::Global;

/// A run of which the frame is not written yet, since more of its Texts may come.
#[derive(Drop)]
pub(crate) struct OpenRun {
    /// None where there is no such run.
    start: Option<RunStart>,
    text: Vec<char>,
}

impl OpenRun {
    pub(crate) fn new(alloc: Global) -> OpenRun
        ensures start { result.start ≡ None }
        ensures text { result.text.items ≡ [] }
    {
        OpenRun {
            start: None,
            text: Vec::new(alloc),
        }
    }

    /// Whether a Text that says `next` is one of the run's frame too.
    fn is_next(&self, next: &RunStart) -> bool
        ensures { IsTrue result ↔ ContinuesRun self.now.start self.now.text.items next.now }
    {
        match &self.start {
            None => false,
            Some(start) => {
                let count = self.text.as_slice().len();
                count < LONGEST_RUN && start.goes_on(count, next)
            }
        }
    }

    /// Appends the frame of the run, if there is one.
    fn write(&self, out: &mut Vec<u8>) -> Result<(), NoMemory>
        requires { OpenRunFits self.now.start self.now.text.items }
        ensures have_frames { OnOk result (All HasFrame (open_ops self.now.start self.now.text.items)) }
        ensures ok { OnOk result (out.new.items ≡ out.old.items ++ frames (open_ops self.now.start self.now.text.items)) }
        ensures err { OnErr result (out.new.items ≡ out.old.items) }
    {
        let text = self.text.as_slice();
        match &self.start {
            None => Ok(()),
            Some(start) => {
                if text.is_empty() {
                    return Ok(());
                }
                encode_texts(start, text, out)
            }
        }
    }

    /// The same, and there is no run then.
    pub(crate) fn close(&mut self, out: &mut Vec<u8>) -> Result<(), NoMemory>
        requires { OpenRunFits self.old.start self.old.text.items }
        ensures start { OnOk result (self.new.start ≡ None) }
        ensures text { OnOk result (self.new.text.items ≡ []) }
        ensures have_frames { OnOk result (All HasFrame (open_ops self.old.start self.old.text.items)) }
        ensures ok { OnOk result (out.new.items ≡ out.old.items ++ frames (open_ops self.old.start self.old.text.items)) }
        ensures err { OnErr result (out.new.items ≡ out.old.items) }
    {
        self.write(out)?;
        self.start = None;
        self.text.clear();
        Ok(())
    }

    /// Begins another run, if the Text that says `next` is not one of this run's frame.
    fn make_room(&mut self, next: &RunStart, out: &mut Vec<u8>) -> Result<(), NoMemory>
        requires is_open { OpenRunFits self.old.start self.old.text.items }
        requires counter { next.now.id.counter < 2 ^ 32 }
        ensures ok { OnOk result (MakesRoom self.old.start self.old.text.items self.new.start self.new.text.items next.now out.old.items out.new.items) }
        ensures err { OnErr result (out.new.items ≡ out.old.items) }
    {
        if self.is_next(next) {
            return Ok(());
        }
        self.close(out)?;
        self.start = Some(*next);
        Ok(())
    }

    /// Takes Texts at the front of a run in, as many as one frame has room for, and returns how many.
    fn take_front(
        &mut self,
        start: &RunStart,
        text: &[char],
        out: &mut Vec<u8>,
    ) -> Result<usize, NoMemory>
        requires is_open { OpenRunFits self.old.start self.old.text.items }
        requires some { 0 < length text.now }
        requires counters { start.now.id.counter + length text.now ≤ 2 ^ 32 }
        ensures some { IfOk result (λ count. 0 < count) }
        ensures within { IfOk result (λ count. count ≤ length text.now) }
        ensures is_open { IfOk result (λ count. OpenRunFits self.new.start self.new.text.items) }
        ensures takes { IfOk result (λ count.
            TakesInOps (open_ops self.old.start self.old.text.items) (open_ops self.new.start self.new.text.items) out.old.items out.new.items
            (run_from start.now (take count text.now))) }
        ensures err { OnErr result (Extends out.old.items out.new.items) }
    {
        self.make_room(start, out)?;
        let room = LONGEST_RUN - self.text.as_slice().len();
        let count = text.len().min(room);
        self.text.extend_from_slice(&text[..count])?;
        Ok(count)
    }

    /// Takes the Texts of a run in, and writes the frames that are full.
    pub(crate) fn take_texts(
        &mut self,
        start: RunStart,
        text: &[char],
        out: &mut Vec<u8>,
    ) -> Result<(), NoMemory>
        requires is_open { OpenRunFits self.old.start self.old.text.items }
        requires counters { start.id.counter + length text.now ≤ 2 ^ 32 }
        ensures is_open { OnOk result (OpenRunFits self.new.start self.new.text.items) }
        ensures takes { OnOk result (TakesInOps (open_ops self.old.start self.old.text.items) (open_ops self.new.start self.new.text.items) out.old.items out.new.items (run_from start text.now)) }
        ensures err { OnErr result (Extends out.old.items out.new.items) }
    {
        let mut next = start;
        let mut rest = text;
        'texts: while !rest.is_empty() {
            let count = self.take_front(&next, rest, out)?;
            let (_front, behind, others) = next.split_at(rest, count);
            next = behind;
            rest = others;
        }
        Ok(())
    }

    /// Takes one operation in.
    pub(crate) fn take_one(&mut self, op: &Op, out: &mut Vec<u8>) -> Result<(), NoMemory>
        requires { OpenRunFits self.old.start self.old.text.items }
        ensures is_open { OnOk result (OpenRunFits self.new.start self.new.text.items) }
        ensures takes { OnOk result (TakesInOps (open_ops self.old.start self.old.text.items) (open_ops self.new.start self.new.text.items) out.old.items out.new.items (op.now ∷ [])) }
        ensures err { OnErr result (Extends out.old.items out.new.items) }
    {
        match read_text(op) {
            Some((start, ch)) => self.take_texts(start, &[ch], out),
            None => self.take_other(op, out),
        }
    }

    /// Takes an operation in that is no Text.
    fn take_other(&mut self, op: &Op, out: &mut Vec<u8>) -> Result<(), NoMemory>
        requires is_open { OpenRunFits self.old.start self.old.text.items }
        requires other { text_in op.now ≡ None }
        ensures is_open { OnOk result (OpenRunFits self.new.start self.new.text.items) }
        ensures takes { OnOk result (TakesInOps (open_ops self.old.start self.old.text.items) (open_ops self.new.start self.new.text.items) out.old.items out.new.items (op.now ∷ [])) }
        ensures err { OnErr result (Extends out.old.items out.new.items) }
    {
        self.close(out)?;
        encode(op, out)?;
        Ok(())
    }
}
