//! What a whole frame stands for, one operation or a run, and its operations given one by one.
ghost use Rattle.std.specs.Prelude.{◌≡◌, IfOk, IsErr, IfSome, get_or};
ghost use Rattle.origin_model.specs.frames.Frames.{IsFrame};
ghost use Rattle.origin_model.specs.declared.grammar.Grammar.TheVariants.{Version2 as WithRuns};
ghost use Rattle.op_frame.specs.Decoded.{IsDecoded, GivesFirstOf};
ghost use Rattle.op_frame.specs.FrameFronts.{AsksMemory, IsFrameOf};
ghost use Rattle.op_frame.specs.Headers.{HeaderIs};

use crate::decoding::decode;
use crate::header::RunHeader;
use crate::protocol::RUN;
use fugue_ids::{NoMemory, Op};
use std::alloc::Global;
use std::marker::Model;

/// What a frame stands for: an operation alone, or a run, whose scalars are left where they are.
#[derive(Drop)]
pub(crate) enum Decoded {
    Single(Op),
    Run(RunHeader),
}

/// What the whole frame of a run says before its scalars.
pub(crate) fn run_header(frame: &[u8]) -> RunHeader
    requires frame { IsFrameOf WithRuns frame.now }
    requires run { get_or frame.now 0 0 ≡ RUN }
    ensures { HeaderIs result frame.now }
{
    RunHeader::read(&frame[1..])
}

/// What a whole frame stands for. Memory goes to a title or a body alone.
pub(crate) fn decode_frame(alloc: Global, frame: &[u8]) -> Result<Decoded, NoMemory>
    requires { IsFrameOf WithRuns frame.now }
    ensures ok { IfOk result (λ decoded. IsDecoded decoded frame.now) }
    ensures err { IsErr result → AsksMemory frame.now }
{
    if frame[0] == RUN {
        return Ok(Decoded::Run(run_header(frame)));
    }
    Ok(Decoded::Single(decode(alloc, frame)?))
}

/// The operations of a whole frame, one by one, over its bytes. It is seen as those that are not yet given.
#[derive(Drop)]
pub struct FrameOps<'a> {
    single: Option<Op>,
    run: Option<RunHeader>,
    scalars: &'a [u8],
}

impl<'a> Model for FrameOps<'a> {
    ghost use Rattle.std.specs.Prelude.{◌++◌, IfSome, List};
    ghost use Rattle.fugue_ids.specs.declared.op.Op.{Op as AnOp};
    ghost use Rattle.op_frame.specs.Decoded.{single_ops};
    ghost use Rattle.op_frame.specs.Headers.{IsHeld, held_ops};

    ghost Value = { List AnOp };

    ghost view = { λ f. held_ops f.run f.scalars.now ++ single_ops f.single };

    ghost invariant = { λ f. IfSome f.run (IsHeld f.scalars.now) };
}

impl<'a> FrameOps<'a> {
    /// The operations of this frame. Memory goes to a title or a body alone.
    pub fn new(alloc: Global, frame: &'a [u8]) -> Result<FrameOps<'a>, NoMemory>
        requires { IsFrameOf WithRuns frame.now }
        ensures ok { IfOk result (λ ops. IsFrame WithRuns (record { bytes = frame.now; ops = ops })) }
        ensures err { IsErr result → AsksMemory frame.now }
    {
        match decode_frame(alloc, frame)? {
            Decoded::Single(op) => Ok(FrameOps {
                single: Some(op),
                run: None,
                scalars: frame,
            }),
            Decoded::Run(header) => {
                let start = frame.len() - 3 * header.count;
                Ok(FrameOps {
                    single: None,
                    run: Some(header),
                    scalars: &frame[start..],
                })
            }
        }
    }

    /// The next operation.
    pub fn next(&mut self) -> Option<Op>
        ensures { GivesFirstOf result self.old self.new }
    {
        match self.run {
            None => self.single.take(),
            Some(header) => {
                let (op, next) = header.first(self.scalars);
                self.run = next;
                self.scalars = &self.scalars[3..];
                Some(op)
            }
        }
    }
}
