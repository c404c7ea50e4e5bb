//! The first frame in some bytes, decoded, or that the bytes are only a prefix of one, or begin none.
ghost use Rattle.std.specs.Prelude.{IfOk, OnErr};
ghost use Rattle.origin_model.specs.frames.Frames.{IsFrame};
ghost use Rattle.origin_model.specs.declared.grammar.Grammar.TheVariants.{Version2 as WithRuns};
ghost use Rattle.op_frame.specs.Firsts.{FirstIs, HasFirstFrame};
ghost use Rattle.op_frame.specs.FrameFronts.{IsFrameOf};

use crate::frame_ops::FrameOps;
use crate::front::{Front, front_of};
use fugue_ids::{NoMemory, Op};
use origin_model::Grammar;
use std::alloc::Global;

/// What stands at the front of some bytes.
#[derive(Drop)]
pub enum First {
    /// A frame: the operations that it stands for, and its length.
    Whole(Vec<Op>, usize),
    /// Nothing yet: the bytes are a proper front of some frame.
    Prefix,
    /// No frame, whatever follows.
    Bad,
}

/// What stands at the front of the bytes. Memory is wanted for the operations of a frame alone.
pub fn first_frame(alloc: Global, bytes: &[u8]) -> Result<First, NoMemory>
    ensures first { IfOk result (λ first. FirstIs first bytes.now) }
    ensures memory { OnErr result (HasFirstFrame bytes.now) }
{
    match front_of(Grammar::Version2, bytes) {
        Front::Frame(len) => Ok(First::Whole(all_ops(alloc, &bytes[..len])?, len)),
        Front::Prefix => Ok(First::Prefix),
        Front::Bad => Ok(First::Bad),
    }
}

/// The operations of a whole frame.
fn all_ops(alloc: Global, frame: &[u8]) -> Result<Vec<Op>, NoMemory>
    requires { IsFrameOf WithRuns frame.now }
    ensures { IfOk result (λ ops. IsFrame WithRuns (record { bytes = frame.now; ops = ops.items })) }
{
    let mut rest = FrameOps::new(alloc, frame)?;
    let mut ops = Vec::new(alloc);
    'ops: while let Some(op) = rest.next() {
        ops.push(op)?;
    }
    Ok(ops)
}
