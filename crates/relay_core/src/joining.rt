//! Operations of a received frame appended to the log, unless it has them already or is full.
ghost use Rattle.std.specs.Prelude.{◌≡◌, ◌≤◌, [], IfOk, None as Nothing, Some, length};
ghost use Rattle.origin_model.specs.declared.grammar.Grammar.TheVariants.{Version2 as WithRuns};
ghost use Rattle.origin_model.specs.relay.Session.{refusal_message as refusal_of};
ghost use Rattle.origin_model.specs.frames.Frames.{frame};
ghost use Rattle.op_frame.specs.FrameFronts.{IsFrameOf};
ghost use Rattle.relay_core.specs.Joins.{JoinsAll, JoinsFrame, JoinsOne};
ghost use Rattle.relay_core.specs.Logs.{LogGrows, frames_in};

use crate::log::{Log, add, has_frame};
use fugue_ids::{ByteList, NoMemory, Op};
use op_frame::{FrameOps, REFUSAL, RUN, encode};
use std::alloc::Global;
use std::hash::BuildHasher;

/// The reply to a session that is refused with this code.
pub(crate) fn refuse(alloc: Global, code: u8) -> Result<Option<ByteList>, NoMemory>
    ensures { IfOk result (λ reply. reply ≡ Some (refusal_of code)) }
{
    let bytes = Vec::from_array(alloc, [REFUSAL, code])?;
    Ok(Some(ByteList::new(bytes)))
}

/// An operation, by its own frame, joins a log that lacks it; a full one refuses it.
fn join<B: BuildHasher>(
    alloc: Global,
    limit: u32,
    log: &mut Log<B>,
    own: &[u8],
) -> Result<Option<ByteList>, NoMemory>
    requires room { length (frames_in log.old) ≤ limit }
    ensures ok { IfOk result (λ reply. JoinsOne limit (frames_in log.old) own.now (frames_in log.new) reply) }
    ensures grows { LogGrows (frames_in log.old) (frames_in log.new) }
    ensures within { length (frames_in log.new) ≤ limit }
{
    if has_frame(log, own) {
        return Ok(None);
    }
    if log.len() == limit as usize {
        return refuse(alloc, 2);
    }
    add(alloc, log, own)?;
    Ok(None)
}

/// An operation joins the log, by its own frame, which takes the place of what the buffer had.
fn join_op<B: BuildHasher>(
    alloc: Global,
    limit: u32,
    log: &mut Log<B>,
    op: &Op,
    own: &mut Vec<u8>,
) -> Result<Option<ByteList>, NoMemory>
    requires room { length (frames_in log.old) ≤ limit }
    ensures ok { IfOk result (λ reply. JoinsOne limit (frames_in log.old) (frame op.now) (frames_in log.new) reply) }
    ensures grows { LogGrows (frames_in log.old) (frames_in log.new) }
    ensures within { length (frames_in log.new) ≤ limit }
{
    own.clear();
    encode(op, own)?;
    join(alloc, limit, log, own.as_slice())
}

/// The operations that are left join the log in order, each that is not in it, up to one that is refused.
fn join_rest<B: BuildHasher>(
    alloc: Global,
    limit: u32,
    log: &mut Log<B>,
    left: &mut FrameOps<'_>,
    own: &mut Vec<u8>,
) -> Result<Option<ByteList>, NoMemory>
    requires room { length (frames_in log.old) ≤ limit }
    ensures ok { IfOk result (λ reply. JoinsAll limit (frames_in log.old) left.old (frames_in log.new) [] reply) }
    ensures grows { LogGrows (frames_in log.old) (frames_in log.new) }
    ensures within { length (frames_in log.new) ≤ limit }
{
    'ops: while let Some(op) = left.next() {
        let reply = join_op(alloc, limit, log, &op, own);
        drop(op);
        let reply = reply?;
        if reply.is_some() {
            return Ok(reply);
        }
    }
    Ok(None)
}

/// The operations of a whole frame join the log in order, each that is not in it, up to one that is refused. An
/// operation alone takes no memory where the log has it.
pub(crate) fn take_frame<B: BuildHasher>(
    alloc: Global,
    limit: u32,
    log: &mut Log<B>,
    frame: &[u8],
) -> Result<Option<ByteList>, NoMemory>
    requires frame { IsFrameOf WithRuns frame.now }
    requires room { length (frames_in log.old) ≤ limit }
    ensures ok { IfOk result (λ reply. JoinsFrame limit (frames_in log.old) frame.now (frames_in log.new) [] reply) }
    ensures grows { LogGrows (frames_in log.old) (frames_in log.new) }
    ensures within { length (frames_in log.new) ≤ limit }
{
    if frame[0] != RUN {
        return join(alloc, limit, log, frame);
    }
    let mut left = FrameOps::new(alloc, frame)?;
    let mut own = Vec::new(alloc);
    let reply = join_rest(alloc, limit, log, &mut left, &mut own);
    drop(own);
    drop(left);
    reply
}
