//! Takes the next frame from the buffer and the source: its first operation, and the rest of a run.
ghost use Rattle.std.specs.Prelude.{◌≡◌, ◌≤◌, ◌≢◌, length, take, [], None, Some, IfOk, IfErr};
ghost use Rattle.origin_model.specs.declared.grammar.Grammar.TheVariants.{Version2 as WithRuns};
ghost use Rattle.op_frame.specs.Firsts.{IsLetter};
ghost use Rattle.op_frame.specs.FrameFronts.{IsFrameOf};
ghost use Rattle.op_frame.specs.Headers.{GivesHeld, IsHeld};
ghost use Rattle.op_frame.specs.NextRuns.{IsOpFront};
ghost use Rattle.op_frame.specs.Steps.{TakesFrontFrame, TakesFrame, TakesOff};
ghost use Rattle.op_frame.specs.declared.fault.FrameFault.TheVariants.{CutShort};

use crate::FrameFault;
use crate::frame_ops::{Decoded, decode_frame};
use crate::front::{Front, front_of};
use crate::header::RunHeader;
use crate::letter::read_letter;
use crate::refill::refill;
use crate::unread::Unread;
use fugue_ids::{NoMemory, Op};
use origin_model::Grammar;
use outer_ports::Source;
use std::alloc::Global;

/// The first operation of a frame that was read, what is held back of it, and the frame's length.
#[derive(Drop)]
pub(crate) struct Taken {
    pub(crate) op: Op,
    pub(crate) held: Option<RunHeader>,
    pub(crate) len: usize,
}

/// Takes the first frame off the unread bytes and the source, but for scalars, as `take_frame` does. `room` is what the
/// limit leaves from the first unread byte on.
pub(crate) fn take_next<S: Source>(
    alloc: Global,
    grammar: Grammar,
    unread: &mut Unread,
    offset: u64,
    room: u64,
    source: &mut S,
) -> Result<Option<Taken>, FrameFault>
    requires { length unread.old.bytes ≤ room }
    ensures { TakesFrontFrame grammar unread.old.bytes unread.new.bytes (S.seen source.old) (S.seen source.new) offset room
        result }
{
    'reads: loop {
        // Nearly every frame is a letter's: it is read at once.
        if let Some((op, len)) = read_letter(unread.as_slice()) {
            return Ok(Some(take_letter(op, len, unread)));
        }
        match front_of(grammar, unread.as_slice()) {
            Front::Frame(len) => return take_frame(alloc, unread, len),
            Front::Bad => return Err(FrameFault::BadFrame(offset)),
            Front::Prefix => {}
        }
        if !refill(unread, room - unread.len() as u64, source)? {
            return at_end(unread, offset);
        }
    }
}

/// Takes the frame of a letter off the bytes.
fn take_letter(op: Op, len: usize, unread: &mut Unread) -> Taken
    requires letter { IsLetter op }
    requires front { IsOpFront op len unread.old.bytes }
    ensures { TakesOff result unread.old.bytes unread.new.bytes len }
{
    unread.skip(len);
    Taken {
        op,
        held: None,
        len,
    }
}

/// Takes the frame in the first `len` bytes off them, but for the scalars of the operations that are held back.
fn take_frame(alloc: Global, unread: &mut Unread, len: usize) -> Result<Option<Taken>, FrameFault>
    requires within { len ≤ length unread.old.bytes }
    requires frame { IsFrameOf WithRuns (take len unread.old.bytes) }
    ensures { TakesFrame unread.old.bytes unread.new.bytes len result }
{
    match decode_frame(alloc, &unread.as_slice()[..len]) {
        Err(NoMemory) => Err(FrameFault::NoMemory),
        Ok(Decoded::Single(op)) => {
            unread.skip(len);
            Ok(Some(Taken {
                op,
                held: None,
                len,
            }))
        }
        Ok(Decoded::Run(header)) => {
            unread.skip(len - 3 * header.count);
            let (op, held) = take_held(header, unread);
            Ok(Some(Taken { op, held, len }))
        }
    }
}

/// Gives the first operation that is held back, and takes its scalar off the bytes.
pub(crate) fn take_held(header: RunHeader, unread: &mut Unread) -> (Op, Option<RunHeader>)
    requires { IsHeld unread.old.bytes header }
    ensures { GivesHeld header result.0 result.1 unread.old.bytes unread.new.bytes }
{
    let given = header.first(unread.as_slice());
    unread.skip(3);
    given
}

/// What the bytes before the end of the stream are, where they begin a frame and have none.
fn at_end(unread: &Unread, offset: u64) -> Result<Option<Taken>, FrameFault>
    ensures none { IfOk result (λ given. (given ≡ None) × (unread.now.bytes ≡ [])) }
    ensures cut { IfErr result (λ e. (e ≡ CutShort offset) × (unread.now.bytes ≢ [])) }
{
    if unread.len() == 0 {
        Ok(None)
    } else {
        Err(FrameFault::CutShort(offset))
    }
}
