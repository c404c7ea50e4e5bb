//! Decodes a whole frame of one operation, not of a run; only a title or a note's body is allocated.
ghost use Rattle.std.specs.Prelude.{◌≡◌, IfOk, IsErr};
ghost use Rattle.origin_model.specs.frames.Frames.{HasFrame, IsBody, IsTitle, body_bytes, frame as frame_of, title_bytes};
ghost use Rattle.op_frame.specs.Firsts.{IsFrameAfter};
ghost use Rattle.op_frame.specs.FrameFronts.{AsksMemory, Completes, IsBodyBytes, IsLast, IsOwnFrame};
ghost use Rattle.op_frame.specs.declared.due.Due.TheVariants.{Fields as FieldsDue};
ghost use Rattle.op_frame.specs.declared.due.Last.TheVariants.{Names as NamesLast, Title as TitleLast};

use crate::fields::Fields;
use crate::letter::read_letter;
use crate::protocol::{NOTE, SECTION};
use fugue_ids::{Body, BodyFault, NoMemory, Op, Title, TitleFault};
use std::alloc::Global;
use std::str;

/// The operation of a whole frame that is no run's. Memory goes to a title or a body alone.
pub fn decode(alloc: Global, frame: &[u8]) -> Result<Op, NoMemory>
    requires { IsOwnFrame frame.now }
    ensures ok { IfOk result (λ op. HasFrame op × (frame.now ≡ frame_of op)) }
    ensures err { IsErr result → AsksMemory frame.now }
{
    let rest = &frame[1..];
    let kind = frame[0];
    if kind == SECTION {
        return section(alloc, rest);
    }
    if kind == NOTE {
        return note(alloc, rest);
    }
    let Some((op, _len)) = read_letter(frame) else {
        unreachable!()
    };
    Ok(op)
}

fn section(alloc: Global, rest: &[u8]) -> Result<Op, NoMemory>
    requires { Completes (FieldsDue 1 2 TitleLast) rest.now }
    ensures { IfOk result (λ op. IsFrameAfter SECTION op rest.now) }
{
    let mut fields = Fields { rest };
    let id = fields.identifier();
    let left = fields.origin();
    let right = fields.origin();
    let title = title(alloc, fields.rest)?;
    Ok(Op::Section {
        id,
        left,
        right,
        title,
    })
}

fn note(alloc: Global, rest: &[u8]) -> Result<Op, NoMemory>
    requires { Completes (FieldsDue 1 0 NamesLast) rest.now }
    ensures { IfOk result (λ op. IsFrameAfter NOTE op rest.now) }
{
    let mut fields = Fields { rest };
    let id = fields.identifier();
    let names = fields.names();
    let code = fields.rest[0];
    let body = body(alloc, &fields.rest[1..])?;
    Ok(Op::Note {
        id,
        names,
        code,
        body,
    })
}

/// The title whose text stands after the first two bytes.
fn title(alloc: Global, bytes: &[u8]) -> Result<Title, NoMemory>
    requires { IsLast TitleLast bytes.now }
    ensures { IfOk result (λ title. IsTitle title × (bytes.now ≡ title_bytes title)) }
{
    let Ok(text) = str::from_utf8(&bytes[2..]) else {
        unreachable!()
    };
    match Title::read(alloc, text) {
        Ok(title) => Ok(title),
        Err(TitleFault::NoMemory) => Err(NoMemory),
        Err(TitleFault::Empty | TitleFault::TooLong | TitleFault::LineEnd) => unreachable!(),
    }
}

/// The body that stands after the first two bytes.
fn body(alloc: Global, bytes: &[u8]) -> Result<Body, NoMemory>
    requires { IsBodyBytes bytes.now }
    ensures { IfOk result (λ body. IsBody body × (bytes.now ≡ body_bytes body)) }
{
    match Body::read(alloc, &bytes[2..]) {
        Ok(body) => Ok(body),
        Err(BodyFault::NoMemory) => Err(NoMemory),
        Err(BodyFault::TooLong) => unreachable!(),
    }
}
