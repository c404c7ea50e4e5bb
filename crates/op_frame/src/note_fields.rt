//! Checks the last fields of a note's frame: how many identifiers it names, its code and its body.
ghost use Rattle.std.specs.Prelude.{◌≡◌, ◌≤◌, ◌<◌, ◌∷◌, [], length};
ghost use Rattle.op_frame.specs.FrameFronts.{IsJudged, body_due as due_body};
ghost use Rattle.op_frame.specs.declared.due.Due.TheVariants.{Fields as FieldsDue};
ghost use Rattle.op_frame.specs.declared.due.Last.TheVariants.{Body as BodyLast, Code as CodeLast};
ghost use Rattle.op_frame.specs.declared.due.Last.TheVariants.{Length as LengthLast, Names as NamesLast};

use crate::due::{Due, Judged, Last};
use crate::number::short_number;
use fugue_ids::{LONGEST_BODY, MOST_NAMES};

/// Judges the byte that says how many identifiers a note names.
pub(crate) fn judge_names(count: u8) -> Judged
    ensures { IsJudged result (FieldsDue 0 0 NamesLast) (count ∷ []) }
{
    if count as usize > MOST_NAMES {
        return Judged::Bad;
    }
    Judged::Done(Due::Fields(count, 0, Last::Code))
}

/// Judges the code of a note: any byte is one.
pub(crate) fn judge_code(_code: u8) -> Judged
    ensures { IsJudged result (FieldsDue 0 0 CodeLast) (_code ∷ []) }
{
    Judged::Done(Due::Fields(0, 0, Last::Length))
}

/// Judges the length of a body, or its first byte.
pub(crate) fn judge_length(bytes: &[u8]) -> Judged
    requires some { 0 < length bytes.now }
    requires short { length bytes.now ≤ 2 }
    ensures { IsJudged result (FieldsDue 0 0 LengthLast) bytes.now }
{
    let high = bytes[0];
    if high as usize * 256 > LONGEST_BODY {
        return Judged::Bad;
    }
    if bytes.len() == 1 {
        return Judged::Front;
    }
    let len = short_number(high, bytes[1]);
    if len > LONGEST_BODY {
        return Judged::Bad;
    }
    Judged::Done(body_due(len))
}

/// Judges bytes of a body: any byte may stand there.
pub(crate) fn judge_body(len: usize, bytes: &[u8]) -> Judged
    requires short { length bytes.now ≤ len }
    requires most { len ≤ LONGEST_BODY }
    ensures { IsJudged result (FieldsDue 0 0 (BodyLast len)) bytes.now }
{
    Judged::Done(body_due(len - bytes.len()))
}

fn body_due(len: usize) -> Due
    ensures { result ≡ due_body len }
{
    if len == 0 {
        return Due::Fields(0, 0, Last::Nothing);
    }
    Due::Fields(0, 0, Last::Body(len))
}
