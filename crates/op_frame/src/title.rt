//! Checks a title's length and its text, also where only a prefix has arrived: UTF-8 without line ends.
ghost use Rattle.std.specs.Prelude.{◌≡◌, ◌≤◌, ◌<◌, ◌∷◌, [], length};
ghost use Rattle.op_frame.specs.FrameFronts.{IsJudged, text_due as due_text, width_of};
ghost use Rattle.op_frame.specs.declared.due.Due.TheVariants.{Fields as FieldsDue};
ghost use Rattle.op_frame.specs.declared.due.Last.TheVariants.{Text as TextLast, Title as TitleLast};

use crate::due::{Due, Judged, Last};
use crate::number::short_number;
use fugue_ids::{LONGEST_TITLE, has_line_end};
use std::str;

/// A title's length decides how much text is due.
pub(crate) fn judge_title(bytes: &[u8]) -> Judged
    requires some { 0 < length bytes.now }
    requires short { length bytes.now ≤ 2 }
    ensures { IsJudged result (FieldsDue 0 0 TitleLast) bytes.now }
{
    if bytes.len() == 1 {
        return judge_high(bytes[0]);
    }
    let len = short_number(bytes[0], bytes[1]);
    if len == 0 || len > LONGEST_TITLE {
        return Judged::Bad;
    }
    Judged::Done(Due::Fields(0, 0, Last::Text(len)))
}

/// The first byte of a length.
fn judge_high(high: u8) -> Judged
    ensures { IsJudged result (FieldsDue 0 0 TitleLast) (high ∷ []) }
{
    if high > 1 { Judged::Bad } else { Judged::Front }
}

/// After whole characters less text is due.
pub(crate) fn judge_text(len: usize, bytes: &[u8]) -> Judged
    requires some { 0 < length bytes.now }
    requires short { length bytes.now ≤ len }
    requires most { len ≤ LONGEST_TITLE }
    ensures { IsJudged result (FieldsDue 0 0 (TextLast len)) bytes.now }
{
    if has_line_end(bytes) {
        return Judged::Bad;
    }
    let Err(fault) = str::from_utf8(bytes) else {
        return Judged::Done(text_due(len - bytes.len()));
    };
    if bytes.len() == len || fault.error_len().is_some() {
        return Judged::Bad;
    }
    let at = fault.valid_up_to();
    if len - at < width(bytes[at]) {
        return Judged::Bad;
    }
    Judged::Front
}

fn text_due(len: usize) -> Due
    ensures { result ≡ due_text len }
{
    if len == 0 {
        return Due::Fields(0, 0, Last::Nothing);
    }
    Due::Fields(0, 0, Last::Text(len))
}

/// How many bytes a character has that begins with this byte and is not ASCII.
fn width(lead: u8) -> usize
    ensures { result ≡ width_of lead }
{
    match lead {
        0..=0xDF => 2,
        0xE0..=0xEF => 3,
        _ => 4,
    }
}
