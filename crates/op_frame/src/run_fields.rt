//! Checks the fields of a run's frame: its first identifier, the number of scalars, and the scalars.
ghost use Rattle.std.specs.Prelude.{◌≡◌, ◌≤◌, ◌<◌, ◌-◌, ◌*◌, IsTrue, get_or, length, take};
ghost use Rattle.std.specs.Char.{IsScalar};
ghost use Rattle.op_frame.specs.FrameFronts.{IsJudged, IsSoundDue, LeavesDue, most_from as most_texts, scalar_of_bytes, scalars_due as due_scalars};
ghost use Rattle.op_frame.specs.declared.due.Due.TheVariants.{Fields as FieldsDue, Run as RunDue};
ghost use Rattle.op_frame.specs.declared.due.Last.TheVariants.{Count as CountLast, Scalars as ScalarsLast};

use crate::due::{Due, Judged, Last};
use crate::encoding::LONGEST_RUN;
use crate::number::{byte_or_0, number, scalar_of, short_number};

/// The first identifier of a run: there is no replica 0, and the last counter has none after it.
pub(crate) fn judge_first(bytes: &[u8]) -> Judged
    requires { length bytes.now ≤ 8 }
    ensures { IsJudged result RunDue bytes.now }
{
    if bytes.len() >= 4 && number(bytes) == 0 {
        return Judged::Bad;
    }
    if bytes.len() < 8 {
        return Judged::Front;
    }
    let counter = number(&bytes[4..]);
    if counter == u32::MAX {
        return Judged::Bad;
    }
    Judged::Done(Due::Fields(1, 2, Last::Count(most_from(counter))))
}

/// How many Texts a run can have that begins with this counter.
fn most_from(counter: u32) -> usize
    ensures { result ≡ most_texts counter }
{
    LONGEST_RUN.min((4_294_967_296 - counter as u64) as usize)
}

/// How many scalars there are: at least 2.
pub(crate) fn judge_count(most: usize, bytes: &[u8]) -> Judged
    requires some { 0 < length bytes.now }
    requires short { length bytes.now ≤ 2 }
    requires two { 2 ≤ most }
    requires few { most ≤ LONGEST_RUN }
    ensures { IsJudged result (FieldsDue 0 0 (CountLast most)) bytes.now }
{
    let high = bytes[0];
    if high as usize * 256 > most {
        return Judged::Bad;
    }
    if bytes.len() == 1 {
        return Judged::Front;
    }
    let count = short_number(high, bytes[1]);
    if count < 2 || count > most {
        return Judged::Bad;
    }
    Judged::Done(Due::Fields(0, 0, Last::Scalars(count)))
}

/// Fewer than three bytes begin a scalar exactly where they do so with zeros after them.
pub(crate) fn judge_scalar(count: usize, bytes: &[u8]) -> Judged
    requires some { 0 < length bytes.now }
    requires short { length bytes.now ≤ 3 }
    requires left { 0 < count }
    ensures { IsJudged result (FieldsDue 0 0 (ScalarsLast count)) bytes.now }
{
    if scalar_of(bytes[0], byte_or_0(bytes, 1), byte_or_0(bytes, 2)).is_none() {
        return Judged::Bad;
    }
    if bytes.len() < 3 {
        return Judged::Front;
    }
    Judged::Done(scalars_due(count - 1))
}

fn scalars_due(count: usize) -> Due
    ensures { result ≡ due_scalars count }
{
    if count == 0 {
        return Due::Fields(0, 0, Last::Nothing);
    }
    Due::Fields(0, 0, Last::Scalars(count))
}

/// Passes the scalars at the front of the bytes, where scalars are due next: what is due after them, and how many bytes
/// they have. A run has up to 1,024 of them, so they are not looked at as fields one by one.
pub(crate) fn pass_scalars(due: Due, bytes: &[u8]) -> (Due, usize)
    requires { IsSoundDue due }
    ensures within { result.1 ≤ length bytes.now }
    ensures leaves { LeavesDue (take result.1 bytes.now) due result.0 }
{
    match due {
        Due::Fields(0, 0, Last::Scalars(count)) => {
            let passed = scalars_in_front(count, bytes);
            (scalars_due(count - passed), 3 * passed)
        }
        _ => (due, 0),
    }
}

/// How many scalars stand at the front of the bytes, one after another, but at most so many.
fn scalars_in_front(most: usize, bytes: &[u8]) -> usize
    requires { 0 < most }
    ensures few { result ≤ most }
    ensures within { 3 * result ≤ length bytes.now }
    ensures leaves { LeavesDue (take (3 * result) bytes.now) (FieldsDue 0 0 (ScalarsLast most)) (due_scalars (most - result)) }
{
    let whole = most.min(bytes.len() / 3);
    let mut passed = 0;
    'scalars: while passed < whole && is_scalar(&bytes[3 * passed..3 * passed + 3]) {
        passed += 1;
    }
    passed
}

fn is_scalar(bytes: &[u8]) -> bool
    requires { length bytes.now ≡ 3 }
    ensures { IsTrue result
        → IsScalar (scalar_of_bytes (get_or bytes.now 0 0) (get_or bytes.now 1 0) (get_or bytes.now 2 0)) }
{
    scalar_of(bytes[0], bytes[1], bytes[2]).is_some()
}
