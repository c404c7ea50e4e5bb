//! Takes frames off the buffer that continue a run of Texts or a series of Deletes, to return all at once.
ghost use Rattle.std.specs.Prelude.{◌≡◌, ◌<◌, ◌≤◌, ◌+◌, ◌^◌, IfSome, IsTrue, length, vec_capacity};
ghost use Rattle.fugue_ids.specs.Runs.{id_after, start_after};
ghost use Rattle.op_frame.specs.Headers.{IsHeld};
ghost use Rattle.op_frame.specs.NextRuns.{IsRunFront, IsTextAfter, PutsScalars, TakesDelete, TakesFront, TakesHeld, start_in};

use crate::expected::{expected_delete, expected_text};
use crate::fields::first_scalar;
use crate::frame_ops::run_header;
use crate::front::{Front, front_of};
use crate::header::RunHeader;
use crate::protocol::RUN;
use crate::unread::Unread;
use fugue_ids::{ElementId, RunStart};
use origin_model::Grammar;

/// Takes the scalars of the Texts that are held back, if these go on with the run. After an allocation failure nothing
/// is done.
pub(crate) fn take_held_texts(
    start: &RunStart,
    header: &RunHeader,
    unread: &mut Unread,
    text: &mut Vec<char>,
) -> bool
    requires { IsHeld unread.old.bytes header.now }
    ensures takes { TakesHeld result start.now header.now text.old.items text.new.items unread.old.bytes unread.new.bytes }
    ensures room { vec_capacity text.old ≤ vec_capacity text.new }
{
    if !is_next(start, text, header) {
        return false;
    }
    if !put_scalars(header, unread.as_slice(), text) {
        return false;
    }
    unread.skip(3 * header.count);
    true
}

/// Takes the frame at the front off the bytes, if it is whole and its Texts go on with the run, and answers its length.
/// After an allocation failure nothing is done.
pub(crate) fn take_texts(
    grammar: Grammar,
    start: &RunStart,
    unread: &mut Unread,
    text: &mut Vec<char>,
) -> Option<usize>
    ensures takes { TakesFront grammar start.now text.old.items text.new.items unread.old.bytes unread.new.bytes result }
    ensures room { vec_capacity text.old ≤ vec_capacity text.new }
{
    match run_front(grammar, unread.as_slice()) {
        Some((header, len)) => take_run(grammar, start, &header, len, unread, text),
        None => take_text(grammar, start, unread, text),
    }
}

/// The identifier so many after this one, where there is one.
pub(crate) fn target_after(first: ElementId, count: u32) -> Option<ElementId>
    ensures is { IfSome result (λ id. id ≡ id_after first count) }
    ensures fits { IfSome result (λ id. first.counter + count < 2 ^ 32) }
{
    if count > u32::MAX - first.counter {
        return None;
    }
    Some(first.behind(count))
}

/// Takes the frame at the front off the bytes, if it is whole and that of the Delete of this target, and answers its
/// length.
pub(crate) fn take_delete(target: ElementId, unread: &mut Unread) -> Option<usize>
    ensures { TakesDelete target unread.old.bytes unread.new.bytes result }
{
    let len = expected_delete(target, unread.as_slice())?;
    unread.skip(len);
    Some(len)
}

/// The run whose frame stands at the front of the bytes, and the frame's length.
fn run_front(grammar: Grammar, bytes: &[u8]) -> Option<(RunHeader, usize)>
    ensures { IfSome result (λ found. IsRunFront grammar found.0 found.1 bytes.now) }
{
    if bytes.is_empty() || bytes[0] != RUN {
        return None;
    }
    match front_of(grammar, bytes) {
        Front::Frame(len) => Some((run_header(&bytes[..len]), len)),
        Front::Prefix => None,
        Front::Bad => None,
    }
}

fn take_run(
    grammar: Grammar,
    start: &RunStart,
    header: &RunHeader,
    len: usize,
    unread: &mut Unread,
    text: &mut Vec<char>,
) -> Option<usize>
    requires { IsRunFront grammar header.now len unread.old.bytes }
    ensures takes { TakesFront grammar start.now text.old.items text.new.items unread.old.bytes unread.new.bytes result }
    ensures room { vec_capacity text.old ≤ vec_capacity text.new }
{
    if !is_next(start, text, header) {
        return None;
    }
    if !put_scalars(header, &unread.as_slice()[len - 3 * header.count..], text) {
        return None;
    }
    unread.skip(len);
    Some(len)
}

fn take_text(
    grammar: Grammar,
    start: &RunStart,
    unread: &mut Unread,
    text: &mut Vec<char>,
) -> Option<usize>
    ensures takes { TakesFront grammar start.now text.old.items text.new.items unread.old.bytes unread.new.bytes result }
    ensures room { vec_capacity text.old ≤ vec_capacity text.new }
{
    let (ch, len) = text_after(start, text, unread.as_slice())?;
    match text.push(ch) {
        Ok(()) => {
            unread.skip(len);
            Some(len)
        }
        Err(_refused) => None,
    }
}

/// The scalar and the length of the frame at the front of the bytes, where it is whole and that of the Text that goes
/// on with the run. After the last counter there is none.
fn text_after(start: &RunStart, text: &Vec<char>, bytes: &[u8]) -> Option<(char, usize)>
    ensures { IfSome result (λ found. IsTextAfter start.now (length text.now.items) found.0 found.1 bytes.now) }
{
    let count = text.as_slice().len();
    if count > (u32::MAX - start.id.counter) as usize {
        return None;
    }
    expected_text(&start.nth(count), bytes)
}

/// Whether the Texts go on with the run.
fn is_next(start: &RunStart, text: &Vec<char>, header: &RunHeader) -> bool
    ensures { IsTrue result → start_in header.now ≡ start_after start.now (length text.now.items) }
{
    start.goes_on(text.as_slice().len(), &header.start())
}

/// Appends the scalars of the Texts that are held back. After an allocation failure there are none more.
fn put_scalars(header: &RunHeader, bytes: &[u8], text: &mut Vec<char>) -> bool
    requires { IsHeld bytes.now header.now }
    ensures puts { PutsScalars result header.now bytes.now text.old.items text.new.items }
    ensures room { vec_capacity text.old ≤ vec_capacity text.new }
{
    let len = text.as_slice().len();
    for place in 0..header.count {
        match text.push(first_scalar(&bytes[3 * place..])) {
            Ok(()) => {}
            Err(_refused) => {
                text.truncate(len);
                return false;
            }
        }
    }
    true
}
