//! The step of the frame parser: checks bytes against the next field, and says which fields follow.
ghost use Rattle.std.specs.Prelude.{◌≡◌, ◌≤◌, ◌<◌, length, [], ◌∷◌, true, false};
ghost use Rattle.op_frame.specs.FrameFronts.{IsJudged, IsSoundDue, field_size as due_size, grown_by as by_due};
ghost use Rattle.op_frame.specs.FrameFronts.{last_size as due_last_size};
ghost use Rattle.op_frame.specs.declared.due.Due.TheVariants.{Fields as FieldsDue, Kind as KindDue};
ghost use Rattle.op_frame.specs.declared.grown.Grown.TheVariants.{Frame as WholeGrown, Front as FrontGrown};

use crate::due::{Due, Judged, Last};
use crate::grown::Grown;
use crate::note_fields::{judge_body, judge_code, judge_length, judge_names};
use crate::number::number;
use crate::protocol::{DELETE, NOTE, RUN, SECTION, TEXT};
use crate::run_fields::{judge_count, judge_first, judge_scalar};
use crate::title::{judge_text, judge_title};
use origin_model::Grammar;

/// How many bytes the field has that is due, or its first part.
pub(crate) fn field_size(due: Due) -> usize
    ensures { result ≡ due_size due }
{
    match due {
        Due::Kind(_) => 1,
        Due::Run => 8,
        Due::Fields(identifiers, origins, last) => {
            if identifiers > 0 {
                return 8;
            }
            if origins > 0 {
                return 1;
            }
            last_size(last)
        }
    }
}

fn last_size(last: Last) -> usize
    ensures { result ≡ due_last_size last }
{
    match last {
        Last::Nothing => 1,
        Last::Scalars(_) => 3,
        Last::Count(_) => 2,
        Last::Title => 2,
        Last::Text(len) => len,
        Last::Names => 1,
        Last::Code => 1,
        Last::Length => 2,
        Last::Body(len) => len,
    }
}

/// Whether nothing is due.
pub(crate) fn is_whole(due: Due) -> bool
    ensures yes { result ≡ true → by_due due ≡ WholeGrown }
    ensures no { result ≡ false → by_due due ≡ FrontGrown }
{
    match due {
        Due::Fields(0, 0, Last::Nothing) => true,
        _ => false,
    }
}

/// What bytes are after which this is due.
pub(crate) fn grown_by(due: Due) -> Grown
    ensures { result ≡ by_due due }
{
    if is_whole(due) {
        Grown::Frame
    } else {
        Grown::Front
    }
}

/// What these bytes are of the field that is due.
pub(crate) fn judge(due: Due, bytes: &[u8]) -> Judged
    requires some { 0 < length bytes.now }
    requires short { length bytes.now ≤ due_size due }
    requires sound { IsSoundDue due }
    ensures { IsJudged result due bytes.now }
{
    match due {
        Due::Kind(grammar) => judge_kind(grammar, bytes[0]),
        Due::Run => judge_first(bytes),
        Due::Fields(identifiers, origins, last) => {
            if identifiers > 0 {
                return judge_identifier(identifiers, origins, last, bytes);
            }
            if origins > 0 {
                return judge_tag(origins, last, bytes[0]);
            }
            judge_last(last, bytes)
        }
    }
}

/// The fields of a frame, by its first byte.
fn judge_kind(grammar: Grammar, kind: u8) -> Judged
    ensures { IsJudged result (KindDue grammar) (kind ∷ []) }
{
    match kind {
        SECTION => Judged::Done(Due::Fields(1, 2, Last::Title)),
        TEXT => Judged::Done(Due::Fields(2, 2, Last::Scalars(1))),
        DELETE => Judged::Done(Due::Fields(1, 0, Last::Nothing)),
        RUN => match grammar {
            Grammar::Version1 => Judged::Bad,
            Grammar::Version2 => Judged::Done(Due::Run),
        },
        NOTE => match grammar {
            Grammar::Version1 => Judged::Bad,
            Grammar::Version2 => Judged::Done(Due::Fields(1, 0, Last::Names)),
        },
        _ => Judged::Bad,
    }
}

/// There is no replica 0.
fn judge_identifier(identifiers: u8, origins: u8, last: Last, bytes: &[u8]) -> Judged
    requires some { 0 < identifiers }
    requires short { length bytes.now ≤ 8 }
    requires sound { IsSoundDue (FieldsDue identifiers origins last) }
    ensures { IsJudged result (FieldsDue identifiers origins last) bytes.now }
{
    if bytes.len() < 4 {
        return Judged::Front;
    }
    if number(bytes) == 0 {
        return Judged::Bad;
    }
    if bytes.len() < 8 {
        return Judged::Front;
    }
    Judged::Done(Due::Fields(identifiers - 1, origins, last))
}

/// The first byte of an origin says whether an identifier follows.
fn judge_tag(origins: u8, last: Last, tag: u8) -> Judged
    requires some { 0 < origins }
    requires sound { IsSoundDue (FieldsDue 0 origins last) }
    ensures { IsJudged result (FieldsDue 0 origins last) (tag ∷ []) }
{
    match tag {
        0 => Judged::Done(Due::Fields(0, origins - 1, last)),
        1 => Judged::Done(Due::Fields(1, origins - 1, last)),
        _ => Judged::Bad,
    }
}

fn judge_last(last: Last, bytes: &[u8]) -> Judged
    requires some { 0 < length bytes.now }
    requires short { length bytes.now ≤ due_last_size last }
    requires sound { IsSoundDue (FieldsDue 0 0 last) }
    ensures { IsJudged result (FieldsDue 0 0 last) bytes.now }
{
    match last {
        Last::Nothing => Judged::Bad,
        Last::Scalars(count) => judge_scalar(count, bytes),
        Last::Count(most) => judge_count(most, bytes),
        Last::Title => judge_title(bytes),
        Last::Text(len) => judge_text(len, bytes),
        Last::Names => judge_names(bytes[0]),
        Last::Code => judge_code(bytes[0]),
        Last::Length => judge_length(bytes),
        Last::Body(len) => judge_body(len, bytes),
    }
}
