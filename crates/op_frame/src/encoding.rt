//! Encodes one operation, or a run of Texts, as one frame; how long a run and a frame may be.
ghost use Rattle.std.specs.Prelude.{◌≡◌, ◌<◌, ◌≤◌, ◌+◌, ◌*◌, ◌^◌, ◌++◌, All, length, flat_map};
ghost use Rattle.std.specs.Prelude.{vec_len, vec_capacity, OnOk, OnErr};
ghost use Rattle.std.specs.Char.{IsScalar};
ghost use Rattle.origin_model.specs.frames.Frames.{HasFrame, frame, run_frame, scalar_bytes};
ghost use Rattle.origin_model.specs.frames.Frames.{body_bytes, id_bytes, names_bytes, origin_bytes, title_bytes};
ghost use Rattle.origin_model.specs.frames.Framings.{frames};
ghost use Rattle.fugue_ids.specs.Runs.{run_from};
ghost use Rattle.fugue_ids.specs.declared.op.Op.TheVariants.{Note as NoteOp, Section as SectionOp};
ghost use Rattle.op_frame.specs.Encoded.{AppendsKeepingCapacity};
ghost use Rattle.op_frame.specs.OpenRuns.{run_of};

use crate::framed::{has_frame, has_identifiers};
use crate::protocol::{DELETE, NOTE, RUN, SECTION, TEXT};
use fugue_ids::{
    Body, ElementId, LONGEST_BODY, LONGEST_TITLE, MOST_NAMES, NoMemory, NoteNames, Op, RunStart,
    Title,
};

/// The most Texts of a run.
pub const LONGEST_RUN: usize = 1_024;

/// The longest part of a run's frame before its scalars: its kind, two identifiers, both origins, and the number of the
/// scalars.
const LONGEST_HEADER: usize = 1 + 8 + 8 + 9 + 9 + 2;

/// The longest frame, in bytes: that of the most Texts.
pub const LONGEST_FRAME: usize = LONGEST_HEADER + 3 * LONGEST_RUN;

/// The longest frame of one operation: that of a Note with its kind, its identifier, the most names after their number,
/// its code, and the longest body after its length.
const LONGEST_SINGLE: usize = 1 + 8 + 1 + 8 * MOST_NAMES + 1 + 2 + LONGEST_BODY;

/// Appends the operation's own frame.
pub fn encode(op: &Op, out: &mut Vec<u8>) -> Result<(), NoMemory>
    ensures has_frame { OnOk result (HasFrame op.now) }
    ensures ok { OnOk result (out.new.items ≡ out.old.items ++ frame op.now) }
    ensures err { OnErr result (out.new.items ≡ out.old.items) }
{
    has_frame(op);
    out.reserve(LONGEST_SINGLE)?;
    match op {
        Op::Section {
            id,
            left,
            right,
            title,
        } => put_section(out, *id, *left, *right, title),
        Op::Text {
            id,
            section,
            left,
            right,
            ch,
        } => {
            put(out, &[TEXT]);
            put_id(out, *id);
            put_id(out, *section);
            put_origin(out, *left);
            put_origin(out, *right);
            put_scalar(out, *ch);
        }
        Op::Delete { target } => {
            put(out, &[DELETE]);
            put_id(out, *target);
        }
        Op::Note {
            id,
            names,
            code,
            body,
        } => put_note(out, *id, names, *code, body),
    }
    Ok(())
}

fn put_section(
    out: &mut Vec<u8>,
    id: ElementId,
    left: Option<ElementId>,
    right: Option<ElementId>,
    title: &Title,
)
    requires { vec_len out.old + LONGEST_SINGLE ≤ vec_capacity out.old }
    ensures { AppendsKeepingCapacity out.old out.new (frame (SectionOp id left right title.now)) }
{
    put(out, &[SECTION]);
    put_id(out, id);
    put_origin(out, left);
    put_origin(out, right);
    put_title(out, title);
}

fn put_note(out: &mut Vec<u8>, id: ElementId, names: &NoteNames, code: u8, body: &Body)
    requires { vec_len out.old + LONGEST_SINGLE ≤ vec_capacity out.old }
    ensures { AppendsKeepingCapacity out.old out.new (frame (NoteOp id names.now code body.now)) }
{
    put(out, &[NOTE]);
    put_id(out, id);
    put_names(out, names);
    put(out, &[code]);
    put_body(out, body);
}

/// Appends the one frame of a run that is not empty.
pub(crate) fn encode_texts(
    start: &RunStart,
    text: &[char],
    out: &mut Vec<u8>,
) -> Result<(), NoMemory>
    requires some { 0 < length text.now }
    requires short { length text.now ≤ LONGEST_RUN }
    requires counters { start.now.id.counter + length text.now ≤ 2 ^ 32 }
    ensures have_frames { OnOk result (All HasFrame (run_from start.now text.now)) }
    ensures ok { OnOk result (out.new.items ≡ out.old.items ++ frames (run_from start.now text.now)) }
    ensures err { OnErr result (out.new.items ≡ out.old.items) }
{
    if text.len() > 1 {
        encode_run(start, text, out)
    } else {
        encode(&start.text(text[0]), out)
    }
}

fn encode_run(start: &RunStart, text: &[char], out: &mut Vec<u8>) -> Result<(), NoMemory>
    requires short { length text.now ≤ LONGEST_RUN }
    requires counters { start.now.id.counter + length text.now ≤ 2 ^ 32 }
    ensures have_frames { OnOk result (All HasFrame (run_from start.now text.now)) }
    ensures ok { OnOk result (out.new.items ≡ out.old.items ++ run_frame (run_of start.now text.now)) }
    ensures err { OnErr result (out.new.items ≡ out.old.items) }
{
    has_identifiers(start);
    out.reserve(LONGEST_HEADER + 3 * text.len())?;
    put(out, &[RUN]);
    put_id(out, start.id);
    put_id(out, start.section);
    put_origin(out, start.left);
    put_origin(out, start.right);
    put(out, &(text.len() as u16).to_be_bytes());
    put_scalars(out, text);
    Ok(())
}

/// Appends bytes for which there is room.
fn put(out: &mut Vec<u8>, bytes: &[u8])
    requires { vec_len out.old + length bytes.now ≤ vec_capacity out.old }
    ensures { AppendsKeepingCapacity out.old out.new bytes.now }
{
    if out.extend_from_slice(bytes).is_err() {
        unreachable!()
    }
}

fn put_id(out: &mut Vec<u8>, id: ElementId)
    requires { vec_len out.old + 8 ≤ vec_capacity out.old }
    ensures { AppendsKeepingCapacity out.old out.new (id_bytes id) }
{
    put(out, &id.replica.to_be_bytes());
    put(out, &id.counter.to_be_bytes());
}

fn put_origin(out: &mut Vec<u8>, origin: Option<ElementId>)
    requires { vec_len out.old + 9 ≤ vec_capacity out.old }
    ensures { AppendsKeepingCapacity out.old out.new (origin_bytes origin) }
{
    match origin {
        None => put(out, &[0]),
        Some(id) => {
            put(out, &[1]);
            put_id(out, id);
        }
    }
}

fn put_title(out: &mut Vec<u8>, title: &Title)
    requires { vec_len out.old + 2 + LONGEST_TITLE ≤ vec_capacity out.old }
    ensures { AppendsKeepingCapacity out.old out.new (title_bytes title.now) }
{
    let text = title.as_str();
    put(out, &(text.len() as u16).to_be_bytes());
    put(out, text.as_bytes());
}

fn put_names(out: &mut Vec<u8>, names: &NoteNames)
    requires { vec_len out.old + 1 + 8 * MOST_NAMES ≤ vec_capacity out.old }
    ensures puts { AppendsKeepingCapacity out.old out.new (names_bytes names.now) }
    ensures few { length names.now ≤ MOST_NAMES }
{
    let ids = names.as_slice();
    put(out, &[ids.len() as u8]);
    put_ids(out, ids);
}

fn put_ids(out: &mut Vec<u8>, ids: &[ElementId])
    requires { vec_len out.old + 8 * length ids.now ≤ vec_capacity out.old }
    ensures { AppendsKeepingCapacity out.old out.new (flat_map id_bytes ids.now) }
{
    for id in ids {
        put_id(out, *id);
    }
}

fn put_body(out: &mut Vec<u8>, body: &Body)
    requires { vec_len out.old + 2 + LONGEST_BODY ≤ vec_capacity out.old }
    ensures { AppendsKeepingCapacity out.old out.new (body_bytes body.now) }
{
    let bytes = body.as_slice();
    put(out, &(bytes.len() as u16).to_be_bytes());
    put(out, bytes);
}

fn put_scalar(out: &mut Vec<u8>, ch: char)
    requires { vec_len out.old + 3 ≤ vec_capacity out.old }
    ensures puts { AppendsKeepingCapacity out.old out.new (scalar_bytes ch) }
    ensures scalar { IsScalar ch }
{
    put(out, &(ch as u32).to_be_bytes()[1..]);
}

fn put_scalars(out: &mut Vec<u8>, text: &[char])
    requires { vec_len out.old + 3 * length text.now ≤ vec_capacity out.old }
    ensures puts { AppendsKeepingCapacity out.old out.new (flat_map scalar_bytes text.now) }
    ensures scalars { All IsScalar text.now }
{
    for ch in text {
        put_scalar(out, *ch);
    }
}
