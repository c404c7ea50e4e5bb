//! Functions without effect, whose contracts state that an operation or its fields can be encoded.
ghost use Rattle.std.specs.Prelude.{All};
ghost use Rattle.std.specs.Char.{IsScalar};
ghost use Rattle.origin_model.specs.frames.Frames.{AreNames, HasFrame, IsBody, IsByte, IsIdentifier, IsFrameOrigin, IsTitle};
ghost use Rattle.fugue_ids.specs.Runs.{text_by};
ghost use Rattle.fugue_ids.specs.declared.op.Op.TheVariants.{Delete as DeleteOf};

use fugue_ids::{Body, ElementId, NoteNames, Op, RunStart, Title};

/// The operation has a frame: nothing is done.
pub(crate) fn has_frame(op: &Op)
    ensures { HasFrame op.now }
{
    match op {
        Op::Section {
            left,
            right,
            id,
            title,
        } => {
            identifier(*id);
            origin(*left);
            origin(*right);
            named(title);
        }
        Op::Text {
            section,
            id,
            left,
            right,
            ch,
        } => {
            identifier(*id);
            identifier(*section);
            origin(*left);
            origin(*right);
            scalar(*ch);
        }
        Op::Delete { target } => identifier(*target),
        Op::Note {
            id,
            names,
            code,
            body,
        } => {
            identifier(*id);
            identifiers(names);
            byte(*code);
            bounded(body);
        }
    }
}

/// A Text that says this has a frame: nothing is done.
pub(crate) fn has_text_frame(next: &RunStart, ch: char)
    ensures { HasFrame (text_by next.now ch) }
{
    has_identifiers(next);
    scalar(ch);
}

/// A Delete has a frame: nothing is done.
pub(crate) fn has_delete_frame(target: ElementId)
    ensures { HasFrame (DeleteOf target) }
{
    identifier(target);
}

/// What the first Text of a run says can stand in a frame: nothing is done.
pub(crate) fn has_identifiers(start: &RunStart)
    ensures id { IsIdentifier start.now.id }
    ensures section { IsIdentifier start.now.section }
    ensures left { IsFrameOrigin start.now.left }
    ensures right { IsFrameOrigin start.now.right }
{
    identifier(start.id);
    identifier(start.section);
    origin(start.left);
    origin(start.right);
}

fn identifier(_id: ElementId)
    ensures { IsIdentifier _id }
{}

fn origin(origin: Option<ElementId>)
    ensures { IsFrameOrigin origin }
{
    match origin {
        None => {}
        Some(id) => identifier(id),
    }
}

fn scalar(_ch: char)
    ensures { IsScalar _ch }
{}

fn identifiers(names: &NoteNames)
    ensures { AreNames names.now }
{
    let ids = names.as_slice();
    for id in ids {
        identifier(*id);
    }
}

fn byte(_code: u8)
    ensures { IsByte _code }
{}

fn bounded(body: &Body)
    ensures { IsBody body.now }
{
    bytes(body.as_slice());
}

fn bytes(_bytes: &[u8])
    ensures { All IsByte _bytes.now }
{}

fn named(title: &Title)
    ensures { IsTitle title.now }
{
    let _text = title.as_str();
}
