//! The letters of a run, between the signs of CriticMarkup with which it begins and ends.
ghost use Rattle.std.specs.Prelude.{◌≡◌, ◌++◌, Some, option_to_list};
ghost use Rattle.std.specs.Str.{encode_utf8_all};
ghost use Rattle.fugue_ids.specs.Gathers.{GathersText};
ghost use Rattle.op_runs.specs.Finding.{op_of};
ghost use Rattle.origin_model.specs.order.Printed.{scalar_of};
ghost use Rattle.change_marks.specs.Marks.{letter_of, opening};
ghost use Rattle.change_marks.specs.Steps.{closing_of, is_open as is_open_as, turn_of_run};

use crate::Mark;
use fugue_ids::{ElementId, Failed, Gather, Op, Out};
use itoa::Buffer;
use op_runs::OpRef;
use replica_core::Replica;

/// Whether the open run has the mark.
fn is_open(begun: Option<Mark>, mark: Mark) -> bool
    ensures { result ≡ is_open_as begun mark }
{
    match (begun, mark) {
        (Some(Mark::Kept), Mark::Kept) | (Some(Mark::Gone), Mark::Gone) => true,
        (Some(Mark::New(begun)), Mark::New(replica)) => begun == replica,
        _ => false,
    }
}

fn put_opening<O: Out>(gather: &mut Gather, output: &mut O, mark: Mark) -> Result<(), Failed>
    ensures { GathersText (O.seen output.old) (O.seen output.new) gather.old gather.new result (opening mark) }
{
    let bytes: &[u8] = match mark {
        Mark::Kept => b"",
        Mark::New(_) => b"{++",
        Mark::Gone => b"{--",
    };
    gather.put(output, bytes)
}

/// Ends the run that is begun.
pub(crate) fn put_closing<O: Out>(
    gather: &mut Gather,
    output: &mut O,
    begun: Option<Mark>,
) -> Result<(), Failed>
    ensures { GathersText (O.seen output.old) (O.seen output.new) gather.old gather.new result (closing_of begun) }
{
    match begun {
        Some(Mark::New(replica)) => {
            let mut number = Buffer::new();
            let digits = number.format(replica);
            gather.put_pieces(output, &[b"++}{>>", digits.as_bytes(), b"<<}"])
        }
        Some(Mark::Gone) => gather.put(output, b"--}"),
        Some(Mark::Kept) | None => gather.put(output, b""),
    }
}

/// Ends the run that is begun and begins the next one, unless they have one mark.
fn put_turn<O: Out>(
    gather: &mut Gather,
    output: &mut O,
    begun: Option<Mark>,
    mark: Mark,
) -> Result<(), Failed>
    ensures { GathersText (O.seen output.old) (O.seen output.new) gather.old gather.new result (turn_of_run begun mark) }
{
    if is_open(begun, mark) {
        return gather.put(output, b"");
    }
    put_closing(gather, output, begun)?;
    put_opening(gather, output, mark)
}

/// The scalar of a Text.
fn scalar_in(op: &OpRef<'_>) -> Option<char>
    ensures { option_to_list result ≡ scalar_of (Some (op_of op.now)) }
{
    match op {
        OpRef::Letter(_, ch) => Some(*ch),
        OpRef::Whole(Op::Text { ch, .. }) => Some(*ch),
        _ => None,
    }
}

/// The letter of an element.
fn find_letter(replica: &Replica, id: ElementId) -> Option<char>
    ensures { option_to_list result ≡ letter_of replica.now.held.history id }
{
    match replica.holder(id) {
        Some(op) => scalar_in(&op),
        None => None,
    }
}

/// Puts the letter of an element.
fn put_letter<O: Out>(
    gather: &mut Gather,
    output: &mut O,
    replica: &Replica,
    id: ElementId,
) -> Result<(), Failed>
    ensures { GathersText (O.seen output.old) (O.seen output.new) gather.old gather.new result
        (encode_utf8_all (letter_of replica.now.held.history id)) }
{
    match find_letter(replica, id) {
        Some(ch) => gather.put_scalar(output, ch),
        None => gather.put(output, b""),
    }
}

/// Puts an element with a mark after a run.
pub(crate) fn put_marked<O: Out>(
    gather: &mut Gather,
    output: &mut O,
    replica: &Replica,
    begun: Option<Mark>,
    mark: Mark,
    id: ElementId,
) -> Result<(), Failed>
    ensures { GathersText (O.seen output.old) (O.seen output.new) gather.old gather.new result
        (turn_of_run begun mark ++ encode_utf8_all (letter_of replica.now.held.history id)) }
{
    put_turn(gather, output, begun, mark)?;
    put_letter(gather, output, replica, id)
}
