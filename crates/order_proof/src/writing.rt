//! The text of a certificate, written without memory.

ghost use Rattle.std.specs.Prelude.{◌≡◌, [], ◌∷◌, ◌++◌, flat_map};
ghost use Rattle.fugue_ids.specs.Outs.{WritesBytes};
ghost use Rattle.order_proof.specs.Texts.{proof_text, step_text, chain_lines, reason_line, proof_line_text, word_with_ids, id_text};

use crate::{Proof, Reason, Step};
use fugue_ids::{ElementId, Failed, Out, write_pieces, write_whole};
use itoa::Buffer;

/// A word, and identifiers after it.
#[derive(Clone, Copy)]
struct Line<'a> {
    word: &'a [u8],
    ids: &'a [ElementId],
}

impl<'a> Line<'a> {
    fn new(word: &'a [u8], ids: &'a [ElementId]) -> Line<'a>
        ensures word { result.word.now ≡ word.now }
        ensures ids { result.ids.now ≡ ids.now }
    {
        Line { word, ids }
    }
}

fn write_id<O: Out>(out: &mut O, id: ElementId) -> Result<(), Failed>
    ensures { WritesBytes (O.seen out.old) (O.seen out.new) result (32 ∷ id_text id) }
{
    let mut replica = Buffer::new();
    let mut counter = Buffer::new();
    write_pieces(
        out,
        &[
            b" ",
            replica.format(id.replica).as_bytes(),
            b".",
            counter.format(id.counter).as_bytes(),
        ],
    )
}

fn write_ids<O: Out>(out: &mut O, ids: &[ElementId]) -> Result<(), Failed>
    ensures { WritesBytes (O.seen out.old) (O.seen out.new) result (flat_map (λ id. 32 ∷ id_text id) ids.now) }
{
    'ids: for id in ids {
        write_id(out, *id)?;
    }
    Ok(())
}

/// Writes a line: a word, and each identifier after a space.
fn write_line<O: Out>(out: &mut O, line: &Line) -> Result<(), Failed>
    ensures { WritesBytes (O.seen out.old) (O.seen out.new) result (word_with_ids line.now.word.now line.now.ids.now) }
{
    write_whole(out, line.word)?;
    write_rest(out, line.ids)
}

fn write_rest<O: Out>(out: &mut O, ids: &[ElementId]) -> Result<(), Failed>
    ensures { WritesBytes (O.seen out.old) (O.seen out.new) result
        (flat_map (λ id. 32 ∷ id_text id) ids.now ++ 10 ∷ []) }
{
    write_ids(out, ids)?;
    write_whole(out, b"\n")
}

fn write_lines<O: Out>(out: &mut O, lines: &[Line]) -> Result<(), Failed>
    ensures { WritesBytes (O.seen out.old) (O.seen out.new) result
        (flat_map (λ line. word_with_ids line.word.now line.ids.now) lines.now) }
{
    'lines: for line in lines {
        write_line(out, line)?;
    }
    Ok(())
}

/// Writes what a step claims, and the chains that show it.
fn write_chains<O: Out>(out: &mut O, step: &Step) -> Result<(), Failed>
    ensures { WritesBytes (O.seen out.old) (O.seen out.new) result
        (flat_map proof_line_text (chain_lines step.now step.now.reason)) }
{
    let elements = [step.x, step.y];
    let claim = Line::new(b"claim", &elements);
    let down_y = Line::new(b"down", step.down_y.as_slice());
    match step.reason {
        Reason::Prefix => write_lines(out, &[claim, down_y]),
        _ => {
            let down_x = Line::new(b"down", step.down_x.as_slice());
            let right_x = Line::new(b"right", step.right_x.as_slice());
            let right_y = Line::new(b"right", step.right_y.as_slice());
            write_lines(out, &[claim, down_x, down_y, right_x, right_y])
        }
    }
}

fn write_reason<O: Out>(out: &mut O, reason: Reason) -> Result<(), Failed>
    ensures { WritesBytes (O.seen out.old) (O.seen out.new) result (proof_line_text (reason_line reason)) }
{
    match reason {
        Reason::Prefix => write_line(out, &Line::new(b"prefix", &[])),
        Reason::Inner => write_line(out, &Line::new(b"inner", &[])),
        Reason::End => write_line(out, &Line::new(b"end", &[])),
        Reason::Later(p, q) => write_line(out, &Line::new(b"later", &[p, q])),
        Reason::Tie => write_line(out, &Line::new(b"tie", &[])),
    }
}

fn write_step<O: Out>(out: &mut O, step: &Step) -> Result<(), Failed>
    ensures { WritesBytes (O.seen out.old) (O.seen out.new) result (step_text step.now) }
{
    write_chains(out, step)?;
    write_reason(out, step.reason)
}

fn write_steps<O: Out>(out: &mut O, steps: &[Step]) -> Result<(), Failed>
    ensures { WritesBytes (O.seen out.old) (O.seen out.new) result (proof_text steps.now) }
{
    'steps: for step in steps {
        write_step(out, step)?;
    }
    Ok(())
}

/// Writes the text of a certificate, or fails with a front of it written.
pub fn write_proof<O: Out>(proof: &Proof, output: &mut O) -> Result<(), Failed>
    ensures { WritesBytes (O.seen output.old) (O.seen output.new) result (proof_text proof.now) }
{
    write_steps(output, proof.as_slice())
}
