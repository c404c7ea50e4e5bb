//! What came between moments, as lines.
ghost use Rattle.std.specs.Prelude.{◌≡◌, ◌++◌, ◌-◌, IfOk, OnOk, drop, take};
ghost use Rattle.batch_moments.specs.Counts.{reported_parts};
ghost use Rattle.batch_moments.specs.Lines.{line_text, moments_text as text_of};

use crate::counting::parts_of;
use crate::part::{put_number, put_parts};
use fugue_ids::NoMemory;
use op_runs::OpSlice;
use std::alloc::Global;

/// Appends the line of a moment, with what came since the one before it: so many operations at the front, which are taken
/// off.
fn put_line(
    alloc: Global,
    text: &mut Vec<u8>,
    moment: usize,
    ops: &mut OpSlice<'_>,
    count: usize,
) -> Result<(), NoMemory>
    ensures line { OnOk result (text.new.items
        ≡ text.old.items ++ line_text (record { moment = moment; parts = reported_parts (take count ops.old) })) }
    ensures rest { OnOk result (ops.new ≡ drop count ops.old) }
{
    let parts = parts_of(alloc, ops, count)?;
    put_number(text, moment)?;
    text.extend_from_slice(b": ")?;
    put_parts(text, parts.as_slice())?;
    text.push(b'\n')?;
    Ok(())
}

/// The operations after so many.
fn behind<'a>(ops: &OpSlice<'a>, count: usize) -> OpSlice<'a>
    ensures { result ≡ drop count ops.now }
{
    let mut rest = ops.copy();
    let mut left = count;
    'passed: while left > 0 {
        let Some(_op) = rest.next_op() else {
            return rest;
        };
        left -= 1;
    }
    rest
}

/// The operations after a moment, where those after it and the moment before are at hand. Where the moments fall, they
/// are looked for from the front.
fn after_moment<'a>(ops: &OpSlice<'a>, rest: &OpSlice<'a>, from: usize, to: usize) -> OpSlice<'a>
    requires { rest.now ≡ drop (to - from) (drop from ops.now) }
    ensures { result ≡ drop to ops.now }
{
    if to < from {
        behind(ops, to)
    } else {
        rest.copy()
    }
}

/// The lines that tell what came when, of operations in the order in which they were accepted: for each moment how many
/// Texts of each replica, Deletes, Sections and notes came since the one before it.
///
/// A moment is the number of operations that were accepted then. It is meant for moments that rise, of which the last one
/// has all operations: then each operation is reported once.
pub fn moments_text(alloc: Global, moments: &[u32], ops: OpSlice<'_>) -> Result<Vec<u8>, NoMemory>
    ensures { IfOk result (λ text. text.items ≡ text_of moments.now ops.entry) }
{
    let mut text = Vec::new(alloc);
    let mut rest = ops.copy();
    let mut from = 0;
    'moments: for moment in moments {
        let to = *moment as usize;
        put_line(alloc, &mut text, to, &mut rest, to.saturating_sub(from))?;
        rest = after_moment(&ops, &rest, from, to);
        from = to;
    }
    Ok(text)
}
