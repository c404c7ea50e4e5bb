//! A plain encoder: of the operations that are left it tries the longest run first, then each shorter one.

ghost use Rattle.std.specs.Prelude.{◌≤◌, length};

use fugue_ids::{ElementId, NoMemory, Op};
use op_frame::encode;

/// Whether the operation is the Text so many after the first one, where they are typed in a row.
fn is_after(first: &Op, op: &Op, behind: u32) -> bool {
    match (first, op) {
        (
            Op::Text {
                id: start,
                section: wanted,
                right: end,
                ..
            },
            Op::Text {
                left,
                right,
                id,
                section,
                ..
            },
        ) => {
            let before = left.map(|own| (own.replica, own.counter as u64 + 1));
            id.replica == start.replica
                && id.counter as u64 == start.counter as u64 + behind as u64
                && before == Some((id.replica, id.counter as u64))
                && section == wanted
                && right == end
        }
        _ => false,
    }
}

/// How many of the operations the first frame stands for.
fn longest(ops: &[Op]) -> usize
    ensures within { result ≤ length ops.now }
    ensures short { result ≤ 1024 }
{
    let most = ops.len().min(1_024);
    for less in 0..most {
        let count = most - less;
        let mut is_run = true;
        let mut behind = 0u32;
        for op in &ops[..count] {
            if behind > 0 && !is_after(&ops[0], op, behind) {
                is_run = false;
            }
            behind = behind.wrapping_add(1);
        }
        if is_run {
            return count;
        }
    }
    most.min(1)
}

fn put_origin(out: &mut Vec<u8>, origin: Option<ElementId>) -> Result<(), NoMemory> {
    if let Some(id) = origin {
        out.push(1)?;
        out.extend_from_slice(&id.replica.to_be_bytes())?;
        out.extend_from_slice(&id.counter.to_be_bytes())?;
    } else {
        out.push(0)?;
    }
    Ok(())
}

/// The frames of the operations.
pub fn plain_frames(rt: &HostRuntime, ops: &[Op]) -> Result<Vec<u8>, NoMemory> {
    let mut out = Vec::new(rt.alloc());
    let mut rest = ops;
    for _ in 0..ops.len() {
        let count = longest(rest);
        let (run, behind) = rest.split_at(count);
        rest = behind;
        match run {
            [] => {}
            [
                Op::Text {
                    id,
                    section,
                    left,
                    right,
                    ..
                },
                _,
                ..
            ] => {
                out.push(4)?;
                out.extend_from_slice(&id.replica.to_be_bytes())?;
                out.extend_from_slice(&id.counter.to_be_bytes())?;
                out.extend_from_slice(&section.replica.to_be_bytes())?;
                out.extend_from_slice(&section.counter.to_be_bytes())?;
                put_origin(&mut out, *left)?;
                put_origin(&mut out, *right)?;
                out.extend_from_slice(&(count as u16).to_be_bytes())?;
                for op in run {
                    if let Op::Text { ch, .. } = op {
                        out.extend_from_slice(&(*ch as u32).to_be_bytes()[1..])?;
                    }
                }
            }
            [first, ..] => encode(first, &mut out)?,
        }
    }
    Ok(out)
}
