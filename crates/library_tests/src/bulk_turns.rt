//! Two authors who edit by the numbers of a seed, beside plain replicas that accept the same operations.

use crate::assertions::equal;
use crate::edits::Edit::{Add, Cut, Put};
use crate::edits::make;
use crate::replicas::{accepted_by, copies_of, feed_accepted, feed_ops, writes, writes_as_plain};
use bulk_world::{Summary, bulk};
use outer_ports::MemSink;
use replica_core::Replica;
use std::alloc::Global;
use std::process::Abort;
use std::test::Fail;

const SEED: u32 = 7;

/// The generator of the turns, as the bulk's.
const MULTIPLIER: u32 = 1_664_525;

const ADDEND: u32 = 1_013_904_223;

const TURNS: u32 = 200;

const LETTERS: [&str; 26] = [
    "a", "b", "c", "d", "e", "f", "g", "h", "i", "j", "k", "l", "m", "n", "o", "p", "q", "r", "s",
    "t", "u", "v", "w", "x", "y", "z",
];

/// The edit that the number asks for.
fn take_turn(rt: &impl Abort, alloc: Global, replica: &mut Replica, x: u32) -> Result<(), Fail> {
    let shown = replica.text_len(0).unwrap_or(0);
    let upper = x >> 16;
    let edit = if shown > 0 && upper % 8 == 0 {
        Cut(0, x as usize % shown, 1)
    } else {
        let letter = LETTERS[(upper / 8 % 26) as usize];
        Put(0, x as usize % shown.saturating_add(1), letter)
    };
    make(rt, alloc, replica, edit)??;
    Ok(())
}

/// What the bulk would tell of both, each of which shows what a plain replica does. The section's text is what stands
/// between its title and the last line's end.
fn tell(
    rt: &impl Abort,
    alloc: Global,
    first: &Replica,
    second: &Replica,
) -> Result<Summary, Fail> {
    for replica in [first, second] {
        assert!(rt; writes_as_plain(alloc, replica, replica)?);
    }
    let mut output = MemSink::new(alloc, 4096, Vec::new(alloc));
    first.write_manuscript(&mut output)?;
    let behind = output.written().strip_prefix(b"# B\n".as_slice());
    let text = behind.unwrap_or(&[]).strip_suffix(b"\n".as_slice());
    let text = text.expect(rt, "a title and a line end");
    let mut sum = 0u32;
    let mut place = 1u32;
    for byte in text {
        sum = sum.wrapping_add(place.wrapping_mul(u32::from(*byte)));
        place = place.wrapping_add(1);
    }
    Ok(Summary {
        operations: first.accepted().len(),
        scalars: text.len(),
        sum,
        is_equal: writes(alloc, second, output.written())?,
    })
}

/// Both edit by turns, and then each hears what the other has made. The first operation is known to both.
fn make_by_turns(
    rt: &impl Abort,
    alloc: Global,
    first: &mut Replica,
    second: &mut Replica,
) -> Result<Summary, Fail> {
    make(rt, alloc, first, Add(0, "B"))??;
    feed_accepted(rt, alloc, second, first)?;
    let mut x = SEED;
    for turn in 1..=TURNS {
        x = x.wrapping_mul(MULTIPLIER).wrapping_add(ADDEND);
        if turn % 2 == 1 {
            take_turn(rt, alloc, first, x)?;
        } else {
            take_turn(rt, alloc, second, x)?;
        }
    }
    let made = second.accepted().len();
    let others = copies_of(alloc, first.accepted_from(1))?;
    feed_ops(rt, alloc, second, &others)?;
    let ops = accepted_by(alloc, second)?;
    feed_ops(rt, alloc, first, ops.get(1..made).unwrap_or(&[]))?;
    tell(rt, alloc, first, second)
}

#[test]
fn a_bulk_manuscript_is_that_of_plain_replicas(rt: HostRuntime) -> Result<(), Fail> {
    let told = bulk(rt.alloc(), SEED, TURNS)?;
    let mut first = Replica::new(rt.alloc(), 1, 100, 1000)?;
    let mut second = Replica::new(rt.alloc(), 2, 100, 1000)?;
    let made = make_by_turns(&rt, rt.alloc(), &mut first, &mut second);
    drop(second);
    drop(first);
    equal(&rt, made?, told);
    equal(&rt, (told.operations, told.is_equal), (201, true));
    Ok(())
}
