//! A list of operations in which a run is one entry, beside a plain list.

use crate::assertions::{equal, equal_at, holds_at};
use crate::dice::Dice;
use crate::ids::{id, text};
use fugue_ids::{ElementId, NoMemory, Op, RunStart, Title, read_text};
use op_runs::{OpRef, OpRuns, OpSlice, Stretch};
use std::alloc::Global;
use std::test::Fail;

/// The Text that goes on with a Text, or the Delete of the neighbour of a Delete's target.
fn neighbour(op: &Op, down: bool) -> Option<Op> {
    match op {
        Op::Text {
            id: own,
            right,
            ch,
            ..
        } => {
            let next = id(3, own.counter.checked_add(1)?);
            Some(text(next, Some(*own), *right, *ch))
        }
        Op::Delete { target } => {
            let counter = match down {
                true => target.counter.checked_sub(1)?,
                false => target.counter.checked_add(1)?,
            };
            let target = id(3, counter);
            Some(Op::Delete { target })
        }
        _ => None,
    }
}

/// Some operation: often a neighbour of the last one.
fn some_op(alloc: Global, dice: &mut Dice, last: Option<&Op>) -> Result<Op, Fail> {
    if let Some(last) = last {
        if dice.roll(4) > 0 {
            if let Some(op) = neighbour(last, dice.roll(3) == 0) {
                return Ok(op);
            }
        }
    }
    let own = id(3, dice.number(9));
    Ok(match dice.roll(4) {
        0 => Op::Section {
            id: own,
            left: None,
            right: None,
            title: Title::read(alloc, "T")?,
        },
        1 => Op::Delete { target: own },
        _ => text(own, None, Some(id(7, 0)), 'x'),
    })
}

/// Whether the second goes on with an entry that ends with the first and whose direction this is.
fn goes_on(first: &Op, second: &Op, way: Option<bool>) -> Option<bool> {
    let up = neighbour(first, false);
    let down = neighbour(first, true);
    if way != Some(true) && up.as_ref() == Some(second) {
        return Some(false);
    }
    let is_delete = matches!(first, Op::Delete { .. });
    (is_delete && way != Some(false) && down.as_ref() == Some(second)).then_some(true)
}

/// How many entries operations take, found by a look at every two neighbours.
fn plain_entries(ops: &[Op]) -> usize {
    let mut entries = 0usize;
    let mut way = None;
    let mut last: Option<&Op> = None;
    for op in ops {
        way = match last {
            Some(last) => goes_on(last, op, way),
            None => None,
        };
        if way.is_none() {
            entries = entries.wrapping_add(1);
        }
        last = Some(op);
    }
    entries
}

/// The operations of a slice, one by one.
fn expanded(alloc: Global, slice: &mut OpSlice) -> Result<Vec<Op>, NoMemory> {
    let mut ops = Vec::new(alloc);
    for _ in 0..u64::MAX {
        match slice.next_stretch() {
            Some(Stretch::Typed(start, letters)) => {
                for place in 0..letters.len() {
                    ops.push(start.nth(place).text(letters[place]))?;
                }
            }
            Some(Stretch::Deleted(deletes)) => {
                for place in 0..deletes.count as usize {
                    let target = deletes.nth(place);
                    ops.push(Op::Delete { target })?;
                }
            }
            Some(Stretch::Single(op)) => ops.push(op.clone_in(alloc)?)?,
            None => break,
        }
    }
    Ok(ops)
}

/// Whether what was found is the operation.
fn is_op(found: &OpRef, op: &Op) -> bool {
    match found {
        OpRef::Letter(start, ch) => start.text(*ch) == *op,
        OpRef::Deletion(target) => Op::Delete { target: *target } == *op,
        OpRef::Whole(whole) => **whole == *op,
    }
}

/// Whether the operation stands at the position.
fn has(runs: &OpRuns, position: usize, op: &Op) -> bool {
    match runs.get(position) {
        Some(found) => is_op(&found, op),
        None => false,
    }
}

/// Whether the last operations of both lists are equal.
fn end_alike(runs: &OpRuns, plain: &[Op]) -> bool {
    match (runs.last(), plain.last()) {
        (Some(found), Some(op)) => is_op(&found, op),
        (None, None) => true,
        _ => false,
    }
}

/// Whether the list is these operations: each by its position, and those from a position on by a walk.
fn is_list(alloc: Global, runs: &OpRuns, plain: &[Op], position: usize) -> Result<bool, NoMemory> {
    let mut is_so = runs.len() == plain.len() && runs.get(plain.len()).is_none();
    is_so = is_so && end_alike(runs, plain);
    for place in 0..plain.len() {
        is_so = is_so && has(runs, place, &plain[place]);
    }
    let rest = plain.get(position..).unwrap_or(&[]);
    let mut slice = runs.from(position);
    is_so = is_so && slice.copy().len() == rest.len();
    let walked = expanded(alloc, &mut slice)?;
    let walked_plain = expanded(alloc, &mut OpSlice::of(rest))?;
    Ok(is_so && walked.as_slice() == rest && walked_plain.as_slice() == rest)
}

/// How many of the Texts of a run stand in the list from a position on, looked up one by one.
fn plain_repeats(ops: &[Op], position: usize, start: &RunStart, text: &[char]) -> usize {
    for place in 0..text.len() {
        if start.id.counter > 1_000 || place > 1_000 {
            return place;
        }
        let wanted = start.nth(place).text(text[place]);
        if ops.get(position.wrapping_add(place)) != Some(&wanted) {
            return place;
        }
    }
    text.len()
}

/// Puts an operation after the others, if there is room.
fn push(runs: &mut OpRuns, op: Op) -> bool {
    runs.len() < 1_000 && runs.push(op).is_ok()
}

/// Takes the last operation of both lists, where that is a Section or a Note. Returns whether they agree.
fn take_last(runs: &mut OpRuns, plain: &mut Vec<Op>) -> bool {
    let is_other = matches!(
        plain.last(),
        Some(Op::Section { .. }) | Some(Op::Note { .. })
    );
    match runs.take_last() {
        Some(op) => is_other && plain.pop() == Some(op),
        None => !is_other,
    }
}

#[test]
fn it_is_the_plain_list(rt: HostRuntime) -> Result<(), Fail> {
    let alloc = rt.alloc();
    let mut dice = Dice { state: 5 };
    for _ in 0..6 {
        let mut runs = OpRuns::new(alloc);
        let mut plain = Vec::new(alloc);
        for turn in 0..120 {
            let count = dice.roll(100).min(plain.len());
            if count < 9 && count <= runs.len() {
                runs.pop(count);
                plain.truncate(plain.len() - count);
            }
            if dice.roll(3) == 0 {
                holds_at(&rt, &turn, take_last(&mut runs, &mut plain));
            }
            let op = some_op(alloc, &mut dice, plain.last())?;
            plain.push(op.clone_in(alloc)?)?;
            holds_at(&rt, &turn, push(&mut runs, op));
            let position = dice.roll(plain.len());
            holds_at(&rt, &turn, is_list(alloc, &runs, &plain, position)?);
            equal_at(&rt, &turn, runs.entries(), plain_entries(&plain));
            if let Some((start, _ch)) = read_text(&plain[position.min(plain.len() - 1)]) {
                let text = ['x', 'x', 'y'];
                let wanted = plain_repeats(&plain, position, &start, &text);
                equal_at(&rt, &turn, runs.repeats(position, &start, &text), wanted);
            }
        }
    }
    Ok(())
}

/// Puts Deletes of so many neighbours after the others, if there is room.
fn push_deletes(runs: &mut OpRuns, first: ElementId, count: u32) -> bool {
    let is_small = runs.len() < 1_000 && first.counter < 1_000 && count < 1_000;
    is_small && runs.push_deletes(first, count).is_ok()
}

/// Deletes of neighbours that come at once are those that come one by one, whatever the list ends with.
#[test]
fn deletes_come_at_once(rt: HostRuntime) -> Result<(), Fail> {
    let alloc = rt.alloc();
    let mut dice = Dice { state: 11 };
    let mut runs = OpRuns::new(alloc);
    let mut plain = Vec::new(alloc);
    for turn in 0..120 {
        let first = dice.number(6);
        let count = dice.number(4);
        holds_at(&rt, &turn, push_deletes(&mut runs, id(3, first), count));
        for behind in 0..count {
            let target = id(3, first.wrapping_add(behind));
            plain.push(Op::Delete { target })?;
        }
        holds_at(&rt, &turn, is_list(alloc, &runs, &plain, first as usize)?);
        equal_at(&rt, &turn, runs.entries(), plain_entries(&plain));
    }
    Ok(())
}

/// A long run, and Deletes of all its letters from the last on, are two entries.
#[test]
fn what_is_typed_and_wiped_is_two_entries(rt: HostRuntime) {
    let start = RunStart {
        id: id(3, 0),
        section: id(9, 0),
        left: None,
        right: None,
    };
    let mut runs = OpRuns::new(rt.alloc());
    equal(&rt, runs.push_run(start, &['a'; 64]), Ok(()));
    equal(&rt, runs.push_run(start.nth(64), &['b'; 64]), Ok(()));
    equal(&rt, (runs.len(), runs.entries()), (128, 1));
    equal(&rt, runs.repeats(60, &start.nth(60), &['a'; 8]), 4);
    for counter in 0..128 {
        let target = id(3, 127 - counter);
        holds_at(&rt, &counter, push(&mut runs, Op::Delete { target }));
    }
    equal(&rt, (runs.len(), runs.entries()), (256, 2));
    if runs.len() == 256 {
        runs.pop(129);
    }
    equal(&rt, (runs.len(), runs.entries()), (127, 1));
    drop(runs);
}
