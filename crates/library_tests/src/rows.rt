//! The worked examples, in every order in which each operation is Ready on those before it.

use crate::assertions::equal_at;
use crate::op_lines::Line::Text;
use crate::op_lines::{A, B, BACKWARDS, D, HIDDEN, Line, NONE, SECTION, T, X, Y, op};
use crate::replicas::{Shown, counts, shows};
use origin_model::{PlainReplica, Verdict};
use replica_core::Replica;
use std::alloc::Global;
use std::process::Abort;
use std::test::Fail;

/// The operations in the order of that number, as far as each is Ready on those before it.
fn ready_front(
    rt: &impl Abort,
    alloc: Global,
    row: &[Line],
    number: usize,
) -> Result<Vec<Line>, Fail> {
    let mut plain = PlainReplica::new(alloc);
    let mut remaining = Vec::from_slice(alloc, row)?;
    let mut ordered = Vec::new(alloc);
    let mut digits = number;
    for _ in 0..row.len() {
        let choices = remaining.len();
        if choices == 0 {
            break;
        }
        let line = remaining.remove(digits % choices);
        digits /= choices;
        let op = op(rt, alloc, line)?;
        if plain.verdict(&op) != Verdict::Ready {
            break;
        }
        plain.accept(op)?;
        ordered.push(line)?;
    }
    Ok(ordered)
}

// Passages forwards: each letter after the one before.
const LOWER_A: Line = Text((1, 0), SECTION, NONE, NONE, 'a');

const B_BEHIND_A: Line = Text((1, 1), SECTION, (1, 0), NONE, 'b');

const C_BEHIND_B: Line = Text((1, 2), SECTION, (1, 1), NONE, 'c');

const LOWER_X: Line = Text((2, 0), SECTION, NONE, NONE, 'x');

const Y_BEHIND_X: Line = Text((2, 1), SECTION, (2, 0), NONE, 'y');

const Z_BEHIND_Y: Line = Text((2, 2), SECTION, (2, 1), NONE, 'z');

// Passages backwards: each letter before the one that was typed last.
const LOWER_B: Line = Text((1, 0), SECTION, NONE, NONE, 'b');

const A_BEFORE_B: Line = Text((1, 1), SECTION, NONE, (1, 0), 'a');

const LOWER_Y: Line = Text((2, 0), SECTION, NONE, NONE, 'y');

const X_BEFORE_Y: Line = Text((2, 1), SECTION, NONE, (2, 0), 'x');

const Y_BEFORE_X: Line = Text((2, 1), SECTION, NONE, (2, 0), 'y');

const Z_BEFORE_Y: Line = Text((2, 2), SECTION, NONE, (2, 1), 'z');

/// The operations, how many orders they have, how many of these are ready, and the text.
const ROWS: &[(&[Line], usize, u32, &str)] = &[
    (&[T, B, A, D, X, Y], 720, 5, "# T\nAXYDB\n"),
    (HIDDEN, 40_320, 96, "# T\nAXY\n"),
    (BACKWARDS, 120, 2, "# T\nPQVZ\n"),
    (
        &[T, LOWER_A, B_BEHIND_A, LOWER_X, Y_BEHIND_X],
        120,
        6,
        "# T\nabxy\n",
    ),
    (
        &[T, LOWER_B, A_BEFORE_B, LOWER_Y, X_BEFORE_Y],
        120,
        6,
        "# T\nabxy\n",
    ),
    // One passage was written forwards, and the other backwards.
    (
        &[T, LOWER_A, B_BEHIND_A, LOWER_Y, X_BEFORE_Y],
        120,
        6,
        "# T\nabxy\n",
    ),
    (
        &[
            T, LOWER_A, B_BEHIND_A, C_BEHIND_B, LOWER_X, Y_BEHIND_X, Z_BEHIND_Y,
        ],
        5_040,
        20,
        "# T\nabcxyz\n",
    ),
    (
        &[
            T, LOWER_A, B_BEHIND_A, C_BEHIND_B, LOWER_X, Y_BEFORE_X, Z_BEFORE_Y,
        ],
        5_040,
        20,
        "# T\nabczyx\n",
    ),
];

#[test]
fn every_ready_order_shows_the_text(rt: HostRuntime) -> Result<(), Fail> {
    for (row, orders, wanted, text) in ROWS {
        let want = Shown {
            text,
            counts: counts(u32::try_from(row.len()).unwrap_or(0), 0, 0, 0),
            waiting: 0,
        };
        let mut ready: u32 = 0;
        for number in 0..*orders {
            let ordered = ready_front(&rt, rt.alloc(), row, number)?;
            if ordered.len() == row.len() {
                let mut replica = Replica::new(rt.alloc(), 7, 1, 100)?;
                let done = shows(&rt, rt.alloc(), &mut replica, &ordered, &want);
                drop(replica);
                done?;
                ready = ready.saturating_add(1);
            }
        }
        equal_at(&rt, &text, ready, *wanted);
    }
    Ok(())
}
