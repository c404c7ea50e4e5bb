//! Moves and retitles: what they answer, and what is written of the sections then, beside a plain program.

use crate::assertions::{equal, equal_at, holds_at};
use crate::edits::accepted_last;
use crate::op_lines::Line::{self, Coded, Delete, Section, Text};
use crate::op_lines::{NONE, Name, note, op};
use crate::plain::Plain;
use crate::plain_notes::arranged_text;
use crate::replicas::{accepted_by, feed_lines, feed_one};
use crate::turns::Dice;
use catalogue_notes::{MOVE_CODE, MoveFault, RETITLE_CODE, move_section, retitle, write_arranged};
use fugue_ids::{Op, Title};
use outer_ports::MemSink;
use replica_core::{Replica, Tally};
use std::alloc::Global;
use std::process::Abort;
use std::test::Fail;

/// Whether this is written of the sections as they are arranged.
pub fn arranges(alloc: Global, replica: &Replica, text: &[u8]) -> Result<bool, Fail> {
    let mut written = MemSink::new(alloc, 100, Vec::new(alloc));
    write_arranged(alloc, replica, &mut written)?;
    Ok(written.written() == text)
}

/// Whether this is written of them, and is what the plain program writes.
fn arranges_as_plain(alloc: Global, replica: &Replica, text: &[u8]) -> Result<bool, Fail> {
    let mut plain = Plain::new(alloc);
    let ops = accepted_by(alloc, replica)?;
    plain.take_all(alloc, &ops)?;
    let wanted = arranged_text(alloc, &plain.accepted)?;
    Ok(wanted.as_slice() == text && arranges(alloc, replica, text)?)
}

/// A section, and where it goes, or its new title.
#[derive(Clone, Copy, Debug)]
enum Act {
    Move(usize, usize),
    Retitle(usize, &'static str),
}

use Act::{Move, Retitle};

type Answer = Result<u32, MoveFault>;

fn perform(
    rt: &impl Abort,
    alloc: Global,
    replica: &mut Replica,
    act: Act,
) -> Result<Answer, Fail> {
    assert!(rt; replica.is_settled());
    match act {
        Move(k, j) => Ok(move_section(alloc, replica, k, j)),
        Retitle(k, title) => {
            let title = Title::read(alloc, title)?;
            Ok(retitle(alloc, replica, k, title))
        }
    }
}

const A: Name = (1, 0);

const B: Name = (1, 1);

const C: Name = (1, 2);

/// The operations that come first, moves and retitles of replica 1 with their answers, what is written then, and the
/// last operations that are accepted.
#[derive(Clone, Copy)]
struct Row {
    most: u32,
    lines: &'static [Line],
    acts: &'static [(Act, Answer)],
    text: &'static str,
    made: &'static [Line],
}

const ROW: Row = Row {
    most: 100,
    lines: THREE,
    acts: &[],
    text: "# A\n\n# B\n\n# C\n\n",
    made: &[],
};

const FIRST: Line = Section(A, NONE, NONE, "A");

const SECOND: Line = Section(B, A, NONE, "B");

const THIRD: Line = Section(C, B, NONE, "C");

/// Three sections, in their order.
const THREE: &[Line] = &[FIRST, SECOND, THIRD];

/// The third section goes before the first one.
const C_FIRST: Line = Coded((1, 3), MOVE_CODE, &[C, A], b"\0\0\0\x01\x02");

/// So it does by another author, between the first two.
const C_SECOND: Line = Coded((2, 0), MOVE_CODE, &[C, A, B], b"\0\0\0\x01\x03");

/// B between the place of the first move and A, by the author of that move, and by another one.
const B_BY_SAME: Line = Coded((1, 4), MOVE_CODE, B_NAMES, B_BODY);

const B_BY_OTHER: Line = Coded((2, 0), MOVE_CODE, B_NAMES, B_BODY);

const B_NAMES: &[Name] = &[B, (1, 3), A];

const B_BODY: &[u8] = b"\0\0\0\x02\x03";

/// A retitle with the greatest stamp there is.
const SPENDING: Line = Coded((2, 0), RETITLE_CODE, &[A], b"\xff\xff\xff\xffZ");

const STAMPS_SPENT: Answer = Err(MoveFault::StampsSpent);

const ROWS: &[Row] = &[
    Row {
        acts: &[(Move(2, 0), Ok(1)), (Retitle(0, "New"), Ok(1))],
        text: "# New\n\n# A\n\n# B\n\n",
        made: &[C_FIRST, Coded((1, 4), RETITLE_CODE, &[C], b"\0\0\0\x02New")],
        ..ROW
    },
    // The moved section is not counted, and the last place has no right origin.
    Row {
        acts: &[(Move(0, 2), Ok(1)), (Move(1, 1), Ok(1))],
        text: "# B\n\n# C\n\n# A\n\n",
        made: &[
            Coded((1, 3), MOVE_CODE, &[A, C], b"\0\0\0\x01\x01"),
            Coded((1, 4), MOVE_CODE, &[C, B, C], b"\0\0\0\x02\x03"),
        ],
        ..ROW
    },
    // A place that was left stays an origin.
    Row {
        lines: &[FIRST, SECOND, THIRD, C_FIRST, Delete((1, 3))],
        acts: &[(Move(1, 0), Ok(1))],
        text: "# B\n\n# A\n\n# C\n\n",
        made: &[Coded((1, 4), MOVE_CODE, &[B, (1, 3)], b"\0\0\0\x02\x02")],
        ..ROW
    },
    Row {
        acts: &[
            (Move(3, 3), Err(MoveFault::NoSection)),
            (Move(2, 3), Err(MoveFault::NoPlace)),
            (Retitle(3, "New"), Err(MoveFault::NoSection)),
        ],
        ..ROW
    },
    Row {
        most: 5,
        lines: &[
            FIRST,
            SECOND,
            THIRD,
            Section((1, 4_294_967_295), C, NONE, "D"),
            SPENDING,
        ],
        acts: &[
            (Move(0, 1), STAMPS_SPENT),
            (Retitle(1, "New"), STAMPS_SPENT),
        ],
        text: "# Z\n\n# B\n\n# C\n\n# D\n\n",
        ..ROW
    },
    // It spends them for good.
    Row {
        most: 5,
        lines: &[FIRST, SECOND, THIRD, SPENDING, Delete((2, 0))],
        acts: &[(Move(0, 1), STAMPS_SPENT)],
        ..ROW
    },
    Row {
        most: 3,
        lines: &[FIRST, SECOND, Section((1, 4_294_967_295), B, NONE, "C")],
        acts: &[
            (Move(0, 9), Err(MoveFault::NoPlace)),
            (Move(0, 1), Err(MoveFault::IdsSpent(4_294_967_295))),
            (Retitle(0, "New"), Err(MoveFault::IdsSpent(4_294_967_295))),
        ],
        ..ROW
    },
    Row {
        most: 4,
        acts: &[
            (Retitle(1, "New"), Ok(1)),
            (Move(0, 1), Err(MoveFault::TooMany(4))),
            (Retitle(0, "New"), Err(MoveFault::TooMany(4))),
        ],
        text: "# A\n\n# New\n\n# C\n\n",
        made: &[Coded((1, 3), RETITLE_CODE, &[B], b"\0\0\0\x01New")],
        ..ROW
    },
];

fn answers(rt: &impl Abort, alloc: Global, replica: &mut Replica, row: &Row) -> Result<(), Fail> {
    feed_lines(rt, alloc, replica, row.lines, &mut Tally::default())?;
    for (asked, answer) in row.acts {
        equal_at(rt, asked, perform(rt, alloc, replica, *asked)?, *answer);
    }
    accepted_last(rt, alloc, replica, row.made)?;
    let is_arranged = arranges_as_plain(alloc, replica, row.text.as_bytes())?;
    holds_at(rt, &row.acts, is_arranged);
    Ok(())
}

/// Feeds the lines in the order of that number, whatever they wait for, and looks at what is written of them.
fn arrange_permuted(
    rt: &impl Abort,
    alloc: Global,
    replica: &mut Replica,
    lines: &[Line],
    number: usize,
    text: &str,
) -> Result<(), Fail> {
    let mut remaining = Vec::from_slice(alloc, lines)?;
    let mut digits = number;
    for _ in 0..lines.len() {
        let choices = remaining.len();
        if choices == 0 {
            break;
        }
        let line = remaining.remove(digits % choices);
        digits /= choices;
        feed_one(rt, replica, op(rt, alloc, line)?, &mut Tally::default())?;
    }
    equal_at(rt, &lines, replica.accepted().len(), lines.len());
    let is_arranged = arranges_as_plain(alloc, replica, text.as_bytes())?;
    holds_at(rt, &lines, is_arranged);
    Ok(())
}

/// What is written of the operations, in whatever order they come.
fn arranges_in_any_order(
    rt: &impl Abort,
    alloc: Global,
    lines: &[Line],
    orders: usize,
    text: &str,
) -> Result<(), Fail> {
    for number in 0..orders {
        let mut replica = Replica::new(alloc, 7, 100, 100)?;
        let done = arrange_permuted(rt, alloc, &mut replica, lines, number, text);
        drop(replica);
        done?;
    }
    Ok(())
}

/// Operations, how many orders they have, and what is written of them.
const SETS: &[(&[Line], usize, &str)] = &[
    (
        &[FIRST, SECOND, THIRD, C_FIRST],
        24,
        "# C\n\n# A\n\n# B\n\n",
    ),
    // The two stamps are equal, and the greater identifier wins.
    (
        &[FIRST, SECOND, THIRD, C_FIRST, C_SECOND],
        120,
        "# A\n\n# C\n\n# B\n\n",
    ),
    // The winner is withdrawn.
    (
        &[FIRST, SECOND, THIRD, C_FIRST, C_SECOND, Delete((2, 0))],
        720,
        "# C\n\n# A\n\n# B\n\n",
    ),
    // A section goes after the place where a withdrawn move put another one.
    (
        &[FIRST, SECOND, THIRD, C_FIRST, Delete((1, 3)), B_BY_SAME],
        720,
        "# B\n\n# A\n\n# C\n\n",
    ),
    // The moved section is dropped, and another one goes after it.
    (
        &[FIRST, SECOND, THIRD, C_FIRST, Delete(C), B_BY_OTHER],
        720,
        "# B\n\n# A\n\n",
    ),
    // Two authors exchange two sections, each by the other section, and both moves win.
    (
        &[
            FIRST,
            SECOND,
            Coded((1, 3), MOVE_CODE, &[B, A], b"\0\0\0\x01\x02"),
            Coded((2, 0), MOVE_CODE, &[A, B], b"\0\0\0\x01\x01"),
        ],
        24,
        "# B\n\n# A\n\n",
    ),
    // Of retitles with equal stamps the greater identifier wins, and the one with the greatest stamp is withdrawn.
    (
        &[
            FIRST,
            Coded((2, 0), RETITLE_CODE, &[A], b"\0\0\0\x01X"),
            Coded((3, 0), RETITLE_CODE, &[A], b"\0\0\0\x01Y"),
            Coded((2, 1), RETITLE_CODE, &[A], b"\0\0\0\x02Z"),
            Delete((2, 1)),
            Text((1, 3), A, NONE, NONE, 'a'),
        ],
        720,
        "# Y\na\n",
    ),
];

const TEXT: Name = (1, 3);

/// Notes that are accepted and are no move and no retitle: codes, names and bodies.
const MALFORMED: &[(u8, &[Name], &[u8])] = &[
    // The body has too few bytes, too many, or another form.
    (MOVE_CODE, &[C, A], b"\0\0\0\x01"),
    (MOVE_CODE, &[C, A], b"\0\0\0\x01\x02\0"),
    (MOVE_CODE, &[C, A], b"\0\0\0\x01\x04"),
    (MOVE_CODE, &[C, A], b""),
    // Too few names, or too many.
    (MOVE_CODE, &[C], b"\0\0\0\x01\x02"),
    (MOVE_CODE, &[C, A], b"\0\0\0\x01\x03"),
    (MOVE_CODE, &[C, A], b"\0\0\0\x01\0"),
    (MOVE_CODE, &[C, A, B], b"\0\0\0\x01\x02"),
    (MOVE_CODE, &[], b"\0\0\0\x01\0"),
    // A text is no section, and no origin.
    (MOVE_CODE, &[TEXT, A], b"\0\0\0\x01\x02"),
    (MOVE_CODE, &[C, TEXT], b"\0\0\0\x01\x02"),
    (MOVE_CODE, &[C, A, TEXT], b"\0\0\0\x01\x03"),
    // No such code.
    (9, &[C, A], b"\0\0\0\x01\x02"),
    (9, &[A], b"\0\0\0\x01Z"),
    // No title, or no line of UTF-8.
    (RETITLE_CODE, &[A], b"\0\0\0\x01"),
    (RETITLE_CODE, &[A], b"\0\0\x01"),
    (RETITLE_CODE, &[A], b"\0\0\0\x01Z\n"),
    (RETITLE_CODE, &[A], b"\0\0\0\x01\r"),
    (RETITLE_CODE, &[A], b"\0\0\0\x01Z\xc3"),
    // No section, another one too, or a text.
    (RETITLE_CODE, &[], b"\0\0\0\x01Z"),
    (RETITLE_CODE, &[A, B], b"\0\0\0\x01Z"),
    (RETITLE_CODE, &[TEXT], b"\0\0\0\x01Z"),
];

#[test]
fn moves_and_retitles_answer_make_and_show_what_was_asked(rt: HostRuntime) -> Result<(), Fail> {
    for row in ROWS {
        let mut replica = Replica::new(rt.alloc(), 1, 100, row.most)?;
        let done = answers(&rt, rt.alloc(), &mut replica, row);
        drop(replica);
        done?;
    }
    for (lines, orders, text) in SETS {
        arranges_in_any_order(&rt, rt.alloc(), lines, *orders, text)?;
    }
    for (code, names, body) in MALFORMED {
        let lines = [
            FIRST,
            SECOND,
            THIRD,
            Text(TEXT, A, NONE, NONE, 'a'),
            Coded((2, 0), *code, names, body),
        ];
        arranges_in_any_order(&rt, rt.alloc(), &lines, 24, "# A\na\n# B\n\n# C\n\n")?;
    }
    Ok(())
}

/// Bodies of notes by no replica, some of them with equal stamps.
const BODIES: &[&[u8]] = &[
    b"\0\0\0\x01\0",
    b"\0\0\0\x02\x01",
    b"\0\0\0\x02\x02",
    b"\0\0\0\x03\x02",
    b"\0\0\0\x03\x03",
    b"\0\0\0\x04\x03",
    b"\0\0\0\x04\x04",
    b"\0\0\0\x09",
    b"\0\0\0\x02Z",
    b"\0\0\x01\0Y\n",
];

/// The identifier or the target of an operation of the pool.
fn some_id(dice: &mut Dice, pool: &[Op]) -> Name {
    match pool.get(dice.roll(pool.len())) {
        Some(Op::Delete { target }) => (target.replica, target.counter),
        Some(op) => match op.id() {
            Some(id) => (id.replica, id.counter),
            None => A,
        },
        None => A,
    }
}

/// A Delete of anything, or a note on anything, by none of the replicas.
fn foreign(rt: &impl Abort, alloc: Global, pool: &[Op], dice: &mut Dice) -> Result<Op, Fail> {
    let (a, b, c) = (
        some_id(dice, pool),
        some_id(dice, pool),
        some_id(dice, pool),
    );
    let id = (4, u32::try_from(pool.len()).unwrap_or(0));
    let body = BODIES[dice.roll(BODIES.len()) % BODIES.len()];
    match dice.roll(8) {
        0 => op(rt, alloc, Delete(a)),
        1 => note(rt, alloc, id, RETITLE_CODE, &[a], body),
        2 => note(rt, alloc, id, MOVE_CODE, &[a], body),
        3 | 4 => note(rt, alloc, id, MOVE_CODE, &[a, b], body),
        _ => note(rt, alloc, id, MOVE_CODE, &[a, b, c], body),
    }
}

/// The replica hears of its own operations and of some first ones, and moves or retitles a section. What it accepted
/// joins the pool.
fn act_and_gather(
    rt: &impl Abort,
    alloc: Global,
    replica: &mut Replica,
    pool: &mut Vec<Op>,
    dice: &mut Dice,
) -> Result<(), Fail> {
    let heard = dice.roll(pool.len().saturating_add(1));
    for (at, op) in pool.iter().enumerate() {
        let is_own = op.id().is_some_and(|id| id.replica == replica.number());
        if is_own || at < heard {
            feed_one(rt, replica, op.clone_in(alloc)?, &mut Tally::default())?;
        }
    }
    let count = replica.section_count();
    let asked = match dice.roll(4) {
        0 => Retitle(dice.roll(count), "New"),
        _ => Move(dice.roll(count), dice.roll(count)),
    };
    let answer = perform(rt, alloc, replica, asked)?;
    equal_at(rt, &asked, answer.is_ok(), count > 0);
    let accepted = accepted_by(alloc, replica)?;
    match accepted.last() {
        Some(made) if !pool.contains(made) => pool.push(made.clone_in(alloc)?)?,
        _ => {}
    }
    Ok(())
}

/// So many operations are made. It is prime, so that each step comes to all of them.
const SIZE: usize = 31;

/// Turns, until there are so many operations: one of three authors acts, or a foreign operation comes.
fn fill_pool(rt: &impl Abort, alloc: Global, pool: &mut Vec<Op>, seed: u64) -> Result<(), Fail> {
    let mut dice = Dice { state: seed };
    for line in [FIRST, SECOND, THIRD, Text(TEXT, A, NONE, NONE, 'a')] {
        pool.push(op(rt, alloc, line)?)?;
    }
    for _ in 0..100 {
        let turn = u32::try_from(dice.roll(5)).unwrap_or(5);
        if pool.len() >= SIZE {
            break;
        }
        if turn < 3 {
            let mut replica = Replica::new(alloc, turn + 1, 1000, 1000)?;
            let done = act_and_gather(rt, alloc, &mut replica, pool, &mut dice);
            drop(replica);
            done?;
        } else {
            pool.push(foreign(rt, alloc, pool, &mut dice)?)?;
        }
    }
    equal(rt, pool.len(), SIZE);
    Ok(())
}

/// Feeds the pool, each operation `step` after the one before, and compares.
fn hear_in_order(
    rt: &impl Abort,
    alloc: Global,
    replica: &mut Replica,
    pool: &[Op],
    step: usize,
    text: &[u8],
) -> Result<(), Fail> {
    for turn in 0..SIZE {
        if let Some(op) = pool.get(turn.saturating_mul(step) % SIZE) {
            feed_one(rt, replica, op.clone_in(alloc)?, &mut Tally::default())?;
        }
    }
    holds_at(rt, &step, arranges(alloc, replica, text)?);
    Ok(())
}

#[test]
fn replicas_that_move_and_retitle_arrange_the_same(rt: HostRuntime) -> Result<(), Fail> {
    for seed in 0..20 {
        let mut pool = Vec::new(rt.alloc());
        fill_pool(&rt, rt.alloc(), &mut pool, seed)?;
        let mut plain = Plain::new(rt.alloc());
        plain.take_all(rt.alloc(), &pool)?;
        holds_at(&rt, &seed, plain.waiting.is_empty());
        let text = arranged_text(rt.alloc(), &plain.accepted)?;
        for step in 1..SIZE {
            let mut replica = Replica::new(rt.alloc(), 7, 100, 100)?;
            let done = hear_in_order(&rt, rt.alloc(), &mut replica, &pool, step, &text);
            drop(replica);
            done?;
        }
    }
    Ok(())
}
