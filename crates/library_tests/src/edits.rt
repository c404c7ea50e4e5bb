//! Edits of a replica: what they answer, make and show, by value.

use crate::assertions::{equal, equal_at, holds_at};
use crate::op_lines::Line::{self, Delete, Section, Text};
use crate::op_lines::{CODE, NONE, SECTION, T, id, op};
use crate::replicas::{accepted_by, feed_lines, writes};
use fugue_ids::{Body, NoteNames, Title};
use replica_core::{EditFault, Replica, Tally};
use std::alloc::Global;
use std::process::Abort;
use std::test::Fail;

/// An edit, by positions in what is shown. A note is made on the element at the position.
#[derive(Clone, Copy, Debug)]
pub enum Edit {
    Put(usize, usize, &'static str),
    Cut(usize, usize, usize),
    Add(usize, &'static str),
    Drop(usize),
    Note(usize, usize),
}

use Edit::{Add, Cut, Drop, Note, Put};

pub type Answer = Result<u32, EditFault>;

/// The body of the notes that are made.
pub const BODY: &str = "n";

pub fn make(
    rt: &impl Abort,
    alloc: Global,
    replica: &mut Replica,
    edit: Edit,
) -> Result<Answer, Fail> {
    assert!(rt; replica.is_settled());
    match edit {
        Put(section, at, text) => Ok(replica.put(section, at, text)),
        Cut(section, at, n) => Ok(replica.cut(section, at, n)),
        Add(at, title) => Ok(replica.add(at, Title::read(alloc, title)?)),
        Drop(section) => Ok(replica.drop_section(section)),
        Note(section, at) => {
            let on = replica.scalar_at(section, at).expect(rt, "an element");
            let names = NoteNames::read(&[on]).expect(rt, "one name");
            let body = Body::read(alloc, BODY.as_bytes())?;
            assert!(rt; replica.holds(on));
            Ok(replica.note(names, CODE, body))
        }
    }
}

/// The operations that come first, how many of them wait, edits with their answers, the manuscript that is shown then,
/// and the operations that are accepted, where the row tells them.
#[derive(Clone, Copy)]
struct Row {
    most: u32,
    lines: &'static [Line],
    waiting: usize,
    edits: &'static [(Edit, Answer)],
    text: &'static str,
    accepted: Option<&'static [Line]>,
}

const SPENT: Answer = Err(EditFault::IdsSpent(4_294_967_295));

const NO_SECTION: Answer = Err(EditFault::NoSection);

const OUT_OF_RANGE: Answer = Err(EditFault::OutOfRange);

/// It waits, and names an identifier of replica 1.
const WAITING: Line = Text((2, 0), SECTION, (1, 0), NONE, 'w');

/// Nothing comes first, and there is room for all that is made.
const FRESH: Row = Row {
    most: 100,
    lines: &[],
    waiting: 0,
    edits: &[],
    text: "",
    accepted: None,
};

const ROWS: &[Row] = &[
    Row {
        edits: &[
            (Add(0, "T"), Ok(1)),
            (Put(0, 0, "AB"), Ok(2)),
            (Cut(0, 1, 1), Ok(1)),
            (Put(0, 1, "C"), Ok(1)),
        ],
        text: "# T\nAC\n",
        ..FRESH
    },
    Row {
        edits: &[
            (Add(0, "T"), Ok(1)),
            (Put(0, 0, "e\u{301}f"), Ok(3)),
            (Put(0, 2, "X"), Ok(1)),
            (Cut(0, 0, 2), Ok(2)),
            (Cut(0, 9, 1), OUT_OF_RANGE),
        ],
        text: "# T\nXf\n",
        ..FRESH
    },
    Row {
        edits: &[
            (Drop(0), NO_SECTION),
            (Put(0, 9, ""), NO_SECTION),
            (Cut(0, 9, 0), NO_SECTION),
        ],
        ..FRESH
    },
    Row {
        most: 3,
        edits: &[
            (Add(0, "T"), Ok(1)),
            (Put(0, 0, "ABC"), Err(EditFault::TooMany(1))),
            (Put(0, 0, "AB"), Ok(2)),
            (Cut(0, 0, 1), Err(EditFault::TooMany(3))),
            (Add(1, "U"), Err(EditFault::TooMany(3))),
            (Drop(0), Err(EditFault::TooMany(3))),
            (Note(0, 1), Err(EditFault::TooMany(3))),
            (Put(0, 2, ""), Ok(0)),
            (Cut(0, 2, 0), Ok(0)),
        ],
        text: "# T\nAB\n",
        ..FRESH
    },
    Row {
        most: 2,
        lines: &[T, WAITING],
        waiting: 1,
        edits: &[(Put(0, 0, "x"), Err(EditFault::TooMany(2)))],
        text: "# T\n\n",
        ..FRESH
    },
    Row {
        most: 5,
        lines: &[T, Text((1, 4_294_967_295), SECTION, NONE, NONE, 'x')],
        edits: &[
            (Put(0, 0, "yyyyy"), SPENT),
            (Put(0, 2, "y"), OUT_OF_RANGE),
            (Add(0, "U"), SPENT),
            (Note(0, 0), SPENT),
            (Put(0, 0, ""), Ok(0)),
            (Cut(0, 0, 1), Ok(1)),
            (Drop(0), Ok(1)),
        ],
        ..FRESH
    },
    Row {
        lines: &[T, Text((1, 4_294_967_293), SECTION, NONE, NONE, 'x')],
        edits: &[
            (Put(0, 1, "abc"), Err(EditFault::IdsSpent(4_294_967_293))),
            (Put(0, 1, "ab"), Ok(2)),
        ],
        text: "# T\nxab\n",
        ..FRESH
    },
    Row {
        edits: &[
            (Add(0, "T"), Ok(1)),
            (Put(0, 0, "AB"), Ok(2)),
            (Cut(0, 1, usize::MAX), OUT_OF_RANGE),
            (Put(0, 3, ""), OUT_OF_RANGE),
            (Add(2, "U"), OUT_OF_RANGE),
            (Add(0, "U"), Ok(1)),
            (Put(1, 1, "-"), Ok(1)),
            (Drop(0), Ok(1)),
        ],
        text: "# T\nA-B\n",
        ..FRESH
    },
    // A note on a text that is deleted then, and a text in front of that one, after an identifier that waits.
    Row {
        lines: &[T, WAITING],
        waiting: 1,
        edits: &[
            (Put(0, 0, "AB"), Ok(2)),
            (Note(0, 1), Ok(1)),
            (Cut(0, 1, 1), Ok(1)),
            (Put(0, 1, "C"), Ok(1)),
            (Add(1, "U"), Ok(1)),
            (Drop(0), Ok(1)),
        ],
        text: "# U\n\n",
        accepted: Some(&[
            T,
            Text((1, 1), SECTION, NONE, NONE, 'A'),
            Text((1, 2), SECTION, (1, 1), NONE, 'B'),
            Line::Note((1, 3), &[(1, 2)], BODY),
            Delete((1, 2)),
            Text((1, 4), SECTION, (1, 1), (1, 2), 'C'),
            Section((1, 5), SECTION, NONE, "U"),
            Delete(SECTION),
        ]),
        ..FRESH
    },
];

/// The operations that the replica accepted last are those of the lines.
pub fn accepted_last(
    rt: &impl Abort,
    alloc: Global,
    replica: &Replica,
    lines: &[Line],
) -> Result<(), Fail> {
    let ops = accepted_by(alloc, replica)?;
    for (accepted, line) in ops.iter().rev().zip(lines.iter().rev()) {
        let wanted = op(rt, alloc, *line)?;
        holds_at(rt, line, *accepted == wanted);
    }
    Ok(())
}

fn answers(rt: &impl Abort, alloc: Global, replica: &mut Replica, row: &Row) -> Result<(), Fail> {
    feed_lines(rt, alloc, replica, row.lines, &mut Tally::default())?;
    for (edit, answer) in row.edits {
        equal_at(rt, edit, make(rt, alloc, replica, *edit)?, *answer);
    }
    equal_at(rt, &row.edits, replica.waiting().len(), row.waiting);
    let is_written = writes(alloc, replica, row.text.as_bytes())?;
    holds_at(rt, &row.edits, is_written);
    match row.accepted {
        Some(lines) => {
            equal(rt, replica.accepted().len(), lines.len());
            accepted_last(rt, alloc, replica, lines)
        }
        None => Ok(()),
    }
}

const SECTIONS: &[Line] = &[T, Section((9, 1), SECTION, NONE, "U"), Delete(SECTION)];

fn tells_what_is_shown(rt: &impl Abort, alloc: Global, replica: &mut Replica) -> Result<(), Fail> {
    feed_lines(rt, alloc, replica, SECTIONS, &mut Tally::default())?;
    make(rt, alloc, replica, Put(0, 0, "aé€"))??;
    make(rt, alloc, replica, Cut(0, 0, 1))??;
    let lengths = (replica.text_len(0), replica.text_len(1));
    equal(rt, (replica.section_count(), lengths), (1, (Some(2), None)));
    assert!(rt; replica.text_of(1)?.is_none());
    let (last, next) = (id(rt, (1, 2)), id(rt, (1, 3)));
    equal(
        rt,
        (replica.holds(last), replica.holds(next)),
        (true, false),
    );
    let text = replica.text_of(0)?.expect(rt, "a section");
    equal(rt, text.as_str(), "é€");
    Ok(())
}

#[test]
fn edits_answer_show_and_make_what_was_asked(rt: HostRuntime) -> Result<(), Fail> {
    for row in ROWS {
        let mut replica = Replica::new(rt.alloc(), 1, 100, row.most)?;
        let done = answers(&rt, rt.alloc(), &mut replica, row);
        drop(replica);
        done?;
    }
    let mut replica = Replica::new(rt.alloc(), 1, 100, 100)?;
    let done = tells_what_is_shown(&rt, rt.alloc(), &mut replica);
    drop(replica);
    done
}
