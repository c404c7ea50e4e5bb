//! Versions and views beside a plain program.

ghost use Rattle.std.specs.Prelude.{◌≡◌, ◌≤◌, IsTrue, length, true};
ghost use Rattle.version_views.specs.Versions.{is_name as is_name_of};

use crate::assertions::{equal_at, holds_at};
use crate::edits::Edit::{Add, Cut, Drop, Put};
use crate::edits::{Edit, make};
use crate::op_lines::Line::{Coded, Delete};
use crate::op_lines::{Line, op};
use crate::plain_notes::{version_name, view_text};
use crate::replicas::{accepted_by, feed_one};
use crate::turns::Dice;
use fugue_ids::{Body, Op};
use outer_ports::MemSink;
use replica_core::{Replica, Tally};
use std::alloc::Global;
use std::process::Abort;
use std::test::Fail;
use version_views::{
    VERSION_CODE, VersionFault, find_version, is_name, name_version, write_versions, write_view,
};

type Answer = Result<u32, VersionFault>;

fn give_name(
    rt: &impl Abort,
    alloc: Global,
    replica: &mut Replica,
    name: &str,
) -> Result<Answer, Fail> {
    let body = Body::read(alloc, name.as_bytes())?;
    assert!(rt; replica.is_settled() && is_name(body.as_slice()));
    Ok(name_version(replica, body))
}

/// Whether so many operations were accepted at least.
fn has_first(replica: &Replica, n: usize) -> bool
    ensures { IsTrue result → n ≤ length replica.now.held.history }
{
    n <= replica.accepted().len()
}

/// Whether the view of the first n operations is this text.
fn views(
    rt: &impl Abort,
    alloc: Global,
    replica: &Replica,
    n: usize,
    text: &[u8],
) -> Result<bool, Fail> {
    let mut written = MemSink::new(alloc, 100, Vec::new(alloc));
    assert!(rt; has_first(replica, n));
    write_view(alloc, replica, n, &mut written)?;
    Ok(written.written() == text)
}

/// Whether these lines are written of the versions.
fn lists(alloc: Global, replica: &Replica, text: &[u8]) -> Result<bool, Fail> {
    let mut written = MemSink::new(alloc, 100, Vec::new(alloc));
    write_versions(replica, &mut written)?;
    Ok(written.written() == text)
}

/// Edits, the versions that are named, one after the other, and what is taken in.
#[derive(Clone, Copy, Debug)]
enum Step {
    Make(Edit),
    Name(&'static str, Answer),
    Take(Line),
}

use Step::{Make, Name, Take};

/// What happens, the lines of the versions, a name, how many operations its version has, and what that says.
struct Row {
    most: u32,
    steps: &'static [Step],
    lines: &'static str,
    name: &'static str,
    found: Option<usize>,
    text: &'static str,
}

const BEGIN: Row = Row {
    most: 100,
    steps: &[],
    lines: "",
    name: "one",
    found: None,
    text: "",
};

const SECTION: Step = Make(Add(0, "T"));

const ROWS: &[Row] = &[
    Row {
        steps: &[
            SECTION,
            Make(Put(0, 0, "AB")),
            Make(Cut(0, 1, 1)),
            Make(Put(0, 1, "C")),
            Name("one", Ok(1)),
            Make(Put(0, 2, "D")),
            Make(Drop(0)),
        ],
        lines: "5 one\n",
        found: Some(5),
        text: "# T\nAC\n",
        ..BEGIN
    },
    // The last one of a name counts, and what is deleted later is visible.
    Row {
        found: Some(4),
        steps: &[
            SECTION,
            Name("one", Ok(1)),
            Make(Put(0, 0, "AB")),
            Name("one", Ok(1)),
            Make(Cut(0, 0, 2)),
            Name("two", Ok(1)),
        ],
        lines: "1 one\n4 one\n7 two\n",
        text: "# T\nAB\n",
        ..BEGIN
    },
    // It is withdrawn, and the one before it counts again.
    Row {
        steps: &[
            SECTION,
            Name("one", Ok(1)),
            Make(Put(0, 0, "A")),
            Name("one", Ok(1)),
            Take(Delete((1, 3))),
        ],
        lines: "1 one\n",
        found: Some(1),
        text: "# T\n\n",
        ..BEGIN
    },
    // Another author's version, one with names, one of another code, and a name of two lines.
    Row {
        steps: &[
            SECTION,
            Take(Coded((2, 0), VERSION_CODE, &[], b"one")),
            Take(Coded((1, 1), VERSION_CODE, &[(1, 0)], b"one")),
            Take(Coded((1, 2), 3, &[], b"one")),
            Take(Coded((1, 3), VERSION_CODE, &[], b"one\n")),
            Take(Coded((1, 4), VERSION_CODE, &[], b"")),
            Take(Coded((1, 5), VERSION_CODE, &[], b"\xff")),
        ],
        ..BEGIN
    },
    Row {
        most: 2,
        steps: &[
            SECTION,
            Name("two", Ok(1)),
            Name("one", Err(VersionFault::TooMany(2))),
        ],
        lines: "1 two\n",
        ..BEGIN
    },
    Row {
        most: 1,
        steps: &[
            Take(Coded((1, 4_294_967_295), 9, &[], b"")),
            Name("one", Err(VersionFault::IdsSpent(4_294_967_295))),
        ],
        ..BEGIN
    },
];

/// The versions and each view are those of the plain program.
fn compare(rt: &impl Abort, alloc: Global, replica: &Replica, wanted: &str) -> Result<(), Fail> {
    let mut found = None;
    let mut lines = Vec::new(alloc);
    let copies = accepted_by(alloc, replica)?;
    let ops = copies.as_slice();
    for (n, op) in ops.iter().enumerate() {
        if let Some(name) = version_name(ops, replica.number(), op) {
            lines.extend_from_slice(format!(in alloc; "{n} ")?.as_bytes())?;
            lines.extend_from_slice(name)?;
            lines.push(b'\n')?;
            if name == wanted.as_bytes() {
                found = Some(n);
            }
        }
    }
    equal_at(rt, &wanted, find_version(replica, wanted), found);
    holds_at(rt, &wanted, lists(alloc, replica, &lines)?);
    for n in 0..ops.len().saturating_add(1) {
        let text = view_text(alloc, ops, n)?;
        holds_at(rt, &n, views(rt, alloc, replica, n, &text)?);
    }
    Ok(())
}

fn name_row(rt: &impl Abort, alloc: Global, replica: &mut Replica, row: &Row) -> Result<(), Fail> {
    for each in row.steps {
        match *each {
            Make(edit) => {
                make(rt, alloc, replica, edit)??;
            }
            Name(name, answer) => {
                equal_at(rt, &name, give_name(rt, alloc, replica, name)?, answer);
            }
            Take(line) => feed_one(rt, replica, op(rt, alloc, line)?, &mut Tally::default())?,
        }
    }
    let found = find_version(replica, row.name);
    equal_at(rt, &row.steps, found, row.found);
    holds_at(rt, &row.steps, lists(alloc, replica, row.lines.as_bytes())?);
    if let Some(n) = found {
        holds_at(
            rt,
            &row.steps,
            views(rt, alloc, replica, n, row.text.as_bytes())?,
        );
    }
    compare(rt, alloc, replica, row.name)
}

const NAMES: [&str; 3] = ["one", "two", "drei und vier"];

/// Edits, versions, and Deletes of anything, a version too.
fn act_and_compare(
    rt: &impl Abort,
    alloc: Global,
    replica: &mut Replica,
    seed: u64,
) -> Result<(), Fail> {
    let mut dice = Dice { state: seed };
    make(rt, alloc, replica, Add(0, "T"))??;
    for turn in 0..30 {
        match dice.roll(5) {
            0 => {
                let name = NAMES[dice.roll(NAMES.len()) % NAMES.len()];
                equal_at(rt, &turn, give_name(rt, alloc, replica, name)?, Ok(1));
            }
            1 => {
                let ops = accepted_by(alloc, replica)?;
                let some = ops.get(dice.roll(ops.len()));
                if let Some(target) = some.and_then(|op| op.id()) {
                    let op = Op::Delete { target };
                    feed_one(rt, replica, op, &mut Tally::default())?;
                }
            }
            _ => {
                let edit = dice.edit(replica);
                let _answer = make(rt, alloc, replica, edit)?;
            }
        }
    }
    for name in NAMES {
        compare(rt, alloc, replica, name)?;
    }
    Ok(())
}

#[test]
fn versions_are_named_found_listed_and_viewed(rt: HostRuntime) -> Result<(), Fail> {
    for row in ROWS {
        let mut replica = Replica::new(rt.alloc(), 1, 100, row.most)?;
        let done = name_row(&rt, rt.alloc(), &mut replica, row);
        drop(replica);
        done?;
    }
    for seed in 0..20 {
        let mut replica = Replica::new(rt.alloc(), 1, 100, 1000)?;
        let done = act_and_compare(&rt, rt.alloc(), &mut replica, seed);
        drop(replica);
        done?;
    }
    Ok(())
}
