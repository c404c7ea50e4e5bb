//! Drafts read, and texts and manuscripts revised, by value: how many operations that takes, and what is shown then.

use crate::arrangements::arranges;
use crate::assertions::{equal, equal_at, holds_at};
use crate::edits::Edit::{Add, Put};
use crate::edits::make;
use catalogue_notes::outline;
use draft_plan::{Draft, DraftFault, revise, revise_text};
use replica_core::{EditFault, Replica};
use std::alloc::Global;
use std::process::Abort;
use std::test::Fail;

/// A draft, and its parts.
type Read = (&'static str, &'static [(&'static str, &'static str)]);

const DRAFTS: [Read; 10] = [
    ("", &[]),
    (
        "# A\none two\n# B\nthree\n",
        &[("A", "one two"), ("B", "three")],
    ),
    // Without the last LF.
    (
        "# A\none two\n# B\nthree",
        &[("A", "one two"), ("B", "three")],
    ),
    ("# N", &[("N", "")]),
    ("# N\n\n", &[("N", "")]),
    // Two headings with nothing between them, and the same one twice.
    ("# A\n# A\nx\n", &[("A", ""), ("A", "x")]),
    // A text that ends in LF has an empty last line.
    ("# A\none\n\n", &[("A", "one\n")]),
    ("# A\n\n\none\n", &[("A", "\n\none")]),
    // A hash sign without a space, and spaces at both ends of a title.
    ("#  A \n#B\n##\n", &[(" A ", "#B\n##")]),
    ("# \u{e4}\n\u{6f22}\n", &[("\u{e4}", "\u{6f22}")]),
];

/// Bytes, and the number of their first bad line.
const BAD: [(&[u8], usize); 7] = [
    (b"hello\n", 1),
    (b"\n# A\n", 1),
    (b"# \n", 1),
    (b"# A\none\n# \n", 3),
    (b"# A\r\none\n", 1),
    (b"# A\none\n\xff\n# \n", 3),
    (b"# \xff\nhello\n", 1),
];

/// Compares slices of two lives.
fn same(rt: &impl Abort, found: &str, wanted: &str) {
    equal(rt, found, wanted);
}

#[test]
fn drafts_by_value(rt: HostRuntime) -> Result<(), Fail> {
    for (text, wanted) in DRAFTS {
        let draft = Draft::read(rt.alloc(), text.as_bytes())?;
        equal_at(&rt, &text, draft.parts().len(), wanted.len());
        for (part, (title, text)) in draft.parts().iter().zip(wanted) {
            same(&rt, part.title, title);
            same(&rt, part.text, text);
        }
    }
    for (bytes, line) in BAD {
        let fault = Draft::read(rt.alloc(), bytes).err();
        equal_at(&rt, &bytes, fault, Some(DraftFault::BadDraft(line)));
    }
    Ok(())
}

/// What is shown, a draft, the operations that it takes at least and at most, and what is shown then.
type Row = (&'static str, &'static str, u32, u32, &'static str);

const AB: &str = "# A\none two\n# B\nthree\n";

const ABCDEF: &str = "# A\n\n# B\n\n# C\n\n# D\n\n# E\n\n# F\n\n";

const FABCDE: &str = "# F\n\n# A\n\n# B\n\n# C\n\n# D\n\n# E\n\n";

const BADCFE: &str = "# B\n\n# A\n\n# D\n\n# C\n\n# F\n\n# E\n\n";

const EBADCF: &str = "# E\n\n# B\n\n# A\n\n# D\n\n# C\n\n# F\n\n";

const FEDCBA: &str = "# F\n\n# E\n\n# D\n\n# C\n\n# B\n\n# A\n\n";

const ROWS: &[Row] = &[
    (AB, AB, 0, 0, AB),
    (
        AB,
        "# A\n1 two\n# B\nthree\n",
        6,
        6,
        "# A\n1 two\n# B\nthree\n",
    ),
    (
        AB,
        "# B\nthree\n# A\none two\n",
        1,
        1,
        "# B\nthree\n# A\none two\n",
    ),
    (
        AB,
        "# A\none two\n# C\nthree\n",
        1,
        1,
        "# A\none two\n# C\nthree\n",
    ),
    (
        AB,
        "# A\none two\n# N\nx\n# B\nthree\n",
        2,
        3,
        "# A\none two\n# N\nx\n# B\nthree\n",
    ),
    (AB, "# B\nthree\n", 1, 1, "# B\nthree\n"),
    (AB, "# A\none two\n# B\nthree", 0, 0, AB),
    (
        AB,
        "# A\none two\n# B\nthree\n# N",
        1,
        2,
        "# A\none two\n# B\nthree\n# N\n\n",
    ),
    (AB, "", 2, 2, ""),
    // A section in front of all, and the same heading twice.
    (
        AB,
        "# N\n\n# A\none two\n# B\nthree\n",
        1,
        2,
        "# N\n\n# A\none two\n# B\nthree\n",
    ),
    (
        AB,
        "# A\none two\n# A\n\n# B\nthree\n",
        1,
        2,
        "# A\none two\n# A\n\n# B\nthree\n",
    ),
    // Both headings change, and both texts stay.
    (
        AB,
        "# C\none two\n# D\nthree\n",
        2,
        2,
        "# C\none two\n# D\nthree\n",
    ),
    // A sentence is typed in.
    (
        AB,
        "# A\none two\n# B\nthree\nfour\n",
        5,
        5,
        "# A\none two\n# B\nthree\nfour\n",
    ),
    // Nothing stays.
    (AB, "# X\nquite another\n", 16, 16, "# X\nquite another\n"),
    // Sections are moved.
    (ABCDEF, FABCDE, 1, 1, FABCDE),
    (FABCDE, ABCDEF, 1, 1, ABCDEF),
    (ABCDEF, BADCFE, 3, 3, BADCFE),
    (BADCFE, EBADCF, 1, 1, EBADCF),
    (ABCDEF, FEDCBA, 5, 5, FEDCBA),
    // Sections are added beside ones that are moved, and are not moved themselves.
    (
        AB,
        "# B\nthree\n# N\nx\n# A\none two\n",
        3,
        3,
        "# B\nthree\n# N\nx\n# A\none two\n",
    ),
    (
        ABCDEF,
        "# F\n\n# N\n\n# A\n\n# B\n\n# C\n\n# D\n\n# M\n\n# E\n\n",
        3,
        3,
        "# F\n\n# N\n\n# A\n\n# B\n\n# C\n\n# D\n\n# M\n\n# E\n\n",
    ),
    // Both titles change, and a word of the first text, and one comes to the second.
    (
        AB,
        "# C\n1 two\n# D\nthree four\n",
        13,
        13,
        "# C\n1 two\n# D\nthree four\n",
    ),
];

/// The first draft is written, and then revised: once more, that takes no operation.
fn revises(rt: &impl Abort, alloc: Global, replica: &mut Replica, row: Row) -> Result<(), Fail> {
    let (old, new, least, most, wanted) = row;
    for (text, least, most) in [(old, 0, u32::MAX), (new, least, most), (wanted, 0, 0)] {
        let draft = Draft::read(alloc, text.as_bytes())?;
        assert!(rt; replica.is_settled());
        let count = revise(alloc, replica, &draft)?;
        holds_at(rt, &(old, text, count), least <= count && count <= most);
    }
    holds_at(rt, &row, arranges(alloc, replica, wanted.as_bytes())?);
    let mut listed = Vec::new(alloc);
    for entry in outline(alloc, replica)?.entries() {
        let text = replica.text_of(entry.number)?.ok_or("section")?;
        for part in ["# ", entry.heading.as_str(), "\n", text.as_str(), "\n"] {
            listed.extend_from_slice(part.as_bytes())?;
        }
    }
    holds_at(rt, &row, listed.as_slice() == wanted.as_bytes());
    Ok(())
}

#[test]
fn manuscripts_are_revised_by_what_differs(rt: HostRuntime) -> Result<(), Fail> {
    for row in ROWS {
        let mut replica = Replica::new(rt.alloc(), 1, 100, 1_000_000)?;
        let done = revises(&rt, rt.alloc(), &mut replica, *row);
        drop(replica);
        done?;
    }
    Ok(())
}

/// How many operations may be held, the text of a section, what it is revised to, the answer, and the text then.
type Revision = (
    u32,
    &'static str,
    &'static str,
    Result<u32, EditFault>,
    &'static str,
);

const REVISIONS: [Revision; 8] = [
    (100, "one two", "one two", Ok(0), "one two"),
    // A word is cut with the blank after it, and another one put.
    (100, "one two", "1 two", Ok(6), "1 two"),
    (100, "", "x", Ok(1), "x"),
    (100, "one two", "", Ok(7), ""),
    // A line typed in.
    (
        100,
        "one\nthree",
        "one\ntwo\nthree",
        Ok(4),
        "one\ntwo\nthree",
    ),
    // A line moved: it is cut and put.
    (
        100,
        "one\ntwo\nthree",
        "two\nthree\none",
        Ok(8),
        "two\nthree\none",
    ),
    (
        100,
        "a b\nc d\ne f",
        "a b\nc x\ne f",
        Ok(4),
        "a b\nc x\ne f",
    ),
    // There is room for the cut alone.
    (18, "one two", "1 two", Err(EditFault::TooMany(18)), "two"),
];

/// The first of two sections has the text. The other one stays, and a line of it becomes a heading.
fn revises_text(
    rt: &impl Abort,
    alloc: Global,
    replica: &mut Replica,
    row: Revision,
) -> Result<(), Fail> {
    let (most, old, new, answer, wanted) = row;
    for edit in [Add(0, "A"), Add(1, "B"), Put(0, 0, old), Put(1, 0, "three")] {
        make(rt, alloc, replica, edit)??;
    }
    assert!(rt; replica.is_settled());
    equal_at(rt, &row, revise_text(alloc, replica, 0, new), answer);
    let first = replica.text_of(0)?.ok_or("section")?;
    let second = replica.text_of(1)?.ok_or("section")?;
    equal_at(
        rt,
        &row,
        (first.as_str(), second.as_str()),
        (wanted, "three"),
    );
    assert!(rt; replica.is_settled());
    let absent = revise_text(alloc, replica, 2, new).err();
    equal_at(rt, &row, absent, Some(EditFault::NoSection));
    Ok(())
}

#[test]
fn texts_are_revised_by_what_differs(rt: HostRuntime) -> Result<(), Fail> {
    for row in REVISIONS {
        let mut replica = Replica::new(rt.alloc(), 1, 100, row.0)?;
        let done = revises_text(&rt, rt.alloc(), &mut replica, row);
        drop(replica);
        done?;
    }
    Ok(())
}
