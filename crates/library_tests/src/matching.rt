//! Which section becomes which part of a draft, by value.

use crate::assertions::equal_at;
use section_plan::{Part, match_sections};
use std::alloc::Global;
use std::process::Abort;
use std::test::Fail;

/// Titles and texts.
type Parts = &'static [(&'static str, &'static str)];

/// Sections, the parts of a draft, and the section that each part is.
type Row = (Parts, Parts, &'static [Option<usize>]);

const ROWS: [Row; 11] = [
    // A section that was retitled and changed in a word, one that got another one's title, one of two with the same title
    // that kept its text, and one with a title of its own whose text is alike.
    (
        &[
            ("One", "the sea was calm and blue, then it blew"),
            ("Two", "nobody minded the wind that night at all"),
            ("*", "short"),
            ("*", "another one"),
        ],
        &[
            ("New", "the sea was calm and green, then it blew"),
            ("One", "nobody minded the wind that night at all"),
            ("*", "another one"),
            ("Three", "shore"),
        ],
        &[Some(0), Some(1), Some(3), Some(2)],
    ),
    // Texts without a common word, each alike with each other one in its first third: in order.
    (
        &[("A", "seashore"), ("B", "seafront"), ("C", "seaplane")],
        &[("X", "seabirds"), ("Y", "seagulls"), ("Z", "seahorse")],
        &[Some(0), Some(1), Some(2)],
    ),
    // A longer first third comes in its order too.
    (
        &[("A", "seafaring"), ("B", "sealing"), ("C", "seahorses")],
        &[("X", "seagulls"), ("Y", "seabirds"), ("Z", "seaweeds")],
        &[Some(0), Some(1), Some(2)],
    ),
    // In their last third.
    (
        &[("A", "walking"), ("B", "sailing"), ("C", "reading")],
        &[("X", "cooking"), ("Y", "hearing"), ("Z", "jumping")],
        &[Some(0), Some(1), Some(2)],
    ),
    // One is alike at the front, and one before it at the end.
    (
        &[("A", "rowing"), ("B", "seaman")],
        &[("X", "seeing"), ("Y", "sealed")],
        &[Some(0), Some(1)],
    ),
    // Texts that share the same words, after a part that shares none.
    (
        &[
            ("A", "one two three four five six seven"),
            ("B", "one two three four five six eight"),
        ],
        &[
            ("N", "1 2 3"),
            ("X", "one two three four five six nine"),
            ("Y", "one two three four five six ten"),
        ],
        &[None, Some(0), Some(1)],
    ),
    // The same text, from both ends.
    (
        &[("A", "x"), ("B", "x"), ("C", "y"), ("D", "x")],
        &[("E", "x"), ("F", "y"), ("G", "x"), ("H", "x")],
        &[Some(0), Some(2), Some(1), Some(3)],
    ),
    // The same text twice, once under each title.
    (
        &[("A", "x"), ("B", "x")],
        &[("B", "x"), ("A", "x")],
        &[Some(1), Some(0)],
    ),
    // The same title, from the front on and from the end on.
    (
        &[("*", "1"), ("*", "2"), ("*", "3")],
        &[("*", "4"), ("N", "5"), ("*", "6")],
        &[Some(0), None, Some(2)],
    ),
    // More of them in the middle than before.
    (
        &[("A", "1"), ("*", "2"), ("*", "3"), ("B", "4")],
        &[
            ("A", "5"),
            ("N", "6"),
            ("*", "7"),
            ("*", "8"),
            ("*", "9"),
            ("M", "10"),
            ("B", "11"),
        ],
        &[Some(0), None, Some(1), Some(2), None, None, Some(3)],
    ),
    // Titles that stand once on both sides, in another order.
    (
        &[("A", "1"), ("B", "2"), ("C", "3")],
        &[("C", "4"), ("A", "5"), ("B", "6")],
        &[Some(2), Some(0), Some(1)],
    ),
];

fn parts_of(alloc: Global, parts: Parts) -> Result<Vec<Part<'static>>, Fail> {
    let mut list = Vec::new(alloc);
    for (title, text) in parts {
        list.push(Part { title, text })?;
    }
    Ok(list)
}

fn sections_match(rt: &impl Abort, alloc: Global, row: &Row) -> Result<(), Fail> {
    let (sections, parts, wanted) = row;
    let old = parts_of(alloc, *sections)?;
    let new = parts_of(alloc, *parts)?;
    let pairs = match_sections(alloc, old.as_slice(), new.as_slice())?;
    for (part, section) in wanted.iter().enumerate() {
        equal_at(rt, &parts.get(part), pairs.section_of(part), *section);
        if let Some(section) = section {
            let found = pairs.part_of(*section);
            equal_at(rt, &sections.get(*section), found, Some(part));
        }
    }
    Ok(())
}

#[test]
fn sections_match_parts(rt: HostRuntime) -> Result<(), Fail> {
    for row in &ROWS {
        sections_match(&rt, rt.alloc(), row)?;
    }
    Ok(())
}
