//! A manuscript lists, shows and prints what the plain replica does.

use crate::assertions::{equal, equal_at, holds_at};
use crate::op_lines::Line::{Delete, Note, Section, Text};
use crate::op_lines::{
    A, B, BACKWARDS, D, HIDDEN, Line, NONE, Name, OTHER, SECTION, T, X, Y, id, op,
};
use crate::plain::{Plain, printed};
use crate::pools::step_beside;
use origin_model::{Place, PlainReplica};
use outer_ports::MemSink;
use replica_core::Replica;
use section_catalogue::Manuscript;
use section_list::SectionList;
use std::alloc::Global;
use std::process::Abort;
use std::test::Fail;

/// The place lists and shows the same elements on both sides, and each has that place.
fn compare_place(
    rt: &impl Abort,
    alloc: Global,
    manuscript: &Manuscript,
    plain: &PlainReplica,
    place: &Place,
    list: &SectionList,
) -> Result<(), Fail> {
    let mut shown = Vec::new(alloc);
    for i in 0..list.visible_count() {
        shown.extend(list.nth_visible(i))?;
    }
    holds_at(rt, place, shown == plain.shown(*place)?);
    let all = plain.elements(*place)?;
    let mut last = None;
    for id in &all {
        equal_at(rt, place, list.after(last), Some(*id));
        equal_at(rt, place, manuscript.place_of(*id), Some(*place));
        last = Some(*id);
    }
    equal_at(rt, place, (list.after(last), list.len()), (None, all.len()));
    Ok(())
}

/// No line has it.
const UNKNOWN: Name = (8, 8);

/// A note, where it is held.
const NOTE: Name = (7, 0);

/// Every place of the two, hidden sections too, and what both print. What they do not hold has no place, and a note has
/// none.
fn compare(
    rt: &impl Abort,
    alloc: Global,
    manuscript: &Manuscript,
    plain: &PlainReplica,
    wanted: &str,
) -> Result<(), Fail> {
    let sections = manuscript.catalogue();
    compare_place(rt, alloc, manuscript, plain, &Place::Catalogue, sections)?;
    for id in &plain.elements(Place::Catalogue)? {
        let list = manuscript.section(*id).expect(rt, "a section");
        compare_place(rt, alloc, manuscript, plain, &Place::Section(*id), list)?;
    }
    for (k, id) in plain.shown(Place::Catalogue)?.iter().enumerate() {
        equal_at(rt, &wanted, manuscript.section_at(k), Some(*id));
    }
    equal(rt, manuscript.section_at(manuscript.section_count()), None);
    let mut output = MemSink::new(alloc, 16, Vec::new(alloc));
    manuscript.write_all(&mut output)?;
    equal_at(rt, &wanted, output.written(), wanted.as_bytes());
    holds_at(
        rt,
        &wanted,
        printed(alloc, plain)?.as_slice() == wanted.as_bytes(),
    );
    let places = (
        manuscript.place_of(id(rt, UNKNOWN)),
        manuscript.place_of(id(rt, NOTE)),
    );
    equal(rt, places, (None, None));
    // A text, where it is held.
    assert!(rt; manuscript.section(id(rt, (1, 0))).is_none());
    Ok(())
}

/// Both take in the operations of the lines, each of which is Ready on those before it.
fn fill_and_compare(
    rt: &impl Abort,
    alloc: Global,
    replica: &mut Replica,
    lines: &[Line],
    wanted: &str,
) -> Result<(), Fail> {
    let mut plain = Plain::new(alloc);
    for line in lines {
        let op = op(rt, alloc, *line)?;
        step_beside(rt, alloc, replica, &mut plain, &op)?;
    }
    equal(rt, replica.accepted().len(), lines.len());
    compare(rt, alloc, replica.places(), &plain.accepted, wanted)
}

const TABLE: &[(&[Line], &str)] = &[
    (&[], ""),
    (&[T, B, A, D, X, Y], "# T\nAXYDB\n"),
    (HIDDEN, "# T\nAXY\n"),
    (
        &[T, B, A, D, Delete((2, 0)), Delete((1, 0)), X, Y],
        "# T\nAXY\n",
    ),
    (BACKWARDS, "# T\nPQVZ\n"),
    // Both origins are hidden.
    (
        &[
            T,
            Text((1, 0), SECTION, NONE, NONE, 'A'),
            Text((1, 1), SECTION, (1, 0), NONE, 'B'),
            Delete((1, 1)),
            Text((1, 2), SECTION, (1, 0), (1, 1), 'C'),
        ],
        "# T\nAC\n",
    ),
    (
        &[
            T,
            Section(OTHER, NONE, SECTION, "first"),
            Section((5, 0), SECTION, NONE, "last"),
            B,
            Text((6, 0), OTHER, NONE, NONE, 'é'),
        ],
        "# first\né\n# T\nB\n# last\n\n",
    ),
    // A hidden section goes on growing.
    (
        &[
            T,
            B,
            Section(OTHER, SECTION, NONE, "é"),
            Delete(SECTION),
            A,
            Delete((1, 0)),
            Text((6, 0), OTHER, NONE, NONE, ' '),
        ],
        "# é\n \n",
    ),
    (&[T, B, Delete(SECTION)], ""),
    // A note on a text and its section is withdrawn, and then the text.
    (
        &[
            T,
            B,
            Note(NOTE, &[(1, 0), SECTION], "n"),
            Note((6, 0), &[NOTE], "m"),
            A,
            Delete(NOTE),
            Delete((1, 0)),
        ],
        "# T\nA\n",
    ),
];

#[test]
fn a_manuscript_lists_shows_and_prints_what_the_plain_replica_does(
    rt: HostRuntime,
) -> Result<(), Fail> {
    for (lines, wanted) in TABLE {
        let mut replica = Replica::new(rt.alloc(), 1, 100, 100)?;
        let done = fill_and_compare(&rt, rt.alloc(), &mut replica, lines, wanted);
        drop(replica);
        done?;
    }
    Ok(())
}
