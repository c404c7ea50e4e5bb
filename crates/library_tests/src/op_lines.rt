//! Lines that stand for operations, each with its section, of which the tables are made.

use fugue_ids::{Body, ElementId, NoteNames, Op, Title};
use std::alloc::Global;
use std::process::Abort;
use std::test::Fail;

/// Replica and counter. Replica 0 stands for the start and the end.
pub type Name = (u32, u32);

pub const NONE: Name = (0, 0);

pub const SECTION: Name = (9, 0);

pub const OTHER: Name = (4, 0);

/// An operation, with its identifier, its section, and its left and its right origin.
#[derive(Clone, Copy, Debug)]
pub enum Line {
    Section(Name, Name, Name, &'static str),
    Text(Name, Name, Name, Name, char),
    Delete(Name),
    /// What it names, and its body.
    Note(Name, &'static [Name], &'static str),
    /// A note of this code: what it names, and its body.
    Coded(Name, u8, &'static [Name], &'static [u8]),
}

use Line::{Coded, Delete, Note, Section, Text};

// A section and the texts of the first worked example.
pub const T: Line = Section(SECTION, NONE, NONE, "T");

pub const B: Line = Text((1, 0), SECTION, NONE, NONE, 'B');

pub const A: Line = Text((1, 1), SECTION, NONE, (1, 0), 'A');

pub const D: Line = Text((2, 0), SECTION, NONE, (1, 0), 'D');

pub const X: Line = Text((3, 0), SECTION, (1, 1), (1, 0), 'X');

pub const Y: Line = Text((2, 1), SECTION, (1, 1), (2, 0), 'Y');

/// The code of the notes.
pub const CODE: u8 = 9;

/// The first worked example, with two Deletes at its end.
pub const HIDDEN: &[Line] = &[T, B, A, D, X, Y, Delete((2, 0)), Delete((1, 0))];

/// A text whose right origin stands before its left one.
pub const BACKWARDS: &[Line] = &[
    T,
    Text((1, 0), SECTION, NONE, NONE, 'P'),
    Text((1, 1), SECTION, (1, 0), NONE, 'Q'),
    Text((2, 0), SECTION, (1, 1), (1, 0), 'Z'),
    Text((3, 0), SECTION, (1, 1), NONE, 'V'),
];

pub fn id(rt: &impl Abort, name: Name) -> ElementId {
    ElementId::new(name.0, name.1).expect(rt, "a replica")
}

pub fn note(
    rt: &impl Abort,
    alloc: Global,
    name: Name,
    code: u8,
    names: &[Name],
    body: &[u8],
) -> Result<Op, Fail> {
    let mut ids = Vec::new(alloc);
    for name in names {
        ids.push(id(rt, *name))?;
    }
    Ok(Op::Note {
        id: id(rt, name),
        names: NoteNames::read(&ids).expect(rt, "few names"),
        code,
        body: Body::read(alloc, body)?,
    })
}

/// The operation that the line stands for.
pub fn op(rt: &impl Abort, alloc: Global, line: Line) -> Result<Op, Fail> {
    match line {
        Section(name, left, right, title) => {
            Ok(Op::Section {
                id: id(rt, name),
                left: ElementId::new(left.0, left.1),
                right: ElementId::new(right.0, right.1),
                title: Title::read(alloc, title)?,
            })
        }
        Text(name, section, left, right, ch) => {
            Ok(Op::Text {
                id: id(rt, name),
                section: id(rt, section),
                left: ElementId::new(left.0, left.1),
                right: ElementId::new(right.0, right.1),
                ch,
            })
        }
        Delete(name) => {
            Ok(Op::Delete {
                target: id(rt, name),
            })
        }
        Note(name, names, body) => note(rt, alloc, name, CODE, names, body.as_bytes()),
        Coded(name, code, names, body) => note(rt, alloc, name, code, names, body),
    }
}
