//! What an edit makes, beside a plain program of the definitions.

use crate::assertions::{equal_at, holds_at};
use crate::edits::Edit::{self, Add, Cut, Drop, Note, Put};
use crate::edits::{BODY, make};
use crate::op_lines::CODE;
use crate::plain::Plain;
use crate::pools::{POOL, is_beside, keep_beside};
use fugue_ids::{Body, ElementId, NoteNames, Op, Title};
use origin_model::{Place, names_of};
use replica_core::Replica;
use std::alloc::Global;
use std::process::Abort;
use std::test::Fail;

/// The replica that edits. The pool has operations of it too.
const NUMBER: u32 = 1;

/// The next identifier of the replica: its counter is one more than the greatest one that an operation has or names.
fn next_id(rt: &impl Abort, plain: &Plain) -> ElementId {
    let mut next = 0u32;
    for op in plain.accepted.ops().iter().chain(&plain.waiting) {
        if let Some(own) = op.id()
            && own.replica == NUMBER
        {
            next = next.max(own.counter.saturating_add(1));
        }
        let names = names_of(op);
        for (named, _) in names.as_slice() {
            if named.replica == NUMBER {
                next = next.max(named.counter.saturating_add(1));
            }
        }
    }
    ElementId::new(NUMBER, next).expect(rt, "a replica")
}

/// The origins of a new element: the shown one in front of the position, and the next one of all.
fn origins_at(
    plain: &Plain,
    place: &Place,
    at: usize,
) -> Result<(Option<ElementId>, Option<ElementId>), Fail> {
    let shown = plain.accepted.shown(*place)?;
    let all = plain.accepted.elements(*place)?;
    let left = shown.iter().take(at).last().copied();
    let right = match left {
        Some(left) => all.iter().skip_while(|id| **id != left).nth(1).copied(),
        None => all.first().copied(),
    };
    Ok((left, right))
}

fn section_at(rt: &impl Abort, plain: &Plain, section: usize) -> Result<ElementId, Fail> {
    let shown = plain.accepted.shown(Place::Catalogue)?;
    Ok(shown.get(section).copied().expect(rt, "a section"))
}

/// The operations of an edit that is not refused.
fn made_of(rt: &impl Abort, alloc: Global, plain: &Plain, edit: Edit) -> Result<Vec<Op>, Fail> {
    let mut made = Vec::new(alloc);
    let mut id = next_id(rt, plain);
    match edit {
        Put(section, at, text) => {
            let section = section_at(rt, plain, section)?;
            let (mut left, right) = origins_at(plain, &Place::Section(section), at)?;
            for ch in text.chars() {
                made.push(Op::Text {
                    id,
                    section,
                    left,
                    right,
                    ch,
                })?;
                left = Some(id);
                id.counter = id.counter.saturating_add(1);
            }
        }
        Add(at, title) => {
            let title = Title::read(alloc, title)?;
            let (left, right) = origins_at(plain, &Place::Catalogue, at)?;
            made.push(Op::Section {
                id,
                left,
                right,
                title,
            })?;
        }
        Note(section, at) => {
            let place = Place::Section(section_at(rt, plain, section)?);
            let on = plain.accepted.shown(place)?.get(at).copied();
            let names = NoteNames::read(&[on.expect(rt, "an element")]);
            made.push(Op::Note {
                id,
                names: names.expect(rt, "one name"),
                code: CODE,
                body: Body::read(alloc, BODY.as_bytes())?,
            })?;
        }
        Cut(section, at, n) => {
            let place = Place::Section(section_at(rt, plain, section)?);
            for target in plain.accepted.shown(place)?.iter().skip(at).take(n) {
                made.push(Op::Delete { target: *target })?;
            }
        }
        Drop(section) => made.push(Op::Delete {
            target: section_at(rt, plain, section)?,
        })?,
    }
    Ok(made)
}

const EDITS: &[Edit] = &[
    Put(0, 1, "mn"),
    Cut(0, 1, 2),
    Put(0, 0, "k"),
    Note(0, 0),
    Add(1, "V"),
    Put(1, 0, "o"),
    Put(0, 3, "pq"),
    Cut(0, 2, 9),
    Put(1, 1, "r"),
    Drop(1),
    Add(2, "W"),
    Cut(0, 0, 1),
    Drop(0),
    Put(0, 2, "s"),
];

/// Both take in the pool and make the edits, and are the same after each.
fn edits_beside(
    rt: &impl Abort,
    alloc: Global,
    replica: &mut Replica,
    plain: &mut Plain,
    first: usize,
    step: usize,
) -> Result<(), Fail> {
    keep_beside(rt, alloc, replica, plain, first, step)?;
    for edit in EDITS {
        if let Ok(count) = make(rt, alloc, replica, *edit)? {
            let ops = made_of(rt, alloc, plain, *edit)?;
            equal_at(rt, edit, count as usize, ops.len());
            plain.take_all(alloc, &ops)?;
        }
        holds_at(rt, edit, is_beside(alloc, replica, plain)?);
    }
    Ok(())
}

#[test]
fn an_edit_makes_what_the_plain_program_does(rt: HostRuntime) -> Result<(), Fail> {
    for first in 0..POOL.len() {
        for step in [1, 4, 9] {
            let mut replica = Replica::new(rt.alloc(), NUMBER, 100, 100)?;
            let mut plain = Plain::new(rt.alloc());
            let done = edits_beside(&rt, rt.alloc(), &mut replica, &mut plain, first, step);
            drop(replica);
            done?;
        }
    }
    Ok(())
}
