//! Worked rows of the plain replica itself, and its order beside that of the sides.

mod by_sides;

use crate::assertions::{equal, equal_at, holds_at};
use crate::op_lines::Line::{self, Delete, Section, Text};
use crate::op_lines::{A, B, D, NONE, Name, SECTION, T, id, op};
use by_sides::{Node, by_sides};
use origin_model::{Place, PlainReplica, Verdict};
use std::alloc::Global;
use std::process::Abort;
use std::test::Fail;

fn take_all(
    rt: &impl Abort,
    alloc: Global,
    replica: &mut PlainReplica,
    lines: &[Line],
) -> Result<(), Fail> {
    for line in lines {
        let op = op(rt, alloc, *line)?;
        assert!(rt; replica.verdict(&op) == Verdict::Ready);
        replica.accept(op)?;
    }
    Ok(())
}

/// Lines with their verdicts after `T`, another section, `B` and `A`: the first rule that applies decides.
fn compare_verdicts(
    rt: &impl Abort,
    alloc: Global,
    replica: &mut PlainReplica,
) -> Result<(), Fail> {
    let table = [
        (A, Verdict::Again),
        (Text((1, 1), SECTION, NONE, (1, 0), 'a'), Verdict::Conflict),
        (
            Text((1, 1), SECTION, (7, 0), SECTION, 'a'),
            Verdict::Conflict,
        ),
        (
            Text((2, 0), SECTION, SECTION, (7, 0), 'a'),
            Verdict::Stray(id(rt, SECTION)),
        ),
        (
            Text((2, 0), SECTION, (7, 0), SECTION, 'a'),
            Verdict::Stray(id(rt, SECTION)),
        ),
        (
            Section((2, 0), NONE, (1, 0), "V"),
            Verdict::Stray(id(rt, (1, 0))),
        ),
        (
            Text((2, 0), SECTION, (1, 0), (7, 0), 'a'),
            Verdict::Missing(id(rt, (7, 0))),
        ),
        (Delete((7, 0)), Verdict::Missing(id(rt, (7, 0)))),
        (Delete((1, 0)), Verdict::Ready),
        (Text((2, 0), SECTION, (1, 0), (1, 1), 'a'), Verdict::Ready),
    ];
    take_all(
        rt,
        alloc,
        replica,
        &[T, Section((8, 0), NONE, NONE, "U"), B, A],
    )?;
    for (line, wanted) in table {
        let op = op(rt, alloc, line)?;
        equal_at(rt, &line, replica.verdict(&op), wanted);
    }
    Ok(())
}

#[test]
fn a_plain_replica_judges_lists_and_hides(rt: HostRuntime) -> Result<(), Fail> {
    let mut replica = PlainReplica::new(rt.alloc());
    compare_verdicts(&rt, rt.alloc(), &mut replica)?;
    take_all(&rt, rt.alloc(), &mut replica, &[D, Delete((1, 1))])?;
    let place = Place::Section(id(&rt, SECTION));
    let (a, b, d) = (id(&rt, (1, 1)), id(&rt, (1, 0)), id(&rt, (2, 0)));
    equal(
        &rt,
        replica.elements(place)?.as_slice(),
        [a, d, b].as_slice(),
    );
    equal(&rt, replica.shown(place)?.as_slice(), [d, b].as_slice());
    Ok(())
}

/// Whether the order of these nodes, as a replica has it, is that of the sides.
fn is_by_sides(rt: &impl Abort, alloc: Global, nodes: &[Node]) -> Result<bool, Fail> {
    let mut replica = PlainReplica::new(alloc);
    take_all(rt, alloc, &mut replica, &[T])?;
    for (id, left, right) in nodes {
        let line = Text(*id, SECTION, *left, *right, 'a');
        take_all(rt, alloc, &mut replica, &[line])?;
    }
    let mut found = Vec::new(alloc);
    for id in &replica.elements(Place::Section(id(rt, SECTION)))? {
        found.push((id.replica, id.counter))?;
    }
    Ok(found.len() == nodes.len() && found == by_sides(alloc, nodes)?)
}

const P: Name = (1, 0);

const Q: Name = (2, 0);

const R: Name = (3, 0);

const S: Name = (4, 0);

const U: Name = (5, 0);

const V: Name = (6, 0);

const LISTS: [(&str, &[Node]); 14] = [
    (
        "two passages typed forwards",
        &[(P, NONE, NONE), (R, NONE, NONE), (Q, P, NONE), (S, R, NONE)],
    ),
    (
        "two passages typed backwards",
        &[(P, NONE, NONE), (R, NONE, NONE), (Q, NONE, P), (S, NONE, R)],
    ),
    (
        "three beginnings, later identifiers first",
        &[(R, NONE, NONE), (Q, NONE, NONE), (P, NONE, NONE)],
    ),
    (
        "later right origins first",
        &[
            (U, NONE, NONE),
            (V, U, NONE),
            (S, U, V),
            (P, S, NONE),
            (Q, S, V),
            (R, S, V),
        ],
    ),
    (
        "left children by identifier",
        &[(P, NONE, NONE), (R, NONE, P), (Q, NONE, P), (S, NONE, R)],
    ),
    (
        "between two that come to stand apart",
        &[
            (P, NONE, NONE),
            (Q, P, NONE),
            (R, P, Q),
            (S, P, Q),
            (U, R, S),
            (V, R, Q),
        ],
    ),
    (
        "the right origin is the left one",
        &[(P, NONE, NONE), (Q, P, P), (R, P, Q), (S, P, P)],
    ),
    (
        "the right origin stands before the left one",
        &[
            (P, NONE, NONE),
            (Q, P, NONE),
            (R, Q, P),
            (S, Q, NONE),
            (U, R, P),
        ],
    ),
    (
        "the right origin is in another branch",
        &[
            (P, NONE, NONE),
            (Q, NONE, NONE),
            (R, P, NONE),
            (S, Q, R),
            (U, P, S),
            (V, Q, R),
        ],
    ),
    (
        "the right origin is below the left one, and not the next",
        &[
            (P, NONE, NONE),
            (Q, P, NONE),
            (R, Q, NONE),
            (S, P, R),
            (U, P, Q),
        ],
    ),
    (
        "right origins that point backwards tie by identifier",
        &[
            (V, NONE, NONE),
            (U, V, NONE),
            (S, U, V),
            (R, U, V),
            (Q, U, NONE),
        ],
    ),
    (
        "a left child whose sibling has a left child",
        &[
            (U, NONE, NONE),
            (V, NONE, U),
            (P, NONE, U),
            (Q, NONE, V),
            (R, NONE, Q),
            (S, NONE, P),
        ],
    ),
    (
        "the start with every right origin",
        &[
            (R, NONE, NONE),
            (Q, R, NONE),
            (P, NONE, Q),
            (S, NONE, P),
            (U, NONE, R),
        ],
    ),
    (
        "a chain below a hostile element",
        &[
            (Q, NONE, NONE),
            (R, Q, NONE),
            (P, R, Q),
            (S, P, R),
            (U, S, Q),
            (V, R, P),
        ],
    ),
];

/// The named lists, and each list of four elements with origins that came before them. The first name of an order is
/// the start and the end.
#[test]
fn the_order_is_that_of_the_sides(rt: HostRuntime) -> Result<(), Fail> {
    for (name, nodes) in LISTS {
        holds_at(&rt, &name, is_by_sides(&rt, rt.alloc(), nodes)?);
    }
    let orders: [[Name; 5]; 3] = [
        [NONE, (1, 0), (1, 1), (2, 0), (3, 0)],
        [NONE, (3, 0), (2, 1), (2, 0), (1, 7)],
        [NONE, (2, 0), (3, 0), (1, 0), (2, 1)],
    ];
    for names in orders {
        for choice in 0..576usize {
            let mut nodes = Vec::new(rt.alloc());
            let mut rest = choice;
            for count in 1..5 {
                let left = names[rest % count];
                rest /= count;
                let right = names[rest % count];
                rest /= count;
                nodes.push((names[count], left, right))?;
            }
            let is_so = is_by_sides(&rt, rt.alloc(), nodes.as_slice())?;
            holds_at(&rt, &(names, choice), is_so);
        }
    }
    Ok(())
}
