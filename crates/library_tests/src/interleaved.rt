//! Three replicas that edit without hearing of each other, and then hear of all operations in orders of their own, with
//! repeats.

use crate::assertions::equal;
use crate::edits::Edit::{self, Add, Cut, Put};
use crate::edits::make;
use crate::plain::Plain;
use crate::pools::step_beside;
use crate::replicas::{accepted_by, feed_ops, writes};
use fugue_ids::Op;
use replica_core::Replica;
use std::alloc::Global;
use std::process::Abort;
use std::test::Fail;

/// What all three begin with. Replica 1 makes it.
const BEGUN: &[Edit] = &[Add(0, "T"), Put(0, 0, "the fox")];

const FIRST: &[Edit] = &[Put(0, 4, "quick "), Cut(0, 0, 3), Put(0, 10, "!!")];

/// Three of its Deletes are those of replica 1.
const SECOND: &[Edit] = &[Put(0, 4, "lazy "), Cut(0, 0, 4), Put(0, 0, "my ")];

const THIRD: &[Edit] = &[
    Put(0, 7, " jumps"),
    Put(0, 0, "A "),
    Add(1, "U"),
    Put(1, 0, "end"),
];

/// A replica's number, its edits, and the order in which it hears of the pool: which operation comes first, and how far
/// after each the next one stands.
struct Author {
    number: u32,
    edits: &'static [Edit],
    order: (usize, usize),
}

const AUTHORS: &[Author] = &[
    Author {
        number: 1,
        edits: FIRST,
        order: (3, 7),
    },
    Author {
        number: 2,
        edits: SECOND,
        order: (39, 39),
    },
    Author {
        number: 3,
        edits: THIRD,
        order: (5, 11),
    },
];

/// All operations that are made.
const MADE: usize = 40;

/// As many deliveries, so that some operations come again.
const DELIVERIES: usize = 90;

/// Computed by another program, which walks the tree of the paper.
const TEXT: &str = "# T\nmy A quick lazy fox!! jumps\n# U\nend\n";

/// The replica takes in what all begin with, and edits.
fn begin(
    rt: &impl Abort,
    alloc: Global,
    replica: &mut Replica,
    begun: &[Op],
    edits: &[Edit],
) -> Result<(), Fail> {
    feed_ops(rt, alloc, replica, begun)?;
    for edit in edits {
        make(rt, alloc, replica, *edit)??;
    }
    Ok(())
}

/// What a new replica of this number has heard of and made joins the pool, where it lacks it.
fn join(
    rt: &impl Abort,
    alloc: Global,
    replica: &mut Replica,
    pool: &mut Vec<Op>,
    begun: &[Op],
    edits: &[Edit],
) -> Result<(), Fail> {
    begin(rt, alloc, replica, begun, edits)?;
    let ops = accepted_by(alloc, replica)?;
    for op in &ops {
        if !pool.contains(op) {
            pool.push(op.clone_in(alloc)?)?;
        }
    }
    Ok(())
}

/// Delivers the pool, each operation `step` after the one before, to the author's replica, as it was when it had made
/// its edits, and to the plain one.
fn hear_all(
    rt: &impl Abort,
    alloc: Global,
    replica: &mut Replica,
    begun: &[Op],
    pool: &[Op],
    author: &Author,
) -> Result<(), Fail> {
    let mut plain = Plain::new(alloc);
    begin(rt, alloc, replica, begun, author.edits)?;
    let ops = accepted_by(alloc, replica)?;
    plain.take_all(alloc, &ops)?;
    let (first, step) = author.order;
    for turn in 0..DELIVERIES {
        let at = first.saturating_add(turn.saturating_mul(step)) % MADE;
        if let Some(op) = pool.get(at) {
            step_beside(rt, alloc, replica, &mut plain, op)?;
        }
    }
    assert!(rt; writes(alloc, replica, TEXT.as_bytes())?);
    equal(rt, replica.accepted().len(), MADE);
    Ok(())
}

#[test]
fn three_that_hear_all_in_their_own_orders_show_the_same(rt: HostRuntime) -> Result<(), Fail> {
    let mut begun = Vec::new(rt.alloc());
    let mut replica = Replica::new(rt.alloc(), 1, 100, 100)?;
    let done = join(&rt, rt.alloc(), &mut replica, &mut begun, &[], BEGUN);
    drop(replica);
    done?;
    let mut pool = Vec::new(rt.alloc());
    for author in AUTHORS {
        let mut replica = Replica::new(rt.alloc(), author.number, 100, 100)?;
        let done = join(
            &rt,
            rt.alloc(),
            &mut replica,
            &mut pool,
            &begun,
            author.edits,
        );
        drop(replica);
        done?;
    }
    equal(&rt, pool.len(), MADE);
    for author in AUTHORS {
        let mut replica = Replica::new(rt.alloc(), author.number, 100, 100)?;
        let done = hear_all(&rt, rt.alloc(), &mut replica, &begun, &pool, author);
        drop(replica);
        done?;
    }
    Ok(())
}
