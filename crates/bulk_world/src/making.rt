//! The manuscript made from a seed: two replicas edit concurrently and exchange operations; its theorems.
ghost use Rattle.std.specs.Prelude.{◌≡◌, IfOk, ◌≢◌, codes, OnOk, take};
ghost use Rattle.op_runs.specs.Finding.{op_of};
ghost use Rattle.bulk_world.specs.Summary.{summary};
ghost use Rattle.bulk_world.specs.Turns.{author, bulk_world, two_begin};
ghost use Rattle.origin_model.specs.taking.Taking.{IsSettled, held_from, intake};
ghost use Rattle.bulk_world.specs.Deliveries.{CallsAreDeliveries};
ghost use Rattle.bulk_world.specs.Laws.{WorldMeetsNoLimit};

use crate::Summary;
use crate::generator::unless_memory_wants;
use crate::summary::summarize;
use crate::turn::take_turns;
use fugue_ids::{MOST_OPERATIONS, NoMemory, Title, TitleFault};
use op_runs::{OpRef, OpSlice};
use origin_model::order_by_set;
use replica_core::{FeedFault, Replica, Tally};
use std::alloc::Global;

/// How many operations of each replica may wait.
pub(crate) const HOLD: u32 = 65_536;

/// The most turns that a manuscript is made in.
pub const MOST_TURNS: u32 = 1_000_000;

/// Makes the manuscript that the seed leads to in so many turns, and tells of it.
pub fn bulk(alloc: Global, seed: u32, count: u32) -> Result<Summary, NoMemory>
    ensures { IfOk result (λ reported. reported ≡ summary (bulk_world seed count)) }
{
    let mut first = new_author(alloc, 1);
    let reported = bulk_by(alloc, &mut first, seed, count);
    first.discard();
    reported
}

/// The same, with the first author's replica.
fn bulk_by(alloc: Global, first: &mut Replica, seed: u32, count: u32) -> Result<Summary, NoMemory>
    requires { first.old ≡ author 1 }
    ensures { IfOk result (λ reported. reported ≡ summary (bulk_world seed count)) }
{
    let mut second = new_author(alloc, 2);
    let reported = bulk_among(alloc, first, &mut second, seed, count);
    second.discard();
    reported
}

/// The same, with the replicas of both.
fn bulk_among(
    alloc: Global,
    first: &mut Replica,
    second: &mut Replica,
    seed: u32,
    count: u32,
) -> Result<Summary, NoMemory>
    requires first { first.old ≡ author 1 }
    requires second { second.old ≡ author 2 }
    ensures { IfOk result (λ reported. reported ≡ summary (bulk_world seed count)) }
{
    open(alloc, first, second)?;
    take_turns(first, second, seed, count)?;
    let made = second.accepted().len();
    let others = first.accepted().len();
    hear(alloc, second, first.accepted_from(1), others - 1)?;
    hear(alloc, first, second.accepted_from(1), made - 1)?;
    summarize(alloc, first, second)
}

/// A replica that holds nothing.
pub(crate) fn new_author(alloc: Global, number: u32) -> Replica
    requires { number ≢ 0 }
    ensures { result ≡ author number }
{
    match Replica::new(alloc, number, HOLD, MOST_OPERATIONS) {
        Ok(replica) => replica,
        Err(_) => unreachable!(),
    }
}

/// The first author adds the section, and the second hears of it.
pub(crate) fn open(alloc: Global, first: &mut Replica, second: &mut Replica) -> Result<(), NoMemory>
    requires first { first.old ≡ author 1 }
    requires second { second.old ≡ author 2 }
    ensures first { OnOk result (first.new ≡ two_begin 1) }
    ensures second { OnOk result (second.new ≡ two_begin 2) }
{
    add_section(alloc, first)?;
    let ops = first.accepted();
    let count = ops.len();
    hear(alloc, second, ops, count)
}

fn add_section(alloc: Global, first: &mut Replica) -> Result<(), NoMemory>
    requires { first.old ≡ author 1 }
    ensures { OnOk result (first.new ≡ two_begin 1) }
{
    let title = new_title(alloc)?;
    unless_memory_wants(&first.add(0, title))
}

fn new_title(alloc: Global) -> Result<Title, NoMemory>
    ensures { IfOk result (λ title. title ≡ codes "B") }
{
    match Title::read(alloc, "B") {
        Ok(title) => Ok(title),
        Err(TitleFault::NoMemory) => Err(NoMemory),
        Err(TitleFault::Empty) => unreachable!(),
        Err(TitleFault::TooLong) => unreachable!(),
        Err(TitleFault::LineEnd) => unreachable!(),
    }
}

/// A replica hears of the first so many of the operations, one after another.
pub(crate) fn hear(
    alloc: Global,
    replica: &mut Replica,
    ops: OpSlice<'_>,
    count: usize,
) -> Result<(), NoMemory>
    requires { IsSettled replica.old.held }
    ensures heard { OnOk result (replica.new ≡ record replica.old {
      held = held_from replica.old.hold replica.old.most replica.old.held (take count ops.entry);
    }) }
    ensures settled { OnOk result (IsSettled replica.new.held) }
{
    let mut rest = ops;
    let mut left = count;
    'heard: while left > 0 {
        let Some(op) = rest.next_op() else {
            return Ok(());
        };
        hear_one(alloc, replica, &op)?;
        left -= 1;
    }
    Ok(())
}

/// A refused operation changes nothing.
fn hear_one(alloc: Global, replica: &mut Replica, op: &OpRef<'_>) -> Result<(), NoMemory>
    requires { IsSettled replica.old.held }
    ensures heard { OnOk result (replica.new ≡ record replica.old {
      held = intake replica.old.hold replica.old.most replica.old.held (op_of op.now);
    }) }
    ensures settled { OnOk result (IsSettled replica.new.held) }
{
    let op = op.copy_in(alloc)?;
    match replica.feed(op, &mut Tally::default()) {
        Ok(_) => Ok(()),
        Err(FeedFault::TooMany(_)) => Ok(()),
        Err(FeedFault::NoMemory) => Err(NoMemory),
    }
}

/// No limit is met: each turn makes one operation, each author accepts all that the other made, and both end with the
/// same manuscript. It does nothing when it runs.
pub fn bulk_comes_together()
    ensures { WorldMeetsNoLimit }
{
    order_by_set();
}

/// Each call of `feed` is a delivery of the world, as the calls that edit are edits: also where the operation is
/// refused, which changes nothing. Where memory ran out it is none, or what is left of settling leads to the delivery.
/// It does nothing when it runs.
pub fn feeds_are_deliveries()
    ensures { CallsAreDeliveries }
{}
