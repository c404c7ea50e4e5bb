//! What waits, by value, and its lists beside a plain vector.

ghost use Rattle.std.specs.Prelude.{◌<◌};

use crate::assertions::{equal, equal_at, holds_at};
use crate::dice::Dice;
use crate::ids::{id, text};
use causal_inbox::{Found, Gapped, Inbox, OpenInbox, PushFault, Queue};
use fugue_ids::{Op, Title};
use origin_model::{PlainReplica, Verdict};
use std::mem::replace;
use std::test::Fail;

#[test]
fn what_waits_is_found_bounded_counted_and_removed(rt: HostRuntime) {
    let mut inbox = Inbox::new(rt.alloc(), 3);
    equal(&rt, inbox.greatest(1), None);
    for op in [
        text(id(1, 2), None, None, 'a'),
        Op::Delete { target: id(1, 7) },
        text(id(2, 0), Some(id(1, 4)), None, 'b'),
    ] {
        equal(&rt, inbox.push(op).is_ok(), true);
    }
    let handed_back = match inbox.push(text(id(1, 9), None, None, 'c')) {
        Err(PushFault::Full(op)) => op.id(),
        Err(PushFault::NoMemory(_op)) => None,
        Ok(()) => None,
    };
    equal(&rt, handed_back, Some(id(1, 9)));
    for (op, wanted) in [
        (text(id(1, 2), None, None, 'a'), Found::Same),
        (text(id(1, 2), None, None, 'z'), Found::Clash),
        (text(id(1, 4), None, None, 'a'), Found::Absent),
        (Op::Delete { target: id(1, 7) }, Found::Same),
        (Op::Delete { target: id(1, 2) }, Found::Absent),
    ] {
        equal(&rt, inbox.find(&op), wanted);
    }
    for (replica, want) in [(1, Some(7)), (2, Some(0)), (9, Some(0)), (3, None)] {
        equal_at(&rt, &replica, inbox.greatest(replica), want);
    }
    equal(&rt, inbox.ops().len(), 3);
    equal(&rt, inbox.remove(1), Op::Delete { target: id(1, 7) });
    equal(&rt, inbox.greatest(1), Some(4));
    equal(&rt, inbox.ops().len(), 2);
    equal(&rt, inbox.remove(0).id(), Some(id(1, 2)));
    equal(&rt, inbox.ops().len(), 1);
    drop(inbox);
}

/// The same where gaps stay until the inbox is closed.
#[test]
fn what_leaves_an_open_inbox_is_gone_at_once(rt: HostRuntime) {
    let mut inbox = OpenInbox::new(rt.alloc(), 3);
    for op in [
        text(id(1, 2), None, None, 'a'),
        Op::Delete { target: id(1, 7) },
        text(id(2, 0), Some(id(1, 4)), None, 'b'),
    ] {
        equal(&rt, inbox.push(op).is_ok(), true);
    }
    equal(&rt, inbox.len(), 3);
    equal(&rt, inbox.remove(1), Op::Delete { target: id(1, 7) });
    let named = (inbox.nth_naming(id(1, 4), 0), inbox.nth_naming(id(1, 4), 1));
    equal(&rt, named, (Some(1), None));
    assert!(rt; inbox.len() == 2);
    equal(&rt, inbox.op_at(1).id(), Some(id(2, 0)));
    inbox.close();
    equal(&rt, inbox.ops().len(), 2);
    drop(inbox);
}

#[test]
fn the_first_that_is_ready_or_stray_is_decidable(rt: HostRuntime) -> Result<(), Fail> {
    let section = Op::Section {
        id: id(9, 0),
        left: None,
        right: None,
        title: Title::read(rt.alloc(), "T")?,
    };
    let mut replica = PlainReplica::new(rt.alloc());
    let mut inbox = Inbox::new(rt.alloc(), 4);
    for op in [
        text(id(2, 0), Some(id(1, 0)), None, 'x'),
        text(id(3, 0), None, None, 'y'),
    ] {
        equal(&rt, inbox.push(op).is_ok(), true);
    }
    equal(&rt, inbox.next_decidable(&replica), None);
    assert!(rt; replica.verdict(&section) == Verdict::Ready);
    equal(&rt, replica.accept(section).is_ok(), true);
    equal(&rt, inbox.next_decidable(&replica), Some(1));
    drop(inbox);
    drop(replica);
    Ok(())
}

/// Items come, change and go.
#[test]
fn items_come_change_and_go_as_in_a_vector(rt: HostRuntime) -> Result<(), Fail> {
    let mut dice = Dice { state: 5 };
    for seed in 0..200u64 {
        let mut queue = Queue::new(rt.alloc());
        let mut vector = Vec::new(rt.alloc());
        for item in 0..40 {
            let at = dice.roll(vector.len());
            let is_same = match dice.roll(5) {
                0 if at < queue.len() && at < vector.len() => {
                    queue.put(at, item) == replace(&mut vector[at], item)
                }
                1 if at < queue.len() && at < vector.len() => {
                    queue.remove(at, 99) == vector.remove(at)
                }
                _ => queue.push(item).is_ok() && vector.push(item).is_ok(),
            };
            let is_so = is_same && queue.as_slice() == vector.as_slice();
            holds_at(&rt, &(seed, item), is_so);
        }
    }
    Ok(())
}

/// The same where gaps stay until the list is closed.
#[test]
fn items_leave_gaps_and_those_left_are_as_in_a_vector(rt: HostRuntime) -> Result<(), Fail> {
    let mut dice = Dice { state: 6 };
    for seed in 0..200u64 {
        let mut list = Gapped::new(rt.alloc());
        let mut vector = Vec::new(rt.alloc());
        for item in 0..60 {
            let at = dice.roll(vector.len());
            let is_same = match dice.roll(5) {
                0 if at < list.len() && at < vector.len() => {
                    list.put(at, item) == replace(&mut vector[at], item)
                }
                1 | 2 if at < list.len() && at < vector.len() => {
                    list.remove(at, 99) == vector.remove(at)
                }
                _ => list.push(item).is_ok() && vector.push(item).is_ok(),
            };
            holds_at(&rt, &(seed, item), is_same);
            let at = dice.roll(vector.len());
            if at < list.len() && at < vector.len() {
                equal_at(&rt, &(seed, item), *list.get(at), vector[at]);
                holds_at(&rt, &(seed, item), list.stretch(at)[0] == vector[at]);
            }
        }
        list.close();
        equal(&rt, list.as_slice(), vector.as_slice());
    }
    Ok(())
}

/// More leave in shuffled order than gaps are noted: they are closed on the way.
#[test]
fn thousands_leave_in_any_order_as_from_a_vector(rt: HostRuntime) -> Result<(), Fail> {
    let mut dice = Dice { state: 7 };
    let mut list = Gapped::new(rt.alloc());
    let mut vector = Vec::new(rt.alloc());
    for item in 0..5000u32 {
        let is_in = list.push(item).is_ok() && vector.push(item).is_ok();
        holds_at(&rt, &item, is_in);
    }
    for turn in 0..4990u32 {
        let at = dice.roll(vector.len());
        if at < list.len() && at < vector.len() {
            holds_at(&rt, &turn, list.remove(at, 0) == vector.remove(at));
        }
    }
    list.close();
    equal(&rt, list.as_slice(), vector.as_slice());
    Ok(())
}
