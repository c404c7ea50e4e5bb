//! A rope beside plain vectors.

ghost use Rattle.std.specs.Prelude.{IsFalse, IsNone, IsSome, IsTrue};
ghost use Rattle.node_rope.specs.Items.{value_under};

use crate::assertions::{equal, equal_at, holds_at};
use crate::dice::Dice;
use crate::ids::id;
use fugue_ids::{ElementId, NoMemory};
use node_rope::{Rope, Weigh};
use std::process::Abort;

/// A value of some units, found by a rank.
#[derive(Drop)]
struct Stretch {
    units: u8,
    rank: u32,
}

impl Weigh for Stretch {
    ghost weight_of = { λ s. s.units };

    ghost rank_of = { λ s. s.rank };

    fn weight(&self) -> u64 {
        u64::from(self.units)
    }

    fn rank(&self) -> u64 {
        u64::from(self.rank)
    }
}

/// Where an item comes.
#[derive(Clone, Copy)]
enum At {
    /// As the first one.
    First,
    Before(ElementId),
    After(ElementId),
}

fn is_held(rope: &Rope<Stretch>, key: ElementId) -> bool
    ensures held { IsTrue result → IsSome (value_under key rope.now) }
    ensures not { IsFalse result → IsNone (value_under key rope.now) }
{
    rope.get(key).is_some()
}

/// One item more, where it may come.
fn insert(
    rope: &mut Rope<Stretch>,
    at: At,
    key: ElementId,
    value: Stretch,
) -> Result<(), NoMemory> {
    if rope.len() >= 4_000_000 || is_held(rope, key) {
        return Err(NoMemory);
    }
    let answer = match at {
        At::First if rope.len() == 0 => rope.insert_first(key, value),
        At::Before(at) if is_held(rope, at) => rope.insert_before(at, key, value),
        At::After(at) if is_held(rope, at) => rope.insert_after(at, key, value),
        _ => return Err(NoMemory),
    };
    match answer {
        Ok(()) => Ok(()),
        Err(_) => Err(NoMemory),
    }
}

/// Another value for an item, and one item more directly after it, where both may be.
fn part(
    rope: &mut Rope<Stretch>,
    at: ElementId,
    front: Stretch,
    key: ElementId,
    back: Stretch,
) -> Result<(), NoMemory> {
    if rope.len() >= 4_000_000 || is_held(rope, key) || !is_held(rope, at) {
        return Err(NoMemory);
    }
    match rope.part(at, front, key, back) {
        Ok(()) => Ok(()),
        Err(_) => Err(NoMemory),
    }
}

/// The rank of a value.
fn rank(value: Option<&Stretch>) -> Option<u32> {
    match value {
        Some(value) => Some(value.rank),
        None => None,
    }
}

/// Each item stands where the vector has its key, which is its rank too.
fn check_places(rt: &impl Abort, rope: &Rope<Stretch>, beside: &[u32]) {
    let mut before = None;
    let mut walk = rope.walk();
    for (i, key) in beside.iter().enumerate() {
        let id = id(1, *key);
        let next = match before {
            Some(before) => rope.next(before),
            None => rope.first(),
        };
        let found = (rope.place(id), rope.weight_before(id), rope.key_at(i), next);
        equal(rt, found, (Some(i), Some(i as u64), Some(id), Some(id)));
        let ranks = (rank(rope.value_at(i)), rank(walk.step()));
        equal(rt, ranks, (Some(*key), Some(*key)));
        before = Some(id);
    }
    equal(rt, rank(walk.step()), None);
    equal(
        rt,
        (rope.len(), rope.total()),
        (beside.len(), beside.len() as u64),
    );
}

/// 10,000 items come before all others, 10,000 after all others, and 2,000 at random places.
#[test]
fn inserts_stand_as_in_a_vector(rt: HostRuntime) {
    let mut rope = Rope::new(rt.alloc());
    let mut beside = Vec::new(rt.alloc());
    let mut dice = Dice { state: 7 };
    for rank in 0..=22_000u32 {
        let place = match rank {
            0..=10_000 => 0,
            10_001..=20_000 => beside.len(),
            _ => dice.roll(beside.len().saturating_add(1)),
        };
        let place = place.min(beside.len());
        let before = if place == 0 {
            None
        } else {
            beside.get(place - 1).copied()
        };
        let at = match (before, beside.get(place).copied()) {
            (None, None) => At::First,
            (Some(before), None) => At::After(id(1, before)),
            (None, Some(next)) => At::Before(id(1, next)),
            (Some(_), Some(next)) if dice.roll(2) == 0 => At::Before(id(1, next)),
            (Some(before), Some(_)) => At::After(id(1, before)),
        };
        let value = Stretch { units: 1, rank };
        let inserted = insert(&mut rope, at, id(1, rank), value).is_ok();
        let kept = beside.insert(place, rank).is_ok();
        holds_at(&rt, &rank, inserted && kept);
    }
    check_places(&rt, &rope, &beside);
    drop(rope);
}

/// Five items, of which the third one becomes another one with another key.
#[test]
fn items_are_found_by_keys_units_and_ranks(rt: HostRuntime) {
    let mut rope = Rope::new(rt.alloc());
    let items = [(1, 0, 9), (2, 2, 5), (4, 0, 5), (7, 3, 2), (9, 0, 8)];
    let mut at = At::First;
    for (counter, units, rank) in items {
        let inserted = insert(&mut rope, at, id(1, counter), Stretch { units, rank });
        equal_at(&rt, &counter, inserted, Ok(()));
        at = At::After(id(1, counter));
    }
    for (unit, wanted) in [
        (0, Some((id(1, 2), 0))),
        (1, Some((id(1, 2), 1))),
        (2, Some((id(1, 7), 0))),
        (4, Some((id(1, 7), 2))),
        (5, None),
    ] {
        equal_at(&rt, &unit, rope.find_weight(unit), wanted);
    }
    let lows = [
        rope.first_low(0, 5),
        rope.first_low(2, 4),
        rope.first_low(4, 7),
    ];
    equal(&rt, lows, [Some(id(1, 2)), Some(id(1, 7)), None]);
    let lows = [
        rope.last_low(5, 5),
        rope.last_low(3, 5),
        rope.last_low(1, 5),
    ];
    equal(&rt, lows, [Some(id(1, 7)), Some(id(1, 4)), None]);
    // Of one place, of none, and of places after all.
    for (from, to, wanted) in [(3, 4, Some((3, 2))), (2, 2, None), (5, 9, None)] {
        let found = match rope.item_within(from, to) {
            Some((place, value)) => Some((place, value.rank)),
            None => None,
        };
        equal_at(&rt, &from, found, wanted);
    }
    let (key, other) = (id(1, 4), id(1, 5));
    assert!(rt; is_held(&rope, key) && !is_held(&rope, other));
    let old = rope.rekey(key, other, Stretch { units: 7, rank: 1 });
    let old = match old {
        Ok(old) => Some(old.rank),
        Err(_back) => None,
    };
    equal(&rt, old, Some(5));
    assert!(rt; is_held(&rope, other));
    let old = rope.put(other, Stretch { units: 9, rank: 1 });
    equal(&rt, (old.units, rope.total(), rope.len()), (7, 14, 5));
    // The floors of keys that are there, between two others, and below all.
    for (counter, wanted) in [
        (7, Some((7, 2))),
        (6, Some((5, 1))),
        (4, Some((2, 5))),
        (1, Some((1, 9))),
        (0, None),
    ] {
        let found = match rope.floor_item(id(1, counter)) {
            Some((key, value)) => Some((key.counter, value.rank)),
            None => None,
        };
        equal_at(&rt, &counter, found, wanted);
        let key = wanted.map(|(counter, _)| id(1, counter));
        equal_at(&rt, &counter, rope.floor(id(1, counter)), key);
    }
    let (front, back) = (Stretch { units: 1, rank: 2 }, Stretch { units: 2, rank: 3 });
    let parted = part(&mut rope, id(1, 7), front, id(1, 8), back);
    equal(&rt, parted, Ok(()));
    let found = (rope.next(id(1, 7)), rank(rope.get(id(1, 8))));
    equal(&rt, found, (Some(id(1, 8)), Some(3)));
    let sums = (rope.weight_before(id(1, 8)), rope.total(), rope.len());
    equal(&rt, sums, (Some(12), 14, 6));
    drop(rope);
}
