//! A map in blocks beside a list of pairs.

use crate::assertions::{equal_at, holds_at};
use crate::dice::Dice;
use crate::ids::id;
use block_map::BlockMap;
use fugue_ids::{ElementId, NoMemory};
use std::process::Abort;

/// Identifiers with values, in no order.
type Pairs = Vec<(ElementId, u32)>;

/// Where the identifier stands among the pairs.
fn position(pairs: &Pairs, id: ElementId) -> Option<usize> {
    pairs.iter().position(|pair| pair.0 == id)
}

/// The identifier has this value then.
fn set(pairs: &mut Pairs, id: ElementId, value: u32) -> Result<(), NoMemory> {
    if let Some(at) = position(pairs, id) {
        if let Some(pair) = pairs.get_mut(at) {
            *pair = (id, value);
        }
        return Ok(());
    }
    Ok(pairs.push((id, value))?)
}

/// The identifier has no value then.
fn unset(pairs: &mut Pairs, id: ElementId) {
    if let Some(at) = position(pairs, id) {
        if at < pairs.len() {
            pairs.swap_remove(at);
        }
    }
}

/// Where the one identifier has a value and the other one none, the value moves to that one in both.
fn move_value(
    map: &mut BlockMap<u32>,
    pairs: &mut Pairs,
    from: ElementId,
    to: ElementId,
) -> Result<(), NoMemory> {
    let Some(value) = map.get(from) else {
        return Ok(());
    };
    if map.get(to).is_some() {
        return Ok(());
    }
    map.rename(from, to, value)?;
    unset(pairs, from);
    set(pairs, to, value)
}

/// Of two pairs the one with the greater identifier, where that of the second one is not above this one.
fn higher(
    found: Option<(ElementId, u32)>,
    key: ElementId,
    value: u32,
    id: ElementId,
) -> Option<(ElementId, u32)> {
    if id < key {
        return found;
    }
    match found {
        Some((other, old)) if key < other => Some((other, old)),
        _ => Some((key, value)),
    }
}

/// The pair with the greatest identifier that is not above this one.
fn floor_of(pairs: &Pairs, id: ElementId) -> Option<(ElementId, u32)> {
    let mut floor = None;
    for (key, value) in pairs.iter() {
        floor = higher(floor, *key, *value, id);
    }
    floor
}

/// The first 200 counters, and the last 64.
fn counter_of(number: u32) -> u32 {
    if number < 200 {
        return number;
    }
    u32::MAX - number % 64
}

/// The map answers as the pairs do.
fn check(rt: &impl Abort, map: &BlockMap<u32>, pairs: &Pairs) {
    for replica in 0..3 {
        for number in 0..264 {
            let id = id(replica + 1, counter_of(number));
            let value = position(pairs, id)
                .and_then(|at| pairs.get(at))
                .map(|pair| pair.1);
            equal_at(rt, &id, map.get(id), value);
            equal_at(rt, &id, map.floor(id), floor_of(pairs, id));
        }
    }
}

/// 3,000 values of three replicas come and go at random, and move to the next counter.
#[test]
fn values_are_those_of_a_list(rt: HostRuntime) {
    let mut map = BlockMap::new(rt.alloc());
    let mut pairs = Vec::new(rt.alloc());
    let mut dice = Dice { state: 11 };
    for turn in 0..3_000u32 {
        let key = id(dice.number(3) % 3 + 1, counter_of(dice.number(264)));
        // More come at first, and more go later.
        if dice.number(3_000) < turn {
            map.remove(key);
            unset(&mut pairs, key);
        } else {
            let kept = map.insert(key, turn).is_ok() && set(&mut pairs, key, turn).is_ok();
            holds_at(&rt, &turn, kept);
        }
        let (replica, number) = (dice.number(3) % 3 + 1, dice.number(263) % 263);
        let from = id(replica, counter_of(number));
        let to = id(replica, counter_of(number + 1));
        let moved = move_value(&mut map, &mut pairs, from, to);
        holds_at(&rt, &turn, moved.is_ok());
        if turn % 100 == 0 {
            check(&rt, &map, &pairs);
        }
    }
    check(&rt, &map, &pairs);
}
